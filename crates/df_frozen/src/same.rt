//! Equality of plain content.

ghost use Rattle.std.specs.Prelude.{◌≡◌, ◌↔◌, IsTrue, map};
ghost use Rattle.df_frozen.specs.Value.{plain, named};

use crate::name::Name;
use crate::value::Value;

impl Value {
    // Whether the two have the same plain content. It goes as deep as they do.
    #[cycle(same)]
    pub(crate) fn same(&self, other: &Value) -> bool
        ensures { IsTrue result ↔ (plain self.now ≡ plain other.now) }
    {
        match (self, other) {
            (Value::Int(a), Value::Int(b)) => *a == *b,
            (Value::Words(a), Value::Words(b)) => a.as_str().as_bytes() == b.as_str().as_bytes(),
            (Value::Bytes(a), Value::Bytes(b)) => a.as_slice() == b.as_slice(),
            (Value::Items(a), Value::Items(b)) => same_values(a.as_slice(), b.as_slice()),
            (Value::Map(a), Value::Map(b)) => same_entries(a.as_slice(), b.as_slice()),
            _ => false,
        }
    }
}

#[cycle(same)]
fn same_values(a: &[Value], b: &[Value]) -> bool
    ensures { IsTrue result ↔ (map plain a.now ≡ map plain b.now) }
{
    if a.len() != b.len() {
        return false;
    }
    for i in 0..a.len() {
        let is_same = a[i].same(&b[i]);
        if !is_same {
            return false;
        }
    }
    true
}

#[cycle(same)]
fn same_entries(a: &[(Name, Value)], b: &[(Name, Value)]) -> bool
    ensures { IsTrue result ↔ (map named a.now ≡ map named b.now) }
{
    if a.len() != b.len() {
        return false;
    }
    for i in 0..a.len() {
        let is_same = same_entry(&a[i], &b[i]);
        if !is_same {
            return false;
        }
    }
    true
}

#[cycle(same)]
fn same_entry(a: &(Name, Value), b: &(Name, Value)) -> bool
    ensures { IsTrue result ↔ (named a.now ≡ named b.now) }
{
    a.0 == b.0 && a.1.same(&b.1)
}
