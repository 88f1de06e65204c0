//! The fields of values that are maps.

ghost use Rattle.std.specs.Prelude.{◌≡◌, true, option_map, IfSome};
ghost use Rattle.df_frozen.specs.Name.{is_name};
ghost use Rattle.df_frozen.specs.Value.{plain};
ghost use Rattle.df_messages.specs.Fields.{field, field_count, flag_of, int_field, symbol_field};
ghost use Rattle.df_records.specs.Fields.{is_symbol};

use crate::symbol::is_symbol;
use df_frozen::{Frozen, Name, Step, Value, Words};

/// The name of this text.
pub(crate) fn name(text: &str) -> Name
    requires { is_name text.now ≡ true }
    ensures { result ≡ text.now }
{
    match Name::new(text) {
        Ok(name) => name,
        Err(_) => unreachable!(),
    }
}

/// How many fields a map has; what is no map has none.
pub(crate) fn field_count(value: &Frozen) -> usize
    ensures { result ≡ field_count value.now }
{
    match value.value() {
        Value::Map(entries) => entries.as_slice().len(),
        _ => 0,
    }
}

fn field<'a>(value: &'a Frozen, text: &str) -> Option<&'a Value>
    requires { is_name text.now ≡ true }
    ensures { option_map (λ v. plain v.now) result ≡ field text.now value.now }
{
    value.at(&[Step::Key(name(text))])
}

/// The number under a name.
pub(crate) fn int_field(value: &Frozen, name: &str) -> Option<i64>
    requires { is_name name.now ≡ true }
    ensures { result ≡ int_field name.now value.now }
{
    match field(value, name) {
        Some(Value::Int(number)) => Some(*number),
        _ => None,
    }
}

/// The symbol under a name.
pub(crate) fn symbol_field<'a>(value: &'a Frozen, name: &str) -> Option<&'a Words>
    requires { is_name name.now ≡ true }
    ensures value { option_map (λ w. w.now) result ≡ symbol_field name.now value.now }
    ensures symbol { IfSome result (λ w. is_symbol w.now ≡ true) }
{
    match field(value, name) {
        Some(Value::Words(words)) if is_symbol(words.as_str()) => Some(words),
        _ => None,
    }
}

/// The flag under a name: 0 is false, and 1 is true.
pub(crate) fn flag_field(value: &Frozen, name: &str) -> Option<bool>
    requires { is_name name.now ≡ true }
    ensures { result ≡ flag_of (int_field name.now value.now) }
{
    match int_field(value, name) {
        Some(0) => Some(false),
        Some(1) => Some(true),
        _ => None,
    }
}
