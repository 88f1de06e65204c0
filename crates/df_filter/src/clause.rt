ghost use Rattle.std.specs.Prelude.{◌≡◌, ◌↔◌, IfOk, IsTrue};
ghost use Rattle.df_filter.specs.Clause.{holds, test_holds};
ghost use Rattle.df_frozen.specs.Value.{plain};

use crate::{FieldTest, asked};
use df_frozen::{Name, Value, Words};
use df_memory::NoMemory;

/// What is asked of the value of a part.
#[derive(Drop)]
pub enum Test {
    /// Any value.
    Present,
    /// This number.
    IntEq(i64),
    /// A number below this one.
    IntLess(i64),
    /// A number above this one.
    IntMore(i64),
    /// A number from the first to the second, both included.
    IntIn(i64, i64),
    /// These words.
    TextEq(Words),
    /// Words that begin with these bytes.
    TextPrefix(Words),
    /// A map that has this field, with a value of which the test holds.
    Key(Name, FieldTest),
}

impl Test {
    // Whether the test holds of the value.
    pub(crate) fn holds(&self, value: &Value) -> bool
        ensures { result ≡ test_holds self.now (plain value.now) }
    {
        match self {
            Test::Present => true,
            Test::IntEq(n) => asked::equals_int(*n, value),
            Test::IntLess(n) => asked::is_below(*n, value),
            Test::IntMore(n) => asked::is_above(*n, value),
            Test::IntIn(low, high) => asked::is_between(*low, *high, value),
            Test::TextEq(words) => asked::equals_words(words, value),
            Test::TextPrefix(words) => asked::begins_with(words, value),
            Test::Key(field, test) => match asked::field_of(field, value) {
                Some(value) => test.holds(value),
                None => false,
            },
        }
    }

    /// Whether the two ask the same.
    pub fn same(&self, other: &Test) -> bool
        ensures { IsTrue result ↔ (self.now ≡ other.now) }
    {
        match (self, other) {
            (Test::Present, Test::Present) => true,
            (Test::IntEq(a), Test::IntEq(b)) => a == b,
            (Test::IntLess(a), Test::IntLess(b)) => a == b,
            (Test::IntMore(a), Test::IntMore(b)) => a == b,
            (Test::IntIn(a, c), Test::IntIn(b, d)) => a == b && c == d,
            (Test::TextEq(a), Test::TextEq(b)) => asked::same_words(a, b),
            (Test::TextPrefix(a), Test::TextPrefix(b)) => asked::same_words(a, b),
            (Test::Key(a, c), Test::Key(b, d)) => a == b && c.same(d),
            _ => false,
        }
    }

    pub fn copy(&self) -> Result<Test, NoMemory>
        ensures { IfOk result (λ test. test ≡ self.now) }
    {
        Ok(match self {
            Test::Present => Test::Present,
            Test::IntEq(n) => Test::IntEq(*n),
            Test::IntLess(n) => Test::IntLess(*n),
            Test::IntMore(n) => Test::IntMore(*n),
            Test::IntIn(low, high) => Test::IntIn(*low, *high),
            Test::TextEq(words) => Test::TextEq(words.copy()?),
            Test::TextPrefix(words) => Test::TextPrefix(words.copy()?),
            Test::Key(field, test) => Test::Key(*field, test.copy()?),
        })
    }
}

/// A test of the parts of one name.
#[derive(Drop)]
pub struct Clause {
    pub name: Name,
    pub test: Test,
}

impl Clause {
    /// Whether a part of this name and value satisfies the clause.
    pub fn holds(&self, name: &Name, value: &Value) -> bool
        ensures { result ≡ holds self.now name.now (plain value.now) }
    {
        self.name == *name && self.test.holds(value)
    }

    /// Whether the two ask the same of the same name.
    pub fn same(&self, other: &Clause) -> bool
        ensures { IsTrue result ↔ (self.now ≡ other.now) }
    {
        self.name == other.name && self.test.same(&other.test)
    }

    pub fn copy(&self) -> Result<Clause, NoMemory>
        ensures { IfOk result (λ clause. clause ≡ self.now) }
    {
        Ok(Clause {
            name: self.name,
            test: self.test.copy()?,
        })
    }
}
