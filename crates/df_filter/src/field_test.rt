ghost use Rattle.std.specs.Prelude.{◌≡◌, ◌↔◌, IfOk, IsTrue};
ghost use Rattle.df_filter.specs.FieldTest.{field_holds};
ghost use Rattle.df_frozen.specs.Value.{plain};

use crate::asked;
use df_frozen::{Value, Words};
use df_memory::NoMemory;

/// What is asked of the value of a field.
#[derive(Drop)]
pub enum FieldTest {
    /// This number.
    IntEq(i64),
    /// A number below this one.
    IntLess(i64),
    /// A number above this one.
    IntMore(i64),
    /// A number from the first to the second, both included.
    IntIn(i64, i64),
    /// These words.
    TextEq(Words),
    /// Words that begin with these bytes.
    TextPrefix(Words),
}

impl FieldTest {
    // Whether the test holds of the value.
    pub(crate) fn holds(&self, value: &Value) -> bool
        ensures { result ≡ field_holds self.now (plain value.now) }
    {
        match self {
            FieldTest::IntEq(n) => asked::equals_int(*n, value),
            FieldTest::IntLess(n) => asked::is_below(*n, value),
            FieldTest::IntMore(n) => asked::is_above(*n, value),
            FieldTest::IntIn(low, high) => asked::is_between(*low, *high, value),
            FieldTest::TextEq(words) => asked::equals_words(words, value),
            FieldTest::TextPrefix(words) => asked::begins_with(words, value),
        }
    }

    /// Whether the two ask the same.
    pub fn same(&self, other: &FieldTest) -> bool
        ensures { IsTrue result ↔ (self.now ≡ other.now) }
    {
        match (self, other) {
            (FieldTest::IntEq(a), FieldTest::IntEq(b)) => a == b,
            (FieldTest::IntLess(a), FieldTest::IntLess(b)) => a == b,
            (FieldTest::IntMore(a), FieldTest::IntMore(b)) => a == b,
            (FieldTest::IntIn(a, c), FieldTest::IntIn(b, d)) => a == b && c == d,
            (FieldTest::TextEq(a), FieldTest::TextEq(b)) => asked::same_words(a, b),
            (FieldTest::TextPrefix(a), FieldTest::TextPrefix(b)) => asked::same_words(a, b),
            _ => false,
        }
    }

    pub fn copy(&self) -> Result<FieldTest, NoMemory>
        ensures { IfOk result (λ test. test ≡ self.now) }
    {
        Ok(match self {
            FieldTest::IntEq(n) => FieldTest::IntEq(*n),
            FieldTest::IntLess(n) => FieldTest::IntLess(*n),
            FieldTest::IntMore(n) => FieldTest::IntMore(*n),
            FieldTest::IntIn(low, high) => FieldTest::IntIn(*low, *high),
            FieldTest::TextEq(words) => FieldTest::TextEq(words.copy()?),
            FieldTest::TextPrefix(words) => FieldTest::TextPrefix(words.copy()?),
        })
    }
}
