//! Values and filters have a spelling, as their types give it.
ghost use Rattle.std.specs.Prelude.{◌<◌, IsUtf8};
ghost use Rattle.std.specs.List.{All};
ghost use Rattle.df_filter_text.specs.Fits.{IsClause, IsFieldTest, IsFilter, IsTest};
ghost use Rattle.df_frozen.specs.Value.{plain};
ghost use Rattle.df_spelled.specs.Spelled.{IsNamed};
ghost use Rattle.df_value_text.specs.Fits.{IsSpelled, IsValue};
ghost use Rattle.df_value_text.specs.ReadBytes.{AreBytes};
ghost use Rattle.df_value_text.specs.ReadWhole.{IsWhole};

use crate::names::name_is_spelled;
use crate::spelled::{Spelled, each_is_spelled};
use df_filter::{Clause, FieldTest, Filter, Test};
use df_frozen::{Frozen, Name, Value, Words};

/// A number has 64 bits.
fn number_is_whole(number: i64)
    ensures { IsWhole number }
{
    let _ = number;
}

/// Words are a text.
fn words_are_text(words: &Words)
    ensures { IsUtf8 words.now }
{
    let _ = words.as_str();
}

/// A byte has 8 bits.
impl Spelled for u8 {
    ghost fits = { λ byte. byte < 256 };

    fn is_spelled(&self) {
        let _byte = *self;
    }
}

/// Bytes are bytes of 8 bits.
#[tactic(auto, using(crate::proofs::Walks::bytes_of_all))]
fn bytes_are_spelled(bytes: &[u8])
    ensures { AreBytes bytes.now }
{
    each_is_spelled(bytes);
}

/// The content of a value has a spelling.
#[cycle(spell)]
fn value_is_spelled(value: &Value)
    ensures { IsSpelled (plain value.now) }
{
    match value {
        Value::Int(number) => number_is_whole(*number),
        Value::Words(words) => words_are_text(words),
        Value::Bytes(bytes) => bytes_are_spelled(bytes.as_slice()),
        Value::Items(items) => items_are_spelled(items.as_slice()),
        Value::Map(entries) => entries_are_named(entries.as_slice()),
    }
}

/// The content of each of these values has a spelling.
#[cycle(spell)]
fn items_are_spelled(values: &[Value])
    ensures { All (λ v. IsSpelled (plain v)) values.now }
{
    for value in values {
        value_is_spelled(value);
    }
}

/// The name of each of these entries is one, and its value has a spelling.
#[cycle(spell)]
fn entries_are_named(entries: &[(Name, Value)])
    ensures { All IsNamed entries.now }
{
    for entry in entries {
        name_is_spelled(&entry.0);
        value_is_spelled(&entry.1);
    }
}

/// A frozen value has a spelling.
pub(crate) fn frozen_is_spelled(frozen: &Frozen)
    ensures { IsValue frozen.now }
{
    value_is_spelled(frozen.value());
}

/// A test of a field has a spelling.
fn field_test_is_spelled(test: &FieldTest)
    ensures { IsFieldTest test.now }
{
    match test {
        FieldTest::IntEq(n) => number_is_whole(*n),
        FieldTest::IntLess(n) => number_is_whole(*n),
        FieldTest::IntMore(n) => number_is_whole(*n),
        FieldTest::IntIn(low, high) => {
            number_is_whole(*low);
            number_is_whole(*high);
        }
        FieldTest::TextEq(words) => words_are_text(words),
        FieldTest::TextPrefix(words) => words_are_text(words),
    }
}

/// A test has a spelling.
fn test_is_spelled(test: &Test)
    ensures { IsTest test.now }
{
    match test {
        Test::Present => (),
        Test::IntEq(n) => number_is_whole(*n),
        Test::IntLess(n) => number_is_whole(*n),
        Test::IntMore(n) => number_is_whole(*n),
        Test::IntIn(low, high) => {
            number_is_whole(*low);
            number_is_whole(*high);
        }
        Test::TextEq(words) => words_are_text(words),
        Test::TextPrefix(words) => words_are_text(words),
        Test::Key(field, test) => {
            name_is_spelled(field);
            field_test_is_spelled(test);
        }
    }
}

/// A clause has a spelling.
impl Spelled for Clause {
    ghost fits = { λ clause. IsClause clause };

    fn is_spelled(&self) {
        name_is_spelled(&self.name);
        test_is_spelled(&self.test);
    }
}

/// A filter has a spelling.
#[tactic(auto, using(crate::proofs::Walks::clauses_of_all))]
pub(crate) fn filter_is_spelled(filter: &Filter)
    ensures { IsFilter filter.now }
{
    each_is_spelled(filter.clauses());
}
