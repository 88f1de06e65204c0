//! Reading tests of fields.
ghost use Rattle.std.specs.Prelude.{◌≤◌, length, drop};
ghost use Rattle.df_filter_text.specs.ReadFieldTest.{above_at, below_at, equal_at, field_test_at, prefix_at, range_at};
ghost use Rattle.df_value_text.specs.code.Answer.{Gives};

use df_filter::FieldTest;
use df_value_text::{Fault, byte_at, byte_stands, text_at, whole_at, words_at};
use std::alloc::Global;

/// `=` at the place with words or a whole number, and the place behind them.
fn equal_at(alloc: Global, bytes: &[u8], at: usize) -> Result<(FieldTest, usize), Fault>
    requires { at ≤ length bytes.now }
    ensures { Gives (λ t. t) bytes.now result (equal_at (drop at bytes.now)) }
{
    let (_, start) = byte_at(bytes, at, b'=')?;
    if byte_stands(bytes, start, b'"') {
        let (words, end) = words_at(alloc, bytes, start)?;
        return Ok((FieldTest::TextEq(words), end));
    }
    let (number, end) = whole_at(bytes, start)?;
    Ok((FieldTest::IntEq(number), end))
}

/// `<` at the place with a whole number, and the place behind it.
fn below_at(bytes: &[u8], at: usize) -> Result<(FieldTest, usize), Fault>
    requires { at ≤ length bytes.now }
    ensures { Gives (λ t. t) bytes.now result (below_at (drop at bytes.now)) }
{
    let (_, start) = byte_at(bytes, at, b'<')?;
    let (number, end) = whole_at(bytes, start)?;
    Ok((FieldTest::IntLess(number), end))
}

/// `>` at the place with a whole number, and the place behind it.
fn above_at(bytes: &[u8], at: usize) -> Result<(FieldTest, usize), Fault>
    requires { at ≤ length bytes.now }
    ensures { Gives (λ t. t) bytes.now result (above_at (drop at bytes.now)) }
{
    let (_, start) = byte_at(bytes, at, b'>')?;
    let (number, end) = whole_at(bytes, start)?;
    Ok((FieldTest::IntMore(number), end))
}

/// `:` at the place with two whole numbers and `..` between them, and the place behind them.
fn range_at(bytes: &[u8], at: usize) -> Result<(FieldTest, usize), Fault>
    requires { at ≤ length bytes.now }
    ensures { Gives (λ t. t) bytes.now result (range_at (drop at bytes.now)) }
{
    let (_, start) = byte_at(bytes, at, b':')?;
    let (low, dots) = whole_at(bytes, start)?;
    let (_, next) = text_at(bytes, dots, b"..")?;
    let (high, end) = whole_at(bytes, next)?;
    Ok((FieldTest::IntIn(low, high), end))
}

/// `^` at the place with words, and the place behind them.
fn prefix_at(alloc: Global, bytes: &[u8], at: usize) -> Result<(FieldTest, usize), Fault>
    requires { at ≤ length bytes.now }
    ensures { Gives (λ t. t) bytes.now result (prefix_at (drop at bytes.now)) }
{
    let (_, start) = byte_at(bytes, at, b'^')?;
    let (words, end) = words_at(alloc, bytes, start)?;
    Ok((FieldTest::TextPrefix(words), end))
}

/// The test of a field at the place, and the place behind it.
pub fn field_test_at(alloc: Global, bytes: &[u8], at: usize) -> Result<(FieldTest, usize), Fault>
    requires { at ≤ length bytes.now }
    ensures { Gives (λ t. t) bytes.now result (field_test_at (drop at bytes.now)) }
{
    if byte_stands(bytes, at, b'=') {
        return equal_at(alloc, bytes, at);
    }
    if byte_stands(bytes, at, b'<') {
        return below_at(bytes, at);
    }
    if byte_stands(bytes, at, b'>') {
        return above_at(bytes, at);
    }
    if byte_stands(bytes, at, b':') {
        return range_at(bytes, at);
    }
    prefix_at(alloc, bytes, at)
}
