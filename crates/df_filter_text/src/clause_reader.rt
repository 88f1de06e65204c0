//! Reading clauses.
ghost use Rattle.std.specs.Prelude.{◌≡◌, ◌≤◌, length, drop};
ghost use Rattle.df_filter_text.specs.ReadFilter.{clause_at, filter_at, key_at, test_at, test_of};
ghost use Rattle.df_value_text.specs.code.Answer.{Gives};

use crate::field_test_reader::field_test_at;
use df_filter::{Clause, FieldTest, MOST_CLAUSES, Test};
use df_value_text::{Fault, byte_at, byte_stands, name_at};
use std::alloc::Global;

/// What is asked of a field, asked of the value itself.
fn test_of(asked: FieldTest) -> Test
    ensures { result ≡ test_of asked }
{
    match asked {
        FieldTest::IntEq(number) => Test::IntEq(number),
        FieldTest::IntLess(number) => Test::IntLess(number),
        FieldTest::IntMore(number) => Test::IntMore(number),
        FieldTest::IntIn(low, high) => Test::IntIn(low, high),
        FieldTest::TextEq(words) => Test::TextEq(words),
        FieldTest::TextPrefix(words) => Test::TextPrefix(words),
    }
}

/// `.` at the place with a field and what is asked of it, and the place behind them.
fn key_at(alloc: Global, bytes: &[u8], at: usize) -> Result<(Test, usize), Fault>
    requires { at ≤ length bytes.now }
    ensures { Gives (λ t. t) bytes.now result (key_at (drop at bytes.now)) }
{
    let (_, start) = byte_at(bytes, at, b'.')?;
    let (field, sign) = name_at(bytes, start)?;
    let (asked, end) = field_test_at(alloc, bytes, sign)?;
    Ok((Test::Key(field, asked), end))
}

/// The test at the place, and the place behind it.
fn test_at(alloc: Global, bytes: &[u8], at: usize) -> Result<(Test, usize), Fault>
    requires { at ≤ length bytes.now }
    ensures { Gives (λ t. t) bytes.now result (test_at (drop at bytes.now)) }
{
    if byte_stands(bytes, at, b'?') {
        let (_, end) = byte_at(bytes, at, b'?')?;
        return Ok((Test::Present, end));
    }
    if byte_stands(bytes, at, b'.') {
        return key_at(alloc, bytes, at);
    }
    let (asked, end) = field_test_at(alloc, bytes, at)?;
    Ok((test_of(asked), end))
}

/// The clause at the place, and the place behind it.
fn clause_at(alloc: Global, bytes: &[u8], at: usize) -> Result<(Clause, usize), Fault>
    requires { at ≤ length bytes.now }
    ensures { Gives (λ c. c) bytes.now result (clause_at (drop at bytes.now)) }
{
    let (name, sign) = name_at(bytes, at)?;
    let (test, end) = test_at(alloc, bytes, sign)?;
    Ok((Clause { name, test }, end))
}

/// One to four clauses at the place with `&` between them, and the place behind them.
pub fn clauses_at(alloc: Global, bytes: &[u8], at: usize) -> Result<(Vec<Clause>, usize), Fault>
    requires { at ≤ length bytes.now }
    ensures { Gives (λ v. v.items) bytes.now result (filter_at (drop at bytes.now)) }
{
    let (first, start) = clause_at(alloc, bytes, at)?;
    let mut clauses = Vec::new(alloc);
    clauses.push(first)?;
    let mut place = start;
    'more: while clauses.len() < MOST_CLAUSES && byte_stands(bytes, place, b'&') {
        let (clause, after) = clause_at(alloc, bytes, place + 1)?;
        clauses.push(clause)?;
        place = after;
    }
    Ok((clauses, place))
}
