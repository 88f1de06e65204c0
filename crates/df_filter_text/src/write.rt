ghost use Rattle.std.specs.Prelude.{◌≡◌, ◌∷◌, ◌++◌, OnOk, OnErr, codes};
ghost use Rattle.std.specs.Fmt.{signed_decimal};
ghost use Rattle.df_filter_text.specs.FieldTest.{field_test_text, range_text};
ghost use Rattle.df_filter_text.specs.Filter.{clause_text, filter_text, test_text};
ghost use Rattle.df_value_text.specs.Value.{words_text};

use df_filter::{Clause, FieldTest, Filter, Test};
use df_frozen::{Name, Words};
use df_memory::NoMemory;
use df_value_text::{append_separator, append_whole, append_words};
use std::alloc::Global;

/// Appends a filter as `append_filter` does, but where memory is wanting it appends nothing.
pub fn write_filter(alloc: Global, filter: &Filter, to: &mut Vec<u8>) -> Result<(), NoMemory>
    ensures ok { OnOk result (to.new.items ≡ to.old.items ++ filter_text filter.now) }
    ensures unchanged { OnErr result (to.new.items ≡ to.old.items) }
{
    let mut text = Vec::new(alloc);
    append_filter(filter, &mut text)?;
    to.extend_from_slice(text.as_slice())?;
    Ok(())
}

/// Appends a filter: its clauses with `&` between them.
pub fn append_filter(filter: &Filter, to: &mut Vec<u8>) -> Result<(), NoMemory>
    ensures { OnOk result (to.new.items ≡ to.old.items ++ filter_text filter.now) }
{
    for (i, clause) in filter.clauses().iter().enumerate() {
        append_separator(b'&', i, to)?;
        append_clause(clause, to)?;
    }
    Ok(())
}

/// Appends a clause: the name, and the spelling of its test.
fn append_clause(clause: &Clause, to: &mut Vec<u8>) -> Result<(), NoMemory>
    ensures { OnOk result (to.new.items ≡ to.old.items ++ clause_text clause.now) }
{
    to.extend_from_slice(clause.name.as_bytes())?;
    append_test(&clause.test, to)?;
    Ok(())
}

fn append_test(test: &Test, to: &mut Vec<u8>) -> Result<(), NoMemory>
    ensures { OnOk result (to.new.items ≡ to.old.items ++ test_text test.now) }
{
    match test {
        Test::Present => {
            to.push(b'?')?;
            Ok(())
        }
        Test::IntEq(n) => append_compared(b'=', *n, to),
        Test::IntLess(n) => append_compared(b'<', *n, to),
        Test::IntMore(n) => append_compared(b'>', *n, to),
        Test::IntIn(low, high) => append_range(*low, *high, to),
        Test::TextEq(words) => append_text(b'=', words, to),
        Test::TextPrefix(words) => append_text(b'^', words, to),
        Test::Key(field, test) => append_key(field, test, to),
    }
}

/// Appends a test of a field: `.`, the field's name, and the spelling of what is asked of it.
fn append_key(field: &Name, test: &FieldTest, to: &mut Vec<u8>) -> Result<(), NoMemory>
    ensures { OnOk result (to.new.items ≡ to.old.items
        ++ (codes "." ++ field.now ++ field_test_text test.now)) }
{
    to.push(b'.')?;
    to.extend_from_slice(field.as_bytes())?;
    append_field_test(test, to)?;
    Ok(())
}

fn append_field_test(test: &FieldTest, to: &mut Vec<u8>) -> Result<(), NoMemory>
    ensures { OnOk result (to.new.items ≡ to.old.items ++ field_test_text test.now) }
{
    match test {
        FieldTest::IntEq(n) => append_compared(b'=', *n, to),
        FieldTest::IntLess(n) => append_compared(b'<', *n, to),
        FieldTest::IntMore(n) => append_compared(b'>', *n, to),
        FieldTest::IntIn(low, high) => append_range(*low, *high, to),
        FieldTest::TextEq(words) => append_text(b'=', words, to),
        FieldTest::TextPrefix(words) => append_text(b'^', words, to),
    }
}

/// Appends a sign and a whole number.
fn append_compared(sign: u8, number: i64, to: &mut Vec<u8>) -> Result<(), NoMemory>
    ensures { OnOk result (to.new.items ≡ to.old.items ++ (sign ∷ signed_decimal number)) }
{
    to.push(sign)?;
    append_whole(number, to)?;
    Ok(())
}

/// Appends `:`, and the lowest and the highest number with `..` between them.
fn append_range(low: i64, high: i64, to: &mut Vec<u8>) -> Result<(), NoMemory>
    ensures { OnOk result (to.new.items ≡ to.old.items ++ (codes ":" ++ range_text low high)) }
{
    to.push(b':')?;
    append_whole(low, to)?;
    to.extend_from_slice(b"..")?;
    append_whole(high, to)?;
    Ok(())
}

/// Appends a sign and words.
fn append_text(sign: u8, words: &Words, to: &mut Vec<u8>) -> Result<(), NoMemory>
    ensures { OnOk result (to.new.items ≡ to.old.items ++ (sign ∷ words_text words.now)) }
{
    to.push(sign)?;
    append_words(words.as_str(), to)?;
    Ok(())
}
