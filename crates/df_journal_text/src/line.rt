//! A line is words with one space between them, and a line feed. A word is appended with the space
//! in front of it.

ghost use Rattle.std.specs.Fmt.{signed_decimal};
ghost use Rattle.std.specs.Prelude.{◌≡◌, ◌<◌, ◌≤◌, ◌+◌, ◌++◌, OnOk, decimal, length, map, vec_capacity, vec_len};
ghost use Rattle.df_value_text.specs.Label.{label_text, privilege_text, tag_text};
ghost use Rattle.df_value_text.specs.Value.{value_text};
ghost use Rattle.df_journal_text.specs.Line.{spaced, word};

use df_frozen::{Frozen, Name, Value};
use df_label::{Label, Privilege, Tag};
use df_memory::NoMemory;
use df_value_text::{
    append_label, append_number, append_privilege, append_tag, append_value, append_whole, put_few,
};

/// Appends a word.
#[inline(always)]
pub fn append_word(text: &[u8], to: &mut Vec<u8>) -> Result<(), NoMemory>
    ensures { OnOk result (to.new.items ≡ to.old.items ++ word text.now) }
{
    to.push(b' ')?;
    to.extend_from_slice(text)?;
    Ok(())
}

/// Puts bytes where there is room for them.
#[inline(always)]
pub fn put_all(bytes: &[u8], to: &mut Vec<u8>)
    requires { vec_len to.old + length bytes.now ≤ vec_capacity to.old }
    ensures bytes { to.new.items ≡ to.old.items ++ bytes.now }
    ensures capacity { vec_capacity to.new ≡ vec_capacity to.old }
    ensures len { vec_len to.new ≡ vec_len to.old + length bytes.now }
{
    for byte in bytes {
        to.push_reserved(*byte);
    }
}

/// Appends a number of several digits. Most have four at most.
#[inline(never)]
fn append_several(number: u32, to: &mut Vec<u8>) -> Result<(), NoMemory>
    ensures { OnOk result (to.new.items ≡ to.old.items ++ decimal number) }
{
    if number >= 10_000 {
        return append_number(u64::from(number), to);
    }
    to.reserve(4)?;
    put_few(number, to);
    Ok(())
}

/// Appends a number in decimal digits. The commonest have one.
#[inline(always)]
#[tactic(auto, using(std::proofs::lemmas::Fmt::decimal_digit))]
pub fn append_short(number: u32, to: &mut Vec<u8>) -> Result<(), NoMemory>
    ensures { OnOk result (to.new.items ≡ to.old.items ++ decimal number) }
{
    if number >= 10 {
        return append_several(number, to);
    }
    to.push(b'0' + number as u8)?;
    Ok(())
}

/// Appends a number as a word.
pub fn append_number_word(number: u64, to: &mut Vec<u8>) -> Result<(), NoMemory>
    ensures { OnOk result (to.new.items ≡ to.old.items ++ word (decimal number)) }
{
    to.push(b' ')?;
    append_number(number, to)?;
    Ok(())
}

/// Appends a name as a word.
#[inline(always)]
pub fn append_name_word(name: &Name, to: &mut Vec<u8>) -> Result<(), NoMemory>
    ensures { OnOk result (to.new.items ≡ to.old.items ++ word name.now) }
{
    append_word(name.as_bytes(), to)
}

/// Appends a tag as a word.
pub fn append_tag_word(tag: &Tag, to: &mut Vec<u8>) -> Result<(), NoMemory>
    ensures { OnOk result (to.new.items ≡ to.old.items ++ word (tag_text tag.now)) }
{
    to.push(b' ')?;
    append_tag(tag, to)?;
    Ok(())
}

/// Appends a label as a word.
#[inline(always)]
pub fn append_label_word(label: &Label, to: &mut Vec<u8>) -> Result<(), NoMemory>
    ensures { OnOk result (to.new.items ≡ to.old.items ++ word (label_text label.now)) }
{
    to.push(b' ')?;
    append_label(label, to)?;
    Ok(())
}

/// Appends a privilege as a word.
pub fn append_privilege_word(privilege: &Privilege, to: &mut Vec<u8>) -> Result<(), NoMemory>
    ensures { OnOk result (to.new.items ≡ to.old.items ++ word (privilege_text privilege.now)) }
{
    to.push(b' ')?;
    append_privilege(privilege, to)?;
    Ok(())
}

/// Appends a whole number as a word. The commonest have few digits.
#[inline(always)]
fn append_integer_word(number: i64, to: &mut Vec<u8>) -> Result<(), NoMemory>
    ensures { OnOk result (to.new.items ≡ to.old.items ++ word (signed_decimal number)) }
{
    to.reserve(5)?;
    to.push_reserved(b' ');
    append_whole(number, to)
}

/// Appends a value as a word.
pub fn append_value_word(value: &Frozen, to: &mut Vec<u8>) -> Result<(), NoMemory>
    ensures { OnOk result (to.new.items ≡ to.old.items ++ word (value_text value.now)) }
{
    match value.value() {
        Value::Int(number) => append_integer_word(*number, to),
        value => {
            to.push(b' ')?;
            append_value(value, to)
        }
    }
}

/// Appends privileges, each as a word.
pub fn append_privilege_words(privileges: &[Privilege], to: &mut Vec<u8>) -> Result<(), NoMemory>
    ensures { OnOk result (to.new.items ≡ to.old.items
        ++ spaced (map privilege_text privileges.now)) }
{
    for privilege in privileges {
        append_privilege_word(privilege, to)?;
    }
    Ok(())
}
