ghost use Rattle.std.specs.Prelude.{◌≡◌, ◌++◌, OnOk, codes, map};
ghost use Rattle.std.specs.List.{flat_map};
ghost use Rattle.df_frozen.specs.Value.{plain, named};
ghost use Rattle.df_value_text.specs.Join.{joined};
ghost use Rattle.df_value_text.specs.Value.{entry_text, escaped, hex, hex_digit, value_text, words_text};

use crate::{append_separator, append_whole};
use df_frozen::{Name, Value};
use df_memory::NoMemory;

/// Appends a value. It takes a stack as deep as the value.
#[cycle(append)]
pub fn append_value(value: &Value, to: &mut Vec<u8>) -> Result<(), NoMemory>
    ensures { OnOk result (to.new.items ≡ to.old.items ++ value_text (plain value.now)) }
{
    match value {
        Value::Int(number) => append_whole(*number, to),
        Value::Words(words) => append_words(words.as_str(), to),
        Value::Bytes(bytes) => append_bytes(bytes.as_slice(), to),
        Value::Items(items) => {
            to.push(b'[')?;
            append_items(items.as_slice(), to)?;
            to.push(b']')?;
            Ok(())
        }
        Value::Map(entries) => {
            to.push(b'(')?;
            append_entries(entries.as_slice(), to)?;
            to.push(b')')?;
            Ok(())
        }
    }
}

#[cycle(append)]
fn append_items(items: &[Value], to: &mut Vec<u8>) -> Result<(), NoMemory>
    ensures { OnOk result (to.new.items ≡ to.old.items
        ++ joined 44 value_text (map plain items.now)) }
{
    for (i, value) in items.iter().enumerate() {
        append_separator(b',', i, to)?;
        append_value(value, to)?;
    }
    Ok(())
}

#[cycle(append)]
fn append_entries(entries: &[(Name, Value)], to: &mut Vec<u8>) -> Result<(), NoMemory>
    ensures { OnOk result (to.new.items ≡ to.old.items
        ++ joined 44 entry_text (map named entries.now)) }
{
    for (i, entry) in entries.iter().enumerate() {
        append_separator(b',', i, to)?;
        append_entry_name(&entry.0, to)?;
        append_value(&entry.1, to)?;
    }
    Ok(())
}

fn append_entry_name(name: &Name, to: &mut Vec<u8>) -> Result<(), NoMemory>
    ensures { OnOk result (to.new.items ≡ to.old.items ++ (name.now ++ codes "=")) }
{
    to.extend_from_slice(name.as_bytes())?;
    to.push(b'=')?;
    Ok(())
}

ghost use Rattle.std.specs.Prelude.{◌<◌};

/// Appends words: in quotes, each byte as it is escaped.
pub fn append_words(text: &str, to: &mut Vec<u8>) -> Result<(), NoMemory>
    ensures { OnOk result (to.new.items ≡ to.old.items ++ words_text text.now) }
{
    to.push(b'"')?;
    for byte in text.as_bytes() {
        append_escaped(*byte, to)?;
    }
    to.push(b'"')?;
    Ok(())
}

fn append_bytes(bytes: &[u8], to: &mut Vec<u8>) -> Result<(), NoMemory>
    ensures { OnOk result (to.new.items ≡ to.old.items
        ++ (codes "x\"" ++ flat_map hex bytes.now ++ codes "\"")) }
{
    to.extend_from_slice(b"x\"")?;
    for byte in bytes {
        append_hex(*byte, to)?;
    }
    to.push(b'"')?;
    Ok(())
}

fn append_escaped(byte: u8, to: &mut Vec<u8>) -> Result<(), NoMemory>
    ensures { OnOk result (to.new.items ≡ to.old.items ++ escaped byte) }
{
    if byte == b'"' || byte == b'\\' {
        to.push(b'\\')?;
        to.push(byte)?;
        return Ok(());
    }
    if byte < 32 || byte == 127 {
        to.push(b'\\')?;
        append_hex(byte, to)?;
        return Ok(());
    }
    to.push(byte)?;
    Ok(())
}

fn append_hex(byte: u8, to: &mut Vec<u8>) -> Result<(), NoMemory>
    ensures { OnOk result (to.new.items ≡ to.old.items ++ hex byte) }
{
    to.push(hex_digit(byte / 16))?;
    to.push(hex_digit(byte % 16))?;
    Ok(())
}

fn hex_digit(digit: u8) -> u8
    requires { digit < 16 }
    ensures { result ≡ hex_digit digit }
{
    if digit < 10 { 48 + digit } else { 87 + digit }
}
