//! The values of messages: maps of a few fields.

ghost use Rattle.std.specs.Prelude.{◌≡◌, ◌≤◌, true, IfOk, OnOk, map, length};
ghost use Rattle.std.specs.List.{list_all};
ghost use Rattle.df_frozen.specs.Plain.{from_pairs, no_entries, words};
ghost use Rattle.df_frozen.specs.Value.{plain};
ghost use Rattle.df_messages.specs.code.Putting.{built, content_of, is_good, put_all, put_field};

use crate::field::name;
use df_frozen::{Entries, Frozen, Name, Value, Words};
use df_memory::NoMemory;
use std::alloc::Global;

/// A field of a message: its name, and what it has.
#[derive(Clone, Copy)]
pub(crate) enum Field<'a> {
    Int(&'a str, i64),
    Flag(&'a str, bool),
    Symbol(&'a str, &'a Words),
}

fn words(text: &Words) -> Result<Value, NoMemory>
    ensures { IfOk result (λ v. plain v ≡ words text.now) }
{
    let text = text.copy()?;
    Ok(Value::Words(text))
}

fn value_of(field: &Field<'_>) -> Result<Value, NoMemory>
    ensures { IfOk result (λ v. plain v ≡ (content_of field.now).1) }
{
    match field {
        Field::Int(_, number) => Ok(Value::Int(*number)),
        Field::Flag(_, true) => Ok(Value::Int(1)),
        Field::Flag(_, false) => Ok(Value::Int(0)),
        Field::Symbol(_, text) => words(text),
    }
}

fn name_of(field: &Field<'_>) -> Name
    requires { is_good field.now ≡ true }
    ensures { result ≡ (content_of field.now).0 }
{
    match field {
        Field::Int(text, _) => name(text),
        Field::Flag(text, _) => name(text),
        Field::Symbol(text, _) => name(text),
    }
}

fn put(entries: &mut Entries, field: &Field<'_>) -> Result<(), NoMemory>
    requires { is_good field.now ≡ true }
    ensures { OnOk result (from_pairs entries.new
        ≡ put_field (content_of field.now) (from_pairs entries.old)) }
{
    let content = value_of(field)?;
    match entries.put(name_of(field), content) {
        Ok(()) => Ok(()),
        Err(_) => Err(NoMemory),
    }
}

fn entries_of(alloc: Global, fields: &[Field<'_>]) -> Result<Entries, NoMemory>
    requires { list_all is_good fields.now ≡ true }
    ensures { IfOk result (λ es. from_pairs es ≡ put_all no_entries (map content_of fields.now)) }
{
    let mut entries = Entries::new(alloc);
    for field in fields {
        put(&mut entries, field)?;
    }
    Ok(entries)
}

/// The map of these fields.
pub(crate) fn map_of(alloc: Global, fields: &[Field<'_>]) -> Result<Frozen, NoMemory>
    requires good { list_all is_good fields.now ≡ true }
    requires few { length fields.now ≤ 6 }
    ensures { IfOk result (λ f. f ≡ built (map content_of fields.now)) }
{
    let entries = entries_of(alloc, fields)?;
    match Frozen::new(alloc, Value::Map(entries)) {
        Ok(frozen) => Ok(frozen),
        Err(_) => Err(NoMemory),
    }
}
