//! Copying values at any depth, without recursion.
//!
//! One list or map is copied value by value. Where the next value is a list or map of its own, the
//! one around it waits, and takes the copy once that is whole.

ghost use Rattle.std.specs.Prelude.{◌≡◌, Some, [], ◌∷◌, map, option_map, IfOk, OnOk};
ghost use Rattle.df_frozen.specs.code.Copying.{content, rest, first, IsCopied, IsBegun, IsList, IsMap};
ghost use Rattle.df_frozen.specs.Entries.{names, IsAscending};
ghost use Rattle.df_frozen.specs.Plain.{items, entries, from_list, from_pairs};
ghost use Rattle.df_frozen.specs.Value.{plain, named};

use crate::entries::Entries;
use crate::items::Items;
use crate::name::Name;
use crate::value::Value;
use df_memory::NoMemory;
use std::alloc::Global;
use std::mem;

// A list or a map and the copies of its first values.
#[derive(Drop)]
pub(crate) enum Layer<'a> {
    Items {
        from: &'a Items,
        made: Vec<Value>,
    },
    Map {
        from: &'a Entries,
        made: Vec<(Name, Value)>,
    },
}

// A copy that is whole, or one that has yet to be filled.
#[derive(Drop)]
enum Begun<'a> {
    Whole(Value),
    Layer(Layer<'a>),
}

impl Value {
    /// An equal value. It may be of any depth: it is made by a loop.
    pub fn copy(&self) -> Result<Value, NoMemory>
        ensures { IfOk result (λ value. value ≡ self.now) }
    {
        match begin(self)? {
            Begun::Whole(value) => Ok(value),
            Begun::Layer(layer) => Ok(complete(layer)?.close()),
        }
    }
}

fn begin<'a>(value: &'a Value) -> Result<Begun<'a>, NoMemory>
    ensures { IfOk result (IsBegun (plain value.now)) }
{
    Ok(match value {
        Value::Int(number) => Begun::Whole(Value::Int(*number)),
        Value::Words(words) => Begun::Whole(Value::Words(words.copy()?)),
        Value::Bytes(bytes) => Begun::Whole(Value::Bytes(bytes.copy()?)),
        Value::Items(from) => Begun::Layer(from.layer()),
        Value::Map(from) => Begun::Layer(from.layer()),
    })
}

// Copies what is left of the list or map.
pub(crate) fn complete<'a>(layer: Layer<'a>) -> Result<Layer<'a>, NoMemory>
    requires { IsCopied layer }
    ensures content { IfOk result (λ l. content l ≡ content layer.entry) }
    ensures copied { IfOk result (λ l. IsCopied l) }
    ensures whole { IfOk result (λ l. rest l ≡ []) }
{
    let mut top = layer;
    let mut below: Vec<Layer<'a>> = Vec::new(top.allocator());
    loop {
        let Some(child) = top.next() else {
            let Some(under) = below.pop() else {
                return Ok(top);
            };
            let whole = mem::replace(&mut top, under).close();
            top.add(whole)?;
            continue;
        };
        match begin(child)? {
            Begun::Whole(value) => top.add(value)?,
            Begun::Layer(layer) => below.push(mem::replace(&mut top, layer))?,
        }
    }
}

impl<'a> Layer<'a> {
    fn allocator(&self) -> Global {
        match self {
            Layer::Items { from: _, made } => *made.allocator(),
            Layer::Map { from: _, made } => *made.allocator(),
        }
    }

    // The first value that isn't copied yet.
    fn next(&self) -> Option<&'a Value>
        ensures { option_map (λ v. plain v.now) result ≡ first (rest self.now) }
    {
        match self {
            Layer::Items { from, made } => from.as_slice().get(made.len()),
            Layer::Map { from, made } => match from.as_slice().get(made.len()) {
                Some(entry) => Some(&entry.1),
                None => None,
            },
        }
    }

    // Adds the copy of that value.
    fn add(&mut self, value: Value) -> Result<(), NoMemory>
        requires copied { IsCopied self.old }
        requires copy { first (rest self.old) ≡ Some (plain value) }
        ensures content { content self.new ≡ content self.old }
        ensures copied { OnOk result (IsCopied self.new) }
        ensures rest { OnOk result (rest self.old ≡ plain value ∷ rest self.new) }
    {
        match self {
            Layer::Items { from: _, made } => made.push(value)?,
            Layer::Map { from, made } => {
                let name = from.as_slice()[made.len()].0;
                made.push((name, value))?
            }
        }
        Ok(())
    }

    // The whole copy.
    pub(crate) fn close(self) -> Value
        requires copied { IsCopied self }
        requires whole { rest self ≡ [] }
        ensures { plain result ≡ content self.entry }
    {
        match self {
            Layer::Items { from: _, made } => Value::Items(Items::from_values(made)),
            Layer::Map { from: _, made } => Value::Map(Entries::from_ascending(made)),
        }
    }

    // The copies of a list's values.
    pub(crate) fn into_values(self) -> Vec<Value>
        requires copied { IsCopied self }
        requires whole { rest self ≡ [] }
        requires list { IsList self }
        ensures { items (from_list (map plain result.items)) ≡ content self.entry }
    {
        match self {
            Layer::Items { from: _, made } => made,
            Layer::Map { from: _, made: _ } => unreachable!(),
        }
    }

    // The copies of a map's entries.
    pub(crate) fn into_entries(self) -> Vec<(Name, Value)>
        requires copied { IsCopied self }
        requires whole { rest self ≡ [] }
        requires map { IsMap self }
        ensures value { entries (from_pairs (map named result.items)) ≡ content self.entry }
        ensures ascending { IsAscending (names result.items) }
    {
        match self {
            Layer::Items { from: _, made: _ } => unreachable!(),
            Layer::Map { from: _, made } => made,
        }
    }
}
