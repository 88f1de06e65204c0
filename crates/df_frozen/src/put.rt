//! Putting a value somewhere into another.

ghost use Rattle.std.specs.Prelude.{◌≡◌, ◌↔◌, Some, IsNone, OnOk, OnErr, IfErr};
ghost use Rattle.df_frozen.specs.Place.{set_at, push_at, put_at};
ghost use Rattle.df_frozen.specs.Value.{plain};

use crate::change::Change;
use crate::name::Name;
use crate::step::Step;
use crate::value::Value;
use std::error::Error;
use std::fmt;

/// Why a value is not put.
#[derive(Clone, Copy, Debug, PartialEq, Eq)]
pub enum PutCause {
    NoSuchPlace,
    NoMemory,
}

impl fmt::Display for PutCause {
    fn fmt<W: fmt::Write>(&self, f: &mut fmt::Formatter<W>) -> fmt::Result {
        f.write_str(match self {
            PutCause::NoSuchPlace => "no such place",
            PutCause::NoMemory => "out of memory",
        })
    }
}

impl Error for PutCause {}

/// A value that is not put, given back.
#[derive(Drop)]
pub struct NotPut {
    pub value: Value,
    pub cause: PutCause,
}

impl fmt::Debug for NotPut {
    fn fmt<W: fmt::Write>(&self, f: &mut fmt::Formatter<W>) -> fmt::Result {
        fmt::Debug::fmt(&self.cause, f)
    }
}

impl fmt::Display for NotPut {
    fn fmt<W: fmt::Write>(&self, f: &mut fmt::Formatter<W>) -> fmt::Result {
        fmt::Display::fmt(&self.cause, f)
    }
}

impl Error for NotPut {}

impl Value {
    /// Replaces the node at the path. Takes no memory. The walk recurses as deep as the path.
    pub fn set_at(&mut self, path: &[Step], v: Value) -> Result<(), NotPut>
        ensures set { OnOk result (set_at path.now (plain v) (plain self.old)
            ≡ Some (plain self.new)) }

        ensures no_such_place { OnErr result (IsNone (set_at path.now (plain v) (plain self.old))) }
        ensures cause { IfErr result (λ e. e.cause ≡ PutCause.NoSuchPlace) }
        ensures back { IfErr result (λ e. e.value ≡ v) }
        ensures unchanged { OnErr result (self.new ≡ self.old) }
    {
        self.change_at(path, Change::Set(v))
    }

    /// Appends the value to the list at the path. The walk recurses as deep as the path.
    pub fn push_at(&mut self, path: &[Step], v: Value) -> Result<(), NotPut>
        ensures pushed { OnOk result (push_at path.now (plain v) (plain self.old)
            ≡ Some (plain self.new)) }

        ensures no_such_place { IfErr result (λ e. (e.cause ≡ PutCause.NoSuchPlace)
            ↔ IsNone (push_at path.now (plain v) (plain self.old))) }
        ensures back { IfErr result (λ e. e.value ≡ v) }
        ensures unchanged { OnErr result (self.new ≡ self.old) }
    {
        self.change_at(path, Change::Push(v))
    }

    /// Puts the value under the name in the map at the path, in place of one that is there. The
    /// walk recurses as deep as the path.
    pub fn put_at(&mut self, path: &[Step], key: Name, v: Value) -> Result<(), NotPut>
        ensures put { OnOk result (put_at path.now key (plain v) (plain self.old)
            ≡ Some (plain self.new)) }

        ensures no_such_place { IfErr result (λ e. (e.cause ≡ PutCause.NoSuchPlace)
            ↔ IsNone (put_at path.now key (plain v) (plain self.old))) }
        ensures back { IfErr result (λ e. e.value ≡ v) }
        ensures unchanged { OnErr result (self.new ≡ self.old) }
    {
        self.change_at(path, Change::Put(key, v))
    }
}
