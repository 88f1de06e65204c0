ghost use Rattle.std.specs.Prelude.{◌≡◌, ◌↔◌, ◌++◌, [], ◌∷◌, IsTrue, IfOk, OnOk};

use crate::PartRef;
use df_memory::NoMemory;
use std::alloc::Global;
use std::marker::Model;
use std::slice;
use std::sync::Arc;

/// How a list of parts is kept: one part by itself, any list by one owner, or by all of those that
/// share it.
#[derive(Drop)]
enum Kept {
    One(PartRef),
    Own(Vec<PartRef>),
    Shared(Arc<Vec<PartRef>>),
}

/// Parts, in order. One part is copied by a share of it, and a shared list by one of the whole.
#[derive(Drop)]
pub struct Parts {
    kept: Kept,
    alloc: Global,
}

impl Model for Parts {
    ghost use Rattle.std.specs.Prelude.{List};
    ghost use Rattle.std.specs.Coded.{coded_list};
    ghost use Rattle.df_part.specs.code.Parts.{parts_of};
    ghost use Rattle.df_part.specs.declared.part.Part.{Part};
    ghost use Rattle.df_part.specs.contracts.part.Part as content;

    ghost Value = { List Part };

    ghost coded = { coded_list content.the_row.coded };

    ghost view = { λ p. parts_of p.kept };
}

impl Parts {
    /// A list that its owner alone has. Takes no memory.
    pub fn new(parts: Vec<PartRef>) -> Parts
        ensures { result ≡ parts.items }
    {
        let alloc = *parts.allocator();
        Parts {
            kept: Kept::Own(parts),
            alloc,
        }
    }

    /// A list of one part. Takes no memory.
    pub fn one(alloc: Global, part: PartRef) -> Parts
        ensures { result ≡ part ∷ [] }
    {
        Parts {
            kept: Kept::One(part),
            alloc,
        }
    }

    /// A list that copies share. One of a part or none takes no memory.
    pub fn shared(mut parts: Vec<PartRef>) -> Result<Parts, NoMemory>
        ensures { IfOk result (λ p. p ≡ parts.items) }
    {
        if parts.len() > 1 {
            return shared_list(parts);
        }
        let alloc = *parts.allocator();
        match parts.pop() {
            Some(part) => Ok(Parts::one(alloc, part)),
            None => Ok(Parts::new(parts)),
        }
    }

    pub fn as_slice(&self) -> &[PartRef]
        ensures { result.now ≡ self.now }
    {
        match &self.kept {
            Kept::One(part) => slice::from_ref(part),
            Kept::Own(parts) => parts.as_slice(),
            Kept::Shared(parts) => parts.as_slice(),
        }
    }

    /// Whether the two have the same parts.
    pub fn same(&self, other: &Parts) -> bool
        ensures { IsTrue result ↔ (self.now ≡ other.now) }
    {
        same_parts(self.as_slice(), other.as_slice())
    }

    /// An equal list. One part and a shared list are shared, any other list copied.
    pub fn copy(&self) -> Result<Parts, NoMemory>
        ensures { IfOk result (λ p. p ≡ self.now) }
    {
        let kept = match &self.kept {
            Kept::One(part) => Kept::One(part.share()?),
            Kept::Own(parts) => Kept::Own(shares(parts)?),
            Kept::Shared(parts) => Kept::Shared(Arc::try_clone(parts)?),
        };
        Ok(Parts {
            kept,
            alloc: self.alloc,
        })
    }

    /// An equal list, which copies share.
    pub(crate) fn copy_shared(&self) -> Result<Parts, NoMemory>
        ensures { IfOk result (λ p. p ≡ self.now) }
    {
        match &self.kept {
            Kept::Own(parts) => Parts::shared(shares(parts)?),
            _ => self.copy(),
        }
    }

    /// What the list is kept by.
    pub(crate) fn allocator(&self) -> Global {
        self.alloc
    }
}

/// A list of several parts, which copies share.
#[inline(never)]
fn shared_list(parts: Vec<PartRef>) -> Result<Parts, NoMemory>
    ensures { IfOk result (λ p. p ≡ parts.items) }
{
    let alloc = *parts.allocator();
    Ok(Parts {
        kept: Kept::Shared(Arc::new(alloc, parts)?),
        alloc,
    })
}

/// A list of its own, of shares of these parts.
fn shares(parts: &Vec<PartRef>) -> Result<Vec<PartRef>, NoMemory>
    ensures { IfOk result (λ v. v.items ≡ parts.now.items) }
{
    let mut shares = Vec::with_capacity(*parts.allocator(), parts.len())?;
    share_all(parts.as_slice(), &mut shares)?;
    Ok(shares)
}

/// Appends a share of each part.
pub(crate) fn share_all(parts: &[PartRef], to: &mut Vec<PartRef>) -> Result<(), NoMemory>
    ensures { OnOk result (to.new.items ≡ to.old.items ++ parts.now) }
{
    for part in parts {
        to.push(part.share()?)?;
    }
    Ok(())
}

/// Whether the two have the same parts, in the same order.
pub(crate) fn same_parts(a: &[PartRef], b: &[PartRef]) -> bool
    ensures { IsTrue result ↔ (a.now ≡ b.now) }
{
    if a.len() != b.len() {
        return false;
    }
    for i in 0..a.len() {
        let is_same = a[i].same(&b[i]);
        if !is_same {
            return false;
        }
    }
    true
}
