ghost use Rattle.std.specs.Prelude.{◌≡◌, ◌↔◌, IsTrue, IfOk};

use df_frozen::Frozen;
use df_label::{Label, Privileges};
use df_memory::NoMemory;
use std::alloc::Global;
use std::marker::Model;

/// What a read shows of a part.
#[derive(Drop)]
pub struct PartRead {
    pub label: Label,
    pub value: Frozen,
    pub privileges: Privileges,
}

/// What a read shows, part by part in order.
#[derive(Drop)]
pub struct PartsRead {
    parts: Vec<PartRead>,
}

impl Model for PartsRead {
    ghost use Rattle.std.specs.Prelude.{List};
    ghost use Rattle.std.specs.Coded.{coded_list};
    ghost use Rattle.df_unit.specs.declared.parts.PartRead.{PartRead};
    ghost use Rattle.df_unit.specs.contracts.parts.PartRead as content;

    ghost Value = { List PartRead };

    ghost coded = { coded_list content.the_row.coded };

    ghost view = { λ p. p.parts.items };
}

impl PartsRead {
    /// Takes no memory.
    pub fn new(parts: Vec<PartRead>) -> PartsRead
        ensures { result ≡ parts.items }
    {
        PartsRead { parts }
    }

    pub fn as_slice(&self) -> &[PartRead]
        ensures { result.now ≡ self.now }
    {
        self.parts.as_slice()
    }

    /// Whether the two show the same.
    pub fn same(&self, other: &PartsRead) -> bool
        ensures { IsTrue result ↔ (self.now ≡ other.now) }
    {
        same_reads(self.parts.as_slice(), other.parts.as_slice())
    }

    pub fn copy(&self) -> Result<PartsRead, NoMemory>
        ensures { IfOk result (λ p. p ≡ self.now) }
    {
        Ok(PartsRead {
            parts: copies(*self.parts.allocator(), self.parts.as_slice())?,
        })
    }
}

fn same_reads(a: &[PartRead], b: &[PartRead]) -> bool
    ensures { IsTrue result ↔ (a.now ≡ b.now) }
{
    if a.len() != b.len() {
        return false;
    }
    for i in 0..a.len() {
        let is_same = a[i].same(&b[i]);
        if !is_same {
            return false;
        }
    }
    true
}

fn copies(alloc: Global, parts: &[PartRead]) -> Result<Vec<PartRead>, NoMemory>
    ensures { IfOk result (λ v. v.items ≡ parts.now) }
{
    let mut copies = Vec::with_capacity(alloc, parts.len())?;
    for part in parts {
        copies.push(part.copy()?)?;
    }
    Ok(copies)
}

impl PartRead {
    /// Whether the two show the same, values by their plain content.
    pub fn same(&self, other: &PartRead) -> bool
        ensures { IsTrue result ↔ (self.now ≡ other.now) }
    {
        self.label.same(&other.label)
            && self.value.plain_eq(&other.value)
            && self.privileges.same(&other.privileges)
    }

    pub fn copy(&self) -> Result<PartRead, NoMemory>
        ensures { IfOk result (λ p. p ≡ self.now) }
    {
        let label = self.label.copy()?;
        let value = self.value.share()?;
        let privileges = self.privileges.copy()?;
        Ok(PartRead {
            label,
            value,
            privileges,
        })
    }
}
