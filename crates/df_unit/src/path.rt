ghost use Rattle.std.specs.Prelude.{◌≡◌, ◌<◌, ◌≤◌, [], ◌∷◌, length, IfOk, OnOk, OnErr, Some, nat_eq, refl};
ghost use Rattle.std.specs.Ordering.{nat_cmp};
ghost use Rattle.std.specs.Cmp.{partial_equiv_from_equiv};
ghost use Rattle.std.specs.Cmp.Lexicographic.{pointwise, slice_cmp, nat_list_eq_equiv, nat_list_cmp_total, texts_po, texts_ties};
ghost use Rattle.std.specs.Cmp.Rules.{hashing};
ghost use Rattle.std.specs.Hash as fed;
ghost use Rattle.std.proofs.Common.{rules};
ghost use Rattle.df_unit.specs.declared.path.TheConstants.{INLINE};

use df_label::compare_numbers;
use df_memory::NoMemory;
use std::alloc::Global;
use std::cmp::Ordering;
use std::hash::{Hash, Hasher};
use std::marker::Model;

// How many numbers a path keeps in itself.
const INLINE: usize = 6;

/// How a path is kept: few numbers lie in the path itself.
#[derive(Debug, Drop)]
enum Kept {
    Short([u32; INLINE], u8),
    Long(Vec<u32>),
}

/// The path of a plain unit: its root's number, and for a unit that another made the maker's path
/// and its number behind it.
#[derive(Debug, Drop)]
pub struct Path {
    kept: Kept,
}

impl Model for Path {
    ghost use Rattle.std.specs.Prelude.{ℕ, List};

    ghost Value = { List ℕ };

    ghost use Rattle.df_unit.specs.code.Path.{numbers_of, HasRoom};

    ghost view = { λ p. numbers_of p.kept };

    ghost invariant = { λ p. HasRoom p.kept };
}

impl Path {
    /// Takes no memory.
    pub fn new(numbers: Vec<u32>) -> Path
        requires { 0 < length numbers.items }
        ensures { result ≡ numbers.items }
    {
        if numbers.len() <= INLINE {
            short(numbers.as_slice())
        } else {
            Path {
                kept: Kept::Long(numbers),
            }
        }
    }

    /// The path of a root.
    pub fn root(number: u32) -> Path
        ensures { result ≡ number ∷ [] }
    {
        short(&[number])
    }

    pub fn as_slice(&self) -> &[u32]
        ensures numbers { result.now ≡ self.now }
        ensures some { 0 < length self.now }
    {
        match &self.kept {
            Kept::Short(numbers, len) => &numbers[..*len as usize],
            Kept::Long(numbers) => numbers.as_slice(),
        }
    }

    pub fn copy(&self) -> Result<Path, NoMemory>
        ensures { IfOk result (λ p. p ≡ self.now) }
    {
        match &self.kept {
            Kept::Short(numbers, len) => Ok(Path {
                kept: Kept::Short(*numbers, *len),
            }),
            Kept::Long(numbers) => Ok(Path {
                kept: Kept::Long(copy_of(numbers)?),
            }),
        }
    }

    /// Becomes a copy of the other, in its own room.
    pub fn copy_from(&mut self, other: &Path) -> Result<(), NoMemory>
        ensures copied { OnOk result (self.new ≡ other.now) }
        ensures unchanged { OnErr result (self.new ≡ self.old) }
    {
        match &other.kept {
            Kept::Short(numbers, len) => self.kept = Kept::Short(*numbers, *len),
            Kept::Long(_) => return self.become_copy(other),
        }
        Ok(())
    }

    #[inline(never)]
    fn become_copy(&mut self, other: &Path) -> Result<(), NoMemory>
        ensures copied { OnOk result (self.new ≡ other.now) }
        ensures unchanged { OnErr result (self.new ≡ self.old) }
    {
        *self = other.copy()?;
        Ok(())
    }
}

fn short(numbers: &[u32]) -> Path
    requires some { 0 < length numbers.now }
    requires few { length numbers.now ≤ INLINE }
    ensures { result ≡ numbers.now }
{
    let mut kept = [0; INLINE];
    let len = numbers.len();
    kept[..len].copy_from_slice(numbers);
    Path {
        kept: Kept::Short(kept, len as u8),
    }
}

fn copy_of(numbers: &Vec<u32>) -> Result<Vec<u32>, NoMemory>
    ensures { IfOk result (λ v. v.items ≡ numbers.now.items) }
{
    Ok(Vec::from_slice(*numbers.allocator(), numbers.as_slice())?)
}

impl PartialEq for Path {
    ghost eq = { pointwise nat_eq };

    ghost laws = { partial_equiv_from_equiv nat_list_eq_equiv };

    fn eq(&self, other: &Path) -> bool {
        self.as_slice() == other.as_slice()
    }
}

impl Eq for Path {
    ghost laws = { nat_list_eq_equiv };
}

impl PartialOrd for Path {
    ghost partial_cmp = { λ a b. Some (slice_cmp nat_cmp a b) };

    ghost laws = { texts_po };

    fn partial_cmp(&self, other: &Path) -> Option<Ordering> {
        Some(self.cmp(other))
    }
}

impl Ord for Path {
    ghost cmp = { slice_cmp nat_cmp };

    ghost total = { nat_list_cmp_total };

    ghost matches_partial_cmp = { λ a b. refl };

    ghost matches_eq = { texts_ties };

    fn cmp(&self, other: &Path) -> Ordering {
        compare_numbers(self.as_slice(), other.as_slice())
    }
}

impl Hash for Path {
    ghost hash_input = { fed.slice fed.u32 };

    ghost respects_eq = { Prim.search (hashing, rules) };

    fn hash<H: Hasher>(&self, state: &mut H) {
        self.as_slice().hash(state);
    }
}
