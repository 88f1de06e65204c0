ghost use Rattle.std.specs.Prelude.{IsTrue, ◌≡◌, ◌<◌, ◌≤◌, ◌↔◌, length, IfOk, Err, Ok};
ghost use Rattle.df_filter.specs.Filter.{filter_of};
ghost use Rattle.df_filter.specs.Limits.{most_clauses};

use crate::Clause;
use df_memory::NoMemory;
use std::alloc::Global;
use std::marker::Model;

/// How many clauses a filter has at most.
pub const MOST_CLAUSES: usize = 4;

/// Why a list of clauses is no filter.
#[derive(Clone, Copy, Debug, PartialEq, Eq)]
pub enum FilterRefused {
    NoClause,
    TooManyClauses,
}

/// One to four clauses. It matches a list of parts where each clause holds of some part.
#[derive(Drop)]
pub struct Filter {
    clauses: Vec<Clause>,
}

impl Model for Filter {
    ghost use Rattle.std.specs.Prelude.{List, length, ◌<◌, ◌≤◌};
    ghost use Rattle.df_filter.specs.Limits.{most_clauses};
    ghost use Rattle.df_filter.specs.declared.clause.Clause.{Clause};

    ghost Value = { List Clause };

    ghost view = { λ f. f.clauses.items };

    ghost invariant = { λ f.
        (0 < length f.clauses.items) × (length f.clauses.items ≤ most_clauses) };
}

impl Filter {
    /// Takes no memory.
    pub fn new(clauses: Vec<Clause>) -> Result<Filter, FilterRefused>
        ensures { result ≡ filter_of clauses.items }
    {
        if clauses.is_empty() {
            return Err(FilterRefused::NoClause);
        }
        if clauses.len() > MOST_CLAUSES {
            return Err(FilterRefused::TooManyClauses);
        }
        Ok(Filter { clauses })
    }

    /// The clauses, in order.
    pub fn clauses(&self) -> &[Clause]
        ensures clauses { result.now ≡ self.now }
        ensures some { 0 < length self.now }
        ensures few { length self.now ≤ most_clauses }
    {
        self.clauses.as_slice()
    }

    /// Whether the two have the same clauses.
    pub fn same(&self, other: &Filter) -> bool
        ensures { IsTrue result ↔ (self.now ≡ other.now) }
    {
        all_same(self.clauses.as_slice(), other.clauses.as_slice())
    }

    pub fn copy(&self) -> Result<Filter, NoMemory>
        ensures { IfOk result (λ f. f ≡ self.now) }
    {
        let alloc = *self.clauses.allocator();
        Ok(Filter {
            clauses: copy_all(alloc, self.clauses.as_slice())?,
        })
    }
}

fn all_same(a: &[Clause], b: &[Clause]) -> bool
    ensures { IsTrue result ↔ (a.now ≡ b.now) }
{
    if a.len() != b.len() {
        return false;
    }
    for i in 0..a.len() {
        let is_same = a[i].same(&b[i]);
        if !is_same {
            return false;
        }
    }
    true
}

fn copy_all(alloc: Global, clauses: &[Clause]) -> Result<Vec<Clause>, NoMemory>
    ensures { IfOk result (λ copies. copies.items ≡ clauses.now) }
{
    let mut copies = Vec::with_capacity(alloc, clauses.len())?;
    for clause in clauses {
        copies.push(clause.copy()?)?;
    }
    Ok(copies)
}
