ghost use Rattle.std.specs.Prelude.{◌≡◌, ℕ, IfOk, map, true};
ghost use Rattle.df_family.specs.Family.{names};
ghost use Rattle.df_family.specs.May.{MayHold};
ghost use Rattle.df_family.specs.Never.{NeverHolds};
ghost use Rattle.df_label.specs.declared.privilege.Privilege.{Privilege};
ghost use Rattle.df_start.specs.Begun.{begun};

use crate::first::first_rows;
use crate::spread::spread;
use crate::table::Lint;
use crate::tags::tags_of;
use df_memory::NoMemory;
use df_start::{RootStart, Start};
use std::alloc::Global;

/// Finds which privileges the units of each root's family may ever hold.
pub fn lint(alloc: Global, start: &Start) -> Result<Lint, NoMemory>
    ensures start { IfOk result (λ l. l ≡ map begun start.now) }
    ensures never { IfOk result (λ l. (k : ℕ) (p : Privilege) → names l p.tag ≡ true →
        ¬ MayHold l k p → NeverHolds l k p) }
{
    let roots = copies(alloc, start.as_slice())?;
    let tags = tags_of(alloc, roots.as_slice())?;
    let mut rows = first_rows(alloc, &tags, roots.as_slice())?;
    spread(alloc, roots.as_slice(), tags.as_slice(), &mut rows)?;
    Ok(Lint::new(roots, tags, rows))
}

fn copies(alloc: Global, roots: &[RootStart]) -> Result<Vec<RootStart>, NoMemory>
    ensures { IfOk result (λ v. v.items ≡ roots.now) }
{
    let mut copies = Vec::with_capacity(alloc, roots.len())?;
    for root in roots {
        copies.push(copy_of(root)?)?;
    }
    Ok(copies)
}

fn copy_of(root: &RootStart) -> Result<RootStart, NoMemory>
    ensures { IfOk result (λ r. r ≡ root.now) }
{
    Ok(RootStart {
        label: root.label.copy()?,
        privileges: root.privileges.copy()?,
    })
}
