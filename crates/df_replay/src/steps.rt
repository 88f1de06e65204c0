ghost use Rattle.std.specs.Prelude.{◌≡◌, ◌∷◌, [], IfOk, OnOk};
ghost use Rattle.df_unit.specs.declared.entry.Entry.TheVariants.{Emitted};
ghost use Rattle.df_machine.specs.Journal.{appended};
ghost use Rattle.df_replay.specs.Replay.{replayed};

use crate::{copy_call, copy_commit};
use df_machine::Core;
use df_memory::NoMemory;
use df_start::{RootStart, Start};
use df_unit::{Call, Commit, Entry, UnitName};
use std::alloc::Global;

/// A machine with this start, whose journal is empty.
pub fn begin(alloc: Global, start: &Start) -> Result<Core, NoMemory>
    ensures { IfOk result (λ core. core ≡ (start.now, [])) }
{
    let copy = copy_start(alloc, start)?;
    Core::start(alloc, copy)
}

fn copy_start(alloc: Global, start: &Start) -> Result<Start, NoMemory>
    ensures { IfOk result (λ s. s ≡ start.now) }
{
    let roots = copy_roots(alloc, start.as_slice())?;
    Ok(Start::new(roots))
}

fn copy_roots(alloc: Global, roots: &[RootStart]) -> Result<Vec<RootStart>, NoMemory>
    ensures { IfOk result (λ copies. copies.items ≡ roots.now) }
{
    let mut copies = Vec::new(alloc);
    for root in roots {
        copies.push(copy_root(root)?)?;
    }
    Ok(copies)
}

fn copy_root(root: &RootStart) -> Result<RootStart, NoMemory>
    ensures { IfOk result (λ r. r ≡ root.now) }
{
    let label = root.label.copy()?;
    let privileges = root.privileges.copy()?;
    Ok(RootStart { label, privileges })
}

/// Appends the entry that the rules give where a kept one stands: the answer to its call, or the
/// emitted one itself.
pub fn replay(core: &mut Core, kept: &Entry) -> Result<(), NoMemory>
    ensures { OnOk result (core.new ≡ replayed core.old kept.now) }
{
    match kept {
        Entry::Done { actor, call, .. } => repeat_call(core, actor, call),
        Entry::Emitted(commit) => repeat_commit(core, commit),
    }
}

fn repeat_call(core: &mut Core, actor: &UnitName, call: &Call) -> Result<(), NoMemory>
    ensures { OnOk result (core.new ≡ appended actor.now call.now core.old) }
{
    let call = copy_call(call)?;
    match core.step(actor, call) {
        Ok(answer) => {
            drop(answer);
            Ok(())
        }
        Err(refused) => {
            drop(refused);
            Err(NoMemory)
        }
    }
}

fn repeat_commit(core: &mut Core, commit: &Commit) -> Result<(), NoMemory>
    ensures { OnOk result (core.new ≡ (core.old.0, Emitted commit.now ∷ core.old.1)) }
{
    let commit = copy_commit(commit)?;
    match core.emitted(commit) {
        Ok(_) => Ok(()),
        Err(_) => Err(NoMemory),
    }
}
