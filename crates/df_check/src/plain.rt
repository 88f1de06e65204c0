ghost use Rattle.std.specs.Prelude.{◌≡◌, ◌↔◌, IfOk, OnOk, Some, reverse, slice_get};
ghost use Rattle.df_machine.specs.Journal.{State, firsts};
ghost use Rattle.df_machine.specs.Tables.{AgreesWith};
ghost use Rattle.df_rules.specs.Legal.{Legal};
ghost use Rattle.df_rules.specs.Start.{rows};
ghost use Rattle.df_unit.specs.declared.entry.Entry.{Entry};
ghost use Rattle.df_replay.specs.Replay.{entry_for, replayed};
ghost use Rattle.df_check.specs.Check.{Judges, TellsOther};
ghost use Rattle.df_check.specs.declared.plain.Verdict.TheVariants.{Valid};

use df_machine::{Core, Tables};
use df_memory::NoMemory;
use df_replay::{Compared, compare, copy_entry, replay};
use df_start::Start;
use df_unit::Entry;
use std::alloc::Global;

/// What a check says of a journal. A place counts the entries before it.
#[derive(Drop)]
pub enum Verdict {
    Valid,
    Wrong { place: u64, expected: Entry },
}

/// Valid where the journal, its oldest entry first, is legal from the start; else the first place
/// with another entry than the rules give, and the entry that they give.
pub fn check(alloc: Global, start: &Start, journal: &[Entry]) -> Result<Verdict, NoMemory>
    ensures judges { IfOk result (Judges start.now journal.now) }
    ensures valid { IfOk result (λ verdict.
        (verdict ≡ Valid) ↔ Legal rows (firsts start.now) (reverse journal.now)) }
{
    let mut tables = Tables::begin(alloc, start)?;
    for (place, kept) in journal.iter().enumerate() {
        if let Some(expected) = other_entry(&mut tables, kept)? {
            let place = place as u64;
            return Ok(Verdict::Wrong { place, expected });
        }
    }
    Ok(Verdict::Valid)
}

/// The tables take in what the rules give where a kept entry stands. It is given where the kept
/// one is another.
fn other_entry(tables: &mut Tables, kept: &Entry) -> Result<Option<Entry>, NoMemory>
    requires { (core : State) × AgreesWith core tables.old }
    ensures made { OnOk result ((core : State) → AgreesWith core tables.old →
        AgreesWith (replayed core kept.now) tables.new) }
    ensures other { IfOk result (λ other. (core : State) → AgreesWith core tables.old →
        TellsOther (entry_for core kept.now) kept.now other) }
{
    match compare(tables, kept)? {
        Compared::Same { .. } => Ok(None),
        Compared::Other { expected } => Ok(Some(expected.entry)),
    }
}

/// Appends the entry that the rules give where a kept one stands, and gives it where it is another.
/// Where memory is wanting, it may have been appended.
pub fn other_than(core: &mut Core, kept: &Entry) -> Result<Option<Entry>, NoMemory>
    ensures made { OnOk result (core.new ≡ replayed core.old kept.now) }
    ensures other { IfOk result (TellsOther (entry_for core.old kept.now) kept.now) }
{
    replay(core, kept)?;
    newest_if_other(core, kept)
}

/// The newest entry, where it isn't the kept one.
fn newest_if_other(core: &Core, kept: &Entry) -> Result<Option<Entry>, NoMemory>
    requires { (entry : Entry) × (slice_get core.now.1 0 ≡ Some entry) }
    ensures { (entry : Entry) → slice_get core.now.1 0 ≡ Some entry →
        IfOk result (TellsOther entry kept.now) }
{
    let Some(newest) = core.newest() else {
        unreachable!()
    };
    if newest.same(kept) {
        return Ok(None);
    }
    Ok(Some(copy_entry(newest)?))
}
