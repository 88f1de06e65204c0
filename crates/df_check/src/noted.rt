ghost use Rattle.std.specs.Prelude.{◌≡◌, ◌↔◌, IfOk, IsTrue, OnOk};
ghost use Rattle.df_machine.specs.Journal.{State};
ghost use Rattle.df_machine.specs.Tables.{AgreesWith};
ghost use Rattle.df_replay.specs.Noted.{AreRight};
ghost use Rattle.df_replay.specs.Replay.{replayed};
ghost use Rattle.df_check.specs.CheckNoted.{JudgesNoted, TellsOtherNoted, noted_for};
ghost use Rattle.df_check.specs.declared.noted.NotedVerdict.TheVariants.{Valid};

use df_label::Label;
use df_machine::Tables;
use df_memory::NoMemory;
use df_replay::{Compared, compare, copy_entry};
use df_start::Start;
use df_unit::Noted;
use std::alloc::Global;

/// What a check says of a journal whose entries are noted with contaminations. A place counts the
/// entries before it.
#[derive(Drop)]
pub enum NotedVerdict {
    Valid,
    Wrong { place: u64, expected: Noted },
}

/// Valid where the journal, its oldest entry first, is legal from the start and each label noted is
/// the contamination that the actor has before the entry; else the first place with another entry
/// or label, and the entry that the rules give, with its label.
pub fn check_noted(
    alloc: Global,
    start: &Start,
    journal: &[Noted],
) -> Result<NotedVerdict, NoMemory>
    ensures judges { IfOk result (JudgesNoted start.now journal.now) }
    ensures valid { IfOk result (λ verdict. (verdict ≡ Valid) ↔ AreRight start.now journal.now) }
{
    let mut tables = Tables::begin(alloc, start)?;
    for (place, kept) in journal.iter().enumerate() {
        if let Some(expected) = other_than(&mut tables, kept)? {
            let place = place as u64;
            return Ok(NotedVerdict::Wrong { place, expected });
        }
    }
    Ok(NotedVerdict::Valid)
}

/// The tables take in what the rules give where a kept entry stands. It is given where the kept
/// one, or the contamination before it, is another.
fn other_than(tables: &mut Tables, kept: &Noted) -> Result<Option<Noted>, NoMemory>
    requires { (core : State) × AgreesWith core tables.old }
    ensures made { OnOk result ((core : State) → AgreesWith core tables.old →
        AgreesWith (replayed core kept.now.entry) tables.new) }
    ensures other { IfOk result (λ other. (core : State) → AgreesWith core tables.old →
        TellsOtherNoted (noted_for core kept.now) kept.now other) }
{
    match compare(tables, &kept.entry)? {
        Compared::Same { contamination } => other_note(contamination, kept),
        Compared::Other { expected } => Ok(Some(expected)),
    }
}

/// The entry with this contamination, where another one is noted.
fn other_note(contamination: Option<Label>, kept: &Noted) -> Result<Option<Noted>, NoMemory>
    ensures { IfOk result (TellsOtherNoted
        (record { entry = kept.now.entry; contamination = contamination }) kept.now) }
{
    if is_noted(&contamination, &kept.contamination) {
        return Ok(None);
    }
    let entry = copy_entry(&kept.entry)?;
    Ok(Some(Noted {
        entry,
        contamination,
    }))
}

/// Whether this contamination is the one that is noted.
fn is_noted(contamination: &Option<Label>, noted: &Option<Label>) -> bool
    ensures { IsTrue result ↔ (contamination.now ≡ noted.now) }
{
    match (contamination, noted) {
        (Some(a), Some(b)) => a.same(b),
        (None, None) => true,
        _ => false,
    }
}
