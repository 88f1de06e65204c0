ghost use Rattle.std.specs.Prelude.{◌≡◌, IfOk, OnOk};
ghost use Rattle.df_machine.specs.Journal.{State, contamination_in};
ghost use Rattle.df_machine.specs.Tables.{AgreesWith, place_in};
ghost use Rattle.df_replay.specs.Noted.{contamination_of};
ghost use Rattle.df_replay.specs.Replay.{Compares, ComparesTo, replayed};
ghost use Rattle.df_unit.specs.declared.entry.Entry.TheVariants.{Done};
ghost use Rattle.df_unit.specs.declared.name.UnitName.{UnitName};

use crate::entry::done;
use df_label::Label;
use df_local::Answer;
use df_machine::Tables;
use df_memory::NoMemory;
use df_unit::{Call, Effect, Entry, Noted, Reply, UnitName};

/// What a kept entry is, beside the one that the rules give there.
#[derive(Drop)]
pub enum Compared {
    /// It is that one, and before it its actor has this contamination.
    Same { contamination: Option<Label> },
    /// The rules give this one, before which its actor has this contamination.
    Other { expected: Noted },
}

/// The tables take in what the rules give where a kept entry stands, and give the contamination
/// that its actor has before it.
pub fn repeat(tables: &mut Tables, kept: &Entry) -> Result<Option<Label>, NoMemory>
    requires { (core : State) × AgreesWith core tables.old }
    ensures contamination { IfOk result (λ c. (core : State) → AgreesWith core tables.old →
        c ≡ contamination_of core kept.now) }
    ensures made { OnOk result ((core : State) → AgreesWith core tables.old →
        AgreesWith (replayed core kept.now) tables.new) }
{
    match kept {
        Entry::Done { actor, call, .. } => {
            let place = tables.place(actor);
            let contamination = contamination_at(tables, place)?;
            drop(tables.step(place, call)?);
            Ok(contamination)
        }
        Entry::Emitted(commit) => {
            tables.emitted(commit)?;
            Ok(None)
        }
    }
}

/// The tables take in what the rules give where a kept entry stands, and it is compared.
pub fn compare(tables: &mut Tables, kept: &Entry) -> Result<Compared, NoMemory>
    requires { (core : State) × AgreesWith core tables.old }
    ensures compares { IfOk result (λ compared. (core : State) → AgreesWith core tables.old →
        Compares core kept.now compared) }
    ensures made { OnOk result ((core : State) → AgreesWith core tables.old →
        AgreesWith (replayed core kept.now) tables.new) }
{
    match kept {
        Entry::Done {
            actor,
            call,
            reply,
            effect,
        } => {
            let place = tables.place(actor);
            let contamination = contamination_at(tables, place)?;
            let answer = tables.step(place, call)?;
            compare_answer(actor, call, reply, effect, answer, contamination)
        }
        Entry::Emitted(commit) => {
            tables.emitted(commit)?;
            Ok(Compared::Same {
                contamination: None,
            })
        }
    }
}

/// The contamination of the unit whose row is at a place, a second time.
fn contamination_at(tables: &Tables, place: Option<usize>) -> Result<Option<Label>, NoMemory>
    ensures { IfOk result (λ c. (core : State) (unit : UnitName) → AgreesWith core tables.now →
        place ≡ place_in tables.now unit → c ≡ contamination_in core unit) }
{
    match tables.contamination(place) {
        Some(label) => Ok(Some(label.copy()?)),
        None => Ok(None),
    }
}

/// Compares the kept answer to a call with this one, before which the actor has this contamination.
fn compare_answer(
    actor: &UnitName,
    call: &Call,
    reply: &Reply,
    effect: &Effect,
    answer: Answer,
    contamination: Option<Label>,
) -> Result<Compared, NoMemory>
    ensures { IfOk result (ComparesTo (Done actor.now call.now answer.reply answer.effect)
        contamination (Done actor.now call.now reply.now effect.now)) }
{
    if answer.reply.same(reply) && answer.effect.same(effect) {
        drop(answer);
        return Ok(Compared::Same { contamination });
    }
    match done(actor, call, answer) {
        Ok(entry) => Ok(Compared::Other {
            expected: Noted {
                entry,
                contamination,
            },
        }),
        Err(refused) => {
            drop(contamination);
            Err(refused)
        }
    }
}
