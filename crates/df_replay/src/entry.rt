ghost use Rattle.std.specs.Prelude.{◌≡◌, IfOk};
ghost use Rattle.df_unit.specs.declared.entry.Entry.TheVariants.{Done};

use crate::copy_call;
use df_local::Answer;
use df_memory::NoMemory;
use df_unit::{Call, Commit, Effect, Entry, Reply, UnitName};

/// An equal commit, which shares the parts that it adds.
pub fn copy_commit(commit: &Commit) -> Result<Commit, NoMemory>
    ensures { IfOk result (λ c. c ≡ commit.now) }
{
    let event = commit.event.copy()?;
    let edit = commit.edit.copy()?;
    Ok(Commit { event, edit })
}

fn copy_effect(effect: &Effect) -> Result<Effect, NoMemory>
    ensures { IfOk result (λ f. f ≡ effect.now) }
{
    match effect {
        Effect::Nothing => Ok(Effect::Nothing),
        Effect::Commit(commit) => Ok(Effect::Commit(copy_commit(commit)?)),
        Effect::Given(given) => Ok(Effect::Given(given.copy()?)),
    }
}

/// An equal answer, which shares parts and values.
fn copy_answer(reply: &Reply, effect: &Effect) -> Result<Answer, NoMemory>
    ensures reply { IfOk result (λ answer. answer.reply ≡ reply.now) }
    ensures effect { IfOk result (λ answer. answer.effect ≡ effect.now) }
{
    let reply = reply.copy()?;
    match copy_effect(effect) {
        Ok(effect) => Ok(Answer { reply, effect }),
        Err(refused) => {
            drop(reply);
            Err(refused)
        }
    }
}

/// An equal name and an equal call, which shares its filter or value.
fn copy_asked(actor: &UnitName, call: &Call) -> Result<(UnitName, Call), NoMemory>
    ensures { IfOk result (λ asked. asked ≡ (actor.now, call.now)) }
{
    let actor = actor.copy()?;
    match copy_call(call) {
        Ok(call) => Ok((actor, call)),
        Err(refused) => {
            drop(actor);
            Err(refused)
        }
    }
}

/// The entry of a call that was answered so.
pub(crate) fn done(actor: &UnitName, call: &Call, answer: Answer) -> Result<Entry, NoMemory>
    ensures { IfOk result (λ entry. entry
        ≡ Done actor.now call.now answer.reply answer.effect) }
{
    match copy_asked(actor, call) {
        Ok((actor, call)) => Ok(Entry::Done {
            actor,
            call,
            reply: answer.reply,
            effect: answer.effect,
        }),
        Err(refused) => {
            drop(answer);
            Err(refused)
        }
    }
}

/// An equal entry, which shares parts and values.
pub fn copy_entry(entry: &Entry) -> Result<Entry, NoMemory>
    ensures { IfOk result (λ e. e ≡ entry.now) }
{
    match entry {
        Entry::Done {
            actor,
            call,
            reply,
            effect,
        } => done(actor, call, copy_answer(reply, effect)?),
        Entry::Emitted(commit) => Ok(Entry::Emitted(copy_commit(commit)?)),
    }
}
