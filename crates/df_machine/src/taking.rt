//! What is made ready, and what the tables take in, when a run is booked.

ghost use Rattle.std.specs.Prelude.{◌≡◌, ◌+◌, ◌<◌, IfOk, OnErr, OnOk, vec_capacity, vec_len};
ghost use Rattle.df_tables.specs.Board.{IsBoard, IsBooked, IsKept, answer_on};

use df_local::Answer;
use df_local_run::RunParts;
use df_memory::NoMemory;
use df_tables::Board;
use df_unit::{Call, Effect, Entry, Reply, UnitName};

/// Makes room in the journal for one more entry, and ready the name of its actor.
pub(crate) fn make_room_for(
    journal: &mut Vec<Entry>,
    actor: &UnitName,
) -> Result<UnitName, NoMemory>
    ensures name { IfOk result (λ name. name ≡ actor.now) }
    ensures room { OnOk result (vec_len journal.new < vec_capacity journal.new) }
    ensures journal { journal.new.items ≡ journal.old.items }
{
    journal.reserve(1)?;
    actor.copy()
}

/// Makes room in the journal for the entries of a run and one more, and ready the name of its
/// unit.
pub(crate) fn make_room(journal: &mut Vec<Entry>, run: &RunParts) -> Result<UnitName, NoMemory>
    ensures name { IfOk result (λ name. name ≡ run.now.base.unit) }
    ensures room { OnOk result (vec_len journal.new + vec_len run.now.entries
        < vec_capacity journal.new) }
    ensures journal { journal.new.items ≡ journal.old.items }
{
    journal.reserve(run.entries.len() + 1)?;
    let name = run.base.name().copy()?;
    Ok(name)
}

/// The answer to a call that the tables have taken in, and its reply a second time.
#[derive(Drop)]
pub(crate) struct Taken {
    pub reply: Reply,
    pub effect: Effect,
    pub kept: Reply,
}

/// Takes in a call, with the answer that its unit's row gives. Where memory is wanting, the tables
/// tell what they told.
pub(crate) fn take_in(board: &mut Board, actor: &UnitName, call: &Call) -> Result<Taken, NoMemory>
    requires { IsBoard board.old }
    ensures board { IsBoard board.new }
    ensures answer { IfOk result (λ t.
        answer_on board.old actor.now call.now ≡ (t.reply, t.effect)) }
    ensures kept { IfOk result (λ t. t.kept ≡ t.reply) }
    ensures booked { IfOk result (λ t.
        IsBooked actor.now call.now t.reply t.effect board.old board.new) }
    ensures told { OnErr result (IsKept board.old board.new) }
{
    let place = board.place(actor);
    let Answer { reply, effect } = board.answer(place, call)?;
    let kept = reply.copy()?;
    board.book(place, call, &reply, &effect)?;
    Ok(Taken {
        reply,
        effect,
        kept,
    })
}
