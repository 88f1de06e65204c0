//! What an entry without a commit makes of the row of its actor.

ghost use Rattle.std.specs.Prelude.{◌≡◌, ◌<◌, ◌∷◌, [], ◌++◌, length, IfOk, OnErr, OnOk};
ghost use Rattle.std.specs.Option.{option_map};
ghost use Rattle.df_rules.specs.Start.{rows};
ghost use Rattle.df_unit.specs.declared.call.Call.TheVariants.{Subscribe};
ghost use Rattle.df_unit.specs.declared.entry.Effect.{Effect};
ghost use Rattle.df_unit.specs.declared.reply.Reply.{Reply};
ghost use Rattle.df_unit.specs.declared.reply.Reply.TheVariants.{Sub};
ghost use Rattle.df_local.specs.Brief.{accepted_reply, brief_call};
ghost use Rattle.df_local.specs.Locally.{closing, made_where, told_if};
ghost use Rattle.df_tables.specs.Hand.{IsAnsweredAt, IsClosedAt, IsGiven, IsGivenAt, IsMadeAt, modify, received_answer, shut_row};
ghost use Rattle.df_tables.specs.Moves.{IsAnswered};
ghost use Rattle.df_tables.specs.Table.{moved_row, taken};

use crate::line::Line;
use crate::units::Unit;
use df_filter::Filter;
use df_index::Index;
use df_local::{Accepted, Answer, Brief, Close};
use df_memory::NoMemory;
use df_unit::{Call, Effect, Given, Reply};

/// The line without the delivery that is handed over.
fn take_from(line: &mut Line, effect: &Effect)
    ensures { line.new ≡ taken effect.now line.old }
{
    if let Effect::Given(_) = effect {
        drop(line.pop());
    }
}

/// Moves a unit's row as its entry does. Where memory is wanting, it is as before.
fn move_row(unit: &mut Unit, call: &Call, reply: &Reply, effect: &Effect) -> Result<(), NoMemory>
    requires right { IsAnswered call.now reply.now effect.now unit.old }
    ensures ok { OnOk result (unit.new ≡ moved_row rows call.now reply.now effect.now unit.old) }
    ensures unchanged { OnErr result (unit.new ≡ unit.old) }
{
    unit.local.take(call, reply, effect)?;
    take_from(&mut unit.line, effect);
    Ok(())
}

/// Moves the row at a place as its unit's entry does. Where memory is wanting, the table is as
/// before.
pub fn move_at(
    units: &mut [Unit],
    place: usize,
    call: &Call,
    reply: &Reply,
    effect: &Effect,
) -> Result<(), NoMemory>
    requires within { place < length units.old }
    requires right { IsAnsweredAt place call.now reply.now effect.now units.old }
    ensures ok { OnOk result (units.new
        ≡ modify place (moved_row rows call.now reply.now effect.now) units.old) }
    ensures unchanged { OnErr result (units.new ≡ units.old) }
{
    let unit = &mut units[place];
    move_row(unit, call, reply, effect)
}

/// Makes a call that the unit at a place makes of its own state alone, and puts what it is told in
/// place of an Ok; false where it is another. Where memory is wanting, the table is as before.
pub fn make_at(
    units: &mut [Unit],
    place: usize,
    call: &Call,
    reply: &mut Reply,
) -> Result<bool, NoMemory>
    requires within { place < length units.old }
    requires ok { reply.old ≡ Reply.Ok }
    ensures made { IfOk result (λ made. IsMadeAt place call.now (told_if made reply.new)
        units.old units.new) }
    ensures unchanged { OnErr result (units.new ≡ units.old) }
{
    let unit = &mut units[place];
    match unit.local.make_alone(call, reply) {
        Ok(made) => Ok(made),
        Err(refused) => Err(refused),
    }
}

/// Makes a call that creates an event or drops one, where the unit at a place accepts it; None, and
/// nothing is done, where it doesn't. Where memory is wanting, the table is as before.
pub fn make_brief_at(
    units: &mut [Unit],
    place: usize,
    brief: Brief,
) -> Result<Option<Accepted>, NoMemory>
    requires within { place < length units.old }
    ensures made { IfOk result (λ made. IsMadeAt place (brief_call brief)
        (option_map accepted_reply made) units.old units.new) }
    ensures unchanged { OnErr result (units.new ≡ units.old) }
{
    let unit = &mut units[place];
    match unit.local.make_brief(brief) {
        Ok(made) => Ok(made),
        Err(refused) => Err(refused),
    }
}

/// What a unit receives by a get: an event, under a handle, or nothing, since none is left or the
/// unit may open no handle more.
#[derive(Drop)]
pub enum Received {
    Event { h: u32, given: Given },
    Nothing,
    TooManyHandles,
}

impl Received {
    /// What the get is answered.
    pub fn answer(self) -> Answer
        ensures { (result.reply, result.effect) ≡ received_answer self }
    {
        match self {
            Received::Event { h, given } => Answer {
                reply: Reply::Event { h, sub: given.sub },
                effect: Effect::Given(given),
            },
            Received::Nothing => quiet(Reply::Nothing),
            Received::TooManyHandles => quiet(Reply::TooManyHandles),
        }
    }
}

/// An answer without effect.
fn quiet(reply: Reply) -> Answer
    ensures reply { result.reply ≡ reply }
    ensures effect { result.effect ≡ Effect.Nothing }
{
    Answer {
        reply,
        effect: Effect::Nothing,
    }
}

/// Hands the first delivery that is left over to its unit, which asks for it. Where memory is
/// wanting, the row is as before.
fn give(unit: &mut Unit) -> Result<Received, NoMemory>
    ensures given { IfOk result (λ received. IsGiven (received_answer received) unit.old unit.new) }
    ensures unchanged { OnErr result (unit.new ≡ unit.old) }
{
    let Some(given) = unit.line.first() else {
        return Ok(Received::Nothing);
    };
    let Some(h) = unit.local.view(given)? else {
        return Ok(Received::TooManyHandles);
    };
    match unit.line.pop() {
        Some(given) => Ok(Received::Event { h, given }),
        None => unreachable!(),
    }
}

/// Hands the first delivery that is left to the unit at a place over to it, which asks for it.
/// Where memory is wanting, the table is as before.
pub fn give_at(units: &mut [Unit], place: usize) -> Result<Received, NoMemory>
    requires within { place < length units.old }
    ensures given { IfOk result (λ received.
        IsGivenAt place (received_answer received) units.old units.new) }
    ensures unchanged { OnErr result (units.new ≡ units.old) }
{
    let unit = &mut units[place];
    give(unit)
}

/// Closes a handle of the unit at a place. Takes no memory.
pub fn shut_at(units: &mut [Unit], place: usize, h: u32)
    requires within { place < length units.old }
    ensures { units.new ≡ modify place (shut_row h) units.old }
{
    let unit = &mut units[place];
    unit.local.shut(h);
}

/// Closes a handle of the unit at a place by a publish or a release that is answered with Ok, puts
/// its effect there, and tells so. Where it is refused or memory is wanting, the table is as before.
pub fn close_at(
    units: &mut [Unit],
    place: usize,
    h: u32,
    how: Close,
    effect: &mut Effect,
) -> Result<bool, NoMemory>
    requires within { place < length units.old }
    ensures made { IfOk result (λ is. IsClosedAt place (closing how h) h (made_where is effect.new)
        units.old units.new) }
    ensures unchanged { OnErr result (units.new ≡ units.old) }
{
    let unit = &mut units[place];
    unit.local.close(h, how, effect)
}

/// Counts a subscription in the own state of the unit at a place. Takes no memory.
fn count_at(units: &mut [Unit], place: usize, filter: &Filter, number: u32)
    requires within { place < length units.old }
    requires right { IsAnsweredAt place (Subscribe filter.now) (Sub number) Effect.Nothing
        units.old }
    ensures { units.new ≡ modify place
        (moved_row rows (Subscribe filter.now) (Sub number) Effect.Nothing) units.old }
{
    let unit = &mut units[place];
    let _reply = unit.local.count_sub();
}

/// Enrols the subscription that the unit at a place makes. Where memory is wanting, the tables
/// are as before.
pub fn subscribe(
    units: &mut [Unit],
    index: &mut Index<Filter>,
    place: usize,
    filter: &Filter,
    number: u32,
) -> Result<(), NoMemory>
    requires within { place < length units.old }
    requires right { IsAnsweredAt place (Subscribe filter.now) (Sub number) Effect.Nothing
        units.old }
    ensures ok { OnOk result (units.new ≡ modify place
        (moved_row rows (Subscribe filter.now) (Sub number) Effect.Nothing) units.old) }
    ensures enrolled { OnOk result (index.new.enrolled ≡ index.old.enrolled
        ++ record { unit = place; sub = number; filter = filter.now } ∷ []) }
    ensures handed { index.new.handed ≡ index.old.handed }
    ensures unchanged { OnErr result (units.new ≡ units.old) }
    ensures as_before { OnErr result (index.new ≡ index.old) }
{
    let copy = filter.copy()?;
    index.enrol(place, number, copy)?;
    count_at(units, place, filter, number);
    Ok(())
}
