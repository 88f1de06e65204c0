//! A turn is booked in the machine, and the brain behind it.

ghost use Rattle.std.specs.Prelude.{◌≡◌, ◌+◌, IfErr, IfOk, None, OnErr, OnOk, false, length};
ghost use Rattle.df_booking.specs.code.Renewal.{is_rest, left_by, mind_behind, shared_of};
ghost use Rattle.df_booking.specs.code.Seeding.{back_of, behind, count_of, shared_by};
ghost use Rattle.df_brain.specs.declared.want.Want.TheVariants.{Wait};
ghost use Rattle.df_machine.specs.Booking.{booked, reply_booked};
ghost use Rattle.df_machine.specs.Journal.{local_of};
ghost use Rattle.df_turn.specs.declared.stage.Stage.TheVariants.{Wants};
ghost use Rattle.df_rules.specs.Follows.{brain_of};
ghost use Rattle.df_turn.specs.code.Going.{IsEnded, IsGoing, IsSettled, now_of};

use df_brain::{Brain, Last, Want};
use df_machine::Core;
use df_turn::{Going, Mind, Shared, Stage};
use df_unit::{Call, Reply};
use std::alloc::Global;

/// What a brain does next behind a turn, without the shared call that follows.
#[derive(Drop)]
enum Rest {
    Long(Last),
    Called,
    Waits,
}

/// The shared call that follows the local calls of a turn, if any, and the rest: a get only where
/// a delivery is left.
fn parted(stage: Stage, due: bool) -> (Option<Call>, Rest)
    requires { IsSettled stage }
    ensures shared { result.0 ≡ shared_by due stage }
    ensures back { back_of result.1 result.0 ≡ stage }
{
    match stage {
        Stage::Told(last) => (None, Rest::Long(last)),
        Stage::Answered => unreachable!(),
        Stage::Wants(Want::Call(call)) => (Some(call), Rest::Called),
        Stage::Wants(Want::Wait) => (if due { Some(Call::Get) } else { None }, Rest::Waits),
    }
}

/// Whether a brain waits, and no delivery is left.
fn rests(stage: &Stage, due: bool) -> bool
    ensures { result ≡ is_rest due stage.now }
{
    match stage {
        Stage::Wants(Want::Wait) => !due,
        _ => false,
    }
}

/// How many shared calls follow.
fn count_of(shared: &Option<Call>) -> u64
    ensures { result ≡ count_of shared.now }
{
    match shared {
        Some(_) => 1,
        None => 0,
    }
}

/// What the brain does next, from its two parts.
fn joined(rest: Rest, shared: Option<Call>) -> Stage
    ensures { result ≡ back_of rest shared }
{
    match (rest, shared) {
        (Rest::Long(last), _) => Stage::Told(last),
        (Rest::Called, Some(call)) => Stage::Wants(Want::Call(call)),
        _ => Stage::Wants(Want::Wait),
    }
}

/// The brain behind a turn that made all its calls: it is told the reply to the shared one.
fn behind<B: Brain>(state: Shared<B>, rest: Rest, reply: Option<Reply>) -> Mind<B>
    ensures { result ≡ behind state rest reply }
{
    match (rest, reply) {
        (_, Some(reply)) => Mind::new(state, Last::Reply(reply)),
        (Rest::Long(last), None) => Mind::new(state, last),
        (_, None) => Mind::new(state, Last::Start),
    }
}

/// What a booked turn leaves: its unit's brain, and how many entries it has.
#[derive(Drop)]
pub(crate) struct Booked<B: Brain> {
    pub(crate) mind: Mind<B>,
    pub(crate) count: u64,
}

/// Books the local calls of a turn, and then the shared call that is wanted, or a get where the
/// turn waits and a delivery is left, as is told.
#[inline(never)]
fn book_calls<B: Brain>(core: &mut Core, going: Going<B>, due: bool) -> Result<Booked<B>, Going<B>>
    requires current { local_of core.old going.run.base.unit ≡ Some going.run.base }
    requires settled { IsSettled going.stage }
    ensures entries { OnOk result (core.new
        ≡ booked going.run (shared_by due going.stage) core.old) }
    ensures mind { IfOk result (λ b. b.mind ≡ left_by going.state going.stage
        (reply_booked going.run (shared_by due going.stage) core.old)) }
    ensures count { IfOk result (λ b. length core.new.1 ≡ b.count + length core.old.1) }
    ensures unchanged { OnErr result (core.new ≡ core.old) }
    ensures back { IfErr result (λ g. g ≡ going) }
{
    let Going { run, state, stage } = going;
    let (shared, rest) = parted(stage, due);
    let count = run.entries().len() as u64 + count_of(&shared);
    match core.book_current(run, shared) {
        Ok(reply) => Ok(Booked {
            mind: behind(state, rest, reply),
            count,
        }),
        Err(refused) => {
            let run = refused.run;
            let stage = joined(rest, refused.shared);
            Err(Going { run, state, stage })
        }
    }
}

/// Books the local calls of a turn behind which the unit waits. Its brain is the one before the
/// wait, and known to wait.
#[inline(never)]
fn book_rest<B: Brain>(
    alloc: Global,
    core: &mut Core,
    base: &Mind<B>,
    going: Going<B>,
) -> Result<Booked<B>, Going<B>>
    requires going { IsGoing (brain_of B.next B.instance) base.now going }
    requires waits { going.stage ≡ Wants Wait }
    requires current { local_of core.old going.run.base.unit ≡ Some going.run.base }
    ensures entries { OnOk result (core.new ≡ booked going.run None core.old) }
    ensures mind { IfOk result (λ b.
        b.mind ≡ now_of (brain_of B.next B.instance) base.now going) }
    ensures count { IfOk result (λ b. length core.new.1 ≡ b.count + length core.old.1) }
    ensures unchanged { OnErr result (core.new ≡ core.old) }
    ensures back { IfErr result (λ g. g ≡ going) }
{
    let Ok(mind) = going.resting(alloc, base) else {
        return Err(going);
    };
    let Going { run, state, stage } = going;
    let count = run.entries().len() as u64;
    match core.book_current(run, None) {
        Ok(_) => Ok(Booked { mind, count }),
        Err(refused) => {
            let run = refused.run;
            Err(Going { run, state, stage })
        }
    }
}

/// Books the local calls of a turn, and then the shared call that is wanted, or a get where the
/// turn waits and a delivery is left.
pub(crate) fn book_going<B: Brain>(
    alloc: Global,
    core: &mut Core,
    base: &Mind<B>,
    going: Going<B>,
) -> Result<Booked<B>, Going<B>>
    requires going { IsGoing (brain_of B.next B.instance) base.now going }
    requires ended { IsEnded going }
    requires current { local_of core.old going.run.base.unit ≡ Some going.run.base }
    ensures entries { OnOk result (core.new
        ≡ booked going.run (shared_of going core.old) core.old) }
    ensures mind { IfOk result (λ b.
        b.mind ≡ mind_behind (brain_of B.next B.instance) base.now going core.old) }
    ensures count { IfOk result (λ b. length core.new.1 ≡ b.count + length core.old.1) }
    ensures unchanged { OnErr result (core.new ≡ core.old) }
    ensures back { IfErr result (λ g. g ≡ going) }
{
    let due = core.has_delivery(going.run.base().name());
    if rests(&going.stage, due) {
        return book_rest(alloc, core, base, going);
    }
    book_calls(core, going, due)
}
