//! What a crew keeps of its units' brains, before and after a turn is booked.

ghost use Rattle.std.specs.Prelude.{◌≡◌, ◌+◌, IfErr, IfOk, IfSome, List, OnErr, OnOk, Some, length};
ghost use Rattle.std.specs.Option.{option_map};
ghost use Rattle.df_booking.specs.Manned.{IsManned, seed_name};
ghost use Rattle.df_booking.specs.code.Renewal.{IsUnderWay, shared_of};
ghost use Rattle.df_booking.specs.code.Seeding.{IsSeed, IsSeeded, KeepsAtMost, seed_of};
ghost use Rattle.df_kept.specs.Kept.{IsPlace, kept_at};
ghost use Rattle.df_machine.specs.Booking.{booked};
ghost use Rattle.df_machine.specs.Journal.{State, local_of};
ghost use Rattle.df_rules.specs.Follows.{Last as Told, brain_of};
ghost use Rattle.df_turn.specs.code.Going.{IsEnded, IsGoing};
ghost use Rattle.df_unit.specs.declared.name.UnitName.{UnitName};

use crate::booking::book_going;
use df_brain::{Brain, Want};
use df_kept::Kept;
use df_label::TagSet;
use df_local::Local;
use df_machine::Core;
use df_memory::NoMemory;
use df_turn::{Going, Mind, Stage};
use df_unit::{Call, Path, UnitName};
use std::alloc::Global;

/// The name under which the brain of a subscription's instances is kept.
pub fn seed_name(alloc: Global, owner: &Path, sub: u32) -> Result<UnitName, NoMemory>
    ensures { IfOk result (λ name. name ≡ seed_name owner.now sub) }
{
    Ok(UnitName::Managed {
        owner: owner.copy()?,
        sub,
        s: TagSet::new(alloc),
    })
}

/// The brain of the instances of a subscription that a turn is to make, with the name under which
/// it is kept.
fn seed_for<B: Brain>(
    alloc: Global,
    unit: &Local,
    stage: &Stage,
    state: &B,
) -> Result<Option<(UnitName, B)>, NoMemory>
    ensures name { IfOk result (λ seed. option_map (λ (s : UnitName × B). s.0) seed
        ≡ seed_of unit.now stage.now) }
    ensures brain { IfOk result (λ seed. IfSome seed (λ s.
        s.1 ≡ B.instance state.now unit.now.own.subs)) }
{
    let Stage::Wants(Want::Call(Call::SubscribeManaged { .. })) = stage else {
        return Ok(None);
    };
    let UnitName::Root(owner) = unit.name() else {
        return Ok(None);
    };
    let sub = unit.subs_made();
    let name = seed_name(alloc, owner, sub)?;
    let brain = state.instance(sub)?;
    Ok(Some((name, brain)))
}

/// Keeps that brain.
fn seed<B: Brain>(
    alloc: Global,
    seeds: &mut Kept<B>,
    unit: &Local,
    stage: &Stage,
    state: &B,
) -> Result<(), NoMemory>
    ensures ok { OnOk result (IsSeeded (brain_of B.next B.instance) unit.now stage.now state.now
        seeds.old seeds.new) }
    ensures unchanged { OnErr result (seeds.new ≡ seeds.old) }
{
    if let Some((name, brain)) = seed_for(alloc, unit, stage, state)? {
        seeds.put(&name, brain)?;
    }
    Ok(())
}

/// Keeps a turn's brain as it was, where none of its unit is kept, and answers the unit's place.
#[tactic(auto, using(crate::proofs::Manning::keeps_one, crate::proofs::Manning::keeps_none))]
fn keep<B: Brain>(
    minds: &mut Kept<Mind<B>>,
    base: &Mind<B>,
    name: &UnitName,
) -> Result<usize, NoMemory>
    ensures kept { KeepsAtMost name.now base.now minds.old minds.new }
    ensures place { IfOk result (λ k. IsPlace name.now k minds.new) }
    ensures unchanged { OnErr result (minds.new ≡ minds.old) }
{
    match minds.place(name) {
        Some(place) => Ok(place),
        None => minds.put(name, base.share()?),
    }
}

/// Room for what a turn makes of its unit's brain, at the place that is answered, and of a
/// subscription's. The tables agree with the journal as before, also where there is no memory.
fn prepare<B: Brain>(
    alloc: Global,
    minds: &mut Kept<Mind<B>>,
    seeds: &mut Kept<B>,
    base: &Mind<B>,
    going: &Going<B>,
) -> Result<usize, NoMemory>
    ensures manned { (bs : List B) (core : State) →
        IsUnderWay (brain_of B.next B.instance) bs base.now going.now core →
        IsManned (brain_of B.next B.instance) bs minds.old seeds.old core →
        IsManned (brain_of B.next B.instance) bs minds.new seeds.new core }
    ensures place { IfOk result (λ k. IsPlace going.now.run.base.unit k minds.new) }
    ensures seeded { OnOk result (IsSeed (brain_of B.next B.instance) going.now.run.present
        going.now.stage going.now.state seeds.new) }
{
    let place = keep(minds, base, going.run.base().name())?;
    let unit = going.run.present();
    seed(alloc, seeds, unit, &going.stage, going.state.state())?;
    Ok(place)
}

/// Books a turn's local calls and then the shared call that is wanted, or a get where the turn
/// waits and a delivery is left, and renews its unit's brain; or gives the turn back where there is
/// no memory. The tables agree with the journal as before.
#[inline(never)]
pub fn book_kept<B: Brain>(
    alloc: Global,
    core: &mut Core,
    minds: &mut Kept<Mind<B>>,
    seeds: &mut Kept<B>,
    base: &Mind<B>,
    going: Going<B>,
) -> Result<u64, Going<B>>
    requires going { IsGoing (brain_of B.next B.instance) base.now going }
    requires ended { IsEnded going }
    requires unit { local_of core.old going.run.base.unit ≡ Some going.run.base }
    ensures manned { (bs : List B) →
        IsUnderWay (brain_of B.next B.instance) bs base.now going core.old →
        IsManned (brain_of B.next B.instance) bs minds.old seeds.old core.old →
        IsManned (brain_of B.next B.instance) bs minds.new seeds.new core.new }
    ensures entries { OnOk result (core.new
        ≡ booked going.run (shared_of going core.old) core.old) }
    ensures count { IfOk result (λ n. length core.new.1 ≡ n + length core.old.1) }
    ensures unchanged { OnErr result (core.new ≡ core.old) }
    ensures back { IfErr result (λ g. g ≡ going) }
{
    let Ok(place) = prepare(alloc, minds, seeds, base, &going) else {
        return Err(going);
    };
    match book_going(alloc, core, base, going) {
        Ok(booked) => {
            minds.renew(place, booked.mind);
            Ok(booked.count)
        }
        Err(going) => Err(going),
    }
}

/// Books a turn as `book_kept` does, where its unit's brain as it began is kept at this place.
#[inline(never)]
pub fn book_at<B: Brain>(
    alloc: Global,
    core: &mut Core,
    minds: &mut Kept<Mind<B>>,
    seeds: &mut Kept<B>,
    place: usize,
    going: Going<B>,
) -> Result<u64, Going<B>>
    requires place { IsPlace going.run.base.unit place minds.old }
    requires going { (m : B × Told) → kept_at going.run.base.unit minds.old ≡ Some m →
        IsGoing (brain_of B.next B.instance) m going }
    requires ended { IsEnded going }
    requires unit { local_of core.old going.run.base.unit ≡ Some going.run.base }
    ensures manned { (bs : List B) (m : B × Told) →
        kept_at going.run.base.unit minds.old ≡ Some m →
        IsUnderWay (brain_of B.next B.instance) bs m going core.old →
        IsManned (brain_of B.next B.instance) bs minds.old seeds.old core.old →
        IsManned (brain_of B.next B.instance) bs minds.new seeds.new core.new }
    ensures entries { OnOk result (core.new
        ≡ booked going.run (shared_of going core.old) core.old) }
    ensures count { IfOk result (λ n. length core.new.1 ≡ n + length core.old.1) }
    ensures unchanged { OnErr result (core.new ≡ core.old) }
    ensures back { IfErr result (λ g. g ≡ going) }
{
    let unit = going.run.present();
    let Ok(()) = seed(alloc, seeds, unit, &going.stage, going.state.state()) else {
        return Err(going);
    };
    match book_going(alloc, core, minds.at(place), going) {
        Ok(booked) => {
            minds.renew(place, booked.mind);
            Ok(booked.count)
        }
        Err(going) => Err(going),
    }
}
