//! The calls with which units open.

ghost use Rattle.std.specs.Prelude.{◌≡◌, true, IfOk, codes, length, slice_get, [], ◌∷◌};
ghost use Rattle.df_frozen.specs.Name.{is_name};
ghost use Rattle.df_floor_units.specs.Floor.{is_release, is_subscription};
ghost use Rattle.df_floor_units.specs.Opening.{broker_opening, monitor_opening, opening, present, regulator_opening, release_of, tick_of, trader_opening, watcher_opening};

use crate::kind::Kind;
use df_filter::{Clause, FieldTest, Filter, Test};
use df_frozen::{Name, Words};
use df_label::Tag;
use df_memory::NoMemory;
use df_messages::Symbol;
use df_priv::{Act, Half};
use df_unit::Call;
use std::alloc::Global;

/// The name of this text.
pub(crate) fn name(text: &str) -> Name
    requires { is_name text.now ≡ true }
    ensures { result ≡ text.now }
{
    match Name::new(text) {
        Ok(name) => name,
        Err(_) => unreachable!(),
    }
}

fn present(text: &str) -> Clause
    requires { is_name text.now ≡ true }
    ensures { result ≡ present text.now }
{
    Clause {
        name: name(text),
        test: Test::Present,
    }
}

fn tick_of(symbol: &Words) -> Result<Clause, NoMemory>
    ensures { IfOk result (λ c. c ≡ tick_of symbol.now) }
{
    let symbol = symbol.copy()?;
    Ok(Clause {
        name: name("tick"),
        test: Test::Key(name("symbol"), FieldTest::TextEq(symbol)),
    })
}

fn one(alloc: Global, clause: Clause) -> Result<Filter, NoMemory>
    ensures { IfOk result (λ f. f ≡ clause ∷ []) }
{
    let clauses = vec![in alloc; clause]?;
    match Filter::new(clauses) {
        Ok(filter) => Ok(filter),
        Err(_) => unreachable!(),
    }
}

fn two(alloc: Global, first: Clause, second: Clause) -> Result<Filter, NoMemory>
    ensures { IfOk result (λ f. f ≡ first ∷ second ∷ []) }
{
    let clauses = vec![in alloc; first, second]?;
    match Filter::new(clauses) {
        Ok(filter) => Ok(filter),
        Err(_) => unreachable!(),
    }
}

fn release(alloc: Global, number: u32) -> Result<Call, NoMemory>
    ensures { IfOk result (λ c. c ≡ release_of number) }
{
    Ok(Call::ChangeOutLabel {
        half: Half::S,
        act: Act::Del,
        tag: Tag::new(alloc, &[], number)?,
    })
}

fn subscription(alloc: Global, clause: Clause) -> Result<Call, NoMemory>
    ensures { IfOk result (λ c. c ≡ Call.Subscribe (clause ∷ [])) }
{
    Ok(Call::Subscribe {
        filter: one(alloc, clause)?,
    })
}

fn watching(alloc: Global, symbol: &Symbol) -> Result<Call, NoMemory>
    ensures { IfOk result (λ c. c ≡ Call.Subscribe (tick_of symbol.now ∷ [])) }
{
    let clause = tick_of(symbol.as_words())?;
    subscription(alloc, clause)
}

fn managed(alloc: Global) -> Result<Call, NoMemory>
    ensures { IfOk result (λ c. c ≡ Call.SubscribeManaged
        (present (codes "trade") ∷ present (codes "who") ∷ [])) }
{
    Ok(Call::SubscribeManaged {
        filter: two(alloc, present("trade"), present("who"))?,
    })
}

#[tactic(auto, using(std::proofs::lemmas::Option::slice_get_past))]
fn regulator_call(alloc: Global, place: u32) -> Result<Option<Call>, NoMemory>
    ensures { IfOk result (λ c. c ≡ slice_get regulator_opening place) }
{
    if place > 0 {
        return Ok(None);
    }
    Ok(Some(managed(alloc)?))
}

#[tactic(auto, using(std::proofs::lemmas::Option::slice_get_past))]
fn watcher_call(alloc: Global, place: u32) -> Result<Option<Call>, NoMemory>
    ensures { IfOk result (λ c. c ≡ slice_get watcher_opening place) }
{
    if place > 0 {
        return Ok(None);
    }
    Ok(Some(release(alloc, 2)?))
}

#[tactic(auto, using(std::proofs::lemmas::Option::slice_get_past))]
fn broker_call(alloc: Global, place: u32) -> Result<Option<Call>, NoMemory>
    ensures { IfOk result (λ c. c ≡ slice_get broker_opening place) }
{
    match place {
        0 => Ok(Some(release(alloc, 1)?)),
        1 => Ok(Some(subscription(alloc, present("order"))?)),
        _ => Ok(None),
    }
}

#[tactic(auto, using(std::proofs::lemmas::Option::slice_get_past))]
fn trader_call(alloc: Global, number: u16, place: u32) -> Result<Option<Call>, NoMemory>
    ensures { IfOk result (λ c. c ≡ slice_get (trader_opening number) place) }
{
    match place {
        0 => Ok(Some(release(alloc, 3 + u32::from(number))?)),
        1 => Ok(Some(subscription(alloc, present("match"))?)),
        2 => Ok(Some(subscription(alloc, present("fill"))?)),
        _ => Ok(None),
    }
}

#[tactic(auto, using(std::proofs::lemmas::Option::slice_get_past))]
fn monitor_call(
    alloc: Global,
    first: &Symbol,
    second: &Symbol,
    place: u32,
) -> Result<Option<Call>, NoMemory>
    ensures { IfOk result (λ c. c ≡ slice_get (monitor_opening first.now second.now) place) }
{
    match place {
        0 => Ok(Some(watching(alloc, first)?)),
        1 => Ok(Some(watching(alloc, second)?)),
        _ => Ok(None),
    }
}

impl Kind {
    /// How many calls the unit opens with.
    pub(crate) fn opening_len(&self) -> u32
        ensures { result ≡ length (opening self.now) }
    {
        match self {
            Kind::Exchange { .. } => 0,
            Kind::Broker(_) => 2,
            Kind::Regulator => 1,
            Kind::Trader(_) => 3,
            Kind::Monitor { .. } => 2,
            Kind::Watcher => 1,
        }
    }

    /// The call at a place of the opening.
    pub(crate) fn opening_call(&self, alloc: Global, place: u32) -> Result<Option<Call>, NoMemory>
        ensures { IfOk result (λ c. c ≡ slice_get (opening self.now) place) }
    {
        match self {
            Kind::Exchange { .. } => Ok(None),
            Kind::Broker(_) => broker_call(alloc, place),
            Kind::Regulator => regulator_call(alloc, place),
            Kind::Trader(trader) => trader_call(alloc, trader.number, place),
            Kind::Monitor { first, second, .. } => monitor_call(alloc, first, second, place),
            Kind::Watcher => watcher_call(alloc, place),
        }
    }

    /// Whether the call at a place of the opening lets something out.
    #[tactic(auto, using(std::proofs::lemmas::Option::slice_get_past))]
    pub(crate) fn releases(&self, place: u32) -> bool
        ensures { result ≡ is_release (slice_get (opening self.now) place) }
    {
        match self {
            Kind::Broker(_) => place == 0,
            Kind::Trader(_) => place == 0,
            Kind::Watcher => place == 0,
            _ => false,
        }
    }

    /// Whether the call at a place of the opening is a subscription.
    pub(crate) fn subscribes(&self, place: u32) -> bool
        ensures { result ≡ is_subscription (slice_get (opening self.now) place) }
    {
        place < self.opening_len() && !self.releases(place)
    }
}
