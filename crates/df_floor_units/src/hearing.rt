//! What units hear.

ghost use Rattle.std.specs.Prelude.{◌≡◌, IfErr, IfOk, OnErr, OnOk, length, slice_get};
ghost use Rattle.df_messages.specs.Messages.{match_in, number_in, offer_in, parties_in};
ghost use Rattle.df_floor_units.specs.Hearing.{acted_heard, acted_kind, first_of, heard_by_trader, heard_by_watcher, heard_of, heard_offer, heard_quote, heard_signal, quote_in, reads_of, signal_at};
ghost use Rattle.df_pairs.specs.Divergence.{after};

use crate::heard::Heard;
use crate::kind::Kind;
use crate::opening::name;
use df_frozen::{Frozen, Name};
use df_memory::NoMemory;
use df_messages::{
    Match, Offer, Parties, Symbol, read_match, read_number, read_offer, read_parties, read_tick,
};
use df_pairs::Pair;
use df_unit::PartRead;

fn first_match(parts: &[PartRead]) -> Result<Option<Match>, NoMemory>
    ensures { IfOk result (λ m. m ≡ first_of match_in parts.now) }
{
    for part in parts {
        let found = read_match(&part.value)?;
        if found.is_some() {
            return Ok(found);
        }
    }
    Ok(None)
}

fn first_offer(parts: &[PartRead]) -> Result<Option<Offer>, NoMemory>
    ensures { IfOk result (λ o. o ≡ first_of offer_in parts.now) }
{
    for part in parts {
        let offer = read_offer(&part.value)?;
        if offer.is_some() {
            return Ok(offer);
        }
    }
    Ok(None)
}

fn first_parties(parts: &[PartRead]) -> Option<Parties>
    ensures { result ≡ first_of parties_in parts.now }
{
    for part in parts {
        if let Some(parties) = read_parties(&part.value) {
            return Some(parties);
        }
    }
    None
}

fn first_number(parts: &[PartRead]) -> Option<i64>
    ensures { result ≡ first_of number_in parts.now }
{
    for part in parts {
        if let Some(number) = read_number(&part.value) {
            return Some(number);
        }
    }
    None
}

/// The price of one of two symbols that a value is: whether it is of the first, and the price.
fn quote_of(first: &Symbol, second: &Symbol, value: &Frozen) -> Option<(bool, i64)>
    ensures { result ≡ quote_in first.now second.now value.now }
{
    let tick = read_tick(value)?;
    if first.is(tick.symbol) {
        return Some((true, tick.price));
    }
    if second.is(tick.symbol) {
        return Some((false, tick.price));
    }
    None
}

fn first_quote(first: &Symbol, second: &Symbol, parts: &[PartRead]) -> Option<(bool, i64)>
    ensures { result ≡ first_of (quote_in first.now second.now) parts.now }
{
    for part in parts {
        if let Some(quote) = quote_of(first, second, &part.value) {
            return Some(quote);
        }
    }
    None
}

fn heard_quote(quote: Option<(bool, i64)>) -> Heard
    ensures { result ≡ heard_quote quote }
{
    match quote {
        Some((first, price)) => Heard::Quote { first, price },
        None => Heard::Nothing,
    }
}

fn heard_by_trader(sub: u32, parts: &[PartRead]) -> Result<Heard, NoMemory>
    ensures { IfOk result (λ h. h ≡ heard_by_trader sub parts.now) }
{
    if sub > 0 {
        return Ok(Heard::Nothing);
    }
    match first_match(parts)? {
        Some(found) => Ok(Heard::Match(found)),
        None => Ok(Heard::Nothing),
    }
}

fn heard_by_broker(parts: &[PartRead]) -> Result<Heard, NoMemory>
    ensures { IfOk result (λ h. h ≡ heard_offer (first_of offer_in parts.now)) }
{
    match first_offer(parts)? {
        Some(offer) => Ok(Heard::Offer(offer)),
        None => Ok(Heard::Nothing),
    }
}

fn heard_by_watcher(place: u32, heard: &Heard, parts: &[PartRead]) -> Heard
    ensures { result ≡ heard_by_watcher place heard.now parts.now }
{
    if place == 0 {
        return match first_parties(parts) {
            Some(parties) => Heard::Parties(parties),
            None => Heard::Nothing,
        };
    }
    match heard {
        Heard::Parties(parties) => match first_number(parts) {
            Some(number) => Heard::Trade {
                parties: *parties,
                number,
            },
            None => Heard::Nothing,
        },
        _ => Heard::Nothing,
    }
}

/// The divergence rule at a price.
fn watch(pair: &mut Pair, first: bool, price: i64) -> Heard
    ensures pair { pair.new ≡ after pair.old first price }
    ensures heard { result ≡ heard_signal (signal_at pair.old first price) }
{
    match pair.tick(first, price) {
        Some(signal) => Heard::Signal(signal),
        None => Heard::Nothing,
    }
}

impl Kind {
    /// How many reads are made of an event that came for a subscription.
    pub(crate) fn reads_len(&self, sub: u32) -> u32
        ensures { result ≡ length (reads_of self.now sub) }
    {
        match self {
            Kind::Exchange { .. } => 0,
            Kind::Broker(_) => 1,
            Kind::Regulator => 0,
            Kind::Trader(_) => 1,
            Kind::Monitor { .. } => 1,
            Kind::Watcher => 2,
        }
    }

    /// The name of the read at a place.
    #[tactic(auto, using(std::proofs::lemmas::Option::slice_get_past))]
    pub(crate) fn read_name(&self, sub: u32, place: u32) -> Option<Name>
        ensures { result ≡ slice_get (reads_of self.now sub) place }
    {
        if place >= self.reads_len(sub) {
            return None;
        }
        match self {
            Kind::Trader(_) => Some(if sub == 0 {
                name("match")
            } else {
                name("fill")
            }),
            Kind::Broker(_) => Some(name("order")),
            Kind::Monitor { .. } => Some(name("tick")),
            Kind::Watcher => Some(if place == 0 {
                name("who")
            } else {
                name("trade")
            }),
            _ => None,
        }
    }

    /// What the unit knows after a read.
    pub(crate) fn heard(
        &self,
        sub: u32,
        place: u32,
        heard: &Heard,
        parts: &[PartRead],
    ) -> Result<Heard, NoMemory>
        ensures { IfOk result (λ h. h ≡ heard_of self.now sub place heard.now parts.now) }
    {
        match self {
            Kind::Exchange { .. } => Ok(Heard::Nothing),
            Kind::Broker(_) => heard_by_broker(parts),
            Kind::Regulator => Ok(Heard::Nothing),
            Kind::Trader(_) => heard_by_trader(sub, parts),
            Kind::Monitor { first, second, .. } => {
                Ok(heard_quote(first_quote(first, second, parts)))
            }
            Kind::Watcher => Ok(heard_by_watcher(place, heard, parts)),
        }
    }

    /// Does what follows the drop of an event, and gives what is then to be told. Without memory
    /// it gives back what was heard.
    pub(crate) fn act(&mut self, heard: Heard) -> Result<Heard, Heard>
        ensures kind { OnOk result (self.new ≡ acted_kind self.old heard) }
        ensures heard { IfOk result (λ h. h ≡ acted_heard self.old heard) }
        ensures unchanged { OnErr result (self.new ≡ self.old) }
        ensures given_back { IfErr result (λ h. h ≡ heard) }
    {
        match self {
            Kind::Monitor { pair, .. } => match heard {
                Heard::Quote { first, price } => Ok(watch(pair, first, price)),
                heard => Ok(heard),
            },
            Kind::Broker(broker) => match heard {
                Heard::Offer(offer) => broker.act(offer),
                heard => Ok(heard),
            },
            _ => Ok(heard),
        }
    }
}
