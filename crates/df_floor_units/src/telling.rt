//! What units tell.

ghost use Rattle.std.specs.Prelude.{◌≡◌, ◌≤◌, None, IfOk, IfSome, length, slice_get};
ghost use Rattle.df_floor_units.specs.Broking.{trade_event};
ghost use Rattle.df_floor_units.specs.code.Trades.{IsFloorTrade};
ghost use Rattle.df_floor_units.specs.code.Parts.{most_parts};
ghost use Rattle.df_floor_units.specs.declared.kind.Kind.TheVariants as as_kind;
ghost use Rattle.df_floor_units.specs.Telling.{broker_parts, monitor_parts, parts_of, passed_kind, tick_parts, trader_parts, watcher_parts};

use crate::broker::Broker;
use crate::heard::Heard;
use crate::kind::Kind;
use crate::ticks::Ticks;
use crate::trader::{Trader, counted};
use df_book::Trade;
use df_memory::NoMemory;
use df_messages::{
    Draft, Match, Symbol, fill_draft, match_draft, offer_draft, tick_draft, trade_draft,
    warning_draft, who_draft,
};
use std::alloc::Global;

fn tick_part(alloc: Global, ticks: &Ticks, from: usize) -> Result<Option<Draft>, NoMemory>
    ensures { IfOk result (λ d. d ≡ slice_get (tick_parts (slice_get ticks.now from)) 0) }
{
    match ticks.get(from) {
        Some(tick) => Ok(Some(tick_draft(alloc, tick)?)),
        None => Ok(None),
    }
}

fn monitor_part(
    alloc: Global,
    first: &Symbol,
    second: &Symbol,
    heard: &Heard,
) -> Result<Option<Draft>, NoMemory>
    ensures { IfOk result (λ d. d ≡ slice_get (monitor_parts first.now second.now heard.now) 0) }
{
    let Heard::Signal(signal) = heard else {
        return Ok(None);
    };
    let found = Match {
        first: first.copy()?,
        second: second.copy()?,
        first_price: signal.first,
        second_price: signal.second,
        side: signal.side,
    };
    Ok(Some(match_draft(alloc, &found)?))
}

fn trader_part(alloc: Global, trader: &Trader, heard: &Heard) -> Result<Option<Draft>, NoMemory>
    ensures { IfOk result (λ d. d ≡ slice_get (trader_parts trader.now heard.now) 0) }
{
    match heard {
        Heard::Match(found) => {
            let offer = trader.offer(found, false)?;
            Ok(Some(offer_draft(alloc, &offer)?))
        }
        Heard::Second(found) => {
            let offer = trader.offer(found, true)?;
            Ok(Some(offer_draft(alloc, &offer)?))
        }
        _ => Ok(None),
    }
}

fn watcher_part(alloc: Global, heard: &Heard) -> Result<Option<Draft>, NoMemory>
    ensures { IfOk result (λ d. d ≡ slice_get (watcher_parts heard.now) 0) }
{
    match heard {
        Heard::Trade { parties, number } if parties.buyer == parties.seller => {
            Ok(Some(warning_draft(alloc, *number)?))
        }
        _ => Ok(None),
    }
}

#[tactic(auto, using(std::proofs::lemmas::Option::slice_get_past))]
fn trade_part(
    alloc: Global,
    number: i64,
    trade: &Trade,
    place: u32,
) -> Result<Option<Draft>, NoMemory>
    requires { IsFloorTrade trade.now }
    ensures { IfOk result (λ d. d ≡ slice_get (trade_event number trade.now) place) }
{
    match place {
        0 => Ok(Some(trade_draft(alloc, number, trade)?)),
        1 => Ok(Some(who_draft(alloc, trade)?)),
        2 => Ok(Some(fill_draft(alloc, number, trade, false)?)),
        3 => Ok(Some(fill_draft(alloc, number, trade, true)?)),
        _ => Ok(None),
    }
}

fn broker_part(
    alloc: Global,
    broker: &Broker,
    heard: &Heard,
    place: u32,
) -> Result<Option<Draft>, NoMemory>
    ensures { IfOk result (λ d. d ≡ slice_get (broker_parts broker.now heard.now) place) }
{
    let Heard::Trades { trades, from } = heard else {
        return Ok(None);
    };
    match trades.get(*from) {
        Some(trade) => trade_part(alloc, broker.next_trade, trade, place),
        None => Ok(None),
    }
}

/// How many parts the event has that a broker tells next.
fn broker_parts_len(broker: &Broker, heard: &Heard) -> u32
    ensures len { result ≡ length (broker_parts broker.now heard.now) }
    ensures few { result ≤ 4 }
{
    let tells = match heard {
        Heard::Trades { trades, from } => *from < trades.len(),
        _ => false,
    };
    if tells { 4 } else { 0 }
}

impl Kind {
    /// The first part of the event that is told next.
    fn first_part(&self, alloc: Global, heard: &Heard) -> Result<Option<Draft>, NoMemory>
        ensures { IfOk result (λ d. d ≡ slice_get (parts_of self.now heard.now) 0) }
    {
        match self {
            Kind::Exchange { ticks, from } => tick_part(alloc, ticks, *from),
            Kind::Broker(broker) => broker_part(alloc, broker, heard, 0),
            Kind::Regulator => Ok(None),
            Kind::Trader(trader) => trader_part(alloc, trader, heard),
            Kind::Monitor { first, second, .. } => monitor_part(alloc, first, second, heard),
            Kind::Watcher => watcher_part(alloc, heard),
        }
    }

    /// The broker, where the unit is one.
    fn as_broker(&self) -> Option<&Broker>
        ensures broker { IfSome result (λ b. self.now ≡ as_kind.Broker b.now) }
        ensures other { result ≡ None → most_parts self.now ≡ 1 }
    {
        match self {
            Kind::Broker(broker) => Some(broker),
            Kind::Exchange { .. } => None,
            Kind::Regulator => None,
            Kind::Trader(_) => None,
            Kind::Monitor { .. } => None,
            Kind::Watcher => None,
        }
    }

    /// How many parts the event has that another unit than a broker tells next.
    fn other_parts_len(&self, heard: &Heard) -> u32
        requires { most_parts self.now ≡ 1 }
        ensures len { result ≡ length (parts_of self.now heard.now) }
        ensures few { result ≤ 1 }
    {
        let tells = match self {
            Kind::Exchange { ticks, from } => *from < ticks.as_slice().len(),
            Kind::Broker(_) => unreachable!(),
            Kind::Regulator => false,
            Kind::Trader(_) => matches!(heard, Heard::Match(_) | Heard::Second(_)),
            Kind::Monitor { .. } => matches!(heard, Heard::Signal(_)),
            Kind::Watcher => match heard {
                Heard::Trade { parties, .. } => parties.buyer == parties.seller,
                _ => false,
            },
        };
        if tells { 1 } else { 0 }
    }

    /// How many parts the event has that is told next; none where nothing is told.
    pub(crate) fn parts_len(&self, heard: &Heard) -> u32
        ensures len { result ≡ length (parts_of self.now heard.now) }
        ensures few { result ≤ most_parts self.now }
    {
        match self.as_broker() {
            Some(broker) => broker_parts_len(broker, heard),
            None => self.other_parts_len(heard),
        }
    }

    /// The part at a place of the event that is told next.
    pub(crate) fn part(
        &self,
        alloc: Global,
        heard: &Heard,
        place: u32,
    ) -> Result<Option<Draft>, NoMemory>
        ensures { IfOk result (λ d. d ≡ slice_get (parts_of self.now heard.now) place) }
    {
        if place >= self.parts_len(heard) {
            return Ok(None);
        }
        match self.as_broker() {
            Some(broker) => broker_part(alloc, broker, heard, place),
            None => self.first_part(alloc, heard),
        }
    }

    /// An event was told.
    pub(crate) fn pass(&mut self)
        ensures { self.new ≡ passed_kind self.old }
    {
        match self {
            Kind::Exchange { ticks, from } => {
                if *from < ticks.as_slice().len() {
                    *from += 1;
                }
            }
            Kind::Broker(broker) => broker.next_trade = counted(broker.next_trade),
            Kind::Trader(trader) => trader.next_order = counted(trader.next_order),
            _ => (),
        }
    }
}
