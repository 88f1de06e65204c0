//! The parts that tell messages.

ghost use Rattle.std.specs.Prelude.{◌≡◌, ◌<◌, ◌^◌, ◌-◌, ◌∷◌, [], true, IfOk};
ghost use Rattle.df_messages.specs.Drafts.{endorsed, fill_draft, floor_tag, match_draft, offer_draft, public, secret, tick_draft, trade_draft, warning_draft, who_draft};
ghost use Rattle.df_records.specs.Fields.{is_symbol};

use crate::draft::Draft;
use crate::field::name;
use crate::message::{Match, Offer};
use crate::value::{Field, map_of};
use df_book::Trade;
use df_label::{Label, Tag, TagSet};
use df_memory::NoMemory;
use df_ticks::Tick;
use std::alloc::Global;

/// For everybody.
pub fn public(alloc: Global) -> Label
    ensures { result ≡ public }
{
    Label {
        s: TagSet::new(alloc),
        i: TagSet::new(alloc),
    }
}

fn one_tag(alloc: Global, number: u32) -> Result<TagSet, NoMemory>
    ensures { IfOk result (λ s. s ≡ floor_tag number ∷ []) }
{
    TagSet::new(alloc).with(&Tag::new(alloc, &[], number)?)
}

/// For everybody, and vouched for by the exchange.
pub fn endorsed(alloc: Global) -> Result<Label, NoMemory>
    ensures { IfOk result (λ l. l ≡ endorsed) }
{
    let i = one_tag(alloc, 0)?;
    Ok(Label {
        s: TagSet::new(alloc),
        i,
    })
}

/// For those who are cleared for the tag of this number.
pub fn secret(alloc: Global, number: u32) -> Result<Label, NoMemory>
    ensures { IfOk result (λ l. l ≡ secret number) }
{
    let s = one_tag(alloc, number)?;
    Ok(Label {
        s,
        i: TagSet::new(alloc),
    })
}

pub fn tick_draft(alloc: Global, tick: &Tick) -> Result<Draft, NoMemory>
    requires { is_symbol tick.now.symbol ≡ true }
    ensures { IfOk result (λ d. d ≡ tick_draft tick.now) }
{
    let fields = [
        Field::Int("price", tick.price),
        Field::Symbol("symbol", &tick.symbol),
    ];
    Ok(Draft {
        label: endorsed(alloc)?,
        name: name("tick"),
        value: map_of(alloc, &fields)?,
    })
}

pub fn match_draft(alloc: Global, found: &Match) -> Result<Draft, NoMemory>
    ensures { IfOk result (λ d. d ≡ match_draft found.now) }
{
    let fields = [
        Field::Symbol("a", found.first.as_words()),
        Field::Symbol("b", found.second.as_words()),
        Field::Int("pa", found.first_price),
        Field::Int("pb", found.second_price),
        Field::Int("side", found.side),
    ];
    Ok(Draft {
        label: endorsed(alloc)?,
        name: name("match"),
        value: map_of(alloc, &fields)?,
    })
}

pub fn offer_draft(alloc: Global, offer: &Offer) -> Result<Draft, NoMemory>
    ensures { IfOk result (λ d. d ≡ offer_draft offer.now) }
{
    let fields = [
        Field::Int("id", offer.id),
        Field::Int("limit", offer.limit),
        Field::Int("qty", offer.qty),
        Field::Flag("sell", offer.sell),
        Field::Symbol("symbol", offer.symbol.as_words()),
        Field::Int("trader", offer.trader),
    ];
    Ok(Draft {
        label: secret(alloc, 1)?,
        name: name("order"),
        value: map_of(alloc, &fields)?,
    })
}

/// What everybody is told of a trade.
pub fn trade_draft(alloc: Global, number: i64, trade: &Trade) -> Result<Draft, NoMemory>
    requires { is_symbol trade.now.symbol ≡ true }
    ensures { IfOk result (λ d. d ≡ trade_draft number trade.now) }
{
    let fields = [
        Field::Int("number", number),
        Field::Int("price", trade.price),
        Field::Int("qty", trade.qty),
        Field::Symbol("symbol", &trade.symbol),
    ];
    Ok(Draft {
        label: public(alloc),
        name: name("trade"),
        value: map_of(alloc, &fields)?,
    })
}

/// What the regulator is told of a trade.
pub fn who_draft(alloc: Global, trade: &Trade) -> Result<Draft, NoMemory>
    ensures { IfOk result (λ d. d ≡ who_draft trade.now) }
{
    let fields = [
        Field::Int("buyer", i64::from(trade.buyer)),
        Field::Int("seller", i64::from(trade.seller)),
    ];
    Ok(Draft {
        label: secret(alloc, 2)?,
        name: name("who"),
        value: map_of(alloc, &fields)?,
    })
}

/// What a party of a trade is told, the seller or the buyer.
pub fn fill_draft(alloc: Global, number: i64, trade: &Trade, sell: bool) -> Result<Draft, NoMemory>
    requires symbol { is_symbol trade.now.symbol ≡ true }
    requires buyer { trade.now.buyer < 2 ^ 32 - 3 }
    requires seller { trade.now.seller < 2 ^ 32 - 3 }
    ensures { IfOk result (λ d. d ≡ fill_draft number trade.now sell) }
{
    let party = if sell { trade.seller } else { trade.buyer };
    let fields = [
        Field::Int("number", number),
        Field::Int("price", trade.price),
        Field::Int("qty", trade.qty),
        Field::Flag("sell", sell),
        Field::Symbol("symbol", &trade.symbol),
    ];
    Ok(Draft {
        label: secret(alloc, 3 + party)?,
        name: name("fill"),
        value: map_of(alloc, &fields)?,
    })
}

pub fn warning_draft(alloc: Global, number: i64) -> Result<Draft, NoMemory>
    ensures { IfOk result (λ d. d ≡ warning_draft number) }
{
    let fields = [Field::Int("number", number)];
    Ok(Draft {
        label: public(alloc),
        name: name("warning"),
        value: map_of(alloc, &fields)?,
    })
}
