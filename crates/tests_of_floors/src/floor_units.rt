//! Units that are driven by written lists of replies.

ghost use Rattle.std.specs.Prelude.{◌≡◌, IfOk};

use df_book::Trade;
use df_brain::{Brain, Last, Want};
use df_floor_units::{FloorBrain, Ticks};
use df_frozen::Words;
use df_label::{Label, Privileges, TagSet};
use df_memory::NoMemory;
use df_messages::{
    Draft, Match, Offer, Symbol, match_draft, offer_draft, tick_draft, trade_draft, who_draft,
};
use df_ticks::{Tick, read_ticks};
use df_unit::{Call, PartRead, PartsRead, Reply};
use std::alloc::Global;
use std::test::Fail;

/// A reply and its number, and the call that is then wanted with its handle.
type Row = (&'static str, u32, &'static str, u32);

/// The replies of an exchange of two ticks.
const EXCHANGE: [Row; 9] = [
    ("start", 0, "create", 0),
    ("handle", 0, "add", 0),
    ("ok", 0, "publish", 0),
    ("ok", 0, "create", 0),
    ("handle", 5, "add", 5),
    ("ok", 0, "publish", 5),
    ("ok", 0, "wait", 0),
    ("event", 3, "drop", 3),
    ("ok", 0, "wait", 0),
];

/// A broker of two traders: an order that rests, one that trades with it, one of a trader who isn't
/// there, and a reply that isn't foreseen.
const BROKER: [Row; 22] = [
    ("start", 0, "out", 0),
    ("ok", 0, "sub", 0),
    ("sub", 0, "wait", 0),
    ("event", 0, "read", 0),
    ("sells", 0, "drop", 0),
    ("ok", 0, "wait", 0),
    ("event", 0, "read", 0),
    ("buys", 1, "drop", 0),
    ("ok", 0, "create", 0),
    ("handle", 3, "add", 3),
    ("ok", 0, "add", 3),
    ("ok", 0, "add", 3),
    ("ok", 0, "add", 3),
    ("ok", 0, "publish", 3),
    ("ok", 0, "wait", 0),
    ("event", 0, "read", 0),
    ("buys", 2, "drop", 0),
    ("ok", 0, "wait", 0),
    ("event", 0, "read", 0),
    ("no part", 0, "drop", 0),
    ("handle", 0, "wait", 0),
    ("event", 5, "drop", 5),
];

const REGULATOR: [Row; 4] = [
    ("start", 0, "msub", 0),
    ("sub", 0, "wait", 0),
    ("event", 1, "drop", 1),
    ("nothing", 0, "wait", 0),
];

/// An instance of the regulator: a trade of one trader with itself, and then one of two.
const WATCHER: [Row; 14] = [
    ("start", 0, "out", 0),
    ("ok", 0, "wait", 0),
    ("event", 0, "read", 0),
    ("same", 0, "read", 0),
    ("trade", 0, "drop", 0),
    ("ok", 0, "create", 0),
    ("handle", 1, "add", 1),
    ("ok", 0, "publish", 1),
    ("ok", 0, "wait", 0),
    ("event", 0, "read", 0),
    ("two", 0, "read", 0),
    ("trade", 0, "drop", 0),
    ("ok", 0, "wait", 0),
    ("handle", 0, "wait", 0),
];

/// A trader at a match, at a fill, and at an event without a match.
const TRADER: [Row; 19] = [
    ("start", 0, "out", 0),
    ("ok", 0, "sub", 0),
    ("sub", 0, "sub", 0),
    ("sub", 1, "wait", 0),
    ("event", 0, "read", 0),
    ("match", 0, "drop", 0),
    ("ok", 0, "create", 0),
    ("handle", 0, "add", 0),
    ("ok", 0, "publish", 0),
    ("ok", 0, "create", 0),
    ("handle", 0, "add", 0),
    ("ok", 0, "publish", 0),
    ("ok", 0, "wait", 0),
    ("fill", 0, "read", 0),
    ("match", 0, "drop", 0),
    ("ok", 0, "wait", 0),
    ("event", 0, "read", 0),
    ("no part", 0, "drop", 0),
    ("ok", 0, "wait", 0),
];

/// A monitor with a window of two and a threshold of 50, at the ticks of a worked table.
const MONITOR: [Row; 27] = [
    ("start", 0, "sub", 0),
    ("sub", 0, "sub", 0),
    ("sub", 1, "wait", 0),
    ("event", 0, "read", 0),
    ("AAA", 1000, "drop", 0),
    ("ok", 0, "wait", 0),
    ("event", 0, "read", 0),
    ("BBB", 1000, "drop", 0),
    ("ok", 0, "wait", 0),
    ("event", 0, "read", 0),
    ("AAA", 1010, "drop", 0),
    ("ok", 0, "wait", 0),
    ("event", 0, "read", 0),
    ("CCC", 5000, "drop", 0),
    ("ok", 0, "wait", 0),
    ("event", 0, "read", 0),
    ("AAA", 1100, "drop", 0),
    ("ok", 0, "create", 0),
    ("handle", 0, "add", 0),
    ("ok", 0, "publish", 0),
    ("ok", 0, "wait", 0),
    ("event", 0, "read", 0),
    ("BBB", 1010, "drop", 0),
    ("ok", 0, "wait", 0),
    ("event", 0, "read", 0),
    ("AAA", 900, "drop", 0),
    ("ok", 0, "create", 0),
];

/// A monitor whose subscription is refused.
const REFUSED: [Row; 4] = [
    ("start", 0, "sub", 0),
    ("too many subs", 0, "wait", 0),
    ("event", 7, "drop", 7),
    ("ok", 0, "wait", 0),
];

fn words(alloc: Global, text: &str) -> Result<Words, NoMemory>
    ensures { IfOk result (λ w. w ≡ text.now) }
{
    match Words::new(alloc, text) {
        Ok(words) => Ok(words),
        Err(_) => Err(NoMemory),
    }
}

/// Who traded: the seller is trader 1.
fn who(alloc: Global, buyer: u32) -> Result<Draft, NoMemory> {
    let trade = Trade {
        price: 1095,
        qty: 4,
        symbol: words(alloc, "AAA")?,
        buyer,
        seller: 1,
    };
    who_draft(alloc, &trade)
}

fn trade(alloc: Global) -> Result<Draft, NoMemory> {
    let trade = Trade {
        price: 1095,
        qty: 4,
        symbol: words(alloc, "AAA")?,
        buyer: 1,
        seller: 1,
    };
    trade_draft(alloc, 3, &trade)
}

fn symbol(alloc: Global) -> Result<Symbol, NoMemory> {
    let words = words(alloc, "AAA")?;
    Symbol::new(&words)
}

fn other_symbol(alloc: Global) -> Result<Symbol, NoMemory> {
    let words = words(alloc, "BBB")?;
    Symbol::new(&words)
}

fn found(alloc: Global) -> Result<Draft, NoMemory> {
    let first = symbol(alloc)?;
    let second = other_symbol(alloc)?;
    let found = Match {
        first,
        second,
        first_price: 1100,
        second_price: 1000,
        side: 1,
    };
    match_draft(alloc, &found)
}

/// An order of a trader.
fn offer(alloc: Global, sell: bool, trader: u32) -> Result<Draft, NoMemory> {
    let offer = Offer {
        id: 0,
        limit: if sell { 1095 } else { 1105 },
        qty: if sell { 10 } else { 4 },
        sell,
        symbol: symbol(alloc)?,
        trader: i64::from(trader),
    };
    offer_draft(alloc, &offer)
}

fn tick(alloc: Global, price: u32) -> Result<Draft, NoMemory> {
    let tick = Tick {
        symbol: words(alloc, "AAA")?,
        price: i64::from(price),
    };
    tick_draft(alloc, &tick)
}

fn other_tick(alloc: Global, price: u32) -> Result<Draft, NoMemory> {
    let tick = Tick {
        symbol: words(alloc, "BBB")?,
        price: i64::from(price),
    };
    tick_draft(alloc, &tick)
}

fn strange_tick(alloc: Global, price: u32) -> Result<Draft, NoMemory> {
    let tick = Tick {
        symbol: words(alloc, "CCC")?,
        price: i64::from(price),
    };
    tick_draft(alloc, &tick)
}

/// The part that a read shows, by the word of its row.
fn draft(alloc: Global, word: &str, number: u32) -> Result<Draft, NoMemory> {
    match word {
        "same" => who(alloc, 1),
        "two" => who(alloc, 0),
        "sells" => offer(alloc, true, number),
        "buys" => offer(alloc, false, number),
        "match" => found(alloc),
        "trade" => trade(alloc),
        "BBB" => other_tick(alloc, number),
        "CCC" => strange_tick(alloc, number),
        _ => tick(alloc, number),
    }
}

/// The part at a public label.
fn read_of(alloc: Global, draft: Draft) -> PartRead {
    PartRead {
        label: Label {
            s: TagSet::new(alloc),
            i: TagSet::new(alloc),
        },
        value: draft.value,
        privileges: Privileges::new(alloc),
    }
}

fn shown(alloc: Global, word: &str, number: u32) -> Result<Last, NoMemory> {
    let draft = draft(alloc, word, number)?;
    let mut parts = Vec::new(alloc);
    parts.push(read_of(alloc, draft))?;
    Ok(Last::Reply(Reply::Parts(PartsRead::new(parts))))
}

fn last(alloc: Global, word: &str, number: u32) -> Result<Last, NoMemory> {
    match word {
        "start" => Ok(Last::Start),
        "ok" => Ok(Last::Reply(Reply::Ok)),
        "handle" => Ok(Last::Reply(Reply::Handle(number))),
        "sub" => Ok(Last::Reply(Reply::Sub(number))),
        "event" => Ok(Last::Reply(Reply::Event { h: number, sub: 0 })),
        "fill" => Ok(Last::Reply(Reply::Event { h: number, sub: 1 })),
        "nothing" => Ok(Last::Reply(Reply::Nothing)),
        "no part" => Ok(Last::Reply(Reply::NoSuchPart)),
        "too many subs" => Ok(Last::Reply(Reply::TooManySubs)),
        _ => shown(alloc, word, number),
    }
}

fn spelled(want: &Want) -> (&'static str, u32) {
    match want {
        Want::Wait => ("wait", 0),
        Want::Call(Call::CreateEvent) => ("create", 0),
        Want::Call(Call::AddPart { h, .. }) => ("add", *h),
        Want::Call(Call::Publish { h }) => ("publish", *h),
        Want::Call(Call::ReadPart { h, .. }) => ("read", *h),
        Want::Call(Call::DropEvent { h }) => ("drop", *h),
        Want::Call(Call::ChangeOutLabel { .. }) => ("out", 0),
        Want::Call(Call::Subscribe { .. }) => ("sub", 0),
        Want::Call(Call::SubscribeManaged { .. }) => ("msub", 0),
        _ => ("other", 0),
    }
}

/// Whether the copy of a unit wants the same, and is then as the unit.
fn is_copy<B: Brain>(copy: &mut B, last: &Last, brain: &B, want: &Want) -> Result<bool, NoMemory> {
    let again = copy.next(last)?;
    Ok(again.same(want) && copy.same(brain))
}

/// Whether the unit and its copy want what the row says.
fn do_want<B: Brain>(
    brain: &mut B,
    copy: &mut B,
    last: &Last,
    row: &Row,
) -> Result<bool, NoMemory> {
    let want = brain.next(last)?;
    if spelled(&want) != (row.2, row.3) {
        return Ok(false);
    }
    is_copy(copy, last, brain, &want)
}

fn is_right_at<B: Brain>(brain: &mut B, last: &Last, row: &Row) -> Result<bool, NoMemory> {
    let mut copy = brain.copy()?;
    do_want(brain, &mut copy, last, row)
}

fn is_right<B: Brain>(alloc: Global, brain: &mut B, row: &Row) -> Result<bool, NoMemory> {
    let last = last(alloc, row.0, row.1)?;
    is_right_at(brain, &last, row)
}

/// In how many rows the unit, or a copy of it, wants otherwise.
fn misses<B: Brain>(alloc: Global, brain: &mut B, rows: &[Row]) -> Result<u64, NoMemory> {
    let mut count = 0u64;
    for row in rows {
        if !is_right(alloc, brain, row)? {
            count = count.saturating_add(1);
        }
    }
    Ok(count)
}

fn exchange(alloc: Global) -> Result<FloorBrain, Fail> {
    let ticks = read_ticks(alloc, b"symbol,price\nAAA,1000\nBBB,1000\n")?;
    let ticks = Ticks::new(alloc, ticks)?;
    exchange_of(alloc, &ticks)
}

fn exchange_of(alloc: Global, ticks: &Ticks) -> Result<FloorBrain, Fail> {
    Ok(FloorBrain::exchange(alloc, ticks)?)
}

fn broker(alloc: Global) -> FloorBrain {
    FloorBrain::broker(alloc, 2)
}

fn regulator(alloc: Global) -> FloorBrain {
    FloorBrain::regulator(alloc)
}

fn watcher(alloc: Global) -> Result<FloorBrain, Fail> {
    let regulator = regulator(alloc);
    instance_of(&regulator)
}

fn instance_of(regulator: &FloorBrain) -> Result<FloorBrain, Fail> {
    Ok(regulator.instance(0)?)
}

fn trader(alloc: Global) -> FloorBrain {
    FloorBrain::trader(alloc, 0, 10, 5, false)
}

/// A monitor with a window of two and a threshold of 50.
fn monitor(alloc: Global) -> Result<FloorBrain, Fail> {
    let first = symbol(alloc)?;
    let second = other_symbol(alloc)?;
    Ok(FloorBrain::monitor(alloc, first, second, 2, 50)?)
}

fn misses_of(alloc: Global, mut brain: FloorBrain, rows: &[Row]) -> Result<u64, NoMemory> {
    misses(alloc, &mut brain, rows)
}

#[test]
fn each_unit_follows_its_list(rt: HostRuntime) -> Result<(), Fail> {
    let alloc = rt.alloc();
    assert_eq!(rt;
        misses_of(alloc, exchange(alloc)?, EXCHANGE.as_slice()),
        Ok(0)
    );
    assert_eq!(rt; misses_of(alloc, broker(alloc), BROKER.as_slice()), Ok(0));
    assert_eq!(rt;
        misses_of(alloc, regulator(alloc), REGULATOR.as_slice()),
        Ok(0)
    );
    assert_eq!(rt;
        misses_of(alloc, watcher(alloc)?, WATCHER.as_slice()),
        Ok(0)
    );
    assert_eq!(rt; misses_of(alloc, trader(alloc), TRADER.as_slice()), Ok(0));
    Ok(())
}

#[test]
fn a_monitor_signals_by_the_worked_table(rt: HostRuntime) -> Result<(), Fail> {
    let alloc = rt.alloc();
    assert_eq!(rt;
        misses_of(alloc, monitor(alloc)?, MONITOR.as_slice()),
        Ok(0)
    );
    assert_eq!(rt;
        misses_of(alloc, monitor(alloc)?, REFUSED.as_slice()),
        Ok(0)
    );
    Ok(())
}

fn is_copied(tick: &Tick) -> bool {
    match tick.copy() {
        Ok(copy) => copy.same(tick),
        Err(_) => false,
    }
}

#[test]
fn ticks_are_copied(rt: HostRuntime) -> Result<(), Fail> {
    let ticks = read_ticks(rt.alloc(), b"symbol,price\nA,1\nB,2\n")?;
    for tick in ticks.as_slice() {
        assert!(rt; is_copied(tick));
    }
    Ok(())
}
