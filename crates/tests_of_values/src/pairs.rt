//! Tables of ticks that were worked out by hand.

ghost use Rattle.std.specs.Prelude.{◌≤◌, ◌≤ℤ◌, pos};

use df_memory::NoMemory;
use df_pairs::{Pair, Signal};
use std::alloc::Global;
use std::test::Fail;

/// A tick, of the first symbol or not, and the side and the prices of its signal; 0 without one.
type Row = (bool, i64, (i64, i64, i64));

const NO: (i64, i64, i64) = (0, 0, 0);

/// A window of two spreads, and a threshold of 50.
const SMALL_FLOOR: [Row; 6] = [
    (true, 1000, NO),
    (false, 1000, NO),
    (true, 1010, NO),
    (true, 1100, (1, 1100, 1000)),
    (false, 1010, NO),
    (true, 900, (-1, 900, 1010)),
];

/// A window of one spread, and a threshold of 10, which a signal must pass.
const ONE_SPREAD: [Row; 9] = [
    (false, 100, NO),
    (false, 90, NO),
    (true, 90, NO),
    (true, 100, NO),
    (true, 111, (1, 111, 90)),
    (true, 122, NO),
    (true, 112, NO),
    (true, 101, (-1, 101, 90)),
    (false, 79, (1, 101, 79)),
];

/// A window of one spread, no threshold, and the prices that lie furthest apart.
const EXTREMES: [Row; 5] = [
    (true, i64::MAX, NO),
    (false, i64::MIN, NO),
    (true, i64::MIN, (-1, i64::MIN, i64::MIN)),
    (false, i64::MAX, NO),
    (true, i64::MAX, (1, i64::MAX, i64::MAX)),
];

fn told(signal: Option<Signal>) -> (i64, i64, i64) {
    match signal {
        Some(signal) => (signal.side, signal.first, signal.second),
        None => NO,
    }
}

/// In how many rows a new pair signals otherwise.
fn misses(alloc: Global, window: u32, threshold: i64, rows: &[Row]) -> Result<u64, NoMemory>
    requires window { 1 ≤ window }
    requires threshold { pos 0 ≤ℤ threshold }
{
    let mut pair = Pair::new(alloc, window, threshold)?;
    let mut count = 0u64;
    for (first, price, wanted) in rows {
        if told(pair.tick(*first, *price)) != *wanted {
            count = count.saturating_add(1);
        }
    }
    Ok(count)
}

#[test]
fn signals_come_as_the_tables_say(rt: HostRuntime) -> Result<(), Fail> {
    assert_eq!(rt; misses(rt.alloc(), 2, 50, SMALL_FLOOR.as_slice())?, 0);
    assert_eq!(rt; misses(rt.alloc(), 1, 10, ONE_SPREAD.as_slice())?, 0);
    assert_eq!(rt; misses(rt.alloc(), 1, 0, EXTREMES.as_slice())?, 0);
    Ok(())
}
