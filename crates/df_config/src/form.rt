//! Whether a configuration is in form.

ghost use Rattle.std.specs.Prelude.{◌≡◌, ◌↔◌, All, IsTrue};
ghost use Rattle.df_config.specs.ConfigForm.{AreNumbers, ArePairs, AreTraders, IsConfig, IsPair, IsTrader, are_different};

use crate::config::Config;
use crate::pair::PairRow;
use crate::trader::TraderRow;
use df_records::is_symbol;

pub(crate) fn is_config(config: &Config) -> bool
    ensures { IsTrue result ↔ IsConfig config.now }
{
    let pairs = config.pairs.as_slice();
    config.max_steps >= 1
        && config.max_steps <= 1_000_000
        && config.window >= 1
        && config.window <= 1_000
        && are_pairs(pairs)
        && are_traders(config.traders.as_slice(), pairs.len())
}

fn are_pairs(pairs: &[PairRow]) -> bool
    ensures { IsTrue result ↔ ArePairs pairs.now }
{
    !pairs.is_empty() && pairs.len() <= 16 && each_is_pair(pairs)
}

fn each_is_pair(pairs: &[PairRow]) -> bool
    ensures { IsTrue result ↔ All IsPair pairs.now }
{
    for pair in pairs {
        if !is_pair(pair) {
            return false;
        }
    }
    true
}

fn is_pair(pair: &PairRow) -> bool
    ensures { IsTrue result ↔ IsPair pair.now }
{
    let first = pair.first.as_str();
    let second = pair.second.as_str();
    is_symbol(first.as_bytes())
        && is_symbol(second.as_bytes())
        && first != second
        && pair.threshold >= 0
        && pair.threshold <= 1_000_000_000
}

fn are_traders(traders: &[TraderRow], count: usize) -> bool
    ensures { IsTrue result ↔ AreTraders count traders.now }
{
    !traders.is_empty() && traders.len() <= 64 && each_is_trader(traders, count)
}

fn each_is_trader(traders: &[TraderRow], count: usize) -> bool
    ensures { IsTrue result ↔ All (IsTrader count) traders.now }
{
    for trader in traders {
        if !is_trader(trader, count) {
            return false;
        }
    }
    true
}

fn is_trader(trader: &TraderRow, count: usize) -> bool
    ensures { IsTrue result ↔ IsTrader count trader.now }
{
    are_numbers(trader.pairs.as_slice(), count)
        && trader.quantity >= 1
        && trader.quantity <= 1_000_000
        && trader.slack >= 0
        && trader.slack <= 1_000_000
}

fn are_numbers(numbers: &[u32], count: usize) -> bool
    ensures { IsTrue result ↔ AreNumbers count numbers.now }
{
    !numbers.is_empty()
        && numbers.len() <= 16
        && are_below(numbers, count)
        && are_different(numbers)
}

ghost use Rattle.std.specs.Prelude.{◌<◌};

fn are_below(numbers: &[u32], count: usize) -> bool
    ensures { IsTrue result ↔ All (λ n. n < count) numbers.now }
{
    numbers.iter().all(|&n| (n as usize) < count)
}

fn are_different(numbers: &[u32]) -> bool
    ensures { result ≡ are_different numbers.now }
{
    for i in 0..numbers.len() {
        if numbers[i + 1..].contains(&numbers[i]) {
            return false;
        }
    }
    true
}
