//! The summary of a journal.

ghost use Rattle.std.specs.Prelude.{◌≡◌, fold};
ghost use Rattle.df_report.specs.Summing.{summary_of};
ghost use Rattle.df_report.specs.code.Tallying.{tallied};

use crate::count::{added_by, counted};
use crate::instances::instances;
use crate::quantity::with_trade;
use crate::report::Summary;
use df_part::PartRef;
use df_unit::Entry;

/// The summary of a journal, whose entries come in their order. Takes no memory.
#[tactic(auto, using(crate::proofs::Folds::tallied_is))]
pub fn summary(entries: &[Entry]) -> Summary
    ensures { result ≡ summary_of entries.now }
{
    let mut sum = Summary {
        ticks: 0,
        matches: 0,
        orders: 0,
        trades: 0,
        quantity: 0,
        warnings: 0,
        instances: instances(entries),
    };
    for entry in entries {
        sum = tallied_all(sum, added_by(entry));
    }
    sum
}

fn tallied_all(before: Summary, parts: &[PartRef]) -> Summary
    ensures { result ≡ fold tallied before parts.now }
{
    let mut sum = before;
    for part in parts {
        sum = tallied(sum, part);
    }
    sum
}

/// The sums with one part more.
fn tallied(sum: Summary, part: &PartRef) -> Summary
    ensures { result ≡ tallied sum part.now }
{
    Summary {
        ticks: counted(sum.ticks, "tick", part),
        matches: counted(sum.matches, "match", part),
        orders: counted(sum.orders, "order", part),
        trades: counted(sum.trades, "trade", part),
        quantity: with_trade(sum.quantity, part),
        warnings: counted(sum.warnings, "warning", part),
        instances: sum.instances,
    }
}
