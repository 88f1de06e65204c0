ghost use Rattle.std.specs.Prelude.{◌≡◌, ◌↔◌, IsTrue, IfOk};

use crate::broker::Broker;
use crate::ticks::Ticks;
use crate::trader::Trader;
use df_memory::NoMemory;
use df_messages::Symbol;
use df_pairs::Pair;

/// What a unit is, and what it remembers.
#[derive(Drop)]
pub(crate) enum Kind {
    /// Tells the ticks, from this place on.
    Exchange {
        ticks: Ticks,
        from: usize,
    },
    Broker(Broker),
    Regulator,
    Trader(Trader),
    /// Watches the prices of two symbols.
    Monitor {
        first: Symbol,
        second: Symbol,
        pair: Pair,
    },
    /// An instance of the regulator's subscription.
    Watcher,
}

impl Kind {
    pub(crate) fn same(&self, other: &Kind) -> bool
        ensures { IsTrue result ↔ (self.now ≡ other.now) }
    {
        match (self, other) {
            (
                Kind::Exchange { ticks, from },
                Kind::Exchange {
                    ticks: other_ticks,
                    from: other_from,
                },
            ) => from == other_from && ticks.same(other_ticks),
            (Kind::Broker(a), Kind::Broker(b)) => a.same(b),
            (Kind::Regulator, Kind::Regulator) => true,
            (Kind::Trader(a), Kind::Trader(b)) => a.same(b),
            (
                Kind::Monitor {
                    first,
                    second,
                    pair,
                },
                Kind::Monitor {
                    first: other_first,
                    second: other_second,
                    pair: other_pair,
                },
            ) => {
                first.is(other_first.as_words())
                    && second.is(other_second.as_words())
                    && pair.same(other_pair)
            }
            (Kind::Watcher, Kind::Watcher) => true,
            _ => false,
        }
    }

    pub(crate) fn copy(&self) -> Result<Kind, NoMemory>
        ensures { IfOk result (λ k. k ≡ self.now) }
    {
        match self {
            Kind::Exchange { ticks, from } => Ok(Kind::Exchange {
                ticks: ticks.share()?,
                from: *from,
            }),
            Kind::Broker(broker) => Ok(Kind::Broker(broker.copy()?)),
            Kind::Regulator => Ok(Kind::Regulator),
            Kind::Trader(trader) => Ok(Kind::Trader(*trader)),
            Kind::Monitor {
                first,
                second,
                pair,
            } => copied_monitor(first, second, pair),
            Kind::Watcher => Ok(Kind::Watcher),
        }
    }
}

fn copied_monitor(first: &Symbol, second: &Symbol, pair: &Pair) -> Result<Kind, NoMemory>
    ensures { IfOk result (λ k. k ≡ Kind.Monitor first.now second.now pair.now) }
{
    let pair = pair.copy()?;
    Ok(Kind::Monitor {
        first: first.copy()?,
        second: second.copy()?,
        pair,
    })
}
