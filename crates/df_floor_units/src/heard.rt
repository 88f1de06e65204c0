ghost use Rattle.std.specs.Prelude.{◌≡◌, ◌↔◌, IsTrue, IfOk};
ghost use Rattle.df_floor_units.specs.Telling.{passed_heard};

use crate::offer::{copied_offer, same_offers};
use crate::trades::FloorTrades;
use df_memory::NoMemory;
use df_messages::{Match, Offer, Parties};
use df_pairs::Signal;

/// What a unit knows of the event that it was handed last, and hasn't done yet.
#[derive(Drop)]
pub(crate) enum Heard {
    Nothing,
    /// A price of a monitor's first symbol, or of its second.
    Quote { first: bool, price: i64 },
    /// The prices that a monitor watches have parted.
    Signal(Signal),
    /// A trader has both of its orders to tell.
    Match(Match),
    /// A trader has its second order to tell.
    Second(Match),
    /// The broker has an order to take.
    Offer(Offer),
    /// The broker has the trades of an order to tell, from this place on.
    Trades { trades: FloorTrades, from: usize },
    /// The parties of a trade whose number isn't known yet.
    Parties(Parties),
    /// The parties and the number of a trade.
    Trade { parties: Parties, number: i64 },
}

impl Heard {
    pub(crate) fn same(&self, other: &Heard) -> bool
        ensures { IsTrue result ↔ (self.now ≡ other.now) }
    {
        match (self, other) {
            (Heard::Nothing, Heard::Nothing) => true,
            (
                Heard::Quote { first, price },
                Heard::Quote {
                    first: other_first,
                    price: other_price,
                },
            ) => first == other_first && price == other_price,
            (Heard::Signal(a), Heard::Signal(b)) => a.same(b),
            (Heard::Match(a), Heard::Match(b)) => a.same(b),
            (Heard::Second(a), Heard::Second(b)) => a.same(b),
            (Heard::Offer(a), Heard::Offer(b)) => same_offers(a, b),
            (
                Heard::Trades { trades, from },
                Heard::Trades {
                    trades: other_trades,
                    from: other_from,
                },
            ) => from == other_from && trades.same(other_trades),
            (Heard::Parties(a), Heard::Parties(b)) => { a.buyer == b.buyer && a.seller == b.seller }
            (
                Heard::Trade { parties, number },
                Heard::Trade {
                    parties: other_parties,
                    number: other_number,
                },
            ) => {
                parties.buyer == other_parties.buyer
                    && parties.seller == other_parties.seller
                    && number == other_number
            }
            _ => false,
        }
    }

    pub(crate) fn copy(&self) -> Result<Heard, NoMemory>
        ensures { IfOk result (λ h. h ≡ self.now) }
    {
        match self {
            Heard::Nothing => Ok(Heard::Nothing),
            Heard::Quote { first, price } => Ok(Heard::Quote {
                first: *first,
                price: *price,
            }),
            Heard::Signal(signal) => Ok(Heard::Signal(signal.copy())),
            Heard::Match(found) => Ok(Heard::Match(found.copy()?)),
            Heard::Second(found) => Ok(Heard::Second(found.copy()?)),
            Heard::Offer(offer) => Ok(Heard::Offer(copied_offer(offer)?)),
            Heard::Trades { trades, from } => Ok(Heard::Trades {
                trades: trades.copy()?,
                from: *from,
            }),
            Heard::Parties(parties) => Ok(Heard::Parties(*parties)),
            Heard::Trade { parties, number } => Ok(Heard::Trade {
                parties: *parties,
                number: *number,
            }),
        }
    }

    /// What is still to be told once an event was.
    pub(crate) fn passed(self) -> Heard
        ensures { result ≡ passed_heard self }
    {
        match self {
            Heard::Match(found) => Heard::Second(found),
            Heard::Trades { trades, from } => {
                let from = trades.behind(from);
                Heard::Trades { trades, from }
            }
            _ => Heard::Nothing,
        }
    }
}
