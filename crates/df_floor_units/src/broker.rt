//! What the broker does with an order.

ghost use Rattle.std.specs.Prelude.{◌≡◌, ◌↔◌, ◌<◌, ◌≤ℤ◌, ◌<ℤ◌, pos, true, IsTrue, IfErr, IfOk, OnErr, OnOk};
ghost use Rattle.df_floor_units.specs.Broking.{after_offer, number_of, order_of, submitted_to, takes};
ghost use Rattle.df_floor_units.specs.Hearing.{heard_trades};
ghost use Rattle.df_floor_units.specs.code.Trades.{IsFloorOrder};
ghost use Rattle.df_floor_units.specs.declared.heard.Heard.TheVariants as as_heard;

use crate::book::FloorBook;
use crate::heard::Heard;
use crate::trades::FloorTrades;
use df_book::Order;
use df_memory::NoMemory;
use df_messages::Offer;

/// A broker: the orders that rest with it, how many traders there are, and the number of its next
/// trade.
#[derive(Drop)]
pub(crate) struct Broker {
    pub book: FloorBook,
    pub next_trade: i64,
    pub traders: u16,
}

fn number_of(trader: i64) -> u32
    requires from { pos 0 ≤ℤ trader }
    requires to { trader <ℤ pos 65_536 }
    ensures number { result ≡ number_of trader }
    ensures few { result < 65_536 }
{
    trader as u32
}

/// An order as the book takes it.
fn order_of(offer: &Offer) -> Result<Order, NoMemory>
    requires from { pos 0 ≤ℤ offer.now.trader }
    requires to { offer.now.trader <ℤ pos 65_536 }
    ensures order { IfOk result (λ o. o ≡ order_of offer.now) }
    ensures of_floor { IfOk result IsFloorOrder }
{
    let symbol = offer.symbol.as_words().copy()?;
    Ok(Order {
        id: offer.id,
        limit: offer.limit,
        qty: offer.qty,
        symbol,
        trader: number_of(offer.trader),
        sell: offer.sell,
    })
}

impl Broker {
    pub(crate) fn same(&self, other: &Broker) -> bool
        ensures { IsTrue result ↔ (self.now ≡ other.now) }
    {
        self.traders == other.traders
            && self.next_trade == other.next_trade
            && self.book.same(&other.book)
    }

    pub(crate) fn copy(&self) -> Result<Broker, NoMemory>
        ensures { IfOk result (λ b. b ≡ self.now) }
    {
        Ok(Broker {
            book: self.book.copy()?,
            next_trade: self.next_trade,
            traders: self.traders,
        })
    }

    /// Whether an order is taken.
    fn takes(&self, offer: &Offer) -> bool
        ensures taken { result ≡ takes self.now offer.now }
        ensures few { result ≡ true → offer.now.trader <ℤ pos 65_536 }
    {
        offer.trader >= 0
            && offer.trader < i64::from(self.traders)
            && offer.qty >= 1
            && offer.limit >= 1
    }

    /// Gives an order that is taken to the book.
    fn submit(&mut self, offer: &Offer) -> Result<FloorTrades, NoMemory>
        requires taken { takes self.old offer.now ≡ true }
        requires few { offer.now.trader <ℤ pos 65_536 }
        ensures trades { IfOk result (λ t. t ≡ (submitted_to self.old offer.now).trades) }
        ensures rests { OnOk result (self.new
            ≡ record self.old { book = (submitted_to self.old offer.now).resting }) }
        ensures unchanged { OnErr result (self.new ≡ self.old) }
    {
        let order = order_of(offer)?;
        self.book.submit(order)
    }

    /// An order comes: gives its trades, or the order where there is no memory.
    pub(crate) fn act(&mut self, offer: Offer) -> Result<Heard, Heard>
        ensures broker { OnOk result (self.new ≡ after_offer self.old offer) }
        ensures heard { IfOk result (λ h. h ≡ heard_trades self.old offer) }
        ensures unchanged { OnErr result (self.new ≡ self.old) }
        ensures given_back { IfErr result (λ h. h ≡ as_heard.Offer offer) }
    {
        if !self.takes(&offer) {
            return Ok(Heard::Nothing);
        }
        match self.submit(&offer) {
            Ok(trades) => Ok(Heard::Trades { trades, from: 0 }),
            Err(_) => Err(Heard::Offer(offer)),
        }
    }
}
