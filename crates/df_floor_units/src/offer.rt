//! Orders as traders tell them: whether two are equal, and copies.

ghost use Rattle.std.specs.Prelude.{◌≡◌, ◌↔◌, IsTrue, IfOk};

use df_memory::NoMemory;
use df_messages::Offer;

/// Whether the two are equal in every field.
pub(crate) fn same_offers(a: &Offer, b: &Offer) -> bool
    ensures { IsTrue result ↔ (a.now ≡ b.now) }
{
    a.id == b.id
        && a.limit == b.limit
        && a.qty == b.qty
        && a.sell == b.sell
        && a.symbol.is(b.symbol.as_words())
        && a.trader == b.trader
}

pub(crate) fn copied_offer(offer: &Offer) -> Result<Offer, NoMemory>
    ensures { IfOk result (λ o. o ≡ offer.now) }
{
    Ok(Offer {
        id: offer.id,
        limit: offer.limit,
        qty: offer.qty,
        sell: offer.sell,
        symbol: offer.symbol.copy()?,
        trader: offer.trader,
    })
}
