//! Reading messages: a value is a message where it is a map of just the message's fields.

ghost use Rattle.std.specs.Prelude.{◌≡◌, option_map, IfOk, codes};
ghost use Rattle.df_messages.specs.Fields.{int_field};
ghost use Rattle.df_messages.specs.Messages.{match_in, number_in, offer_in, parties_in, side_of, tick_in, tick_of};

use crate::field::{field_count, flag_field, int_field, symbol_field};
use crate::message::{Match, Offer, Parties};
use crate::symbol::Symbol;
use df_frozen::{Frozen, Words};
use df_memory::NoMemory;

/// A tick that a value is, with the words that are in it.
#[derive(Clone, Copy)]
pub struct TickRead<'a> {
    pub symbol: &'a Words,
    pub price: i64,
}

/// The tick that a value is. Takes no memory.
pub fn read_tick(value: &Frozen) -> Option<TickRead<'_>>
    ensures { option_map tick_of result ≡ tick_in value.now }
{
    if field_count(value) != 2 {
        return None;
    }
    let Some(price) = int_field(value, "price") else {
        return None;
    };
    let Some(symbol) = symbol_field(value, "symbol") else {
        return None;
    };
    Some(TickRead { symbol, price })
}

fn side_field(value: &Frozen) -> Option<i64>
    ensures { result ≡ side_of (int_field (codes "side") value.now) }
{
    let Some(side) = int_field(value, "side") else {
        return None;
    };
    if side == 1 || side == -1 {
        Some(side)
    } else {
        None
    }
}

/// The match that a value is.
pub fn read_match(value: &Frozen) -> Result<Option<Match>, NoMemory>
    ensures { IfOk result (λ m. m ≡ match_in value.now) }
{
    if field_count(value) != 5 {
        return Ok(None);
    }
    let Some(first) = symbol_field(value, "a") else {
        return Ok(None);
    };
    let Some(second) = symbol_field(value, "b") else {
        return Ok(None);
    };
    let Some(first_price) = int_field(value, "pa") else {
        return Ok(None);
    };
    let Some(second_price) = int_field(value, "pb") else {
        return Ok(None);
    };
    let Some(side) = side_field(value) else {
        return Ok(None);
    };
    Ok(Some(Match {
        first: Symbol::new(first)?,
        second: Symbol::new(second)?,
        first_price,
        second_price,
        side,
    }))
}

/// The order that a value is.
pub fn read_offer(value: &Frozen) -> Result<Option<Offer>, NoMemory>
    ensures { IfOk result (λ o. o ≡ offer_in value.now) }
{
    if field_count(value) != 6 {
        return Ok(None);
    }
    let Some(id) = int_field(value, "id") else {
        return Ok(None);
    };
    let Some(limit) = int_field(value, "limit") else {
        return Ok(None);
    };
    let Some(qty) = int_field(value, "qty") else {
        return Ok(None);
    };
    let Some(sell) = flag_field(value, "sell") else {
        return Ok(None);
    };
    let Some(symbol) = symbol_field(value, "symbol") else {
        return Ok(None);
    };
    let Some(trader) = int_field(value, "trader") else {
        return Ok(None);
    };
    Ok(Some(Offer {
        id,
        limit,
        qty,
        sell,
        symbol: Symbol::new(symbol)?,
        trader,
    }))
}

/// The parties that a value tells. Takes no memory.
pub fn read_parties(value: &Frozen) -> Option<Parties>
    ensures { result ≡ parties_in value.now }
{
    if field_count(value) != 2 {
        return None;
    }
    let Some(buyer) = int_field(value, "buyer") else {
        return None;
    };
    let Some(seller) = int_field(value, "seller") else {
        return None;
    };
    Some(Parties { buyer, seller })
}

/// The number of the trade that a value is. Takes no memory.
pub fn read_number(value: &Frozen) -> Option<i64>
    ensures { result ≡ number_in value.now }
{
    if field_count(value) != 4 {
        return None;
    }
    let Some(number) = int_field(value, "number") else {
        return None;
    };
    if int_field(value, "price").is_none() || int_field(value, "qty").is_none() {
        return None;
    }
    match symbol_field(value, "symbol") {
        Some(_) => Some(number),
        None => None,
    }
}
