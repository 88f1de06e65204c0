//! What rests in a book, as a law.

ghost use Rattle.std.specs.Prelude.{List};
ghost use Rattle.df_book.specs.Submitting.{NoneMeets, resting_after};
ghost use Rattle.df_book.specs.declared.order.Order.{Order};

/// Whatever orders came, a resting purchase and a resting sale could never trade with each other.
pub fn resting_orders_never_meet()
    ensures { (orders : List Order) → NoneMeets (resting_after orders) }
{}
