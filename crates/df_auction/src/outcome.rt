use df_book::{Orders, Trades};

/// The price, if anything trades; the volume and the split that certifies it; the trades in their
/// order; and what is left of the orders, in the order in which they came.
#[derive(Drop)]
pub struct Auction {
    pub volume: i128,
    pub price: Option<i64>,
    pub split: i64,
    pub trades: Trades,
    pub rest: Orders,
}
