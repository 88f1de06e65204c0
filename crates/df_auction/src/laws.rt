//! What the bytes of an order file tell, as laws.

ghost use Rattle.std.specs.Prelude.{◌≡◌, ℕ, List};
ghost use Rattle.df_auction.specs.OrderFile.{IsBadAt, IsOrderFile};
ghost use Rattle.df_book.specs.declared.order.Order.{Order};

/// The bytes of an order file determine its orders, and each of its records is in form: no bytes
/// are both read and refused.
pub fn an_order_file_is_one_list()
    ensures orders { (bytes : List ℕ) (some others : List Order) →
        IsOrderFile bytes some → IsOrderFile bytes others → some ≡ others }
    ensures good { (bytes : List ℕ) (orders : List Order) (line : ℕ) →
        IsOrderFile bytes orders → ¬ IsBadAt bytes line }
{}
