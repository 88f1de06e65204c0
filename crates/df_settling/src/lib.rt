//! How many entries a journal of a trading floor may have. The crate has no code: each function is
//! a law, and its contract is what holds.
#![tactic(auto)]

ghost use Rattle.std.specs.Prelude.{◌+◌, ◌≤◌, ℕ, List, [], length};
ghost use Rattle.df_book.specs.Submitting.{resting_after, submitted};
ghost use Rattle.df_book.specs.declared.order.Order.{Order};
ghost use Rattle.df_config.specs.ConfigForm.{IsConfig};
ghost use Rattle.df_config.specs.declared.config.Config.{Config};
ghost use Rattle.df_settling.specs.Counts.{KeepCounts};
ghost use Rattle.df_settling.specs.Running.{run_of};
ghost use Rattle.df_settling.specs.Settling.{IsFloorJournal, most_entries, settling_bound};
ghost use Rattle.df_settling.specs.Trades.{trade_count};
ghost use Rattle.df_ticks.specs.declared.tick.Tick.{Tick};
ghost use Rattle.df_unit.specs.declared.entry.Entry.{Entry};
ghost use Rattle.df_unit.specs.declared.name.UnitName.{UnitName};

/// However the units of a floor take turns, their journal is bounded. With 3 traders, 4 monitors
/// and at most 4,000 ticks the bound is below 1,000,000.
pub fn floors_settle()
    ensures bound { (c : Config) (ticks : List Tick) (past : List Entry) → IsConfig c →
        IsFloorJournal c ticks past → length past ≤ settling_bound c ticks }
    ensures four_thousand { (n : ℕ) → n ≤ 4_000 → most_entries 3 4 n ≤ 956_021 }
{}

/// In a journal of a floor each unit has as many entries at most as its kind and what it is handed
/// allow, and the broker as the trades of its book allow. As these are no more than the orders that
/// it is handed, it has at most 2, and 9 for each of them.
pub fn units_keep_their_counts()
    ensures { (c : Config) (ticks : List Tick) (past : List Entry) → IsConfig c →
        IsFloorJournal c ticks past → KeepCounts c ticks past }
{}

/// Each trade uses an order up: the trades of orders and what rests after them are together no more
/// than the orders.
pub fn trades_use_orders_up()
    ensures one { (o : Order) (book : List Order) →
        length (submitted o book).trades + length (submitted o book).resting ≤ length book + 1 }
    ensures all { (orders : List Order) →
        trade_count [] orders + length (resting_after orders) ≤ length orders }
{}

/// In whatever order the units of a floor are asked for their next calls, they make a journal of
/// the floor.
pub fn floors_run()
    ensures { (c : Config) (ticks : List Tick) (units : List UnitName) →
        IsFloorJournal c ticks (run_of c ticks units []) }
{}
