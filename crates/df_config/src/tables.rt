//! The rows that the tables of a file tell.

ghost use Rattle.std.specs.Prelude.{◌≡◌, IfOk};
ghost use Rattle.toml.specs.View.{items_view, table_view, view};
ghost use Rattle.df_config.specs.ConfigTable.{each, number_of, pair_of, trader_of};

use crate::fields::{array_at, flag_at, integer_at, natural, size, text_at};
use crate::numbers::PairNumbers;
use crate::pair::{PairRow, PairRows};
use crate::trader::{TraderRow, TraderRows};
use df_frozen::Words;
use df_memory::NoMemory;
use std::alloc::Global;
use toml::{Table, Value};

/// The pairs of tables, if each tells one.
pub(crate) fn pairs_of(alloc: Global, values: &[Value]) -> Result<Option<PairRows>, NoMemory>
    ensures { IfOk result (λ r. r ≡ each pair_of (items_view values.now)) }
{
    let mut rows = Vec::new(alloc);
    for value in values {
        match pair_of(alloc, value)? {
            Some(row) => rows.push(row)?,
            None => return Ok(None),
        }
    }
    Ok(Some(PairRows::new(rows)))
}

fn pair_of(alloc: Global, value: &Value) -> Result<Option<PairRow>, NoMemory>
    ensures { IfOk result (λ r. r ≡ pair_of (view value.now)) }
{
    match value.as_table() {
        Some(table) => pair_of_table(alloc, table),
        None => Ok(None),
    }
}

ghost use Rattle.df_config.specs.ConfigTable.{pair_of_table, trader_of_table};

fn pair_of_table(alloc: Global, table: &Table) -> Result<Option<PairRow>, NoMemory>
    ensures { IfOk result (λ r. r ≡ pair_of_table (table_view table.now)) }
{
    if size(table) != 3 {
        return Ok(None);
    }
    let first = text_at(table, "first");
    let second = text_at(table, "second");
    let threshold = integer_at(table, "threshold");
    match (first, second, threshold) {
        (Some(first), Some(second), Some(threshold)) => Ok(Some(PairRow {
            first: Words::new(alloc, first)?,
            second: Words::new(alloc, second)?,
            threshold,
        })),
        _ => Ok(None),
    }
}

/// The traders of tables, if each tells one.
pub(crate) fn traders_of(alloc: Global, values: &[Value]) -> Result<Option<TraderRows>, NoMemory>
    ensures { IfOk result (λ r. r ≡ each trader_of (items_view values.now)) }
{
    let mut rows = Vec::new(alloc);
    for value in values {
        match trader_of(alloc, value)? {
            Some(row) => rows.push(row)?,
            None => return Ok(None),
        }
    }
    Ok(Some(TraderRows::new(rows)))
}

fn trader_of(alloc: Global, value: &Value) -> Result<Option<TraderRow>, NoMemory>
    ensures { IfOk result (λ r. r ≡ trader_of (view value.now)) }
{
    match value.as_table() {
        Some(table) => trader_of_table(alloc, table),
        None => Ok(None),
    }
}

fn trader_of_table(alloc: Global, table: &Table) -> Result<Option<TraderRow>, NoMemory>
    ensures { IfOk result (λ r. r ≡ trader_of_table (table_view table.now)) }
{
    if size(table) != 4 {
        return Ok(None);
    }
    let Some(pairs) = numbers_at(alloc, table)? else {
        return Ok(None);
    };
    let quantity = integer_at(table, "quantity");
    let slack = integer_at(table, "slack");
    let contrary = flag_at(table, "contrary");
    match (quantity, slack, contrary) {
        (Some(quantity), Some(slack), Some(contrary)) => Ok(Some(TraderRow {
            pairs,
            quantity,
            slack,
            contrary,
        })),
        _ => Ok(None),
    }
}

ghost use Rattle.std.specs.Prelude.{codes};
ghost use Rattle.df_config.specs.ConfigTable.{numbers_at};

fn numbers_at(alloc: Global, table: &Table) -> Result<Option<PairNumbers>, NoMemory>
    ensures { IfOk result (λ r. r ≡ numbers_at (codes "pairs") (table_view table.now)) }
{
    match array_at(table, "pairs") {
        Some(values) => numbers_of(alloc, values),
        None => Ok(None),
    }
}

fn numbers_of(alloc: Global, values: &[Value]) -> Result<Option<PairNumbers>, NoMemory>
    ensures { IfOk result (λ r. r ≡ each number_of (items_view values.now)) }
{
    let mut numbers = Vec::new(alloc);
    for value in values {
        match natural(value.as_integer()) {
            Some(number) => numbers.push(number)?,
            None => return Ok(None),
        }
    }
    Ok(Some(PairNumbers::new(numbers)))
}
