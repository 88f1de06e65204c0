//! The fields of a table, by their keys.

ghost use Rattle.std.specs.Prelude.{◌≡◌, option_map};
ghost use Rattle.toml.specs.Data.{get_member};
ghost use Rattle.toml.specs.View.{items_view, table_view, view};
ghost use Rattle.df_config.specs.ConfigTable.{size};

use toml::{Table, Value};

pub(crate) fn size(table: &Table) -> usize
    ensures { result ≡ size (table_view table.now) }
{
    table.len()
}

fn value_at<'a>(table: &'a Table, key: &str) -> Option<&'a Value>
    ensures { option_map (λ v. view v.now) result ≡ get_member key.now (table_view table.now) }
{
    table.get(key)
}

ghost use Rattle.df_config.specs.ConfigTable.{array_at, flag_at, integer_at, natural, text_at};

pub(crate) fn text_at<'a>(table: &'a Table, key: &str) -> Option<&'a str>
    ensures { option_map (λ s. s.now) result ≡ text_at key.now (table_view table.now) }
{
    match value_at(table, key) {
        Some(value) => value.as_str(),
        None => None,
    }
}

pub(crate) fn integer_at(table: &Table, key: &str) -> Option<i64>
    ensures { result ≡ integer_at key.now (table_view table.now) }
{
    match value_at(table, key) {
        Some(value) => value.as_integer(),
        None => None,
    }
}

pub(crate) fn flag_at(table: &Table, key: &str) -> Option<bool>
    ensures { result ≡ flag_at key.now (table_view table.now) }
{
    match value_at(table, key) {
        Some(value) => value.as_bool(),
        None => None,
    }
}

pub(crate) fn array_at<'a>(table: &'a Table, key: &str) -> Option<&'a [Value]>
    ensures { option_map (λ a. items_view a.now) result
        ≡ array_at key.now (table_view table.now) }
{
    match value_at(table, key)?.as_array() {
        Some(values) => Some(values.as_slice()),
        None => None,
    }
}

/// The number, if it fits 32 bits.
pub(crate) fn natural(number: Option<i64>) -> Option<u32>
    ensures { result ≡ natural number }
{
    match number {
        Some(n) if n >= 0 && n <= 4_294_967_295 => Some(n as u32),
        _ => None,
    }
}
