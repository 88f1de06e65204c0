//! The quantity that was traded.

ghost use Rattle.std.specs.Prelude.{◌≡◌};
ghost use Rattle.df_report.specs.Summing.{with_quantity, with_trade, quantity_of};

use df_frozen::{Name, Value};
use df_part::PartRef;

pub(crate) fn with_trade(sum: i128, shared: &PartRef) -> i128
    ensures { result ≡ with_trade sum shared.now }
{
    let part = shared.part();
    if part.name.as_str() == "trade" {
        with_quantity(sum, quantity_of(part.value.value()))
    } else {
        sum
    }
}

fn with_quantity(sum: i128, quantity: Option<i64>) -> i128
    ensures { result ≡ with_quantity sum quantity }
{
    match quantity {
        Some(quantity) => sum.saturating_add(i128::from(quantity)),
        None => sum,
    }
}

ghost use Rattle.std.specs.Prelude.{option_map};
ghost use Rattle.df_filter.specs.Asked.{field_of, int_of};
ghost use Rattle.df_frozen.specs.Value.{plain};

/// The whole number in the field `qty` of a map.
fn quantity_of(value: &Value) -> Option<i64>
    ensures { result ≡ quantity_of (plain value.now) }
{
    let Ok(field) = Name::new("qty") else {
        return None;
    };
    match field_of(&field, value) {
        Some(quantity) => int_of(quantity),
        None => None,
    }
}

fn int_of(value: &Value) -> Option<i64>
    ensures { result ≡ int_of (plain value.now) }
{
    match value {
        Value::Int(number) => Some(*number),
        _ => None,
    }
}

fn field_of<'a>(field: &Name, value: &'a Value) -> Option<&'a Value>
    ensures { option_map (λ v. plain v.now) result ≡ field_of field.now (plain value.now) }
{
    match value {
        Value::Map(entries) => entries.get(field),
        _ => None,
    }
}
