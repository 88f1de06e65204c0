//! What tests ask of values. Each asks it of the plain content.

ghost use Rattle.std.specs.Prelude.{◌≡◌, ◌↔◌, IsTrue, option_map};
ghost use Rattle.df_filter.specs.Asked.{begins_with, equals_int, equals_words, field_of, int_of, is_above, is_below, is_between, words_of};
ghost use Rattle.df_frozen.specs.Value.{plain};

use df_frozen::{Name, Value, Words};

// The number that the value is.
fn int_of(value: &Value) -> Option<i64>
    ensures { result ≡ int_of (plain value.now) }
{
    match value {
        Value::Int(number) => Some(*number),
        _ => None,
    }
}

// The bytes of the words that the value is.
fn words_of(value: &Value) -> Option<&[u8]>
    ensures { option_map (λ words. words.now) result ≡ words_of (plain value.now) }
{
    match value {
        Value::Words(words) => Some(words.as_str().as_bytes()),
        _ => None,
    }
}

// The value of the field in the map that the value is.
pub fn field_of<'a>(field: &Name, value: &'a Value) -> Option<&'a Value>
    ensures { option_map (λ v. plain v.now) result ≡ field_of field.now (plain value.now) }
{
    match value {
        Value::Map(entries) => entries.get(field),
        _ => None,
    }
}

// Whether the value is this number.
pub fn equals_int(wanted: i64, value: &Value) -> bool
    ensures { result ≡ equals_int wanted (plain value.now) }
{
    int_of(value).is_some_and(|number| number == wanted)
}

// Whether the value is a number below this one.
pub fn is_below(limit: i64, value: &Value) -> bool
    ensures { result ≡ is_below limit (plain value.now) }
{
    int_of(value).is_some_and(|number| number < limit)
}

// Whether the value is a number above this one.
pub fn is_above(limit: i64, value: &Value) -> bool
    ensures { result ≡ is_above limit (plain value.now) }
{
    int_of(value).is_some_and(|number| number > limit)
}

// Whether the value is a number from the lowest to the highest, both included.
pub fn is_between(lowest: i64, highest: i64, value: &Value) -> bool
    ensures { result ≡ is_between lowest highest (plain value.now) }
{
    int_of(value).is_some_and(|number| lowest <= number && number <= highest)
}

// Whether the value is these words.
pub fn equals_words(wanted: &Words, value: &Value) -> bool
    ensures { result ≡ equals_words wanted.now (plain value.now) }
{
    words_of(value).is_some_and(|words| words == wanted.as_str().as_bytes())
}

// Whether the value is words that begin with these bytes.
pub fn begins_with(front: &Words, value: &Value) -> bool
    ensures { result ≡ begins_with front.now (plain value.now) }
{
    words_of(value).is_some_and(|words| words.starts_with(front.as_str().as_bytes()))
}

// Whether the two are the same words.
pub fn same_words(a: &Words, b: &Words) -> bool
    ensures { IsTrue result ↔ (a.now ≡ b.now) }
{
    a.as_str().as_bytes() == b.as_str().as_bytes()
}
