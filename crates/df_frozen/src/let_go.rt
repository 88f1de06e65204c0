//! Letting values go at any depth, without recursion and without memory.
//!
//! One list or map waits, and its last value is taken out of it. Where that is a list or map with
//! values of its own, what waits is put first among those. Its first value goes last, and its last
//! goes to the place that was left in what waits, so each place of the two is filled again.

ghost use Rattle.std.specs.Prelude.{◌≡◌, ◌<◌, ◌+◌, length, get_or, pos};
ghost use Rattle.df_frozen.specs.Plain.{int};
ghost use Rattle.df_frozen.specs.code.LetGo.{listed, cost, full_cost};

use crate::value::Value;

pub(crate) fn let_go(mut waiting: Value) {
    while waiting.inner_len() > 0 {
        waiting = step(waiting);
    }
    waiting.end();
}

// Lets go of one value, or opens one.
fn step(mut waiting: Value) -> Value
    requires { 0 < length (listed waiting) }
    ensures { cost (listed result) < cost (listed waiting) }
{
    let last = waiting.inner_len() - 1;
    if last == 0 {
        let value = waiting.pop_inner();
        waiting.end();
        return value;
    }
    let mut value = waiting.replace_inner(last, Value::Int(0));
    match value.inner_len() {
        0 => {
            waiting.pop_inner().end();
            value.end();
            waiting
        }
        1 => {
            let only = value.pop_inner();
            waiting.replace_inner(last, only).end();
            value.end();
            waiting
        }
        _ => hang(waiting, last, value),
    }
}

// Puts what waits first in the value. A 0 stands in the value's place.
fn hang(mut waiting: Value, place: usize, mut value: Value) -> Value
    requires later { 0 < place }
    requires within { place < length (listed waiting) }
    requires free { get_or (listed waiting) place (int (pos 0)) ≡ int (pos 0) }
    requires more { 1 < length (listed value) }
    ensures { cost (listed result) ≡ cost (listed waiting) + full_cost (listed value) }
{
    let end = value.inner_len() - 1;
    let last = value.replace_inner(end, Value::Int(0));
    waiting.replace_inner(place, last).end();
    let first = value.replace_inner(0, waiting);
    value.replace_inner(end, first).end();
    value
}
