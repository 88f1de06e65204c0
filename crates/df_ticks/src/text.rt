//! The text of a tick file.

ghost use Rattle.std.specs.Prelude.{◌≡◌, ◌++◌, IfOk, OnOk, string_bytes};
ghost use Rattle.df_ticks.specs.TickText.{tick_line, ticks_text};

use crate::tick::Tick;
use df_memory::NoMemory;
use std::alloc::Global;
use std::fmt::Write;

/// The text of a file of these ticks.
pub fn write_ticks(alloc: Global, ticks: &[Tick]) -> Result<Vec<u8>, NoMemory>
    ensures { IfOk result (λ v. v.items ≡ ticks_text ticks.now) }
{
    let mut text = String::from_str(alloc, "symbol,price\n")?;
    for tick in ticks {
        append_tick(&mut text, tick)?;
    }
    Ok(text.into_bytes())
}

fn append_tick(text: &mut String, tick: &Tick) -> Result<(), NoMemory>
    ensures { OnOk result (string_bytes text.new ≡ string_bytes text.old ++ tick_line tick.now) }
{
    let price = tick.price;
    text.push_str(tick.symbol.as_str())?;
    write!(text, ",{price}\n")?;
    Ok(())
}
