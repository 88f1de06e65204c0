//! The lines of a summary.

ghost use Rattle.std.specs.Prelude.{◌≡◌, ◌++◌, IfOk, OnOk, OnErr, string_bytes};
ghost use Rattle.df_report.specs.SummaryText.{summary_text, count_line, quantity_line};

use crate::report::Summary;
use df_memory::NoMemory;
use std::alloc::Global;
use std::fmt::Write;

/// Appends the lines of a summary. Without memory nothing is appended.
pub fn write_summary(summary: &Summary, to: &mut Vec<u8>) -> Result<(), NoMemory>
    ensures ok { OnOk result (to.new.items ≡ to.old.items ++ summary_text summary.now) }
    ensures err { OnErr result (to.new.items ≡ to.old.items) }
{
    let text = text_of(*to.allocator(), summary)?;
    to.extend_from_slice(text.as_bytes())?;
    Ok(())
}

fn text_of(alloc: Global, summary: &Summary) -> Result<String, NoMemory>
    ensures { IfOk result (λ text. string_bytes text ≡ summary_text summary.now) }
{
    let mut text = String::new(alloc);
    append_count(&mut text, "ticks", summary.ticks)?;
    append_count(&mut text, "matches", summary.matches)?;
    append_count(&mut text, "orders", summary.orders)?;
    append_count(&mut text, "trades", summary.trades)?;
    append_quantity(&mut text, summary.quantity)?;
    append_count(&mut text, "warnings", summary.warnings)?;
    append_count(&mut text, "instances", summary.instances)?;
    Ok(text)
}

fn append_count(text: &mut String, word: &str, count: u64) -> Result<(), NoMemory>
    ensures { OnOk result (string_bytes text.new ≡ string_bytes text.old
        ++ count_line word.now count) }
{
    text.push_str(word)?;
    write!(text, " {count}\n")?;
    Ok(())
}

fn append_quantity(text: &mut String, quantity: i128) -> Result<(), NoMemory>
    ensures { OnOk result (string_bytes text.new ≡ string_bytes text.old
        ++ quantity_line quantity) }
{
    write!(text, "quantity {quantity}\n")?;
    Ok(())
}
