ghost use Rattle.std.specs.Prelude.{OnOk, OnErr};
ghost use Rattle.df_io.specs.Faults.{Counts};
ghost use Rattle.df_io.specs.Pieces.{HasAll, HasFront};

use crate::{Sink, SinkFailed};

/// Writes a text to its end: each call is given all that isn't written yet.
pub fn write_all<W: Sink>(out: &mut W, text: &[u8]) -> Result<(), SinkFailed>
    ensures all { OnOk result (HasAll (W.written out.old) text.now (W.written out.new)) }
    ensures front { OnErr result (HasFront (W.written out.old) text.now (W.written out.new)) }
    ensures cause { Counts (W.faults out.old) (W.faults out.new) result }
{
    let mut done = 0;
    while done < text.len() {
        let count = out.write_piece(&text[done..])?;
        done += count;
    }
    Ok(())
}
