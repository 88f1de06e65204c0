ghost use Rattle.std.specs.Prelude.{ℕ, List, Option};
ghost use Rattle.df_io.specs.Faults.{Counts};
ghost use Rattle.df_io.specs.Pieces.{Takes, Appends};

/// A write failed, and nothing was appended. The sink has counted the fault.
#[derive(Clone, Copy, Debug, PartialEq, Eq)]
pub struct SinkFailed;

/// Takes what is written, piece by piece.
///
/// `faults` counts the failed writes and never falls; it stays at its greatest value once it is
/// there. `written` is all that was written, where the sink tells it.
pub trait Sink {
    ghost faults: { Self → ℕ };

    ghost written: { Self → Option (List ℕ) };

    /// Appends the front of a piece, and answers how many bytes that is: at least 1, for a piece
    /// that isn't empty.
    fn write_piece(&mut self, piece: &[u8]) -> Result<usize, SinkFailed>
        ensures takes { Takes piece.now result }
        ensures appends { Appends (written self.old) (written self.new) piece.now result }
        ensures cause { Counts (faults self.old) (faults self.new) result };
}
