ghost use Rattle.std.specs.Prelude.{◌≡◌, ℕ, ◌≤◌, List, length, Option, IfOk};
ghost use Rattle.df_io.specs.Faults.{Counts};
ghost use Rattle.df_io.specs.Pieces.{Reads};

use df_memory::NoMemory;

/// A read failed. The shelf has counted the fault.
#[derive(Clone, Copy, Debug, PartialEq, Eq)]
pub struct ShelfFailed;

/// Files by name, read piece by piece.
///
/// `faults` counts the failed reads and never falls; it stays at its greatest value once it is
/// there. `bytes` gives what is in the file of a name, where the shelf tells it.
pub trait Shelf {
    ghost faults: { Self → ℕ };

    ghost bytes: { Self → List ℕ → Option (List ℕ) };

    /// Reads from the place `at` of a file on, and answers how many bytes were read.
    /// For a buffer that isn't empty, 0 says that the file ends there.
    fn read_piece(&mut self, name: &str, at: u64, into: &mut [u8]) -> Result<usize, ShelfFailed>
        ensures within { IfOk result (λ n. n ≤ length into.new) }
        ensures read { Reads (bytes self.old name.now) at into.old into.new result }
        ensures same { (n : List ℕ) → bytes self.new n ≡ bytes self.old n }
        ensures cause { Counts (faults self.old) (faults self.new) result };
}
