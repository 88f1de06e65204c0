//! A disk, as a journal that is to outlive a crash sees it.
ghost use Rattle.std.specs.Prelude.{◌≡◌, ℕ, ◌≤◌, List, length, Option, IfOk, IfSome, OnOk};
ghost use Rattle.df_io.specs.Faults.{Counts};
ghost use Rattle.df_io.specs.Pieces.{Reads};
ghost use Rattle.df_disk.specs.Disk.{Elapses, Follows, IsSettled, MayStay, NoMore, Torn, Writes};

/// A call of a disk failed. The disk has counted the fault.
#[derive(Clone, Copy, Debug, PartialEq, Eq)]
pub struct DiskFailed;

/// One file, whose bytes outlive a crash once they are synced.
///
/// `bytes` gives what a read gives, where the disk tells it. `may_leave` are the images that a
/// crash now may leave, and `left_since` those that a crash might have left at some moment since
/// a given one. `moment` never falls. `faults` counts the failed calls and never falls; it stays
/// at its greatest value once it is there.
pub trait Disk {
    ghost bytes: { Self → Option (List ℕ) };

    ghost may_leave: { Self → List ℕ → Type 0 };

    ghost moment: { Self → ℕ };

    ghost left_since: { Self → ℕ → List ℕ → Type 0 };

    ghost faults: { Self → ℕ };

    /// How many bytes there are.
    fn size(&mut self) -> Result<u64, DiskFailed>
        ensures size { IfOk result (λ n. IfSome (bytes self.old) (λ bs. n ≡ length bs)) }
        ensures same { bytes self.new ≡ bytes self.old }
        ensures crash { NoMore (may_leave self.old) (may_leave self.new) }
        ensures time { Elapses (moment self.old) (moment self.new) (left_since self.old)
            (left_since self.new) (may_leave self.new) }
        ensures cause { Counts (faults self.old) (faults self.new) result };

    /// Reads from the place `at` on, and answers how many bytes were read. For a buffer that isn't
    /// empty, 0 says that the bytes end there.
    fn read_at(&mut self, at: u64, into: &mut [u8]) -> Result<usize, DiskFailed>
        ensures within { IfOk result (λ n. n ≤ length into.new) }
        ensures read { Reads (bytes self.old) at into.old into.new result }
        ensures same { bytes self.new ≡ bytes self.old }
        ensures crash { NoMore (may_leave self.old) (may_leave self.new) }
        ensures time { Elapses (moment self.old) (moment self.new) (left_since self.old)
            (left_since self.new) (may_leave self.new) }
        ensures cause { Counts (faults self.old) (faults self.new) result };

    /// Writes over what is there, and past the end. Until a sync, a crash may leave any bytes in
    /// the range.
    fn write_at(&mut self, at: u64, piece: &[u8]) -> Result<(), DiskFailed>
        requires { IfSome (bytes self.old) (λ bs. at ≤ length bs) }
        ensures written { Writes at piece.now (bytes self.old) (bytes self.new) result }
        ensures crash { Follows (Torn at (length piece.now)) (may_leave self.old)
            (may_leave self.new) }
        ensures time { Elapses (moment self.old) (moment self.new) (left_since self.old)
            (left_since self.new) (may_leave self.new) }
        ensures cause { Counts (faults self.old) (faults self.new) result };

    /// Once it is done, a crash leaves what a read gives.
    fn sync(&mut self) -> Result<(), DiskFailed>
        ensures settled { OnOk result (IsSettled (bytes self.old) (may_leave self.new)) }
        ensures same { bytes self.new ≡ bytes self.old }
        ensures crash { NoMore (may_leave self.old) (may_leave self.new) }
        ensures time { Elapses (moment self.old) (moment self.new) (left_since self.old)
            (left_since self.new) (may_leave self.new) }
        ensures cause { Counts (faults self.old) (faults self.new) result };

    /// What a read gives is one of the images.
    ghost may_stay: { (disk : Self) → MayStay (bytes disk) (may_leave disk) };

    /// This moment is one of those since an earlier one.
    ghost counts_now: { (disk : Self) (t : ℕ) (c : List ℕ) → t ≤ moment disk →
        may_leave disk c → left_since disk t c };

    /// Since this moment there is no other.
    ghost only_now: { (disk : Self) (c : List ℕ) → left_since disk (moment disk) c →
        may_leave disk c };
}
