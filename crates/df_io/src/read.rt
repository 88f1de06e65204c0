ghost use Rattle.std.specs.Prelude.{◌≡◌, ℕ, ◌<◌, ◌≤◌, List, length, Err, IfOk, IfSome};
ghost use Rattle.df_io.specs.Faults.{Rose};
ghost use Rattle.df_io.specs.Limits.{longest_file};

use crate::Shelf;
use std::alloc::Global;

/// The most bytes that a file may have.
pub const LONGEST_FILE: usize = 67_108_864;

/// How many bytes are asked for at once: so few that they are still at hand when they are appended.
pub(crate) const PIECE: usize = 4_000;

// So many bytes there is room for at first: from this size on memory grows where it lies.
const ROOM: usize = 262_144;

/// Why a file was not read.
#[derive(Clone, Copy, Debug, PartialEq, Eq)]
pub enum NotRead {
    Fault,
    TooLong,
    NoMemory,
}

/// Reads a whole file, and stops where it has a byte too many.
pub fn read_file<F: Shelf>(alloc: Global, shelf: &mut F, name: &str) -> Result<Vec<u8>, NotRead>
    ensures read { IfOk result (λ v. IfSome (F.bytes shelf.old name.now) (λ bs. v.items ≡ bs)) }
    ensures short { IfOk result (λ v. length v.items ≤ longest_file) }
    ensures too_long { result ≡ Err NotRead.TooLong →
        IfSome (F.bytes shelf.old name.now) (λ bs. longest_file < length bs) }
    ensures fault { result ≡ Err NotRead.Fault → Rose (F.faults shelf.old) (F.faults shelf.new) }
    ensures never_falls { F.faults shelf.old ≤ F.faults shelf.new }
    ensures same { (n : List ℕ) → F.bytes shelf.new n ≡ F.bytes shelf.old n }
{
    let Ok(mut bytes) = Vec::with_capacity(alloc, ROOM) else {
        return Err(NotRead::NoMemory);
    };
    let mut piece = [0u8; PIECE];
    loop {
        let Ok(count) = shelf.read_piece(name, bytes.len() as u64, &mut piece) else {
            return Err(NotRead::Fault);
        };
        if count == 0 {
            return Ok(bytes);
        }
        if bytes.extend_from_slice(&piece[..count]).is_err() {
            return Err(NotRead::NoMemory);
        }
        if bytes.len() > LONGEST_FILE {
            return Err(NotRead::TooLong);
        }
    }
}
