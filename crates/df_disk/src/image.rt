ghost use Rattle.std.specs.Prelude.{◌≡◌, ◌≤◌, Err, IfOk, IfSome};
ghost use Rattle.df_io.specs.Faults.{Rose};
ghost use Rattle.df_disk.specs.Disk.{NoMore, Recedes};

use crate::Disk;
use std::alloc::Global;

/// How many bytes are asked for at once.
const PIECE: usize = 65_536;

/// Why the image of a disk was not taken.
#[derive(Clone, Copy, Debug, PartialEq, Eq)]
pub enum NotTaken {
    Fault,
    NoMemory,
}

/// Reads all that is on a disk: it asks for the size once, and reads until a read gives nothing or
/// that many bytes were taken.
pub fn take_image<D: Disk>(alloc: Global, disk: &mut D) -> Result<Vec<u8>, NotTaken>
    ensures taken { IfOk result (λ v. IfSome (D.bytes disk.old) (λ bs. v.items ≡ bs)) }
    ensures fault { result ≡ Err NotTaken.Fault → Rose (D.faults disk.old) (D.faults disk.new) }
    ensures never_falls { D.faults disk.old ≤ D.faults disk.new }
    ensures same { D.bytes disk.new ≡ D.bytes disk.old }
    ensures crash { NoMore (D.may_leave disk.old) (D.may_leave disk.new) }
    ensures time { Recedes (D.moment disk.old) (D.moment disk.new) (D.left_since disk.old)
        (D.left_since disk.new) }
{
    let Ok(size) = disk.size() else {
        return Err(NotTaken::Fault);
    };
    let size = size as usize;
    let mut bytes: Vec<u8> = Vec::new(alloc);
    let mut piece = [0u8; PIECE];
    'pieces: while bytes.len() < size {
        let Ok(count) = disk.read_at(bytes.len() as u64, &mut piece) else {
            return Err(NotTaken::Fault);
        };
        if count == 0 {
            return Ok(bytes);
        }
        let taken = count.min(size - bytes.len());
        if bytes.extend_from_slice(&piece[..taken]).is_err() {
            return Err(NotTaken::NoMemory);
        }
    }
    Ok(bytes)
}
