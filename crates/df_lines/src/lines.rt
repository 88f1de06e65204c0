ghost use Rattle.std.specs.Prelude.{◌≡◌, ◌≤◌, length, option_map};
ghost use Rattle.df_lines.specs.code.Faults.{IsInside, TellsLine, line_number, refusal};

use crate::{FileFault, FileRefused};

/// The line at the place without its line feed, and the place behind that; none where no line feed
/// is left.
pub fn line_at(bytes: &[u8], at: usize) -> Option<(&[u8], usize)>
    requires { at ≤ length bytes.now }
    ensures { TellsLine bytes.now at (option_map (λ line. (line.0.now, line.1)) result) }
{
    let text = &bytes[at..];
    let end = text.iter().position(|b| *b == b'\n')?;
    Some((&text[..end], at + end + 1))
}

/// The number of the line in which the place lies, counted from 1.
fn line_number(bytes: &[u8], place: usize) -> u64
    requires { place ≤ length bytes.now }
    ensures { result ≡ line_number bytes.now place }
{
    bytes[..place].iter().filter(|b| **b == b'\n').count() as u64 + 1
}

/// The fault by the number of its line.
pub fn file_refused(bytes: &[u8], fault: FileFault) -> FileRefused
    requires { IsInside bytes.now fault }
    ensures { result ≡ refusal bytes.now fault }
{
    match fault {
        FileFault::NoMemory => FileRefused::NoMemory,
        FileFault::Bad(place) => FileRefused::Syntax {
            line: line_number(bytes, place),
        },
        FileFault::TooLarge(place) => FileRefused::TooLarge {
            line: line_number(bytes, place),
        },
    }
}
