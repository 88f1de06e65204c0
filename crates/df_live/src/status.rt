ghost use Rattle.std.specs.Prelude.{◌≡◌};
ghost use Rattle.df_live.specs.Status.{code_of};

use df_lines::BadKind;
use std::fmt;

/// How a run ended.
#[derive(Clone, Copy, Debug, PartialEq, Eq)]
pub enum LiveStatus {
    Done,
    /// There are words, and the program takes none.
    Usage,
    /// This line, counted from 1, is the first bad one.
    BadInput { line: u64, kind: BadKind },
    ReadFault,
    WriteFault,
    NoMemory,
    /// A line is longer than a file may be, or the last number that a line can have is taken.
    TooLong,
}

impl LiveStatus {
    /// The code with which the program ends.
    pub fn code(self) -> u8
        ensures { result ≡ code_of self }
    {
        match self {
            LiveStatus::Done => 0,
            LiveStatus::Usage => 2,
            LiveStatus::BadInput { .. } => 3,
            LiveStatus::ReadFault => 5,
            LiveStatus::WriteFault => 6,
            LiveStatus::NoMemory => 7,
            LiveStatus::TooLong => 8,
        }
    }
}

impl fmt::Display for LiveStatus {
    ghost use Rattle.std.specs.Prelude.{Some};
    ghost use Rattle.df_live.specs.Status.{status_text};

    ghost output = { λ status. Some (status_text status) };

    fn fmt<W: fmt::Write>(&self, f: &mut fmt::Formatter<W>) -> fmt::Result {
        match self {
            LiveStatus::Done => f.write_str("defcon: done"),
            LiveStatus::Usage => f.write_str("defcon: usage"),
            LiveStatus::BadInput { line, kind } => {
                write!(f, "defcon: bad input 1 line {line}: {kind}")
            }
            LiveStatus::ReadFault => f.write_str("defcon: read fault"),
            LiveStatus::WriteFault => f.write_str("defcon: write fault"),
            LiveStatus::NoMemory => f.write_str("defcon: no memory"),
            LiveStatus::TooLong => f.write_str("defcon: input 1 too long"),
        }
    }
}
