ghost use Rattle.std.specs.Prelude.{◌≡◌};
ghost use Rattle.df_keep.specs.Status.{code_of};

use df_lines::BadKind;
use std::fmt;

/// How a run ended.
#[derive(Clone, Copy, Debug, PartialEq, Eq)]
pub enum KeepStatus {
    Done,
    Usage,
    BadInput {
        input: u32,
        line: u64,
        kind: BadKind,
    },
    ReadFault,
    WriteFault,
    NoMemory,
    TooLong {
        input: u32,
    },
    DiskFault,
    /// The store isn't empty, and this is the gate of its first record that isn't whole or isn't
    /// what has to stand there.
    Damaged {
        at: u64,
    },
    /// The store has another start than the script.
    StartDiffers,
}

impl KeepStatus {
    /// The code with which the program ends.
    pub fn code(self) -> u8
        ensures { result ≡ code_of self }
    {
        match self {
            KeepStatus::Done => 0,
            KeepStatus::Usage => 2,
            KeepStatus::BadInput { .. } => 3,
            KeepStatus::ReadFault => 5,
            KeepStatus::WriteFault => 6,
            KeepStatus::NoMemory => 7,
            KeepStatus::TooLong { .. } => 8,
            KeepStatus::DiskFault => 20,
            KeepStatus::Damaged { .. } => 21,
            KeepStatus::StartDiffers => 22,
        }
    }
}

impl fmt::Display for KeepStatus {
    ghost use Rattle.std.specs.Prelude.{Some};
    ghost use Rattle.df_keep.specs.Status.{status_text};

    ghost output = { λ status. Some (status_text status) };

    fn fmt<W: fmt::Write>(&self, f: &mut fmt::Formatter<W>) -> fmt::Result {
        match self {
            KeepStatus::Done => f.write_str("defcon: done"),
            KeepStatus::Usage => f.write_str("defcon: usage"),
            KeepStatus::BadInput { input, line, kind } => {
                write!(f, "defcon: bad input {input} line {line}: {kind}")
            }
            KeepStatus::ReadFault => f.write_str("defcon: read fault"),
            KeepStatus::WriteFault => f.write_str("defcon: write fault"),
            KeepStatus::NoMemory => f.write_str("defcon: no memory"),
            KeepStatus::TooLong { input } => write!(f, "defcon: input {input} too long"),
            KeepStatus::DiskFault => f.write_str("defcon: disk fault"),
            KeepStatus::Damaged { at } => write!(f, "defcon: damaged at {at}"),
            KeepStatus::StartDiffers => f.write_str("defcon: start differs"),
        }
    }
}
