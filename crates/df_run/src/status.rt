ghost use Rattle.std.specs.Prelude.{◌≡◌};
ghost use Rattle.df_run.specs.Status.{code_of};

use std::fmt;

/// What is wrong with an input.
#[derive(Clone, Copy, Debug, PartialEq, Eq)]
pub enum BadKind {
    Syntax,
    TooLarge,
    BadOrder,
    BadConfig,
    BadTick,
}

/// How a run ended.
#[derive(Clone, Copy, Debug, PartialEq, Eq)]
pub enum Status {
    Done,
    Usage,
    BadInput {
        input: u32,
        line: u64,
        kind: BadKind,
    },
    /// The journal isn't right, and this is its first wrong place.
    Wrong {
        place: u64,
    },
    ReadFault,
    WriteFault,
    NoMemory,
    TooLong {
        input: u32,
    },
    /// The run of a floor was cut off: its journal has so many entries, at least as many as it may
    /// have, and some unit is not at rest.
    Unsettled {
        steps: u64,
    },
    /// The journal is right and has so many entries, and the place that was asked for isn't below
    /// that.
    NoPlace {
        entries: u64,
    },
}

impl Status {
    /// The code with which the program ends.
    pub fn code(self) -> u8
        ensures { result ≡ code_of self }
    {
        match self {
            Status::Done => 0,
            Status::Usage => 2,
            Status::BadInput { .. } => 3,
            Status::Wrong { .. } => 4,
            Status::ReadFault => 5,
            Status::WriteFault => 6,
            Status::NoMemory => 7,
            Status::TooLong { .. } => 8,
            Status::Unsettled { .. } => 9,
            Status::NoPlace { .. } => 10,
        }
    }
}

impl fmt::Display for BadKind {
    ghost use Rattle.std.specs.Prelude.{Some};
    ghost use Rattle.df_run.specs.Status.{kind_text};

    ghost output = { λ kind. Some (kind_text kind) };

    fn fmt<W: fmt::Write>(&self, f: &mut fmt::Formatter<W>) -> fmt::Result {
        match self {
            BadKind::Syntax => f.write_str("syntax"),
            BadKind::TooLarge => f.write_str("too large"),
            BadKind::BadOrder => f.write_str("order"),
            BadKind::BadConfig => f.write_str("config"),
            BadKind::BadTick => f.write_str("tick"),
        }
    }
}

impl fmt::Display for Status {
    ghost use Rattle.std.specs.Prelude.{Some};
    ghost use Rattle.df_run.specs.Status.{status_text};

    ghost output = { λ status. Some (status_text status) };

    fn fmt<W: fmt::Write>(&self, f: &mut fmt::Formatter<W>) -> fmt::Result {
        match self {
            Status::Done => f.write_str("defcon: done"),
            Status::Usage => f.write_str("defcon: usage"),
            Status::BadInput { input, line, kind } => {
                write!(f, "defcon: bad input {input} line {line}: {kind}")
            }
            Status::Wrong { place } => write!(f, "defcon: wrong at {place}"),
            Status::ReadFault => f.write_str("defcon: read fault"),
            Status::WriteFault => f.write_str("defcon: write fault"),
            Status::NoMemory => f.write_str("defcon: no memory"),
            Status::TooLong { input } => write!(f, "defcon: input {input} too long"),
            Status::Unsettled { steps } => write!(f, "defcon: unsettled after {steps}"),
            Status::NoPlace { entries } => write!(f, "defcon: no place in {entries}"),
        }
    }
}
