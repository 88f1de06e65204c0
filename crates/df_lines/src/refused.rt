ghost use Rattle.std.specs.Prelude.{◌≡◌};
ghost use Rattle.df_lines.specs.declared.refused.FileRefused.TheVariants as refused;

use df_memory::NoMemory;
use std::error::Error;
use std::fmt;

/// Why a file isn't read. Lines are counted from 1.
#[derive(Clone, Copy, Debug, PartialEq, Eq)]
pub enum FileRefused {
    /// The line is the first bad one: no text of the grammar goes on with it, or it has no line
    /// feed, or is lacking.
    Syntax { line: u64 },
    /// The first bad line has a value over the limits of freezing.
    TooLarge { line: u64 },
    NoMemory,
}

impl From<NoMemory> for FileRefused {
    ghost from_gives = { λ _ e. e ≡ refused.NoMemory };

    fn from(_error: NoMemory) -> FileRefused {
        FileRefused::NoMemory
    }
}

impl fmt::Display for FileRefused {
    fn fmt<W: fmt::Write>(&self, f: &mut fmt::Formatter<W>) -> fmt::Result {
        match self {
            FileRefused::Syntax { line } => write!(f, "line {line} is not spelled as it should be"),
            FileRefused::TooLarge { line } => write!(
                f,
                "line {line} has a value that is too large"
            ),
            FileRefused::NoMemory => f.write_str("out of memory"),
        }
    }
}

impl Error for FileRefused {}

/// What is wrong with a line that is refused.
#[derive(Clone, Copy, Debug, PartialEq, Eq)]
pub enum BadKind {
    Syntax,
    TooLarge,
}

impl fmt::Display for BadKind {
    ghost use Rattle.std.specs.Prelude.{Some};
    ghost use Rattle.df_lines.specs.Kinds.{kind_text};

    ghost output = { λ kind. Some (kind_text kind) };

    fn fmt<W: fmt::Write>(&self, f: &mut fmt::Formatter<W>) -> fmt::Result {
        match self {
            BadKind::Syntax => f.write_str("syntax"),
            BadKind::TooLarge => f.write_str("too large"),
        }
    }
}
