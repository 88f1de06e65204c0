ghost use Rattle.std.specs.Prelude.{◌≡◌, ℕ, ◌<◌, ◌≤◌, List, length, Option, Err, OnOk};
ghost use Rattle.df_io.specs.Faults.{Rose};
ghost use Rattle.df_io.specs.Limits.{longest_file};
ghost use Rattle.df_lines.specs.Lines.{IsLine};
ghost use Rattle.df_live.specs.Lines.{Takes};

/// What was taken of a source.
#[derive(Clone, Copy, Debug, PartialEq, Eq)]
pub enum Taken {
    /// A line and its line feed.
    Line,
    /// What stands behind the last line feed. Nothing comes behind it.
    End,
}

/// Why no line was taken.
#[derive(Clone, Copy, Debug, PartialEq, Eq)]
pub enum NotTaken {
    Fault,
    /// The line is longer than a file may be.
    TooLong,
    NoMemory,
}

/// Lines that come one at a time.
///
/// `faults` counts the failed reads and never falls; it stays at its greatest value once it is
/// there. `to_come` has the bytes that are still to come, where the source tells them.
pub trait Lines {
    ghost faults: { Self → ℕ };

    ghost to_come: { Self → Option (List ℕ) };

    /// Takes the next line. `line` then has it in place of what it had, without its line feed. On
    /// `Err` it has what was taken of the line, which is lost to the source.
    fn next_line(&mut self, line: &mut Vec<u8>) -> Result<Taken, NotTaken>
        ensures takes { Takes (to_come self.old) (to_come self.new) line.new.items result }
        ensures one { IsLine line.new.items }
        ensures short { OnOk result (length line.new.items ≤ longest_file) }
        ensures too_long { result ≡ Err NotTaken.TooLong → longest_file < length line.new.items }
        ensures fault { result ≡ Err NotTaken.Fault → Rose (faults self.old) (faults self.new) }
        ensures never_falls { faults self.old ≤ faults self.new };
}
