ghost use Rattle.std.specs.Prelude.{◌≡◌, ◌≢◌, ◌<◌, ◌≤◌, length, Err, IfErr, OnOk, OnErr};
ghost use Rattle.df_io.specs.Faults.{Rose};
ghost use Rattle.df_io.specs.Limits.{longest_file};
ghost use Rattle.df_lines.specs.Lines.{IsLine};
ghost use Rattle.df_live.specs.Lines.{Takes};

use crate::lines::{Lines, NotTaken, Taken};
use crate::part::append_part;
use df_io::LONGEST_FILE;
use std::io::Read;

/// How many bytes are asked for at once.
const PIECE: usize = 65_536;

/// The lines of a reader. It is read only where no whole line is left of what was read.
#[derive(Drop)]
pub struct ReadLines<R: Drop> {
    from: R,
    piece: [u8; PIECE],
    start: usize,
    end: usize,
    faults: u64,
    ghost ordered: { start ≤ end },
    ghost inside: { end ≤ 65536 },
}

impl<R: Read + Drop> ReadLines<R> {
    ghost use Rattle.df_live.specs.ReadLines.{Fills, TakesPart, faults_of, left_in, left_of};

    pub fn new(from: R) -> ReadLines<R>
        ensures { left_of R.remaining result ≡ R.remaining from }
    {
        ReadLines {
            from,
            piece: [0; PIECE],
            start: 0,
            end: 0,
            faults: 0,
        }
    }

    /// Reads a piece, where nothing is left of the last one. None comes any more on `false`.
    fn fill(&mut self) -> Result<bool, NotTaken>
        ensures fills { Fills R.remaining self.old self.new result }
        ensures fault { OnErr result (Rose (faults_of self.old) (faults_of self.new)) }
        ensures only { IfErr result (λ e. e ≡ NotTaken.Fault) }
        ensures never_falls { faults_of self.old ≤ faults_of self.new }
    {
        if self.start < self.end {
            return Ok(true);
        }
        match self.from.read(&mut self.piece) {
            Ok(count) => {
                self.start = 0;
                self.end = count;
                Ok(count > 0)
            }
            Err(_) => {
                self.faults = self.faults.saturating_add(1);
                Err(NotTaken::Fault)
            }
        }
    }

    /// Moves what is left of the piece to the line, up to the line feed. On `true` it was there.
    fn take_part(&mut self, line: &mut Vec<u8>) -> Result<bool, NotTaken>
        requires some { 0 < length (left_in self.old) }
        requires short { length line.old.items ≤ longest_file }
        ensures part { TakesPart (left_of R.remaining self.old) (left_of R.remaining self.new)
            line.old.items line.new.items result }
        ensures short { OnOk result (length line.new.items ≤ longest_file) }
        ensures too_long { result ≡ Err NotTaken.TooLong → longest_file < length line.new.items }
        ensures no_fault { result ≢ Err NotTaken.Fault }
        ensures faults { faults_of self.new ≡ faults_of self.old }
    {
        let part = append_part(&self.piece[self.start..self.end], line)?;
        self.start += part.count;
        if line.len() > LONGEST_FILE {
            return Err(NotTaken::TooLong);
        }
        if part.ends {
            self.start += 1;
        }
        Ok(part.ends)
    }
}

impl<R: Read + Drop> Lines for ReadLines<R> {
    ghost use Rattle.df_live.specs.ReadLines.{faults_of, left_of};

    ghost faults = { faults_of };

    ghost to_come = { left_of R.remaining };

    fn next_line(&mut self, line: &mut Vec<u8>) -> Result<Taken, NotTaken>
        ensures takes { Takes (left_of R.remaining self.old) (left_of R.remaining self.new)
            line.new.items result }
        ensures one { IsLine line.new.items }
        ensures short { OnOk result (length line.new.items ≤ longest_file) }
        ensures too_long { result ≡ Err NotTaken.TooLong → longest_file < length line.new.items }
        ensures fault { result ≡ Err NotTaken.Fault
            → Rose (faults_of self.old) (faults_of self.new) }
        ensures never_falls { faults_of self.old ≤ faults_of self.new }
    {
        line.clear();
        'parts: loop {
            if !self.fill()? {
                return Ok(Taken::End);
            }
            if self.take_part(line)? {
                return Ok(Taken::Line);
            }
        }
    }
}
