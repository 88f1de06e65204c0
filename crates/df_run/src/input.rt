//! Reading a file that a word names.

ghost use Rattle.std.specs.Prelude.{◌≡◌, ◌≤◌, ◌<◌, ℕ, List, IfErr, IfOk, length};
ghost use Rattle.df_run.specs.Making.{StopsAt};
ghost use Rattle.df_run.specs.Outcome.{WasRead, told_at};
ghost use Rattle.df_words.specs.Words.{texts};
ghost use Rattle.df_words.specs.declared.command.Command.{Command};

use crate::status::Status;
use df_io::{NotRead, Shelf, read_file};
use std::alloc::Global;

/// The bytes of the file whose name has this place among the words, and which is the command's file
/// of this number.
pub fn input_of<F: Shelf>(
    alloc: Global,
    words: &[String],
    place: usize,
    number: u32,
    shelf: &mut F,
) -> Result<Vec<u8>, Status>
    requires { place < length words.now }
    ensures read { IfOk result (λ v. WasRead
        (told_at (F.bytes shelf.old) (texts words.now) place) v.items) }
    ensures stops { (command : Command) → IfErr result (StopsAt command number
        (told_at (F.bytes shelf.old) (texts words.now) place)
        (F.faults shelf.old) (F.faults shelf.new)) }
    ensures never_falls { F.faults shelf.old ≤ F.faults shelf.new }
    ensures same { (n : List ℕ) → F.bytes shelf.new n ≡ F.bytes shelf.old n }
{
    match read_file(alloc, shelf, words[place].as_str()) {
        Ok(bytes) => Ok(bytes),
        Err(NotRead::Fault) => Err(Status::ReadFault),
        Err(NotRead::TooLong) => Err(Status::TooLong { input: number }),
        Err(NotRead::NoMemory) => Err(Status::NoMemory),
    }
}
