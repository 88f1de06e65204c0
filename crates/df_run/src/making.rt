//! From the words of a command to what it writes, and to the status with which it ends.

ghost use Rattle.std.specs.Prelude.{◌≡◌, ◌<◌, ℕ, List, [], ◌∷◌, IfErr, IfOk, length};
ghost use Rattle.df_run.specs.Making.{IsPlainCommandOf, IsWritten, Stops};
ghost use Rattle.df_run.specs.Outcome.{AskPlainly, IsTextOfSome, WriteFaultIsDue, files_told, told_at};
ghost use Rattle.df_run.specs.Tasks.{IsText};
ghost use Rattle.df_run.specs.declared.status.Status.TheVariants as status;
ghost use Rattle.df_words.specs.Words.{Ask, files_of, texts};
ghost use Rattle.df_words.specs.declared.command.Files.TheVariants as files;

use crate::floor::{floor_by, floor_of};
use crate::input::input_of;
use crate::status::Status;
use crate::tasks::{End, Output, Refused, output_of, output_of_key};
use df_io::{Shelf, Sink, write_all};
use df_memory::NoMemory;
use df_words::{Command, Files, WordsRefused, read_words};
use df_workers::Gate;
use std::alloc::Global;
use std::sync::Wait;
use std::thread::Threads;

/// The command for which the words ask, unless it asks for workers.
pub fn plain_command(alloc: Global, words: &[String]) -> Result<Command, WordsRefused>
    ensures { IsPlainCommandOf (texts words.now) result }
{
    let command = read_words(alloc, words)?;
    if command.is_plain() {
        Ok(command)
    } else {
        Err(WordsRefused::Usage)
    }
}

/// What the command writes of its files, or the status with which the run ends before anything is
/// written. A file is judged before the next one is read.
pub fn made_of<F: Shelf>(
    alloc: Global,
    command: &Command,
    words: &[String],
    shelf: &mut F,
) -> Result<Output, Status>
    requires { AskPlainly (texts words.now) command.now }
    ensures makes { IfOk result (λ o. IsTextOfSome command.now
        (files_told (F.bytes shelf.old) (texts words.now) command.now) o.end o.text.items) }
    ensures stops { IfErr result (Stops command.now
        (files_told (F.bytes shelf.old) (texts words.now) command.now)
        (F.faults shelf.old) (F.faults shelf.new)) }
{
    match command.files() {
        Files::None => made_of_key(alloc, command),
        Files::One { file } => made_of_file(alloc, command, words, file, shelf),
        Files::Two { first, second } => floor_of(alloc, words, first, second, shelf),
    }
}

/// What a command writes, by workers where it asks for them.
pub fn made_by<R: Threads + Wait + Sync, F: Shelf, G: Gate + Sync>(
    rt: &R,
    alloc: Global,
    command: &Command,
    words: &[String],
    shelf: &mut F,
    gate: &G,
) -> Result<Output, Status>
    requires { Ask (texts words.now) command.now }
    ensures makes { IfOk result (λ o. IsTextOfSome command.now
        (files_told (F.bytes shelf.old) (texts words.now) command.now) o.end o.text.items) }
    ensures stops { IfErr result (Stops command.now
        (files_told (F.bytes shelf.old) (texts words.now) command.now)
        (F.faults shelf.old) (F.faults shelf.new)) }
{
    match command {
        Command::FloorWorkers {
            config,
            ticks,
            workers,
        } => floor_by(rt, alloc, words, *config, *ticks, *workers, shelf, gate),
        _ => made_of(alloc, command, words, shelf),
    }
}

/// What a command without a file writes.
fn made_of_key(alloc: Global, command: &Command) -> Result<Output, Status>
    requires asked { (words : List (List ℕ)) × Ask words command.now }
    requires none { files_of command.now ≡ files.None }
    ensures gives { IfOk result (λ o. IsText command.now [] o.end o.text.items) }
    ensures refuses { IfErr result (λ s. s ≡ status.NoMemory) }
{
    match output_of_key(alloc, command) {
        Ok(output) => Ok(output),
        Err(NoMemory) => Err(Status::NoMemory),
    }
}

/// What a command of one file writes.
fn made_of_file<F: Shelf>(
    alloc: Global,
    command: &Command,
    words: &[String],
    file: usize,
    shelf: &mut F,
) -> Result<Output, Status>
    requires one { files_of command.now ≡ files.One file }
    requires place { file < length words.now }
    ensures makes { IfOk result (λ o. IsTextOfSome command.now
        (told_at (F.bytes shelf.old) (texts words.now) file ∷ []) o.end o.text.items) }
    ensures stops { IfErr result (Stops command.now
        (told_at (F.bytes shelf.old) (texts words.now) file ∷ [])
        (F.faults shelf.old) (F.faults shelf.new)) }
{
    let bytes = match input_of(alloc, words, file, 1, shelf) {
        Ok(bytes) => bytes,
        Err(status) => return Err(status),
    };
    match output_of(alloc, command, bytes.as_slice()) {
        Ok(output) => Ok(output),
        Err(Refused::BadInput { line, kind }) => Err(Status::BadInput {
            input: 1,
            line,
            kind,
        }),
        Err(Refused::NoMemory) => Err(Status::NoMemory),
    }
}

/// Writes the whole text, and gives the status with which the run ends.
pub fn write_output<W: Sink>(output: &Output, out: &mut W) -> Status
    ensures written { IsWritten output.now.end output.now.text.items
        (W.written out.old) (W.written out.new) result }
    ensures write_fault { WriteFaultIsDue (W.faults out.old) (W.faults out.new) result }
{
    if write_all(out, output.text.as_slice()).is_err() {
        return Status::WriteFault;
    }
    match output.end {
        End::Done => Status::Done,
        End::Wrong { place } => Status::Wrong { place },
        End::Unsettled { steps } => Status::Unsettled { steps },
        End::NoPlace { entries } => Status::NoPlace { entries },
    }
}
