ghost use Rattle.std.specs.Prelude.{◌≡◌};
ghost use Rattle.df_run.specs.Outcome.{AskPlainly, AsksNothing, IfAsked, IsOutcome, UsageIsExact, files_told};
ghost use Rattle.df_words.specs.Words.{Ask, texts};

use crate::making::{made_by, made_of, plain_command, write_output};
use crate::status::Status;
use crate::tasks::Output;
use df_io::{Shelf, Sink};
use df_words::{Command, WordsRefused, read_words};
use df_workers::Gate;
use std::alloc::Global;
use std::sync::Wait;
use std::thread::Threads;

/// Where a run leaves what it made and kept. A program that ends may forget it.
#[derive(Drop)]
pub struct Left {
    output: Option<Output>,
}

impl Left {
    /// Of no run yet.
    pub fn nothing() -> Left {
        Left { output: None }
    }
}

/// Does what a command without workers says. Its files are read and the text is made before anything
/// is written.
fn run_command<F: Shelf, W: Sink>(
    alloc: Global,
    command: &Command,
    words: &[String],
    shelf: &mut F,
    out: &mut W,
) -> Status
    requires { AskPlainly (texts words.now) command.now }
    ensures { IsOutcome command.now
        (files_told (F.bytes shelf.old) (texts words.now) command.now)
        (F.faults shelf.old) (F.faults shelf.new) (W.faults out.old) (W.faults out.new)
        (W.written out.old) (W.written out.new) result }
{
    match made_of(alloc, command, words, shelf) {
        Ok(output) => write_output(&output, out),
        Err(status) => status,
    }
}

/// Does what a command says, by workers where it asks for them, and leaves what it made and kept.
fn run_any<R: Threads + Wait + Sync, F: Shelf, W: Sink, G: Gate + Sync>(
    rt: &R,
    alloc: Global,
    command: &Command,
    words: &[String],
    shelf: &mut F,
    out: &mut W,
    gate: &G,
    left: &mut Left,
) -> Status
    requires { Ask (texts words.now) command.now }
    ensures { IsOutcome command.now
        (files_told (F.bytes shelf.old) (texts words.now) command.now)
        (F.faults shelf.old) (F.faults shelf.new) (W.faults out.old) (W.faults out.new)
        (W.written out.old) (W.written out.new) result }
{
    match made_by(rt, alloc, command, words, shelf, gate) {
        Ok(output) => {
            let status = write_output(&output, out);
            left.output = Some(output);
            status
        }
        Err(status) => status,
    }
}

/// Does what the words ask for, but for a floor with workers, to which it answers Usage. Files are
/// read and the text is made before anything is written.
pub fn run_plain<F: Shelf, W: Sink>(
    alloc: Global,
    words: &[String],
    shelf: &mut F,
    out: &mut W,
) -> Status
    ensures usage { UsageIsExact AskPlainly (texts words.now) result }
    ensures unused { AsksNothing AskPlainly (texts words.now) →
        W.written out.new ≡ W.written out.old }
    ensures outcome { IfAsked AskPlainly (texts words.now) (λ command. IsOutcome command
        (files_told (F.bytes shelf.old) (texts words.now) command)
        (F.faults shelf.old) (F.faults shelf.new) (W.faults out.old) (W.faults out.new)
        (W.written out.old) (W.written out.new) result) }
{
    match plain_command(alloc, words) {
        Ok(command) => run_command(alloc, &command, words, shelf, out),
        Err(WordsRefused::Usage) => Status::Usage,
        Err(WordsRefused::NoMemory) => Status::NoMemory,
    }
}

/// What the program calls with the real shelf and sink, and a gate that does nothing. What the run
/// made and kept is left to the caller. With workers it may wait, and keeps its promises if it
/// returns.
pub fn run_main<R: Threads + Wait + Sync, F: Shelf, W: Sink, G: Gate + Sync>(
    rt: &R,
    alloc: Global,
    words: &[String],
    shelf: &mut F,
    out: &mut W,
    gate: &G,
    left: &mut Left,
) -> Status
    ensures usage { UsageIsExact Ask (texts words.now) result }
    ensures unused { AsksNothing Ask (texts words.now) → W.written out.new ≡ W.written out.old }
    ensures outcome { IfAsked Ask (texts words.now) (λ command. IsOutcome command
        (files_told (F.bytes shelf.old) (texts words.now) command)
        (F.faults shelf.old) (F.faults shelf.new) (W.faults out.old) (W.faults out.new)
        (W.written out.old) (W.written out.new) result) }
{
    match read_words(alloc, words) {
        Ok(command) => run_any(rt, alloc, &command, words, shelf, out, gate, left),
        Err(WordsRefused::Usage) => Status::Usage,
        Err(WordsRefused::NoMemory) => Status::NoMemory,
    }
}
