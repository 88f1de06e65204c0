ghost use Rattle.std.specs.Prelude.{◌≡◌};
ghost use Rattle.std.specs.Process.{exit_status};
ghost use Rattle.df_run.specs.Status.{code_of};

use crate::run::{Left, run_main};
use crate::status::Status;
use df_io::{FileShelf, OutSink};
use df_workers::OpenGate;
use std::env::Env;
use std::mem::forget;
use std::process::ExitCode;
use std::rt::Files;
use std::sync::Wait;
use std::thread::Threads;
use std::{env, io};

/// What `--help` prints.
const HELP: &str = "usage: defcon steps SCRIPT
       defcon check JOURNAL
       defcon purge LABEL JOURNAL
       defcon upgrade JOURNAL
       defcon why JOURNAL PLACE
       defcon auction ORDERS
       defcon lint SCRIPT
       defcon gen KEY N
       defcon floor CONFIG TICKS
       defcon floor CONFIG TICKS --workers N
       defcon load KEY N

steps runs the unit calls of the file SCRIPT, and writes the journal of all calls, replies,
commits and events handed out. check says whether the file JOURNAL is what the rules give, or
which entry is the first that isn't. purge writes what stays of JOURNAL without all that LABEL,
as {#0|}, may not see, and upgrade writes JOURNAL with the contaminations of its units. why writes
the entries of JOURNAL on which the one at PLACE, counted from 0, rests: a journal that ends with
it. auction reads the order file ORDERS, and writes for each symbol the price at which the greatest
quantity trades, and the trades. lint makes none of the calls of SCRIPT: of its start it writes,
for each root and each privilege, whether the units of the root's family may ever hold it. gen
writes a tick file of N ticks, at most 100,000, which are the same for the same number KEY. floor
runs the trading floor of the file CONFIG on the tick file TICKS, and writes its journal and what
it comes to; with --workers N, at most 16, so many threads give its units their turns, and one of
the floor's journals comes of it. load writes what a fixed floor comes to on N ticks of KEY, at
most 4,000.

  --help     this text
  --version  the version

Ends with 0 where all was written, 2 for words that have none of these forms, 3 for a file that
isn't in its form, 4 for a journal that isn't what the rules give, 5 for a file that can't be
read, 6 for output that can't be written, 7 where memory runs out, 8 for a file of more than
67,108,864 bytes, 9 for a floor that isn't at rest at its limit of steps, and 10 for a journal that
is right and hasn't PLACE.
";

/// What `--version` prints.
const VERSION: &str = "defcon 0.1.0
";

/// The words behind the program's name. Words that aren't texts are those of no command.
fn own_words<R: Env + AllocGlobal>(rt: &R) -> Result<Vec<String>, Status> {
    let all = match env::args(rt) {
        Ok(all) => all,
        Err(error) if error.kind() == io::ErrorKind::OutOfMemory => return Err(Status::NoMemory),
        Err(_) => return Err(Status::Usage),
    };
    let mut words = Vec::new(rt.alloc());
    for word in all.skip(1) {
        if words.push(word).is_err() {
            return Err(Status::NoMemory);
        }
    }
    Ok(words)
}

/// What a lone `--help` or `--version` prints.
fn told(words: &[String]) -> Option<&'static str> {
    let [word] = words else {
        return None;
    };
    match word.as_str() {
        "--help" => Some(HELP),
        "--version" => Some(VERSION),
        _ => None,
    }
}

/// The program: answers a lone `--help` or `--version`, and else does what the user's words ask for
/// on the real files and the real output. A status other than Done is one line on standard error.
pub fn run_program<
    R: Env + AllocGlobal + Files + Print + Eprint + Threads + Wait + Sync + Clone + Drop,
>(rt: &R) -> ExitCode {
    let status = match own_words(rt) {
        Ok(words) => done(rt, words.as_slice()),
        Err(status) => status,
    };
    end(rt, status)
}

/// Does what the words ask for. What the run made and kept isn't freed, since the program ends.
fn done<R: AllocGlobal + Files + Print + Threads + Wait + Sync + Clone + Drop>(
    rt: &R,
    words: &[String],
) -> Status {
    if let Some(text) = told(words) {
        return match print!(rt; "{text}") {
            Ok(()) => Status::Done,
            Err(_) => Status::WriteFault,
        };
    }
    let Ok(files) = rt.clone() else {
        return Status::NoMemory;
    };
    let mut shelf = FileShelf::new(rt.alloc(), files);
    let mut out = OutSink::new(io::writer(rt));
    let mut left = Left::nothing();
    let status = run_main(
        rt,
        rt.alloc(),
        words,
        &mut shelf,
        &mut out,
        &OpenGate,
        &mut left,
    );
    forget(left);
    status
}

/// Prints the status line, but for Done, and gives the code with which the program ends.
fn end<R: Eprint>(rt: &R, status: Status) -> ExitCode
    ensures { exit_status result ≡ code_of status }
{
    if !matches!(status, Status::Done) {
        let _ = eprintln!(rt; "{status}");
    }
    ExitCode::from(status.code())
}
