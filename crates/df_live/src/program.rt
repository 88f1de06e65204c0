ghost use Rattle.std.specs.Prelude.{◌≡◌};
ghost use Rattle.std.specs.Process.{exit_status};
ghost use Rattle.df_live.specs.Status.{code_of};

use crate::LiveStatus;
use crate::read_lines::ReadLines;
use crate::run::run_live;
use df_io::OutSink;
use std::env::Env;
use std::io::Stdin;
use std::process::ExitCode;
use std::{env, io};

/// Whether there are no words behind the program's name. Words that aren't texts are some.
fn has_no_words<R: Env + AllocGlobal>(rt: &R) -> Result<bool, LiveStatus> {
    match env::args(rt) {
        Ok(all) => Ok(all.skip(1).next().is_none()),
        Err(error) if error.kind() == io::ErrorKind::OutOfMemory => Err(LiveStatus::NoMemory),
        Err(_) => Ok(false),
    }
}

/// The program: answers the calls of the script on standard input as they come, on standard output.
/// A status other than Done is one line on standard error.
pub fn run_program<R: Env + AllocGlobal + Input + Print + Eprint>(rt: &R) -> ExitCode {
    let status = match has_no_words(rt) {
        Ok(true) => done(rt),
        Ok(false) => LiveStatus::Usage,
        Err(status) => status,
    };
    end(rt, status)
}

/// Answers what comes on standard input. Neither end holds back what it was given.
fn done<R: AllocGlobal + Input + Print>(rt: &R) -> LiveStatus {
    let mut input = ReadLines::new(rt.reader());
    let mut out = OutSink::new(io::writer(rt));
    run_live(rt.alloc(), &mut input, &mut out)
}

/// Prints the status line, but for Done, and gives the code with which the program ends.
fn end<R: Eprint>(rt: &R, status: LiveStatus) -> ExitCode
    ensures { exit_status result ≡ code_of status }
{
    if !matches!(status, LiveStatus::Done) {
        let _ = eprintln!(rt; "{status}");
    }
    ExitCode::from(status.code())
}
