ghost use Rattle.std.specs.Prelude.{◌≡◌};
ghost use Rattle.std.specs.Process.{exit_status};
ghost use Rattle.df_keep.specs.Status.{code_of};

use crate::KeepStatus;
use crate::names::named_in;
use crate::run::run_keep;
use df_disk::file_disk;
use df_io::{FileShelf, OutSink};
use std::env::Env;
use std::process::ExitCode;
use std::rt::Files;
use std::{env, io};

/// The words behind the program's name. Words that aren't texts are those of no run.
fn own_words<R: Env + AllocGlobal>(rt: &R) -> Result<Vec<String>, KeepStatus> {
    let all = match env::args(rt) {
        Ok(all) => all,
        Err(error) if error.kind() == io::ErrorKind::OutOfMemory => {
            return Err(KeepStatus::NoMemory);
        }
        Err(_) => return Err(KeepStatus::Usage),
    };
    let mut words = Vec::new(rt.alloc());
    for word in all.skip(1) {
        if words.push(word).is_err() {
            return Err(KeepStatus::NoMemory);
        }
    }
    Ok(words)
}

/// The program: makes the calls of the script that the words name on the store that they name. A
/// status other than Done is one line on standard error.
pub fn run_program<R: Env + AllocGlobal + Files + Print + Eprint + Clone + Drop>(
    rt: &R,
) -> ExitCode {
    let status = match own_words(rt) {
        Ok(words) => done(rt, words.as_slice()),
        Err(status) => status,
    };
    end(rt, status)
}

/// Does what the words ask for. The store's file is made where it is missing, whatever the script.
fn done<R: AllocGlobal + Files + Print + Clone + Drop>(rt: &R, words: &[String]) -> KeepStatus {
    let Some(names) = named_in(words) else {
        return KeepStatus::Usage;
    };
    let Ok(files) = rt.clone() else {
        return KeepStatus::NoMemory;
    };
    let mut shelf = FileShelf::new(rt.alloc(), files);
    let mut disk = file_disk(rt, names.store);
    let mut out = OutSink::new(io::writer(rt));
    run_keep(rt.alloc(), words, &mut shelf, &mut disk, &mut out)
}

/// Prints the status line, but for Done, and gives the code with which the program ends.
fn end<R: Eprint>(rt: &R, status: KeepStatus) -> ExitCode
    ensures { exit_status result ≡ code_of status }
{
    if !matches!(status, KeepStatus::Done) {
        let _ = eprintln!(rt; "{status}");
    }
    ExitCode::from(status.code())
}
