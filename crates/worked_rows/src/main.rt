//! Runs the rows of tables by the top call, over shelves and sinks in memory, and says whether each
//! comes out as its row tells. The words name the tables, files of lines. A line that is empty or
//! begins with `# ` says nothing.
//!
//! - `row NAME`: begins a row, of which all lines up to the next row are.
//! - `words W W`: words of the command, which stand apart by one space. `word TEXT`: one word, which
//!   may have spaces, or be empty.
//! - `file NAME from PATH`: the file NAME has the bytes of the file PATH of data/. `file NAME`: it has
//!   the text lines that follow. `file NAME repeats COUNT`: it has them so many times.
//!   `file NAME written by W W`: it has what the words W write, over the files above, whose reads
//!   count as the row's first. Other files are missing.
//! - `status TEXT`: how the run ends, as the program prints it. With no such line `defcon: done`.
//! - `output from PATH`, `output written by W W`, or `output` and text lines: all that is written. With
//!   no such line nothing. `output_begins` and `output_ends` in place of `output`: its beginning, or
//!   its end.
//! - `read_fails N`, `write_fails N`: the Nth read or write fails. `takes N`: a write takes at most N
//!   bytes.
//!
//! A text line is `|TEXT`, which is TEXT and a line feed, or `~TEXT`, without a line feed and with the
//! escapes `\n`, `\r`, `\t`, `\\` and `\xHH`. `*COUNT TEXT` is such a TEXT so many times.
//!
//! Some lines ask for runs in place of the one:
//!
//! - `each STATUS` and text lines: a run for each text line, which ends so. TEXT, without a line feed,
//!   stands wherever words, paths, and text lines of files and of the output have `%%`.
//! - `fronts FIRST LAST STATUS`: a run for each length from FIRST to LAST, which ends so where each
//!   file has so many bytes and no more.
//! - `each_read_fails N`, `each_write_fails N`: a run for each of the first N reads or writes, which
//!   fails. What the writes before it took is written.
//!
//! Of these runs the output is wanted behind `defcon: done`, `defcon: wrong at N` and
//! `defcon: unsettled after N`, and behind other statuses nothing.
#![tactic(auto)]

mod case;
mod runs;
mod stop;
mod table;
mod tell;
mod text;

use crate::case::{Case, data_of, is_told};
use crate::runs::runs_of;
use crate::stop::Stop;
use crate::table::{Line, read_table, row_of};
use std::env;
use std::process::ExitCode;
use std::sync::Wait;
use std::thread::Threads;

/// How many rows, runs, and runs that came out otherwise there are.
#[derive(Clone, Copy)]
struct Tally {
    rows: u64,
    runs: u64,
    otherwise: u64,
}

impl Tally {
    const NONE: Tally = Tally {
        rows: 0,
        runs: 0,
        otherwise: 0,
    };

    fn and(self, more: Tally) -> Tally {
        Tally {
            rows: self.rows.saturating_add(more.rows),
            runs: self.runs.saturating_add(more.runs),
            otherwise: self.otherwise.saturating_add(more.otherwise),
        }
    }
}

/// Runs a row.
fn run_row<'a, R: Threads + Wait + Sync>(
    rt: HostRuntime,
    threads: &R,
    table: &'a str,
    name: &'a str,
    row: &'a [Line<'a>],
) -> Result<Tally, Stop> {
    let mut tally = Tally {
        rows: 1,
        ..Tally::NONE
    };
    let runs = runs_of(rt.alloc(), row)?;
    for run in runs.as_slice() {
        let case = Case {
            table,
            name,
            row,
            run: *run,
        };
        let otherwise = if is_told(rt, threads, case)? { 0 } else { 1 };
        tally = tally.and(Tally {
            rows: 0,
            runs: 1,
            otherwise,
        });
    }
    Ok(tally)
}

/// Runs the rows of these lines.
fn run_rows<'a, R: Threads + Wait + Sync>(
    rt: HostRuntime,
    threads: &R,
    table: &'a str,
    lines: &'a [Line<'a>],
) -> Result<Tally, Stop> {
    let mut tally = Tally::NONE;
    for (place, line) in lines.iter().enumerate() {
        if let Line::Row(name) = line {
            let behind = lines.get(place.saturating_add(1)..).unwrap_or(&[]);
            tally = tally.and(run_row(rt, threads, table, name, row_of(behind))?);
        }
    }
    Ok(tally)
}

/// Runs a table.
fn run_table<R: Threads + Wait + Sync>(
    rt: HostRuntime,
    threads: &R,
    table: &str,
) -> Result<Tally, Stop> {
    let bytes = data_of(rt, table)?;
    let Ok(text) = str::from_utf8(bytes.as_slice()) else {
        return Err(Stop::Line(0));
    };
    let lines = read_table(rt.alloc(), text)?;
    run_rows(rt, threads, table, lines.as_slice())
}

/// Says why a table wasn't run to its end.
fn tell_stop(rt: HostRuntime, table: &str, stop: Stop) {
    let _ = match stop {
        Stop::NoMemory => eprintln!(rt; "{table}: no memory"),
        Stop::NoPrint => eprintln!(rt; "{table}: can't be told of"),
        Stop::NoFile => eprintln!(rt; "{table}: a file is missing"),
        Stop::Line(line) => eprintln!(rt; "{table} line {line}: not in form"),
        Stop::Word => eprintln!(rt; "{table}: a word isn't text"),
    };
}

/// Runs a table, and says how many rows and runs it has.
fn told_table<R: Threads + Wait + Sync>(
    rt: HostRuntime,
    threads: &R,
    table: &str,
) -> Option<Tally> {
    match run_table(rt, threads, table) {
        Ok(tally) => {
            let rows = tally.rows;
            let runs = tally.runs;
            println!(rt; "{table}: {rows} rows, {runs} runs").ok()?;
            Some(tally)
        }
        Err(stop) => {
            tell_stop(rt, table, stop);
            None
        }
    }
}

/// Runs the tables.
fn run_tables<R: Threads + Wait + Sync>(rt: HostRuntime, threads: &R) -> Option<Tally> {
    let mut tally = Tally::NONE;
    for table in env::args(&rt).ok()?.skip(1) {
        tally = tally.and(told_table(rt, threads, table.as_str())?);
    }
    Some(tally)
}

fn main(rt: HostRuntime) -> ExitCode {
    let Some(tally) = run_tables(rt, &rt) else {
        return ExitCode::from(2);
    };
    let otherwise = tally.otherwise;
    if otherwise > 0 {
        let _ = println!(rt; "{otherwise} runs came out otherwise");
        return ExitCode::from(1);
    }
    match println!(rt; "all came out as told") {
        Ok(()) => ExitCode::SUCCESS,
        Err(_) => ExitCode::from(2),
    }
}
