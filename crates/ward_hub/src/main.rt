//! A ward, its doctor and its office, run by two threads. The program prints whether the journal
//! that comes of it is right, what each unit asked and was told, and what stays of the journal at
//! the office's label. It prints the same whatever the order of the turns.
#![tactic(auto)]

mod crew;
mod report;
mod running;
mod stop;

use crate::crew::{fresh_crew, public};
use crate::report::report_of;
use crate::running::run_crew;
use crate::stop::Stop;
use std::alloc::Global;
use std::io::{self, Write};
use std::process::ExitCode;
use std::sync::Wait;
use std::thread::Threads;

/// How many threads there are.
const WORKERS: u32 = 2;

/// How many entries the journal may have. A run of the three units has far fewer.
const MOST_ENTRIES: u64 = 1_000;

/// Runs the units, and tells what comes of it.
fn told<R: Threads + Wait + Sync>(rt: &R, alloc: Global) -> Result<Vec<u8>, Stop> {
    let crew = run_crew(rt, alloc, fresh_crew(alloc)?, WORKERS, MOST_ENTRIES)?;
    let text = report_of(alloc, crew.core(), &public(alloc));
    drop(crew);
    text
}

/// Runs the units, and prints what comes of it.
fn run<R: AllocGlobal + Print + Threads + Wait + Sync>(rt: &R) -> Result<(), Stop> {
    let text = told(rt, rt.alloc())?;
    match io::writer(rt).write_all(text.as_slice()) {
        Ok(()) => Ok(()),
        Err(_) => Err(Stop::Output),
    }
}

fn main(rt: HostRuntime) -> ExitCode {
    match run(&rt) {
        Ok(()) => ExitCode::SUCCESS,
        Err(stop) => {
            let _ = eprintln!(rt; "ward_hub: {stop}");
            ExitCode::FAILURE
        }
    }
}
