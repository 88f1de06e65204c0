//! The program `defcon_keep`, which makes the calls of a script on a journal that outlives a crash.
#![tactic(auto)]

use df_keep::run_program;
use std::process::ExitCode;

fn main(rt: HostRuntime) -> ExitCode {
    run_program(&rt)
}
