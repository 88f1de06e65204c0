//! The program `defcon`, which does what the user's words ask for.
#![tactic(auto)]

use df_run::run_program;
use std::process::ExitCode;

fn main(rt: HostRuntime) -> ExitCode {
    run_program(&rt)
}
