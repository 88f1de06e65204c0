//! The program `defcon_live`, which answers each call of a script as it comes.
#![tactic(auto)]

use df_live::run_program;
use std::process::ExitCode;

fn main(rt: HostRuntime) -> ExitCode {
    run_program(&rt)
}
