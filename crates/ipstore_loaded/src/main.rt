//! The program of `ipstore`, for a run over a folder that has an empty store: a line of the generated load is run, and its summary said.
#![tactic(auto)]

use ip_app::run_program;
use std::process::ExitCode;

fn main(rt: HostRuntime) -> ExitCode {
    run_program(&rt)
}
