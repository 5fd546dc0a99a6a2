//! The program of `ipstore`, for a run over a folder that has a store: what an earlier process committed is found again.
#![tactic(auto)]

use ip_app::run_program;
use std::process::ExitCode;

fn main(rt: HostRuntime) -> ExitCode {
    run_program(&rt)
}
