//! The program of `ipstore`, for a run over a folder that has an empty store: a collection's child is this program, which it starts by its own first word.
#![tactic(auto)]

use ip_app::run_program;
use std::process::ExitCode;

fn main(rt: HostRuntime) -> ExitCode {
    run_program(&rt)
}
