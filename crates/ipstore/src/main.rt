//! The program: `ipstore init DIR [--chunk N]` makes a store in a folder, `ipstore serve DIR` serves it a script from standard
//! input.
#![tactic(auto)]

use ip_app::run_program;
use std::process::ExitCode;

fn main(rt: HostRuntime) -> ExitCode {
    run_program(&rt)
}
