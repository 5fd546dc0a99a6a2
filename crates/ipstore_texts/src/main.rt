//! The tests that are texts: each whose name stands on standard input is played.
#![tactic(auto)]

use ip_bench::play_texts;
use std::process::ExitCode;

fn main(rt: HostRuntime) -> ExitCode {
    play_texts(&rt)
}
