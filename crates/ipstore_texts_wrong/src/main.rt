//! The program of `ipstore_texts`, over texts that say something wrong: each is told with its line.
#![tactic(auto)]

use ip_bench::play_texts;
use std::process::ExitCode;

fn main(rt: HostRuntime) -> ExitCode {
    play_texts(&rt)
}
