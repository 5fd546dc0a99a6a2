//! Draws scripts, serves them, and holds each reply against that of the model. Each row on standard input is one of
//!
//!     serve KIND SEED        a script of a kind, by the program's rules of merging
//!     caller KIND SEED       the same by a caller's rules
//!     fails KIND SEED        over a ground of which a call fails that is drawn too, and which is served again then
//!     stops KIND SEED        the same where all calls from that one on fail
//!     met COUNT WORDS        of all replies so far at least so many begin so
//!
//! The kinds are texts in `data`. A row is said again where all went well, and else besides at which line of its script it did not; then the exit status is
//! 1, and why stands on standard error.
#![tactic(auto)]

mod children;
mod collections;
mod drawn;
mod rows;
mod rules;
mod runs;
mod wrong;

use crate::runs::Runs;
use std::io::BufRead;
use std::process::{ExitCode, Termination};

// Does what a row asks for, and says how that went. Whether it went as it has to.
fn is_well(rt: &HostRuntime, runs: &mut Runs, row: &str) -> bool {
    let done = runs.row(rt, row);
    let well = done.is_ok();
    let _ = done.report(rt);
    let _ = if well {
        println!(rt; "{row}")
    } else {
        println!(rt; "{row}: line {}", runs.at)
    };
    well
}

fn main(rt: HostRuntime) -> ExitCode {
    let mut runs = Runs::new(rt.alloc());
    let mut well = true;
    for line in rt.lines(rt.alloc()) {
        well = match line {
            Ok(row) => is_well(&rt, &mut runs, &row) && well,
            Err(_) => false,
        };
    }
    ExitCode::from(if well { 0 } else { 1 })
}
