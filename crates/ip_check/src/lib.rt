//! The check of what a collection wrote: its files are the valid pair, byte for byte, or the first place at which they differ is told.
#![tactic(auto)]

ghost use Rattle.ip_check.specs.Checking.{Accepts, FewLooks, LooksAll, LooksTwice};

mod check;
mod compare;
mod fault;
mod mapping;
mod prefix;

pub use check::{Check, Outcome, Stage};
pub use fault::CheckFault;

/// No check looks at more records than those from the horizon on, and twice those that are kept. One that has come to its end has looked at each
/// from the horizon on, and one that found the valid pair at as many as that. The valid pair has no difference.
pub fn checks()
    ensures few_looks { FewLooks }
    ensures looks_all { LooksAll }
    ensures looks_twice { LooksTwice }
    ensures accepts { Accepts }
{}
