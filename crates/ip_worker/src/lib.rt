//! What the child of a collection does: it writes the files that its job asks for.
#![tactic(auto)]

mod attempt;
mod fault;
mod pair;
mod search;
mod served;
mod worker;

pub use fault::WorkFault;
pub use worker::{Counts, collect};
