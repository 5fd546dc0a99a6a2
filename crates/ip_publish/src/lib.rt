//! Publishing a step durably: records behind the end, then a slot that names their end.
#![tactic(auto)]

mod publish;

pub use publish::{durable_step, turn_gate};
