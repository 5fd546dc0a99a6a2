//! The definitions as plain code, for tests: each answer goes over everything that its definition speaks of.
#![tactic(auto)]

mod commits;
mod history;
mod machine;
mod work;

pub use history::History;
pub use machine::Machine;
