//! The tables that a store keeps in memory: its branches, and where the records of its commits lie.
#![tactic(auto)]

mod branches;
mod places;

pub use branches::Branches;
pub use places::Places;
