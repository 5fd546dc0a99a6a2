//! Merging three lazy trees: what two of them have in one record is not read.
#![tactic(auto)]

mod apply;
mod clash;
mod contents;
mod load;
mod merge;
mod plan;
mod side;

pub use merge::{ThreeFault, merge_trees};
