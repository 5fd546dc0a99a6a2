//! Trees as plain slow code, for tests: lists of contents, the names of directories and commits, and merges.
#![tactic(auto)]

mod merging;
mod names;
mod places;
mod trees;

pub use merging::Joined;
pub use names::{Entry, commit_name, contents_name, entries_name};
pub use trees::{Tree, count_of, put};
