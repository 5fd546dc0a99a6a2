//! What a store tells of its commits, and of trees over its records, which it edits in memory: no file is changed.
#![tactic(auto)]

mod commit;
mod history;
mod trees;

pub use commit::{Shown, root_of, show};
pub use history::{lcas, log};
pub use trees::{get, graft, list, remove, set, tree_of};
