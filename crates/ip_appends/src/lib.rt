//! The commands that append records: a branch is set or taken away, a work is committed, a commit is merged into a branch. Each is a plan and a step.
#![tactic(auto)]

mod committing;
mod merging;
mod naming;

pub use committing::commit;
pub use merging::{Merge, merge_into};
pub use naming::{remove_branch, set_branch};
