//! The store: a set of named branches over commits, each with a whole tree, in one folder. Here are all of its calls; what they do is in crates below:
//! opening, reading, what appends records, and collections.
#![tactic(auto)]

mod store;

pub use ip_appends::Merge;
pub use ip_collects::{
    CancelFault, Cancelled, CollectFault, Collected, FinishFault, Looked, Rejection,
};
pub use ip_held::{Collection, StoreFault, Unswept, Work};
pub use ip_opens::{InitFault, OpenFault};
pub use ip_reads::Shown;
pub use ip_spawn::chunk_allowed;
pub use ip_tables::Branches;
pub use store::Store;
