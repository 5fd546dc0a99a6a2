//! Records as bytes: their spelling, reading them back, their names and references.
#![tactic(auto)]

mod body;
mod encode;
mod lists;
mod loops;
mod name;
mod read;
mod referring;

pub use encode::{encode_branch, encode_commit, encode_into, kind_of, put_contents};
pub use ip_spec::record::{
    Branch, Branches, CommitRecord, InodeChild, InodeChildren, LeafEntries, LeafEntry, Parent,
    Parents, Record, RecordFault, Ref,
};
pub use name::{commit_name, hash_contents, name_of_record};
pub use read::read_record;
pub use referring::{RecordReferences, references};
