// What a store keeps of a collection, and of what was not swept away so far.
use ip_base::{Number, Reaped};
use ip_check::Check;
use ip_spawn::Job;

/// A collection that goes on: at which commit, what its child was told, how that ended where it was reaped, and how far the check is of what it wrote.
#[derive(Drop)]
pub struct Collection {
    /// The commits below this one are given up once it is accepted.
    pub commit: Number,
    pub job: Job,
    pub exit: Option<Reaped>,
    pub check: Option<Check>,
}

/// The first chunk and the first attempt of which a sweep may still find files.
#[derive(Clone, Copy, Debug, PartialEq, Eq)]
pub struct Unswept {
    pub chunk: u64,
    pub attempt: u64,
}
