//! What the records of a store are tested against.

/// Where commits are counted from, and who may be a parent.
#[derive(Clone, Copy, Debug, PartialEq, Eq)]
pub struct Terms {
    /// The number of the first commit.
    pub floor: u64,
    /// A parent may be outside the store: only its name is known.
    pub outside_allowed: bool,
}
