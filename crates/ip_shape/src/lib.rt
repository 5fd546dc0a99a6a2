//! The one shape of a directory: a leaf, or inodes whose parts are told apart by the digests of steps.
#![tactic(auto)]

pub mod dir;
pub mod height;
pub mod part;
pub mod places;
pub mod reading;
