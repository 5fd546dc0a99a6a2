//! What is said of a load: how many of its replies begin with each word.
#![tactic(auto)]

mod summary;
mod words;

pub use summary::Summary;
