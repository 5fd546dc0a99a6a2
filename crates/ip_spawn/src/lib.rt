//! The child that collects, as one trait whose meaning is written down: what it is started with, whether it is held,
//! and how it ended. Objects in memory tell what was started and how each ended; a real child's starter tells of that
//! nothing, and its attempt and its counts have clauses all the same.
#![tactic(auto)]

mod job;
mod scripted;
mod spawner;

pub use job::{Job, chunk_allowed};
pub use scripted::{Plan, Plans, Scripted, Started};
pub use spawner::{Look, SpawnCounts, SpawnFault, Spawner};
