//! Plays tests that are texts, in memory: scenes of a store, calls of the program with their replies, and what has to be so
//! then (docs/TEXTS.md).
#![tactic(auto)]

mod calls;
mod checks;
mod contents;
mod leaves;
mod pieces;
mod player;
mod program;
mod rules;
mod stage;
mod trials;
mod watch;

pub use player::play_text;
pub use program::play_texts;
