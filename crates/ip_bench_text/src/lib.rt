//! Tests as texts: their lines with loops and names in braces, what directives say, and scenes of what is planned and
//! done. Nothing is played here.
#![tactic(auto)]

mod bytes;
mod call;
mod directive;
mod lines;
mod names;
mod scene;
mod words;

pub use bytes::{Piece, put_value};
pub use call::{Call, Change};
pub use directive::{Directive, Kind, Test, Trial, Whose};
pub use lines::{Play, play_lines};
pub use scene::{Act, Child, Early, Left, Scene, Stand};
