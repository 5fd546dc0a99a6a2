// What directives say.
use crate::bytes::Piece;
use crate::call::Change;
use crate::scene::{Act, Early, Left};
use ip_ground::FileName;
use ip_spawn::Plan;

/// Whose calls fail.
#[derive(Clone, Copy)]
pub enum Whose {
    Ground,
    Source,
    Spawner,
}

/// A file of an attempt.
#[derive(Clone, Copy)]
pub enum Kind {
    Mapping,
    Prefix,
    Done,
}

/// What a call is tried with.
#[derive(Clone, Copy)]
pub enum Trial {
    CallFails,
    ReadFails,
    /// With the files as they were, or as they were synced last.
    Stops(bool),
}

/// What has to be so.
#[derive(Drop)]
pub enum Test {
    /// A file holds these bytes.
    Holds(FileName, Vec<Piece>),
    /// It holds these from a place on, among others.
    HoldsAt(FileName, u64, Vec<Piece>),
    Length(FileName, u64),
    /// The SHA-256 of all that it holds.
    Digest(FileName, Vec<u8>),
    Absent(Vec<FileName>),
    /// Of the chunks and of the files of attempts with the numbers up to three these are there.
    Held(Vec<FileName>),
    /// How often the last call read a file.
    Reads(FileName, u64),
    /// How many faults it counted: of file calls, of removals, of saying.
    Faults(u64, u64, u64),
    /// The children that it reaped, as the text has them.
    Reaped(String),
}

/// What a line behind `% ` says.
#[derive(Drop)]
pub enum Directive {
    Let(String, String),
    Scene,
    Chunk(String),
    Bare,
    Fails(Whose, Vec<u64>),
    Stops(u64),
    Pieces(u64),
    Rules(String),
    Child(Plan),
    Leaves(Kind, Left),
    Acts(Early),
    /// Lines are what a store is asked from here on.
    Asked,
    /// Lines are those of a transcript again.
    Run,
    /// Lines are what a store is answered where this name stands.
    Stand(String),
    /// From here on this name stands.
    Stands(String),
    Raw(Vec<u8>),
    /// Others change a byte while the open call goes.
    Changed(Change),
    Call(String),
    /// The open call is made, and ends so.
    Ends(String),
    Serve,
    Done(Act),
    Test(Test),
    /// The open call is tried: how many trials there are, and how many of them go to their end.
    Each(Trial, u64, u64),
}
