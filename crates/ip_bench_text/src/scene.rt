// What a text says of one store.
use crate::bytes::Piece;
use crate::call::Call;
use ip_base::Exit;
use ip_ground::FileName;
use ip_spawn::Plan;
use std::alloc::{AllocError, Global};

/// What a child leaves of a file, by what the worker writes there.
#[derive(Drop)]
pub enum Left {
    Whole,
    Absent,
    /// One more byte 00.
    Longer,
    /// Another byte at a place.
    Byte(u64, u8),
    /// Its first bytes alone, so many.
    Cut(u64),
    /// One more byte in front of a place.
    More(u64, u8),
    /// So many bytes from its front on stand behind the others.
    Turned(u64),
    /// These bytes stand in front of it.
    Behind(Vec<Piece>),
    /// These bytes.
    Bytes(Vec<Piece>),
}

/// A child: how it goes, and what it leaves.
#[derive(Drop)]
pub struct Child {
    pub plan: Plan,
    pub mapping: Left,
    pub prefix: Left,
    pub done: Left,
}

impl Child {
    /// It goes by a plan, and leaves what the worker writes.
    pub fn of(plan: Plan) -> Child {
        Child {
            plan,
            mapping: Left::Whole,
            prefix: Left::Whole,
            done: Left::Whole,
        }
    }
}

/// What a child does to a file before the call of the ground of a number.
#[derive(Drop)]
pub struct Early {
    pub before: u64,
    pub file: FileName,
    /// What the file holds then; nothing where it is removed.
    pub bytes: Option<Vec<u8>>,
}

/// What is done, in order.
#[derive(Drop)]
pub enum Act {
    /// The program is called.
    Play(Call),
    /// The ground is stopped and opened again: with the files as they were, or as they were synced last.
    Reopen(bool),
    /// A file holds these bytes from now on.
    Put(FileName, Vec<Piece>),
    Remove(FileName),
    Byte(FileName, u64, u8),
    Cut(FileName, u64),
}

/// What stands under a name: what a store is answered that is asked then.
#[derive(Drop)]
pub struct Stand {
    pub name: String,
    pub replies: String,
}

/// One store: what is planned for it, and what is done with it.
#[derive(Drop)]
pub struct Scene {
    pub alloc: Global,
    /// The bytes of a chunk, or nothing where no store is made.
    pub chunk: Option<String>,
    pub children: Vec<Child>,
    pub early: Vec<Early>,
    pub ground_fails: Vec<u64>,
    /// The call of the ground from which on all fail.
    pub stop: Option<u64>,
    pub source_fails: Vec<u64>,
    pub spawner_fails: Vec<u64>,
    /// The most bytes that the source gives at a time.
    pub pieces: u64,
    /// The name of the rules by which merges go.
    pub rules: String,
    pub acts: Vec<Act>,
    /// The call that is not made yet.
    pub open: Call,
    /// What a store is asked that is opened again behind a trial.
    pub asked: Vec<u8>,
    pub stands: Vec<Stand>,
    /// The name of what stands from here on.
    pub mark: String,
}

impl Scene {
    pub fn new(alloc: Global) -> Result<Scene, AllocError> {
        Ok(Scene {
            alloc,
            chunk: Some(String::from_str(alloc, "1048576")?),
            children: Vec::new(alloc),
            early: Vec::new(alloc),
            ground_fails: Vec::new(alloc),
            stop: None,
            source_fails: Vec::new(alloc),
            spawner_fails: Vec::new(alloc),
            pieces: u64::MAX,
            rules: String::from_str(alloc, "program")?,
            acts: Vec::new(alloc),
            open: Call::new(alloc),
            asked: Vec::new(alloc),
            stands: Vec::new(alloc),
            mark: String::new(alloc),
        })
    }

    /// How many children were started so far.
    pub fn started(&self) -> usize {
        let mut count = 0usize;
        for act in &self.acts {
            if let Act::Play(call) = act {
                count = count.saturating_add(call.starts.len());
            }
        }
        count
    }
}
