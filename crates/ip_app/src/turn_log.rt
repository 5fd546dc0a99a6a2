// What is noted of the commands that a run began.
ghost use Rattle.std.specs.Prelude.{◌≡◌, ◌++◌, ◌<◌, [], ◌∷◌, List, Bool, not, false, length, IsTrue, IfOk, ◌≤◌};
ghost use Rattle.std.specs.Vec.{vec_capacity};
ghost use Rattle.ip_app.specs.declared.turn_log.Turn.{Turn};
ghost use Rattle.ip_app.specs.Turns.{turn_of};

use ip_base::Memory;
use ip_ground::GroundCounts;
use ip_image::counts::TurnCounts;
use ip_spawn::SpawnCounts;
use ip_spec::met::Met;
use std::alloc::Global;

/// What a ground and a spawner counted, as a turn tells it.
pub fn turn_counts(counts: GroundCounts, spawner: SpawnCounts) -> TurnCounts
    ensures { result ≡ turn_of counts spawner }
{
    TurnCounts {
        file_faults: counts.file_faults,
        remove_faults: counts.remove_faults,
        spawner,
    }
}

/// A command's turn: what it met, and the counts of faults at its start and its end. It starts with the counts that
/// the turn before it ended with.
#[derive(Clone, Copy, Debug, PartialEq, Eq)]
pub struct Turn {
    pub met: Met,
    pub before: TurnCounts,
    pub after: TurnCounts,
}

/// Where a run notes its turns. A run learns nothing from it.
pub trait Log {
    /// Whether the log tells the turns.
    ghost tells: { Self → Bool };

    /// The turns that were noted.
    ghost turns: { Self → List Turn };

    /// Notes a turn. It takes no memory and cannot fail, but the log may tell no more from now on.
    fn note(&mut self, turn: &Turn)
        ensures noted { IsTrue (tells self.new) → turns self.new ≡ turns self.old ++ turn.now ∷ [] }
        ensures told { IsTrue (tells self.new) → IsTrue (tells self.old) };
}

/// A log that has room for some turns, and tells them until more are noted.
#[derive(Drop)]
pub struct Kept {
    turns: Vec<Turn>,
    room: usize,
    missed: bool,
    ghost roomy: { room ≤ vec_capacity turns },
}

impl Kept {
    /// A log without turns, and with room for so many.
    pub fn new(alloc: Global, room: usize) -> Result<Self, Memory>
        ensures { IfOk result (λ log. (log.turns.items ≡ []) × (log.room ≡ room) × (log.missed ≡ false)) }
    {
        Ok(Kept {
            turns: Vec::with_capacity(alloc, room)?,
            room,
            missed: false,
        })
    }

    /// The turns, in the order in which they were noted. One that found no room is missing, and so are all after it.
    pub fn turns(&self) -> &[Turn]
        ensures { result.now ≡ self.now.turns.items }
    {
        &self.turns
    }
}

impl Log for Kept {
    ghost tells = { λ log. not log.missed };

    ghost turns = { λ log. log.turns.items };

    fn note(&mut self, turn: &Turn)
        ensures noted { IsTrue (not self.new.missed) → self.new.turns.items ≡ self.old.turns.items ++ turn.now ∷ [] }
        ensures told { IsTrue (not self.new.missed) → IsTrue (not self.old.missed) }
        ensures room { self.new.room ≡ self.old.room }
        // It tells on while there is room.
        ensures tells_on { length self.old.turns.items < self.old.room → self.new.missed ≡ self.old.missed }
    {
        if self.turns.len() >= self.room || self.turns.push(*turn).is_err() {
            self.missed = true;
        }
    }
}

/// A log that tells nothing.
#[derive(Drop)]
pub struct Silent;

impl Log for Silent {
    ghost tells = { λ _. false };

    ghost turns = { λ _. [] };

    fn note(&mut self, _: &Turn) {}
}
