// The trait of what starts children.
ghost use Rattle.std.specs.Prelude.{◌≡◌, ℕ, Bool, true, false, Option, Some, None, IsTrue, IsSome, IfSome, is_some, is_ok, is_err};
ghost use Rattle.ip_spawn.specs.declared.spawner.SpawnCounts.{SpawnCounts};
ghost use Rattle.ip_spawn.specs.Counts.{Counts};
ghost use Rattle.ip_spawn.specs.Children.{Told, held_after_start, told_after_start, end_seen, end_reaped, is_running, held_after, told_after};

use crate::Job;
use ip_base::Reaped;

/// What a look at the child gave.
#[derive(Clone, Copy, Debug, PartialEq, Eq)]
pub enum Look {
    /// It runs, as far as was seen.
    Running,
    /// It has ended, and was waited for.
    Ended(Reaped),
}

/// A call on a spawner that did not succeed. It has no parts: a count shows that there was one.
#[derive(Clone, Copy, Debug, PartialEq, Eq)]
pub struct SpawnFault;

/// What was counted so far. A counter that stands at its last value, 2^64 - 1, stays there.
#[derive(Clone, Copy, Debug, PartialEq, Eq)]
pub struct SpawnCounts {
    /// The looks that gave Running.
    pub running: u64,
    /// The calls of `wait`.
    pub waits: u64,
    /// The children of which a call told how they ended.
    pub reaps: u64,
    /// The calls that failed.
    pub spawn_faults: u64,
}

/// What starts a child, one at a time. A call that does not succeed counts a fault, want of memory inside the object
/// included. Which child is held is always told, by its attempt.
pub trait Spawner {
    /// Whether it tells what it started, and how these ended. Objects in memory do.
    ghost tells: { Bool };

    /// What it tells of these, the folder of each start beside its job.
    ghost told: { Self → Told };

    /// The attempt of the child that is held, if one is.
    ghost held: { Self → Option ℕ };

    /// What was counted so far.
    ghost counts_of: { Self → SpawnCounts };

    /// Starts a child with this job, for the store in this folder. None is to be held. After a fault none is.
    fn start(&mut self, dir: &str, job: &Job) -> Result<(), SpawnFault>
        requires { held self.old ≡ None }
        ensures held { held self.new ≡ held_after_start job.now result }
        ensures told { IsTrue tells → told self.new ≡ told_after_start dir.now job.now result (told self.old) }
        ensures counts { Counts false false false (is_err result) (counts_of self.old) (counts_of self.new) };

    /// Whether the child runs, or how it ended. After a fault it is still held.
    fn look(&mut self) -> Result<Look, SpawnFault>
        requires { IsSome (held self.old) }
        ensures attempt { IfSome (end_seen result) (λ reaped. held self.old ≡ Some reaped.attempt) }
        ensures held { held self.new ≡ held_after (end_seen result) (held self.old) }
        ensures told { IsTrue tells → told self.new ≡ told_after (end_seen result) (told self.old) }
        ensures counts { Counts (is_running result) false (is_some (end_seen result)) (is_err result) (counts_of self.old) (counts_of self.new) };

    /// Waits until the child has ended, and says how. After a fault it is still held.
    fn wait(&mut self) -> Result<Reaped, SpawnFault>
        requires { IsSome (held self.old) }
        ensures attempt { IfSome (end_reaped result) (λ reaped. held self.old ≡ Some reaped.attempt) }
        ensures held { held self.new ≡ held_after (end_reaped result) (held self.old) }
        ensures told { IsTrue tells → told self.new ≡ told_after (end_reaped result) (told self.old) }
        ensures counts { Counts false true (is_ok result) (is_err result) (counts_of self.old) (counts_of self.new) };

    /// Ends the child, waits for it, and says how it ended. After a fault too none is held: the child may go on.
    fn kill(&mut self) -> Result<Reaped, SpawnFault>
        requires { IsSome (held self.old) }
        ensures attempt { IfSome (end_reaped result) (λ reaped. held self.old ≡ Some reaped.attempt) }
        ensures held { held self.new ≡ None }
        ensures told { IsTrue tells → told self.new ≡ told_after (end_reaped result) (told self.old) }
        ensures counts { Counts false false (is_ok result) (is_err result) (counts_of self.old) (counts_of self.new) };

    /// What was counted so far.
    fn counts(&self) -> SpawnCounts
        ensures { result ≡ counts_of self.now };
}
