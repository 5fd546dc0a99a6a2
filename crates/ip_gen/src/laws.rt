// What every list of events keeps.
ghost use Rattle.std.specs.Prelude.{◌≡◌, ◌≤◌, List, IsTrue, Contains};
ghost use Rattle.ip_spec.specs.declared.event.CoreRecord.{CoreRecord};
ghost use Rattle.ip_spec.specs.declared.event.Event.{Event};
ghost use Rattle.ip_spec.specs.declared.event.Event.TheVariants as Event;
ghost use Rattle.ip_spec.specs.Core.{Core, CoreStep, CoreRun, no_core, IsClosed, KeepsReached};
ghost use Rattle.ip_gen.specs.Laws.{RefersBelow, KeptIsClosed, CoversAbove, CollectsCommit, SameReached};

/// Over every list of allowed events from the empty core: each reference of a present record points at a present record strictly
/// below; while collecting, the kept set is closed under references, and what a record from the collected commit on refers to is kept,
/// or at that commit or above; each step keeps what the commits from its new horizon on reach, so that these records are the ones
/// that a commit reached when it was appended.
pub fn events()
    ensures closed { (events : List Event) (core : Core) → CoreRun no_core events core → IsClosed core }
    ensures references { (events : List Event) (core : Core) → CoreRun no_core events core → RefersBelow core.records }
    ensures kept { (events : List Event) (core : Core) → CoreRun no_core events core → KeptIsClosed core.records core.phase }
    ensures covered { (events : List Event) (core : Core) → CoreRun no_core events core → CoversAbove core.records core.phase }
    ensures collects { (events : List Event) (core : Core) → CoreRun no_core events core → CollectsCommit core.records core.horizon core.phase }
    ensures reached { (events : List Event) (event : Event) (old new : Core) →
        CoreRun no_core events old → CoreStep old event new → KeepsReached old new }
    ensures since { (before after : List Event) (old new : Core) → CoreRun no_core before old → CoreRun old after new →
        (c : CoreRecord) → Contains old.records c → IsTrue c.commit → new.horizon ≤ c.at →
        Contains new.records c × SameReached c.at old.records new.records }
    ensures appended { (before after : List Event) (records : List CoreRecord) (old mid new : Core) →
        CoreRun no_core before old → CoreStep old (Event.Append records) mid → CoreRun mid after new →
        (c : CoreRecord) → Contains records c → IsTrue c.commit → new.horizon ≤ c.at →
        Contains new.records c × SameReached c.at mid.records new.records }
{}

/// The same from any core that is closed, as that of a store is: over every list of allowed events it stays closed, so that its references are as `events`
/// says; and each commit from the new horizon on that was there, or that was appended since, stays with the records that it reached.
pub fn continued()
    ensures closed { (events : List Event) (old new : Core) → IsClosed old → CoreRun old events new → IsClosed new }
    ensures covered { (core : Core) → IsClosed core → CoversAbove core.records core.phase }
    ensures reached { (event : Event) (old new : Core) → IsClosed old → CoreStep old event new → KeepsReached old new }
    ensures since { (events : List Event) (old new : Core) → IsClosed old → CoreRun old events new →
        (c : CoreRecord) → Contains old.records c → IsTrue c.commit → new.horizon ≤ c.at →
        Contains new.records c × SameReached c.at old.records new.records }
    ensures appended { (before after : List Event) (records : List CoreRecord) (start old mid new : Core) → IsClosed start →
        CoreRun start before old → CoreStep old (Event.Append records) mid → CoreRun mid after new →
        (c : CoreRecord) → Contains records c → IsTrue c.commit → new.horizon ≤ c.at →
        Contains new.records c × SameReached c.at mid.records new.records }
{}

/// An event and a core determine the next core, its kept set included.
pub fn steps()
    ensures one { (old new other : Core) (event : Event) → CoreStep old event new → CoreStep old event other → new ≡ other }
{}
