// Beginning a collection: a table of the branches behind all records, the slot that ends there and draws an attempt, and a child for it.
ghost use Rattle.std.specs.Prelude.{◌≡◌, ◌⊎◌, ℕ, ◌+◌, ◌<◌, [], ◌∷◌, ◌++◌, length, map, false, Option, Some, None, Ok, Err, IsTrue, IfOk, IfErr, OnOk, IsOk, IsErr, IsErrOf, is_ok, is_err, if◌then◌else◌, MatchOption, IsSomeAnd};
ghost use Rattle.ip_base.specs.declared.limit.TheConstants.{OFFSET_MAX};
ghost use Rattle.ip_ground.specs.Counts.{Counts};
ghost use Rattle.ip_spawn.specs.Counts as spawn;
ghost use Rattle.ip_spawn.specs.declared.job.Job.{Job};
ghost use Rattle.ip_spec.specs.Record.{spelling};
ghost use Rattle.ip_spec.specs.declared.record.Record.TheVariants as Record;
ghost use Rattle.ip_spec.specs.Repository.{Repository, is_retained, name_at};
ghost use Rattle.ip_spec.specs.Step.{held_branch};
ghost use Rattle.ip_image.specs.Pending.{NothingPending};
ghost use Rattle.ip_image.specs.Standing.{Standing};
ghost use Rattle.ip_held.specs.Collecting.{child_of};
ghost use Rattle.ip_collects.specs.CollectFaults.{counted_start};
ghost use Rattle.ip_held.specs.Fronts.{LeavesFront};
ghost use Rattle.ip_collects.specs.Starting.{begun, new_collection, branch_name_at, met_by_start, BeginsCollecting, IsBegun, IsTurnedDown, IsJobAt, IsFree, RefusesStart, started_by, IsStart, StartsCollection};
ghost use Rattle.ip_held.specs.TableRecord.{table_of, branch_row};
ghost use Rattle.ip_held.specs.Held.{IsOf, Holds};
ghost use Rattle.ip_held.specs.Sweeping.{ChangesFor};
ghost use Rattle.ip_held.specs.Tie.{appending};
ghost use Rattle.ip_publish.specs.Publishing.{IsOfStore};
ghost use Rattle.ip_collects.specs.declared.starting.CollectFault.TheVariants as CollectFault;

use ip_base::limit::OFFSET_MAX;
use ip_base::{Blob, Hash, Items, Limit, Memory, Number};
use ip_control::Slot;
use ip_ground::{Ground, GroundFault};
use ip_held::{Collection, Entry, Held, Step, StoreFault, nothing_met, spelled};
use ip_spawn::{Job, Spawner};
use ip_spec::met::Met;
use ip_spec::record::{Branch, Record};
use ip_tables::Branches;
use std::alloc::Global;

/// Why no collection goes on that was to begin.
#[derive(Clone, Copy, Debug, PartialEq, Eq)]
pub enum CollectFault {
    /// One runs, at the commit of this name.
    Busy(Hash),
    /// A branch is at a commit below: the first one, by its place in the order of names, counted from 0.
    Held(u32),
    /// The limit that it would pass: of attempts, of the space or of the sequence.
    Limit(Limit),
    /// No child was started, as the spawner's counts show. The attempt is spent.
    Start,
    /// A call on the ground failed: what the files hold is known again once the store is opened anew.
    Ground,
    Memory,
}

impl From<GroundFault> for CollectFault {
    ghost use Rattle.ip_collects.specs.declared.starting.CollectFault.TheVariants as CollectFault;

    ghost from_gives = { λ _ e. e ≡ CollectFault.Ground };

    fn from(_: GroundFault) -> Self {
        CollectFault::Ground
    }
}

impl From<Memory> for CollectFault {
    ghost use Rattle.ip_collects.specs.declared.starting.CollectFault.TheVariants as CollectFault;

    ghost from_gives = { λ _ e. e ≡ CollectFault.Memory };

    fn from(_: Memory) -> Self {
        CollectFault::Memory
    }
}

// A collection that nothing refuses.
#[derive(Drop)]
pub struct Start {
    bytes: Vec<u8>,
    slot: Slot,
    job: Job,
}

// The record of all branches as they are.
fn table(alloc: Global, branches: &Branches) -> Result<Record, Memory>
    ensures { IfOk result (λ rec. rec ≡ Record.BranchTable (map branch_row (branches.now).entries)) }
{
    let mut rows = Vec::with_capacity(alloc, branches.len())?;
    for (name, number) in branches.iter() {
        rows.push(Branch {
            name: Blob::copy_of(alloc, name)?,
            number: *number,
        })?;
    }
    Ok(Record::BranchTable(Items::of(rows)))
}

/// What was met by an answer.
pub fn met_by_start(answer: &Result<Hash, CollectFault>) -> Met
    ensures { result ≡ met_by_start answer.now }
{
    Met {
        short: match answer {
            Err(CollectFault::Limit(limit)) => Some(*limit),
            _ => None,
        },
        start_failed: matches!(answer, Err(CollectFault::Start)),
        refused: matches!(answer, Err(CollectFault::Memory)),
        ..nothing_met()
    }
}

// The first branch that is at a commit below this one, by its place in the order of names.
fn held_below(store: &Held, number: Number) -> Option<u32>
    requires { (r : Repository) × IsOf store.now r }
    ensures { (r : Repository) → IsOf store.now r → MatchOption result (held_branch r number ≡ None) (λ place. IsSomeAnd (branch_name_at r place) (λ name. held_branch r number ≡ Some name)) }
{
    let mut place: u32 = 0;
    for (_, head) in store.branches.iter() {
        if head.get() < number.get() {
            return Some(place);
        }
        place += 1;
    }
    None
}

// The refusals in their order, and all memory.
fn plan_collect(store: &Held, alloc: Global, number: Number) -> Result<Start, CollectFault>
    requires tables { (r : Repository) × IsOf store.now r × IsTrue (is_retained r number) }
    ensures refused { (r : Repository) → IsOf store.now r → IsTrue (is_retained r number) → IfErr result (RefusesStart r number store.now) }
    ensures planned { (r : Repository) → IsOf store.now r → IsTrue (is_retained r number) → IfOk result (IsStart r store.now number) }
    ensures free { (r : Repository) → IsOf store.now r → IsOk result → IsFree r number store.now }
{
    if let Some(collection) = &store.collection {
        return Err(CollectFault::Busy(store.retained_name(collection.commit)));
    }
    if let Some(place) = held_below(store, number) {
        return Err(CollectFault::Held(place));
    }
    if store.slot.next_attempt >= OFFSET_MAX {
        return Err(CollectFault::Limit(Limit::Attempt));
    }
    let rec = table(alloc, &store.branches)?;
    let bytes = spelled(alloc, &rec)?;
    let slot = match store.next_slot(bytes.as_slice().len(), 0) {
        Ok(slot) => Slot {
            next_attempt: slot.next_attempt + 1,
            ..slot
        },
        Err(StoreFault::Limit(limit)) => return Err(CollectFault::Limit(limit)),
        Err(_) => unreachable!(),
    };
    let job = Job {
        attempt: store.slot.next_attempt,
        horizon: store.place_of(number),
        end: slot.end,
        chunk: slot.chunk,
        live: slot.live,
        old_horizon: slot.horizon,
        prefix_len: slot.prefix_len,
        rows: slot.rows,
    };
    Ok(Start { bytes, slot, job })
}

// The step, then the attempt is lent, and then a child is started for it in the store's folder.
fn begin<G: Ground, P: Spawner>(
    store: &mut Held,
    alloc: Global,
    outside: &mut G,
    spawner: &mut P,
    dir: &str,
    start: &Start,
) -> Result<(), CollectFault>
    requires tables { (r : Repository) × (number : ℕ) × IsOf store.old r × IsStart r store.old number start.now }
    requires idle { store.old.collection ≡ None }
    requires child { P.held spawner.old ≡ None }
    ensures behind { IsBegun result → store.new ≡ begun store.old start.now }
    ensures same_collection { store.new.collection ≡ store.old.collection }
    ensures unswept { store.new.unswept ≡ store.old.unswept }
    ensures fault { IsErr result → (result ≡ Err CollectFault.Start) ⊎ (result ≡ Err CollectFault.Ground) }
    ensures child { P.held spawner.new ≡ (if is_ok result then Some start.now.job.attempt else None) }
    ensures unasked { IsErrOf result CollectFault.Ground → spawner.new ≡ spawner.old }
    ensures asked { IsBegun result → (IsTrue P.tells → P.told spawner.new ≡ record { started = (P.told spawner.old).started ++ started_by dir.now start.now.job result; reaped = (P.told spawner.old).reaped })
        × spawn.Counts false false false (is_err result) (P.counts_of spawner.old) (P.counts_of spawner.new) }
    ensures any_moment { IsTrue G.tells → (r : Repository) (number : ℕ) → Holds store.old (G.told outside.old) r → IsStart r store.old number start.now →
        StartsCollection r start.now.job.attempt result store.new (G.told outside.old) (G.told outside.new) }
    // whichever proof says that the image stands
    ensures list { IsTrue G.tells → IsBegun result → (r : Repository) (number : ℕ) (held : Holds store.old (G.told outside.old) r) → IsStart r store.old number start.now → (image : Standing (G.told outside.new).held) →
        image.records ≡ held.stands.standing.records ++ (store.old.slot.end, table_of r) ∷ [] }
    ensures fronts { IsTrue G.tells → (r : Repository) (number : ℕ) (held : Holds store.old (G.told outside.old) r) → IsStart r store.old number start.now → NothingPending (G.told outside.old) →
        LeavesFront store.old held.stands.standing.records (appending ((store.old.slot.end, table_of r) ∷ [])) (G.told outside.old) (G.told outside.new) }
    // whatever the files are
    ensures beside { IsTrue G.tells → ChangesFor start.now.job.attempt IsOfStore (G.told outside.old) (G.told outside.new) }
    ensures counts { Counts counted_start result (G.counts_of outside.old) (G.counts_of outside.new) }
{
    let step = Step {
        slot: start.slot,
        entry: Entry::Nothing,
    };
    if let Err(_) = store.take(alloc, outside, start.bytes.as_slice(), step) {
        return Err(CollectFault::Ground);
    }
    outside.lend(start.job.attempt)?;
    match spawner.start(dir, &start.job) {
        Ok(()) => Ok(()),
        Err(_) => Err(CollectFault::Start),
    }
}

/// Begins a collection at a retained commit: a child is started, in the store's folder, that is to copy what this commit and all later ones need, and the store goes on meanwhile. It is answered with the commit's
/// name, once the attempt is drawn for good. After `Ground` the store may not be used any more.
pub fn start_collect<G: Ground, P: Spawner>(
    store: &mut Held,
    alloc: Global,
    outside: &mut G,
    spawner: &mut P,
    dir: &str,
    number: Number,
) -> Result<Hash, CollectFault>
    requires tables { (r : Repository) × IsOf store.old r × IsTrue (is_retained r number) }
    requires child { P.held spawner.old ≡ child_of store.old.collection }
    ensures begins { BeginsCollecting G.tells number result store.old store.new (G.told outside.old) (G.told outside.new) }
    ensures child { P.held spawner.new ≡ child_of store.new.collection }
    ensures turned_down { IsTurnedDown result → outside.new ≡ outside.old }
    ensures unasked { IsTurnedDown result ⊎ IsErrOf result CollectFault.Ground → spawner.new ≡ spawner.old }
    // One child was started, in the folder of this name, or its start failed.
    ensures asked { IsBegun result → (job : Job) × IsJobAt store.old number store.new.slot job × OnOk result (store.new.collection ≡ Some (new_collection number job))
        × (IsTrue P.tells → P.told spawner.new ≡ record { started = (P.told spawner.old).started ++ started_by dir.now job result; reaped = (P.told spawner.old).reaped })
        × spawn.Counts false false false (is_err result) (P.counts_of spawner.old) (P.counts_of spawner.new) }
    ensures counts { Counts counted_start result (G.counts_of outside.old) (G.counts_of outside.new) }
{
    let name = store.retained_name(number);
    let begun = plan_collect(store, alloc, number)?;
    begin(store, alloc, outside, spawner, dir, &begun)?;
    store.collection = Some(Collection {
        commit: number,
        job: begun.job,
        exit: None,
        check: None,
    });
    Ok(name)
}
