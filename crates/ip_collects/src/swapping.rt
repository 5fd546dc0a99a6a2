// The swap: the store goes over to the pair of a collection that was found valid. Its steps are:
//   1. All memory is taken: for the new space, and for the names that stay.
//   2. Both files of the pair are synced. No slot refers to them yet.
//   3. The slot that is not live is made ready, and its gate is opened, as in any durable step. From there on the pair is live.
//   4. The tables go without the commits that were given up. No memory is taken there.
ghost use Rattle.std.specs.Prelude.{◌≡◌, ℕ, ◌<◌, ◌≤◌, length, Some, None, Err, IsTrue, IfOk, IfErr, OnOk, IsErr, IsErrOf, ◌-◌};
ghost use Rattle.ip_base.specs.declared.limit.TheConstants.{OFFSET_MAX};
ghost use Rattle.ip_ground.specs.Contents.{Image};
ghost use Rattle.ip_ground.specs.Counts.{Counts, CountsAs, DamageFound, FileFault};
ghost use Rattle.ip_ground.specs.Told.{IsSettledAs, NoFile, ChangesOnly};
ghost use Rattle.ip_spec.specs.Repository.{Repository};
ghost use Rattle.ip_spec.specs.Step.{collected_at};
ghost use Rattle.ip_image.specs.Collection.{found_in};
ghost use Rattle.ip_image.specs.Virtual.{RowsFit, placed, total};
ghost use Rattle.ip_keep.specs.Runs.{joined};
ghost use Rattle.ip_check.specs.CheckView.{CheckView};
ghost use Rattle.ip_check.specs.Checking.{IsCheck, IsVerdict};
ghost use Rattle.ip_held.specs.Collecting.{until};
ghost use Rattle.ip_collects.specs.CollectFaults.{counted_finish};
ghost use Rattle.ip_collects.specs.Finishing.{IsUndamaged, swapped_slot};
ghost use Rattle.ip_collects.specs.Judging.{IsRootlessIn, IsThrough};
ghost use Rattle.ip_publish.specs.Publishing.{TurnsGate};
ghost use Rattle.ip_held.specs.Held.{IsOf, Holds};
ghost use Rattle.ip_collects.specs.Swapping.{Accepts, AcceptsAs, IsSwap, IsSwapFault, IsTurnedDown, RefusesSwap, SwapsTables, SyncsPair, turned_down};
ghost use Rattle.ip_held.specs.declared.collection.Collection.{Collection as CollectionValue};
ghost use Rattle.ip_collects.specs.declared.finishing.FinishFault.TheVariants as FinishFault;

use crate::finishing::FinishFault;
use ip_audit::Names;
use ip_base::limit::OFFSET_MAX;
use ip_base::{Limit, Memory, Number};
use ip_check::Check;
use ip_control::Slot;
use ip_ground::{FileName, Ground, GroundFault};
use ip_held::{Collection, Held, layout_of};
use ip_image::run::Run;
use ip_publish::turn_gate;
use ip_space::Space;
use std::alloc::Global;

// A swap for which all memory was taken.
#[derive(Drop)]
pub struct Swap {
    slot: Slot,
    space: Space,
    // Of the commits that stay.
    names: Names,
}

// The runs of what a check has found to be kept, ascending.
fn runs_of(alloc: Global, check: &Check) -> Result<Vec<Run>, Memory>
    requires { IsCheck check.now }
    ensures runs { IfOk result (λ list. list.items ≡ joined check.now.keep.kept) }
    ensures rows { RowsFit check.now.job.horizon (placed 0 (joined check.now.keep.kept)) }
    ensures total { total check.now.keep.kept ≤ OFFSET_MAX }
    ensures few { length (joined check.now.keep.kept) ≤ OFFSET_MAX }
{
    let mut runs = check.runs();
    let mut list = Vec::new(alloc);
    while let Some(run) = runs.take_run() {
        list.push(run)?;
    }
    Ok(list)
}

// How many bytes the runs have.
fn length_of(runs: &[Run]) -> u64
    requires { total runs.now ≤ OFFSET_MAX }
    ensures { result ≡ total runs.now }
{
    let mut length = 0;
    for run in runs {
        length += run.length;
    }
    length
}

// Syncs the pair of an attempt.
fn sync_pair<G: Ground>(outside: &mut G, attempt: u64) -> Result<(), GroundFault>
    ensures does { IsTrue G.tells → (pair : Image) → IsSettledAs (G.told outside.old) attempt pair → SyncsPair attempt result (G.told outside.old) (G.told outside.new) }
    ensures counts { CountsAs FileFault result (G.counts_of outside.old) (G.counts_of outside.new) }
{
    outside.sync(FileName::Prefix(attempt))?;
    outside.sync(FileName::Mapping(attempt))
}

// The slot of the swap.
fn swapped_slot(store: &Held, collection: &Collection, prefix_len: u64, rows: u64) -> Slot
    requires { store.now.slot.sequence < OFFSET_MAX }
    ensures { result ≡ swapped_slot store.now.slot store.now.unswept collection.now prefix_len rows }
{
    Slot {
        sequence: store.slot.sequence + 1,
        horizon: collection.job.horizon,
        floor: collection.commit.get(),
        live: collection.job.attempt,
        prefix_len,
        rows,
        first_chunk: store.unswept.chunk,
        first_attempt: store.unswept.attempt,
        ..store.slot
    }
}

// What the swap needs: first it is tested that nothing stands against it, and then all memory is taken. A commit's record never lies at 0, since
// its root lies below it.
fn plan_swap(store: &Held, alloc: Global) -> Result<Swap, FinishFault>
    requires tables { (r : Repository) × IsOf store.now r }
    requires through { IsThrough store.now.collection }
    ensures planned { (r : Repository) (c : CollectionValue) (check : CheckView) → IsOf store.now r → store.now.collection ≡ Some c → c.check ≡ Some check → IfOk result (IsSwap store.now c check) }
    ensures refused { (c : CollectionValue) → store.now.collection ≡ Some c → IfErr result (RefusesSwap store.now c) }
{
    let Some(collection) = &store.collection else {
        unreachable!();
    };
    let Some(check) = &collection.check else {
        unreachable!();
    };
    if collection.job.horizon == 0 {
        return Err(FinishFault::Damaged(0));
    }
    if store.slot.sequence >= OFFSET_MAX {
        return Err(FinishFault::Limit(Limit::Sequence));
    }
    let runs = runs_of(alloc, check)?;
    let length = length_of(runs.as_slice());
    let slot = swapped_slot(store, collection, length, runs.len() as u64);
    let space = Space::over(alloc, layout_of(&slot), runs.as_slice())?;
    let gone = (slot.floor - store.slot.floor) as usize;
    let names = store.names.copy_from(alloc, gone)?;
    Ok(Swap { slot, space, names })
}

// The slot of the swap becomes the live one, and the tables those of its repository. No collection runs then.
fn swap_to<G: Ground>(store: &mut Held, outside: &mut G, swap: Swap) -> Result<(), GroundFault>
    requires tables { (r : Repository) × (c : CollectionValue) × (check : CheckView) × IsOf store.old r × (store.old.collection ≡ Some c) × (c.check ≡ Some check) × IsSwap store.old c check swap }
    ensures tables { (r : Repository) (c : CollectionValue) → IsOf store.old r → store.old.collection ≡ Some c → OnOk result (IsOf store.new (collected_at r c.commit)) }
    ensures swaps { OnOk result (SwapsTables swap store.old store.new) }
    ensures same { IsErr result → store.new ≡ store.old }
    ensures does { IsTrue G.tells → (r : Repository) → Holds store.old (G.told outside.old) r → TurnsGate (1 - store.old.index) swap.slot result (G.told outside.old) (G.told outside.new) }
    ensures counts { CountsAs FileFault result (G.counts_of outside.old) (G.counts_of outside.new) }
{
    let Swap { slot, space, names } = swap;
    turn_gate(outside, 1 - store.index, &slot)?;
    store.index = 1 - store.index;
    let gone = (slot.floor - store.slot.floor) as usize;
    store.places.drop_front(gone);
    store.history.raise(Number(slot.floor));
    store.names = names;
    store.space = space;
    store.slot = slot;
    store.collection = None;
    Ok(())
}

// No swap was planned: where the sequence ends the collection is over.
fn turn_down(store: &mut Held, fault: &FinishFault)
    ensures { store.new ≡ turned_down fault.now store.old }
{
    let FinishFault::Limit(_) = fault else {
        return;
    };
    store.collection = None;
}

// Damage that the plan of a swap has found is noted: none else has seen it. Of another fault nothing is.
fn note_fault<G: Ground>(outside: &mut G, fault: &FinishFault)
    ensures damaged { ¬ IsUndamaged {A = Unit {0}} (Err fault.now) → DamageFound (G.counts_of outside.old) (G.counts_of outside.new) }
    ensures undamaged { IsUndamaged {A = Unit {0}} (Err fault.now) → outside.new ≡ outside.old }
    ensures only { IsTrue G.tells → ChangesOnly NoFile (G.told outside.old) (G.told outside.new) }
{
    let FinishFault::Damaged(_) = fault else {
        return;
    };
    outside.note_damage();
}

// The store goes over to the pair that was checked. Where the sequence ends the collection is over, and nothing else is done.
pub(crate) fn accept<G: Ground>(
    store: &mut Held,
    alloc: Global,
    outside: &mut G,
) -> Result<(), FinishFault>
    requires tables { (r : Repository) × IsOf store.old r }
    requires through { IsThrough store.old.collection }
    ensures tables { (r : Repository) (c : CollectionValue) → IsOf store.old r → store.old.collection ≡ Some c → Accepts result r c store.old store.new }
    ensures faults { IfErr result IsSwapFault }
    ensures sequence { result ≡ Err FinishFault.Memory → store.old.slot.sequence < OFFSET_MAX }
    ensures room { result ≡ Err FinishFault.Ground → store.old.slot.sequence < OFFSET_MAX }
    ensures does { IsTrue G.tells → (r : Repository) (held : Holds store.old (G.told outside.old) r) (c : CollectionValue) → store.old.collection ≡ Some c →
        IsVerdict (until c.job.end held.stands.standing.records) c.job (found_in (G.told outside.old).held c.job.attempt) None → AcceptsAs held.stands.standing.records r c result store.new (G.told outside.old) (G.told outside.new) }
    ensures unchanged { IsTurnedDown result → outside.new ≡ outside.old }
    ensures undamaged { IsTrue G.tells → (r : Repository) → Holds store.old (G.told outside.old) r → IsUndamaged result }
    ensures untouched { IsTrue G.tells → ¬ IsUndamaged result → ChangesOnly NoFile (G.told outside.old) (G.told outside.new) }
    ensures rootless { (at : ℕ) → IsErrOf result (FinishFault.Damaged at) → IsRootlessIn store.new.collection at }
    ensures counts { Counts counted_finish result (G.counts_of outside.old) (G.counts_of outside.new) }
{
    let swap = match plan_swap(store, alloc) {
        Ok(swap) => swap,
        Err(fault) => {
            note_fault(outside, &fault);
            turn_down(store, &fault);
            return Err(fault);
        }
    };
    sync_pair(outside, swap.slot.live)?;
    swap_to(store, outside, swap)?;
    Ok(())
}
