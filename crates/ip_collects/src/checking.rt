// The verdict on what a child wrote.
ghost use Rattle.std.specs.Prelude.{◌≡◌, ℕ, ◌-◌, ◌≤◌, ◌^◌, pos, Option, Some, None, Ok, Err, IsTrue, IsSome, IfSome, IfOk, IsErr, IsErrOf};
ghost use Rattle.ip_ground.specs.Counts.{Counts};
ghost use Rattle.ip_ground.specs.Told.{NoFile, ChangesOnly};
ghost use Rattle.ip_base.specs.declared.exit.Exit.TheVariants as Exit;
ghost use Rattle.ip_spawn.specs.Jobs.{IsValid as IsValidJob};
ghost use Rattle.ip_check.specs.CheckView.{CheckView};
ghost use Rattle.ip_check.specs.Checking.{IsSpaceOf};
ghost use Rattle.ip_spec.specs.Repository.{Repository};
ghost use Rattle.ip_collects.specs.CollectFaults.{counted_finish};
ghost use Rattle.ip_collects.specs.declared.finishing.FinishFault.TheVariants as FinishFault;
ghost use Rattle.ip_collects.specs.declared.checking.Verdict.TheVariants as Verdict;
ghost use Rattle.ip_collects.specs.Finishing.{IsUndamaged, LooksOn, LooksWithin};
ghost use Rattle.ip_collects.specs.Judging.{FindsNone, FitsExit, EndsCheck, IsBlamedIn, IsDamagedIn, IsCheckOf, IsNextCheck, IsOpen, IsThrough, SlicesBy, TellsVerdict, verdict_by, with_check};
ghost use Rattle.ip_held.specs.Held.{IsOf, Holds, OwnsPair};
ghost use Rattle.ip_held.specs.declared.collection.Collection.{Collection as CollectionValue};

use crate::finishing::{FinishFault, Rejection, fault_of};
use ip_base::{Exit, Memory};
use ip_check::{Check, CheckFault, Outcome};
use ip_ground::Ground;
use ip_held::{Collection, Held};
use ip_space::Space;
use std::alloc::Global;

/// What is known of a child that has ended.
#[derive(Clone, Copy, Debug, PartialEq, Eq)]
pub enum Verdict {
    /// The check is not through. So many bytes are left from the first record that was not looked at to the job's end.
    Open(u64),
    Rejected(Rejection),
    Valid,
}

// The verdict, as far as it is known once so many records more were looked at, at most. What was not written by a child that ended with code 0
// is not checked.
pub(crate) fn judge<G: Ground>(
    store: &mut Held,
    alloc: Global,
    outside: &mut G,
    exit: Exit,
    most: u64,
) -> Result<Verdict, FinishFault>
    requires some { 1 ≤ most }
    requires tables { (r : Repository) × IsOf store.old r }
    requires running { (c : CollectionValue) × (store.old.collection ≡ Some c) × IsSome c.exit }
    ensures tables { (r : Repository) → IsOf store.old r → IsOf store.new r }
    ensures check { (c : CollectionValue) → store.old.collection ≡ Some c → (check : Option CheckView) × (store.new ≡ with_check store.old c check) × LooksOn most c check }
    ensures fits { FitsExit exit result }
    ensures ends { EndsCheck result store.new.collection }
    ensures sliced { (c : CollectionValue) → store.old.collection ≡ Some c → SlicesBy most c result store.new.collection }
    ensures whole { most ≡ 2 ^ 64 - 1 → ¬ IsOpen result }
    ensures holds { IsTrue G.tells → (r : Repository) → Holds store.old (G.told outside.old) r → Holds store.new (G.told outside.new) r }
    ensures says { IsTrue G.tells → (r : Repository) (held : Holds store.old (G.told outside.old) r) (c : CollectionValue) → store.old.collection ≡ Some c → TellsVerdict held.stands.standing.records c (G.told outside.old) result }
    ensures bounded { IsTrue G.tells → (r : Repository) (held : Holds store.old (G.told outside.old) r) (c : CollectionValue) → store.old.collection ≡ Some c → result ≡ Ok Verdict.Valid → LooksWithin most held.stands.standing.records c }
    ensures undamaged { IsTrue G.tells → (r : Repository) → Holds store.old (G.told outside.old) r → IsUndamaged result }
    ensures blames { (at : ℕ) → IsErrOf result (FinishFault.Damaged at) → IsBlamedIn store.new.collection at }
    ensures broken { IsTrue G.tells → OwnsPair (G.told outside.old) store.old.slot → (at : ℕ) → IsErrOf result (FinishFault.Damaged at) → IsDamagedIn (G.told outside.new) store.new.collection at }
    ensures through { result ≡ Err FinishFault.Memory → FindsNone store.new.collection }
    ensures unsaid { IsErr result → ¬ IsThrough store.new.collection }
    ensures only { IsTrue G.tells → ChangesOnly NoFile (G.told outside.old) (G.told outside.new) }
    ensures counts { Counts counted_finish result (G.counts_of outside.old) (G.counts_of outside.new) }
{
    match exit {
        Exit::Code(0) => check(store, alloc, outside, most),
        _ => Ok(Verdict::Rejected(Rejection::Exit(exit))),
    }
}

// The check goes on, from its beginning where there was none, and is kept with the collection, whatever the answer is.
fn check<G: Ground>(
    store: &mut Held,
    alloc: Global,
    outside: &mut G,
    most: u64,
) -> Result<Verdict, FinishFault>
    requires some { 1 ≤ most }
    requires tables { (r : Repository) × IsOf store.old r }
    requires running { (c : CollectionValue) × (store.old.collection ≡ Some c) × IsSome c.exit }
    ensures tables { (r : Repository) → IsOf store.old r → IsOf store.new r }
    ensures check { (c : CollectionValue) → store.old.collection ≡ Some c → (check : Option CheckView) × (store.new ≡ with_check store.old c check) × LooksOn most c check }
    ensures fits { FitsExit (Exit.Code (pos 0)) result }
    ensures ends { EndsCheck result store.new.collection }
    ensures sliced { (c : CollectionValue) → store.old.collection ≡ Some c → SlicesBy most c result store.new.collection }
    ensures whole { most ≡ 2 ^ 64 - 1 → ¬ IsOpen result }
    ensures holds { IsTrue G.tells → (r : Repository) → Holds store.old (G.told outside.old) r → Holds store.new (G.told outside.new) r }
    ensures says { IsTrue G.tells → (r : Repository) (held : Holds store.old (G.told outside.old) r) (c : CollectionValue) → store.old.collection ≡ Some c → TellsVerdict held.stands.standing.records c (G.told outside.old) result }
    ensures bounded { IsTrue G.tells → (r : Repository) (held : Holds store.old (G.told outside.old) r) (c : CollectionValue) → store.old.collection ≡ Some c → result ≡ Ok Verdict.Valid → LooksWithin most held.stands.standing.records c }
    ensures undamaged { IsTrue G.tells → (r : Repository) → Holds store.old (G.told outside.old) r → IsUndamaged result }
    ensures blames { (at : ℕ) → IsErrOf result (FinishFault.Damaged at) → IsBlamedIn store.new.collection at }
    ensures broken { IsTrue G.tells → OwnsPair (G.told outside.old) store.old.slot → (at : ℕ) → IsErrOf result (FinishFault.Damaged at) → IsDamagedIn (G.told outside.new) store.new.collection at }
    ensures through { result ≡ Err FinishFault.Memory → FindsNone store.new.collection }
    ensures unsaid { IsErr result → ¬ IsThrough store.new.collection }
    ensures only { IsTrue G.tells → ChangesOnly NoFile (G.told outside.old) (G.told outside.new) }
    ensures counts { Counts counted_finish result (G.counts_of outside.old) (G.counts_of outside.new) }
{
    let Some(collection) = &mut store.collection else {
        unreachable!();
    };
    let mut check = take_check(alloc, collection, &store.space)?;
    let outcome = check.advance(outside, most);
    let left = check.left();
    collection.check = Some(check);
    verdict_of(outcome, left)
}

// The check that a collection keeps, taken out, or one that begins, where it keeps none.
fn take_check(alloc: Global, collection: &mut Collection, space: &Space) -> Result<Check, Memory>
    requires job { IsValidJob collection.old.job }
    requires space { IsSpaceOf collection.old.job space.now }
    requires kept { IfSome collection.old.check (IsCheckOf collection.old space.now) }
    ensures taken { collection.new ≡ record collection.old { check = None } }
    ensures next { IfOk result (IsNextCheck collection.old space.now) }
    ensures begins { IsErr result → collection.old.check ≡ None }
{
    match collection.check.take() {
        Some(check) => Ok(check),
        None => Check::new(alloc, &collection.job, space),
    }
}

// What an answer of the check says, where so many bytes are left.
fn verdict_of(outcome: Result<Outcome, CheckFault>, left: u64) -> Result<Verdict, FinishFault>
    ensures { result ≡ verdict_by outcome left }
{
    match outcome {
        Ok(Outcome::More) => Ok(Verdict::Open(left)),
        Ok(Outcome::Valid) => Ok(Verdict::Valid),
        Ok(Outcome::Differs(difference)) => Ok(Verdict::Rejected(Rejection::Differs(difference))),
        Err(fault) => Err(fault_of(fault)),
    }
}
