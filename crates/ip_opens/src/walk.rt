// The walk over a store's records: each is read once, in the order of the offsets, and tested behind those before it.
ghost use Rattle.std.specs.Prelude.{◌≡◌, ◌≢◌, ◌↔◌, ℕ, [], ◌∷◌, ◌++◌, ◌+◌, ◌^◌, ◌<◌, ◌≤◌, length, map, Option, Err, IsSome, IsTrue, IsFalse, IfOk, IfErr, OnOk, OnErr, IsErrOf};
ghost use Rattle.ip_opens.specs.OpenFaults.{counted_open};
ghost use Rattle.ip_ground.specs.Counts.{Counts, CountsIf};
ghost use Rattle.ip_ground.specs.Told.{NoFile, ChangesOnly};
ghost use Rattle.ip_spec.specs.Record.{Names, Fits};
ghost use Rattle.ip_spec.specs.declared.record.Record.{Record};
ghost use Rattle.ip_image.specs.Slot.{newest_version, IsSlot};
ghost use Rattle.ip_image.specs.Standing.{IsServedKind, names_after};
ghost use Rattle.ip_image.specs.Virtual.{lies_at};
ghost use Rattle.ip_space.specs.SpaceView.{IsReadable, stretches_of};
ghost use Rattle.ip_space.specs.Fetching.{BlamesPlace};
ghost use Rattle.ip_held.specs.Placed.{places_in, IsSpaceOf};
ghost use Rattle.ip_tables.specs.Histories.{RecordEnters, history_after};
ghost use Rattle.ip_spec.specs.declared.record.Parent.{Parent};
ghost use Rattle.ip_opens.specs.Walk.{MayStand, Tells, TellsSome, TakesOne, IsPlaced, IsUnread, TakesRead, Filled, Walks, Covers, BadRecord};
ghost use Rattle.ip_opens.specs.declared.opening.OpenFault.TheVariants as OpenFault;
ghost use Rattle.ip_ground.specs.declared.names.FileName.{FileName};

use crate::OpenFault;
use ip_audit::{Audit, AuditFault, Terms};
use ip_base::{Memory, Number, Numbers};
use ip_control::Slot;
use ip_ground::Ground;
use ip_held::name_branch;
use ip_history::Table;
use ip_space::{FetchFault, Run, Scan, Space};
use ip_spec::record::{Parent, Record};
use ip_tables::{Branches, Places};
use std::alloc::Global;

/// What the records so far come to.
#[derive(Drop)]
pub struct Found {
    pub audit: Audit,
    /// Where the records of the commits lie, as offsets in bytes, in their order.
    pub places: Places,
    pub branches: Branches,
    pub history: Table,
}

impl Found {
    /// No record was read yet of a store with this slot.
    fn new(alloc: Global, slot: &Slot) -> Found
        ensures { Tells slot.now result [] }
    {
        let terms = Terms {
            floor: slot.floor,
            outside_allowed: false,
        };
        Found {
            audit: Audit::new(alloc, terms),
            places: Places::new(alloc),
            branches: Branches::new(alloc),
            history: Table::new(alloc, Number(slot.floor)),
        }
    }

    /// Takes the record at an offset beyond the others.
    fn take(&mut self, alloc: Global, at: u64, rec: Record) -> Result<(), AuditFault>
        requires told { TellsSome at self.old }
        requires bounds { (version : ℕ) × Fits version rec }
        ensures { TakesOne at rec self.old self.new result }
    {
        self.audit.take(at, &rec)?;
        if let Err(Memory) = enter_place(&mut self.places, at, &rec) {
            return Err(AuditFault::Memory);
        }
        match enter(alloc, &mut self.history, &mut self.branches, rec) {
            Ok(()) => Ok(()),
            Err(_) => Err(AuditFault::Memory),
        }
    }
}

// Puts the place of a commit behind those before it.
fn enter_place(places: &mut Places, at: u64, rec: &Record) -> Result<(), Memory>
    ensures { OnOk result (places.new ≡ places.old ++ places_in ((at, rec.now) ∷ [])) }
{
    match rec {
        Record::Commit(_) => places.push(at),
        _ => Ok(()),
    }
}

// Puts a commit's parents into the history, or a branch where the record says.
fn enter(
    alloc: Global,
    history: &mut Table,
    branches: &mut Branches,
    rec: Record,
) -> Result<(), Memory>
    requires enters { RecordEnters history.old rec }
    ensures history { OnOk result (history.new ≡ history_after history.old rec) }
    ensures branches { OnOk result (branches.new ≡ names_after Names.branches branches.old rec) }
{
    enter_parents(alloc, history, &rec)?;
    name_branch(alloc, branches, rec)
}

// Puts the parents of a commit into the history.
fn enter_parents(alloc: Global, history: &mut Table, rec: &Record) -> Result<(), Memory>
    requires { RecordEnters history.old rec.now }
    ensures { OnOk result (history.new ≡ history_after history.old rec.now) }
{
    match rec {
        Record::Commit(commit) => {
            let numbers = numbers_of(alloc, commit.parents.as_slice())?;
            history.push(numbers.as_slice())
        }
        _ => Ok(()),
    }
}

// The numbers of these parents.
fn numbers_of(alloc: Global, parents: &[Parent]) -> Result<Numbers, Memory>
    ensures { IfOk result (λ numbers. numbers ≡ map (λ (p : Parent). p.number) parents.now) }
{
    let mut numbers = Numbers::empty(alloc);
    for parent in parents {
        numbers.push(parent.number)?;
    }
    Ok(numbers)
}

// Whether records of the kind are served.
fn is_served(rec: &Record) -> bool
    ensures { IsTrue result ↔ IsServedKind rec.now }
{
    match rec {
        Record::Contents(_)
        | Record::Leaf(_)
        | Record::Inode { .. }
        | Record::Commit(_)
        | Record::BranchSet { .. }
        | Record::BranchRemove { .. }
        | Record::BranchTable(_) => true,
        _ => false,
    }
}

// Whether a record of this kind may stand at the offset: below the horizon only parts of trees, and at the horizon of a live generation its
// commit.
fn may_stand(slot: &Slot, at: u64, rec: &Record) -> bool
    ensures { IsTrue result ↔ MayStand slot.now at rec.now }
{
    if !is_served(rec) {
        return false;
    }
    if at < slot.horizon {
        return matches!(
            rec,
            Record::Contents(_) | Record::Leaf(_) | Record::Inode { .. }
        );
    }
    slot.live == 0 || at != slot.horizon || matches!(rec, Record::Commit(_))
}

// What shows that the files are no store's: no good record stands at this offset, which lies in some file.
fn damaged_at(space: &Space, at: u64) -> OpenFault
    requires { IsSome (lies_at space.now.layout space.now.runs at) }
    ensures { IsPlaced space.now at result }
{
    match space.lies_at(at) {
        Some((file, place)) => OpenFault::Damaged { file, at: place },
        None => unreachable!(),
    }
}

// Why the walk found no record at some place.
fn unread(space: &Space, fault: FetchFault) -> OpenFault
    requires { (place : ℕ) × IsSome (lies_at space.now.layout space.now.runs place) × BlamesPlace {A = Option (ℕ × Record)} place (Err fault) }
    ensures { IsUnread space.now fault result }
{
    match fault {
        FetchFault::Ground => OpenFault::Ground,
        FetchFault::Form { at, .. } => damaged_at(space, at),
        FetchFault::Name { .. } => unreachable!(),
        FetchFault::Memory => OpenFault::Memory,
    }
}

// A record that goes over the end of its stretch is none, which is noted: no call that reads has seen it.
fn ends_within<G: Ground>(
    outside: &mut G,
    space: &Space,
    at: u64,
    next: u64,
    end: u64,
) -> Result<(), OpenFault>
    requires lies { IsSome (lies_at space.now.layout space.now.runs at) }
    ensures within { IfOk result (λ _. next ≤ end) }
    ensures beyond { IfErr result (λ fault. (end < next) × IsPlaced space.now at fault) }
    ensures still { OnOk result (outside.new ≡ outside.old) }
    ensures only { IsTrue G.tells → ChangesOnly NoFile (G.told outside.old) (G.told outside.new) }
    ensures counts { Counts counted_open result (G.counts_of outside.old) (G.counts_of outside.new) }
{
    if next <= end {
        return Ok(());
    }
    outside.note_damage();
    Err(damaged_at(space, at))
}

// Takes a record that was read, where it is a good one.
fn take_record(
    alloc: Global,
    slot: &Slot,
    space: &Space,
    at: u64,
    rec: Record,
    found: &mut Found,
) -> Result<(), OpenFault>
    requires slot { IsSlot slot.now }
    requires lies { IsSome (lies_at space.now.layout space.now.runs at) }
    requires told { TellsSome at found.old }
    requires bounds { Fits newest_version rec }
    ensures { TakesRead slot.now space.now at rec found.old found.new result }
{
    if !may_stand(slot, at, &rec) {
        return Err(damaged_at(space, at));
    }
    match found.take(alloc, at, rec) {
        Ok(()) => Ok(()),
        Err(AuditFault::Fails) => Err(damaged_at(space, at)),
        Err(AuditFault::Memory) => Err(OpenFault::Memory),
    }
}

// The fault that taking a record gave; that it found damage is noted: no call that reads has seen it.
fn noted<G: Ground>(outside: &mut G, fault: OpenFault) -> OpenFault
    requires { fault ≢ OpenFault.Ground }
    ensures same { result ≡ fault }
    ensures only { IsTrue G.tells → ChangesOnly NoFile (G.told outside.old) (G.told outside.new) }
    ensures counts { CountsIf (counted_open fault) (G.counts_of outside.old) (G.counts_of outside.new) }
{
    match fault {
        OpenFault::NoStore => fault,
        OpenFault::Damaged { .. } => {
            outside.note_damage();
            fault
        }
        OpenFault::Ground => fault,
        OpenFault::Memory => fault,
    }
}

// Takes a record that was read, and notes where it is no good one.
fn take_read<G: Ground>(
    alloc: Global,
    outside: &mut G,
    slot: &Slot,
    space: &Space,
    at: u64,
    rec: Record,
    found: &mut Found,
) -> Result<(), OpenFault>
    requires slot { IsSlot slot.now }
    requires lies { IsSome (lies_at space.now.layout space.now.runs at) }
    requires told { TellsSome at found.old }
    requires bounds { Fits newest_version rec }
    ensures takes { TakesRead slot.now space.now at rec found.old found.new result }
    ensures still { OnOk result (outside.new ≡ outside.old) }
    ensures only { IsTrue G.tells → ChangesOnly NoFile (G.told outside.old) (G.told outside.new) }
    ensures counts { Counts counted_open result (G.counts_of outside.old) (G.counts_of outside.new) }
{
    match take_record(alloc, slot, space, at, rec, found) {
        Ok(()) => Ok(()),
        Err(fault) => Err(noted(outside, fault)),
    }
}

/// The walk through one stretch of the space.
#[derive(Drop)]
struct Walk {
    number: usize,
    stretch: Run,
    scan: Scan,
}

// Reads and takes the next record; false at the end of the stretch.
fn take_next<G: Ground>(
    alloc: Global,
    outside: &mut G,
    slot: &Slot,
    space: &Space,
    walk: &mut Walk,
    found: &mut Found,
) -> Result<bool, OpenFault>
    requires slot { IsSlot slot.now }
    requires space { IsSpaceOf slot.now space.now }
    requires walks { Walks slot.now G.tells (G.told outside.old) space.now walk.old found.old }
    ensures walks { IfOk result (λ more. Walks slot.now G.tells (G.told outside.new) space.now walk.new found.new) }
    ensures same { (walk.new.number ≡ walk.old.number) × (walk.new.stretch ≡ walk.old.stretch) }
    ensures further { IfOk result (λ more. IsTrue more → (walk.old.scan.next < walk.new.scan.next) × (walk.old.scan.next < walk.old.scan.to)) }
    ensures ends { IfOk result (λ more. IsFalse more → walk.new.scan.next ≡ walk.new.scan.to) }
    ensures damaged { IsTrue G.tells → IsReadable (G.told outside.old) space.now → (file : FileName) (at : ℕ) → IsErrOf result (OpenFault.Damaged file at) →
        BadRecord slot.now (G.told outside.new) space.now file at }
    ensures there { IsErrOf result OpenFault.NoStore → ⊥ }
    ensures only { IsTrue G.tells → ChangesOnly NoFile (G.told outside.old) (G.told outside.new) }
    ensures counts { Counts counted_open result (G.counts_of outside.old) (G.counts_of outside.new) }
{
    match walk.scan.step(outside, space) {
        Ok(None) => Ok(false),
        Ok(Some((at, rec))) => {
            let end = walk.stretch.at + walk.stretch.length;
            match ends_within(outside, space, at, walk.scan.next(), end) {
                Ok(()) => {}
                Err(fault) => return Err(fault),
            }
            match take_read(alloc, outside, slot, space, at, rec, found) {
                Ok(()) => Ok(true),
                Err(fault) => Err(fault),
            }
        }
        Err(fault) => Err(unread(space, fault)),
    }
}

// Reads the records of the stretch of this number; false where there are no more stretches.
fn read_stretch<G: Ground>(
    alloc: Global,
    outside: &mut G,
    slot: &Slot,
    space: &Space,
    number: usize,
    found: &mut Found,
) -> Result<bool, OpenFault>
    requires slot { IsSlot slot.now }
    requires space { IsSpaceOf slot.now space.now }
    requires filled { Filled slot.now G.tells (G.told outside.old) space.now number found.old }
    ensures filled { IfOk result (λ more. IsTrue more → Filled slot.now G.tells (G.told outside.new) space.now (number + 1) found.new) }
    ensures further { IfOk result (λ more. IsTrue more → (number < length (stretches_of space.now)) × (number < 2 ^ 63)) }
    ensures ends { IfOk result (λ more. IsFalse more → (length (stretches_of space.now) ≤ number) × (found.new ≡ found.old) × (outside.new ≡ outside.old)) }
    ensures damaged { IsTrue G.tells → IsReadable (G.told outside.old) space.now → (file : FileName) (at : ℕ) → IsErrOf result (OpenFault.Damaged file at) →
        BadRecord slot.now (G.told outside.new) space.now file at }
    ensures there { IsErrOf result OpenFault.NoStore → ⊥ }
    ensures only { IsTrue G.tells → ChangesOnly NoFile (G.told outside.old) (G.told outside.new) }
    ensures counts { Counts counted_open result (G.counts_of outside.old) (G.counts_of outside.new) }
{
    let Some(stretch) = space.stretch_at(number) else {
        return Ok(false);
    };
    let mut walk = Walk {
        number,
        stretch,
        scan: space.scan(stretch.at, stretch.at + stretch.length),
    };
    while take_next(alloc, outside, slot, space, &mut walk, found)? {}
    Ok(true)
}

/// Reads all records of a store with this slot: those of each run below the horizon, and from the horizon to the end of its space.
pub fn read_records<G: Ground>(
    alloc: Global,
    outside: &mut G,
    slot: &Slot,
    space: &Space,
) -> Result<Found, OpenFault>
    requires slot { IsSlot slot.now }
    requires space { IsSpaceOf slot.now space.now }
    ensures covers { IfOk result (λ found. Covers slot.now G.tells (G.told outside.new) space.now found) }
    ensures damaged { IsTrue G.tells → IsReadable (G.told outside.old) space.now → (file : FileName) (at : ℕ) → IsErrOf result (OpenFault.Damaged file at) →
        BadRecord slot.now (G.told outside.new) space.now file at }
    ensures there { IsErrOf result OpenFault.NoStore → ⊥ }
    ensures only { IsTrue G.tells → ChangesOnly NoFile (G.told outside.old) (G.told outside.new) }
    ensures counts { Counts counted_open result (G.counts_of outside.old) (G.counts_of outside.new) }
{
    let mut found = Found::new(alloc, slot);
    let mut number = 0;
    while read_stretch(alloc, outside, slot, space, number, &mut found)? {
        number += 1;
    }
    Ok(found)
}
