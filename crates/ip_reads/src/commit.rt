// What the store tells of one commit: its record is fetched from where it lies.
ghost use Rattle.std.specs.Prelude.{◌≡◌, map, IsTrue, IfErr, IfOk};
ghost use Rattle.ip_held.specs.Causes.{IsStoreCause};
ghost use Rattle.ip_held.specs.Faults.{counted_store};
ghost use Rattle.ip_ground.specs.Counts.{Counts};
ghost use Rattle.ip_spec.specs.declared.kind.TheConstants as kinds;
ghost use Rattle.ip_spec.specs.declared.record.Parent.{Parent};
ghost use Rattle.ip_spec.specs.Record.{reference_kind};
ghost use Rattle.ip_spec.specs.Repository.{Repository, is_retained, name_at};
ghost use Rattle.ip_space.specs.SpaceView.{IsReadable, OnlyReads, records_of};
ghost use Rattle.ip_held.specs.declared.fault.StoreFault.TheVariants as StoreFault;
ghost use Rattle.ip_held.specs.Showing.{IsFetchedOr, IsRootOf, IsReference, IsRecordOf, IsCommitFrom, BlamesCommit, Damages};
ghost use Rattle.ip_reads.specs.Shown.{IsShown};
ghost use Rattle.ip_held.specs.Trees.{OnlyLooks};
ghost use Rattle.ip_held.specs.Held.{IsOf, Holds, SameTables, image_records, place_of_commit};

use ip_base::{Hash, Hashes, Info, Items, Memory, Number};
use ip_ground::Ground;
use ip_held::{Held, StoreFault};
use ip_space::FetchFault;
use ip_spec::kind::{COMMIT, DIRECTORY};
use ip_spec::record::{CommitRecord, Parent, Record, Ref};
use std::alloc::Global;

/// What is shown of a commit: its name and number, the names of its root and of its parents, and its info.
#[derive(Drop)]
pub struct Shown {
    pub name: Hash,
    pub number: Number,
    pub root: Hash,
    pub parents: Hashes,
    pub info: Info,
}

impl Shown {
    // Of the commit of a name and a number, by its record.
    fn of(alloc: Global, name: Hash, number: Number, commit: CommitRecord) -> Result<Shown, Memory>
        ensures { IfOk result (λ shown. shown ≡ record { name = name; number = number; root = commit.root_name; parents = map (λ (p : Parent). p.name) commit.parents; info = commit.info }) }
    {
        let parents = names_of(alloc, commit.parents.as_slice())?;
        Ok(Shown {
            name,
            number,
            root: commit.root_name,
            parents,
            info: commit.info,
        })
    }
}

/// A retained commit as its record tells it, which takes two reads at most. `Damaged` comes only where others changed the files; after it
/// and after `Ground` the store may not be used any more.
pub fn show<G: Ground>(
    store: &mut Held,
    alloc: Global,
    outside: &mut G,
    number: Number,
) -> Result<Shown, StoreFault>
    requires tables { (r : Repository) × IsOf store.old r × IsTrue (is_retained r number) }
    ensures shows { IsTrue G.tells → (r : Repository) → Holds store.old (G.told outside.old) r → IsTrue (is_retained r number) → IsShown r number result }
    ensures blames { (r : Repository) → IsOf store.old r → IsTrue (is_retained r number) → BlamesCommit (place_of_commit store.old number) (name_at r number) result }
    ensures damages { IsTrue G.tells → IsReadable (G.told outside.old) store.old.space → Damages (records_of (G.told outside.old) store.old.space) result }
    ensures same { SameTables store.old store.new }
    ensures looks { IsTrue G.tells → OnlyLooks (G.told outside.old) (G.told outside.new) store.old store.new }
    ensures counts { Counts counted_store result (G.counts_of outside.old) (G.counts_of outside.new) }
{
    let name = store.retained_name(number);
    let commit = match commit_record(store, outside, number) {
        Ok(commit) => commit,
        Err(fault) => return Err(fault),
    };
    Ok(Shown::of(alloc, name, number, commit)?)
}

/// Where the root of a retained commit's tree lies, by one fetch of the commit's record. Faults are as those of `show`.
pub fn root_of<G: Ground>(
    store: &mut Held,
    outside: &mut G,
    number: Number,
) -> Result<Ref, StoreFault>
    requires tables { (r : Repository) × IsOf store.old r × IsTrue (is_retained r number) }
    ensures root { IsTrue G.tells → (r : Repository) (held : Holds store.old (G.told outside.old) r) → IsTrue (is_retained r number) →
        IsFetchedOr (IsRootOf (image_records held) r number) result }
    ensures blames { (r : Repository) → IsOf store.old r → IsTrue (is_retained r number) → BlamesCommit (place_of_commit store.old number) (name_at r number) result }
    ensures damages { IsTrue G.tells → IsReadable (G.told outside.old) store.old.space → Damages (records_of (G.told outside.old) store.old.space) result }
    ensures same { SameTables store.old store.new }
    ensures reads { IsTrue G.tells → OnlyReads (G.told outside.old) (G.told outside.new) store.old.space store.new.space }
    ensures holds { IsTrue G.tells → (r : Repository) → Holds store.old (G.told outside.old) r → Holds store.new (G.told outside.new) r }
    ensures counts { Counts counted_store result (G.counts_of outside.old) (G.counts_of outside.new) }
    ensures causes { IfErr result (IsStoreCause G.tells (G.told outside.old) store.old.space) }
{
    match commit_record(store, outside, number) {
        Ok(commit) => Ok(Ref {
            at: commit.root_at,
            name: commit.root_name,
            kind: DIRECTORY,
        }),
        Err(fault) => Err(fault),
    }
}

// The record of a retained commit.
fn commit_record<G: Ground>(
    store: &mut Held,
    outside: &mut G,
    number: Number,
) -> Result<CommitRecord, StoreFault>
    requires tables { (r : Repository) × IsOf store.old r × IsTrue (is_retained r number) }
    ensures fetched { IsTrue G.tells → (r : Repository) (held : Holds store.old (G.told outside.old) r) → IsTrue (is_retained r number) →
        IsFetchedOr (IsRecordOf (image_records held) r number) result }
    ensures blames { (r : Repository) → IsOf store.old r → IsTrue (is_retained r number) → BlamesCommit (place_of_commit store.old number) (name_at r number) result }
    ensures damages { IsTrue G.tells → IsReadable (G.told outside.old) store.old.space → Damages (records_of (G.told outside.old) store.old.space) result }
    ensures same { SameTables store.old store.new }
    ensures reads { IsTrue G.tells → OnlyReads (G.told outside.old) (G.told outside.new) store.old.space store.new.space }
    ensures holds { IsTrue G.tells → (r : Repository) → Holds store.old (G.told outside.old) r → Holds store.new (G.told outside.new) r }
    ensures counts { Counts counted_store result (G.counts_of outside.old) (G.counts_of outside.new) }
    ensures causes { IfErr result (IsStoreCause G.tells (G.told outside.old) store.old.space) }
{
    let reference = reference_to(store, number);
    commit_in(store.space.fetch(outside, reference))
}

// The reference to the record of a retained commit.
fn reference_to(store: &Held, number: Number) -> Ref
    requires tables { (r : Repository) × IsOf store.now r × IsTrue (is_retained r number) }
    ensures { (r : Repository) → IsOf store.now r → IsTrue (is_retained r number) → IsReference store.now (name_at r number) number result }
{
    let name = store.retained_name(number);
    let place = (number.get() - store.slot.floor) as usize;
    match store.places.at(place) {
        Some(at) => Ref {
            at,
            name,
            kind: COMMIT,
        },
        None => unreachable!(),
    }
}

// What comes of a record that was fetched by the reference to a commit.
fn commit_in(fetched: Result<Record, FetchFault>) -> Result<CommitRecord, StoreFault>
    requires { IfOk fetched (λ rec. reference_kind rec ≡ kinds.COMMIT) }
    ensures { IsCommitFrom fetched result }
{
    match fetched {
        Ok(Record::Commit(commit)) => Ok(commit),
        Ok(_) => unreachable!(),
        Err(fault) => Err(StoreFault::from(fault)),
    }
}

// The names of these parents.
fn names_of(alloc: Global, parents: &[Parent]) -> Result<Hashes, Memory>
    ensures { IfOk result (λ names. names ≡ map (λ (p : Parent). p.name) parents.now) }
{
    let mut names = Items::of(Vec::with_capacity(alloc, parents.len())?);
    for parent in parents {
        names.push(parent.name)?;
    }
    Ok(names)
}
