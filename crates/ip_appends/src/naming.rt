// Setting branches and taking them away: one record behind all others.
ghost use Rattle.std.specs.Prelude.{◌≡◌, false, IfOk, IsTrue, Ok};
ghost use Rattle.ip_appends.specs.Naming.{RemovesBranch, SetsBranch, AppendsRecord};
ghost use Rattle.ip_held.specs.Collecting.{IsAbove};
ghost use Rattle.ip_held.specs.Faults.{counted_store};
ghost use Rattle.ip_held.specs.Held.{IsOf};
ghost use Rattle.ip_ground.specs.Counts.{Counts};
ghost use Rattle.ip_image.specs.Appending.{MayName};
ghost use Rattle.ip_image.specs.Standing.{IsServedKind};
ghost use Rattle.ip_spec.specs.Record.{Fits, IsBranchName};
ghost use Rattle.ip_spec.specs.Repository.{Repository, is_retained};
ghost use Rattle.ip_spec.specs.declared.record.Record.TheVariants as Record;

use ip_base::{Blob, Memory, Number};
use ip_ground::Ground;
use ip_held::{Entry, Held, Step, StoreFault, spelled};
use ip_spec::record::Record;
use std::alloc::Global;

// The record that puts a branch at a commit.
pub(crate) fn set_record(alloc: Global, name: &[u8], number: Number) -> Result<Record, Memory>
    ensures { IfOk result (λ rec. rec ≡ Record.BranchSet number name.now) }
{
    Ok(Record::BranchSet {
        number,
        name: Blob::copy_of(alloc, name)?,
    })
}

// The record that takes a branch away.
fn remove_record(alloc: Global, name: &[u8]) -> Result<Record, Memory>
    ensures { IfOk result (λ rec. rec ≡ Record.BranchRemove name.now) }
{
    Ok(Record::BranchRemove {
        name: Blob::copy_of(alloc, name)?,
    })
}

// The step of a record of a branch.
pub(crate) fn append_branch_record<G: Ground>(
    store: &mut Held,
    alloc: Global,
    outside: &mut G,
    rec: Record,
) -> Result<(), StoreFault>
    requires tables { (r : Repository) × IsOf store.old r × MayName r rec }
    requires above { IsAbove store.old.collection rec }
    requires fits { Fits 1 rec }
    requires served { IsServedKind rec }
    ensures appends { AppendsRecord G.tells rec result store.old store.new (G.told outside.old) (G.told outside.new) }
    ensures counts { Counts counted_store result (G.counts_of outside.old) (G.counts_of outside.new) }
{
    let bytes = spelled(alloc, &rec)?;
    let slot = store.next_slot(bytes.len(), 0)?;
    let entry = Entry::Branch(rec);
    store.take(alloc, outside, bytes.as_slice(), Step { slot, entry })
}

/// Puts a branch at a retained commit. Once it is `Ok` it is there for good. After `Ground` the store may not be used any more.
pub fn set_branch<G: Ground>(
    store: &mut Held,
    alloc: Global,
    outside: &mut G,
    name: &[u8],
    number: Number,
) -> Result<(), StoreFault>
    requires name { IsBranchName name.now }
    requires tables { (r : Repository) × IsOf store.old r × IsTrue (is_retained r number) }
    ensures sets { SetsBranch G.tells name.now number result store.old store.new (G.told outside.old) (G.told outside.new) }
    ensures counts { Counts counted_store result (G.counts_of outside.old) (G.counts_of outside.new) }
{
    store.staying(Some(number))?;
    store.room_for(name)?;
    let rec = set_record(alloc, name, number)?;
    append_branch_record(store, alloc, outside, rec)
}

/// Takes a branch away. `Ok(false)`: no branch has the name, and nothing was done. Once it is `Ok(true)` it is gone for good. After
/// `Ground` the store may not be used any more.
pub fn remove_branch<G: Ground>(
    store: &mut Held,
    alloc: Global,
    outside: &mut G,
    name: &[u8],
) -> Result<bool, StoreFault>
    requires name { IsBranchName name.now }
    requires tables { (r : Repository) × IsOf store.old r }
    ensures removes { RemovesBranch G.tells name.now result store.old store.new (G.told outside.old) (G.told outside.new) }
    ensures absent { result ≡ Ok false → outside.new ≡ outside.old }
    ensures counts { Counts counted_store result (G.counts_of outside.old) (G.counts_of outside.new) }
{
    if store.head(name).is_none() {
        return Ok(false);
    }
    let rec = remove_record(alloc, name)?;
    append_branch_record(store, alloc, outside, rec)?;
    Ok(true)
}
