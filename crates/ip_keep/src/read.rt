// Records that are read.
ghost use Rattle.std.specs.Prelude.{◌≡◌, ◌+◌, ◌≤◌, ◌<◌, Some, Err, IsTrue, IsOk, IfOk, IsErrOf, length, true, false, nat_lt, ℕ};
ghost use Rattle.std.specs.List.{list_all};
ghost use Rattle.ip_base.specs.declared.limit.TheConstants.{OFFSET_MAX};
ghost use Rattle.ip_ground.specs.Counts.{Counts};
ghost use Rattle.ip_ground.specs.Told.{NoFile, ChangesOnly};
ghost use Rattle.ip_spec.specs.Record.{spelling};
ghost use Rattle.ip_image.specs.Virtual.{Stands};
ghost use Rattle.ip_space.specs.SpaceView.{IsReadable, byte_at, records_of};
ghost use Rattle.ip_space.specs.Scanning.{IsCurrent};
ghost use Rattle.ip_keep.specs.declared.fault.KeepFault.TheVariants as KeepFault;
ghost use Rattle.ip_spec.specs.declared.record.InodeChild.{InodeChild as InodeChildValue};
ghost use Rattle.ip_spec.specs.declared.record.LeafEntry.{LeafEntry as LeafEntryValue};
ghost use Rattle.ip_keep.specs.Entering.{are_below, refs_of};
ghost use Rattle.ip_keep.specs.Faults.{counted_keep, unread_as};

use crate::KeepFault;
use ip_ground::Ground;
use ip_space::{FetchFault, Scan, Space};
use ip_spec::record::{InodeChild, LeafEntry, Record};

// What a fault says of the record at an offset.
fn unread(at: u64, fault: FetchFault) -> KeepFault
    ensures { result ≡ unread_as at fault }
{
    match fault {
        FetchFault::Ground => KeepFault::Ground,
        FetchFault::Form { .. } | FetchFault::Name { .. } => KeepFault::Damaged(at),
        FetchFault::Memory => KeepFault::Memory,
    }
}

// Whether all that a record refers to lies below an offset.
fn refers_below(rec: &Record, at: u64) -> bool
    ensures { result ≡ are_below at (refs_of rec.now) }
{
    match rec {
        Record::Leaf(entries) => entries_below(entries.as_slice(), at),
        Record::Inode { children, .. } => children_below(children.as_slice(), at),
        Record::Commit(c) => c.root_at < at,
        _ => true,
    }
}

fn entries_below(entries: &[LeafEntry], at: u64) -> bool
    ensures { result ≡ list_all (λ (e : LeafEntryValue). nat_lt e.at at) entries.now }
{
    entries.iter().all(|entry| entry.at < at)
}

fn children_below(children: &[InodeChild], at: u64) -> bool
    ensures { result ≡ list_all (λ (c : InodeChildValue). nat_lt c.at at) children.now }
{
    children.iter().all(|child| child.at < at)
}

// Refuses what was read at an offset where it is not whole: that is damage, and is noted. It takes no memory.
fn refuse_broken<G: Ground>(outside: &mut G, at: u64, whole: bool) -> Result<(), KeepFault>
    ensures ok { IsTrue whole → IsOk result }
    ensures damaged { whole ≡ false → result ≡ Err (KeepFault.Damaged at) }
    ensures only { IsTrue G.tells → ChangesOnly NoFile (G.told outside.old) (G.told outside.new) }
    ensures counts { Counts counted_keep result (G.counts_of outside.old) (G.counts_of outside.new) }
{
    if !whole {
        outside.note_damage();
        return Err(KeepFault::Damaged(at));
    }
    Ok(())
}

/// The record that comes next in a walk. What it refers to has to lie below it. Where it does not damage is noted: of what cannot be read
/// at all the space noted it.
pub(crate) fn next_record<G: Ground>(
    outside: &mut G,
    space: &Space,
    scan: &mut Scan,
) -> Result<Record, KeepFault>
    requires { scan.old.next < scan.old.to }
    ensures only { IsTrue G.tells → ChangesOnly NoFile (G.told outside.old) (G.told outside.new) }
    ensures found { IsTrue G.tells → IsReadable (G.told outside.old) space.now → IsCurrent (G.told outside.old) space.now scan.old →
        IfOk result (λ rec. records_of (G.told outside.old) space.now scan.old.next ≡ Some rec) }
    ensures damaged { IsTrue G.tells → IsReadable (G.told outside.old) space.now → IsCurrent (G.told outside.old) space.now scan.old →
        (at : ℕ) → IsErrOf result (KeepFault.Damaged at) → (rec : Record) → records_of (G.told outside.old) space.now scan.old.next ≡ Some rec → are_below scan.old.next (refs_of rec) ≡ false }
    ensures blames { (at : ℕ) → IsErrOf result (KeepFault.Damaged at) → at ≡ scan.old.next }
    ensures current { IsTrue G.tells → IsReadable (G.told outside.old) space.now → IsCurrent (G.told outside.old) space.now scan.old →
        IsCurrent (G.told outside.new) space.now scan.new }
    ensures below { IfOk result (λ rec. are_below scan.old.next (refs_of rec) ≡ true) }
    ensures moves { IfOk result (λ rec. (scan.new.next ≡ scan.old.next + length (spelling rec)) × (scan.new.to ≡ scan.old.to)) }
    ensures inside { IfOk result (λ rec. scan.old.next + length (spelling rec) ≤ space.now.layout.end) }
    ensures counts { Counts counted_keep result (G.counts_of outside.old) (G.counts_of outside.new) }
{
    let at = scan.next();
    match scan.step(outside, space) {
        Ok(Some((_, rec))) => {
            let whole = refers_below(&rec, at);
            match refuse_broken(outside, at, whole) {
                Ok(()) => Ok(rec),
                Err(fault) => Err(fault),
            }
        }
        Ok(None) => {
            outside.note_damage();
            Err(KeepFault::Damaged(at))
        }
        Err(fault) => Err(unread(at, fault)),
    }
}

/// The record at an offset, and its length. It has to end at or below another offset, and what it refers to has to lie below it; where it
/// does not, damage is noted.
pub(crate) fn record_below<G: Ground>(
    outside: &mut G,
    space: &mut Space,
    at: u64,
    below: u64,
) -> Result<(Record, u64), KeepFault>
    requires { space.old.layout.end ≤ OFFSET_MAX }
    ensures same { space.new ≡ space.old }
    ensures only { IsTrue G.tells → ChangesOnly NoFile (G.told outside.old) (G.told outside.new) }
    ensures found { IsTrue G.tells → IsReadable (G.told outside.old) space.old → IfOk result (λ found. records_of (G.told outside.old) space.old at ≡ Some found.0) }
    ensures stands { IsTrue G.tells → IsReadable (G.told outside.old) space.old → IfOk result (λ found. Stands (byte_at (G.told outside.new) space.old) at (spelling found.0)) }
    ensures damaged { IsTrue G.tells → IsReadable (G.told outside.old) space.old → (place : ℕ) → IsErrOf result (KeepFault.Damaged place) →
        (rec : Record) → records_of (G.told outside.old) space.old at ≡ Some rec → are_below at (refs_of rec) ≡ true → below < at + length (spelling rec) }
    ensures blames { (place : ℕ) → IsErrOf result (KeepFault.Damaged place) → place ≡ at }
    ensures length { IfOk result (λ found. found.1 ≡ length (spelling found.0)) }
    ensures inside { IfOk result (λ found. at + found.1 ≤ below) }
    ensures below { IfOk result (λ found. are_below at (refs_of found.0) ≡ true) }
    ensures counts { Counts counted_keep result (G.counts_of outside.old) (G.counts_of outside.new) }
{
    match space.record_at(outside, at) {
        Ok((rec, length)) => {
            let whole = at + length <= below && refers_below(&rec, at);
            match refuse_broken(outside, at, whole) {
                Ok(()) => Ok((rec, length)),
                Err(fault) => Err(fault),
            }
        }
        Err(fault) => Err(unread(at, fault)),
    }
}
