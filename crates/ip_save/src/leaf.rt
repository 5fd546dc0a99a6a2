// The entries of a leaf, and whether they may stand in its record.
ghost use Rattle.std.specs.Prelude.{◌≡◌, ◌≤◌, ◌<◌, length, map, All, IsTrue, IfNone, IfOk, IfSome};
ghost use Rattle.ip_save.specs.Laid.{IsHighFault, field_for};
ghost use Rattle.ip_shape.specs.Heights.{leaf_height};
ghost use Rattle.ip_spec.specs.Path.{IsStep};
ghost use Rattle.ip_spec.specs.Record.{Fits, IsLeafEntry, are_rising};
ghost use Rattle.ip_spec.specs.declared.record.Record.TheVariants as Record;

use crate::SaveFault;
use ip_base::limit::{ENTRIES_MAX, STEP_BYTES_MAX};
use ip_base::{Limit, Memory, Step, is_step_byte, see_name};
use ip_shape::height::leaf_height;
use ip_spec::kind::{CONTENTS, DIRECTORY};
use ip_spec::record::LeafEntry;
use ip_tree::Stored;
use std::alloc::Global;
use std::cmp::Ordering;

/// The greatest height of what an entry leads to.
const HEIGHT_LIMIT: u8 = 63;

/// Why entries may not stand in a leaf. A tree that is read or made by edits gives no cause.
pub fn leaf_fault(entries: &[LeafEntry]) -> Option<SaveFault>
    ensures none { IfNone result (Fits 1 (Record.Leaf entries.now)) }
    ensures cause { IfSome result (IsHighFault (leaf_height entries.now)) }
{
    if leaf_height(entries) > HEIGHT_LIMIT + 1 {
        return Some(SaveFault::Limit(Limit::Depth));
    }
    // The limit of entries is the directory's, and was tested there: no leaf of it has more.
    if entries.len() > ENTRIES_MAX {
        return Some(SaveFault::Memory);
    }
    if !are_entries(entries) || !are_rising(entries) {
        return Some(SaveFault::Memory);
    }
    None
}

fn are_entries(entries: &[LeafEntry]) -> bool
    ensures { IsTrue result → All IsLeafEntry entries.now }
{
    for entry in entries {
        if !is_entry(entry) {
            return false;
        }
    }
    true
}

fn is_entry(entry: &LeafEntry) -> bool
    ensures { IsTrue result → IsLeafEntry entry.now }
{
    let _at = entry.at;
    see_name(&entry.name);
    is_step(entry.step.bytes())
        && (entry.kind == CONTENTS || entry.kind == DIRECTORY)
        && entry.height <= HEIGHT_LIMIT
}

// Whether bytes may be a step.
fn is_step(bytes: &[u8]) -> bool
    ensures { IsTrue result → IsStep bytes.now }
{
    if bytes.is_empty() || bytes.len() > STEP_BYTES_MAX {
        return false;
    }
    for byte in bytes {
        if !is_step_byte(*byte) {
            return false;
        }
    }
    true
}

// Whether each step comes before the next.
fn are_rising(entries: &[LeafEntry]) -> bool
    ensures { IsTrue result → IsTrue (are_rising (map (λ e. e.step) entries.now)) }
{
    for i in 1..entries.len() {
        match entries[i - 1].step.bytes().cmp(entries[i].step.bytes()) {
            Ordering::Less => {}
            _ => return false,
        }
    }
    true
}

/// The entry of a leaf for what stands at a step.
pub fn leaf_entry(alloc: Global, step: &Step, stored: &Stored) -> Result<LeafEntry, Memory>
    ensures { IfOk result (λ entry. entry ≡ field_for step.now stored.now) }
{
    Ok(LeafEntry {
        step: step.copy(alloc)?,
        kind: stored.reference.kind,
        height: stored.height,
        name: stored.reference.name,
        at: stored.reference.at,
    })
}
