// What is remembered of a leaf and of an inode.
ghost use Rattle.std.specs.Prelude.{◌≡◌, ◌≤◌, ◌<◌, IfSome, None, map, take};
ghost use Rattle.ip_base.specs.declared.limit.TheConstants.{ENTRIES_MAX};
ghost use Rattle.ip_spec.specs.declared.record.InodeChild.{InodeChild};
ghost use Rattle.ip_spec.specs.declared.record.LeafEntry.{LeafEntry};
ghost use Rattle.ip_audit.specs.Memory.{common_of, common_with};
ghost use Rattle.ip_audit.specs.View.{counts_of, places_in};

use crate::kept::{DIRECTORY_ENTRIES, agreed_with};
use ip_base::{Blob, Step};
use ip_shape::places::{DEEPEST, Places};
use ip_spec::record::{InodeChild, LeafEntry};
use std::alloc::Global;

/// How many entries the children of an inode have by their counts, or None where that is more than the format allows.
pub fn counted(children: &[InodeChild]) -> Option<u64>
    ensures some { IfSome result (λ n. (n ≡ counts_of children.now) × (n ≤ ENTRIES_MAX)) }
    ensures none { result ≡ None → ENTRIES_MAX < counts_of children.now }
{
    let mut total: u64 = 0;
    for child in children {
        total += child.count as u64;
        if total > DIRECTORY_ENTRIES {
            return None;
        }
    }
    Some(total)
}

/// The places of a leaf's first step, and in how many of the first ones all its steps agree. It takes no memory.
pub fn leaf_places(alloc: Global, entries: &[LeafEntry]) -> (Places, u8)
    ensures common { take result.1 (places_in result.0) ≡ common_of (map (λ (e : LeafEntry). e.step) entries.now) }
    ensures most { result.1 ≤ 51 }
{
    if entries.is_empty() {
        return (Places::of(&Step::of(Blob::empty(alloc))), 0);
    }
    let first = Places::of(&entries[0].step);
    let agreed = all_agreed(&first, &entries[1..]);
    (first, agreed)
}

// In how many of its first places a step agrees with all of these.
fn all_agreed(first: &Places, entries: &[LeafEntry]) -> u8
    ensures common { take result (places_in first.now) ≡ common_with (places_in first.now) (map (λ (e : LeafEntry). e.step) entries.now) }
    ensures most { result ≤ 51 }
{
    let mut agreed = DEEPEST;
    for entry in entries {
        if agreed == 0 {
            return 0;
        }
        agreed = agreed_with(first, &Places::of(&entry.step), agreed);
    }
    agreed
}
