// References of records, entered into what waits.
ghost use Rattle.std.specs.Prelude.{[], ◌∷◌, map, OnOk};
ghost use Rattle.ip_spec.specs.declared.record.LeafEntry.{LeafEntry};
ghost use Rattle.ip_spec.specs.declared.record.InodeChild.{InodeChild};
ghost use Rattle.ip_keep.specs.Entering.{refs_of, Gains, GainsSome};

use ip_base::Memory;
use ip_spec::record::{InodeChild, LeafEntry, Record};
use std::collections::BTreeSet;

/// Enters what a record refers to, as far as it lies below an offset. Want of memory leaves some of it entered.
pub(crate) fn enter(waiting: &mut BTreeSet<u64>, below: u64, rec: &Record) -> Result<(), Memory>
    ensures all { OnOk result (Gains waiting.old.keys waiting.new.keys (refs_of rec.now) below) }
    ensures some { GainsSome waiting.old.keys waiting.new.keys (refs_of rec.now) below }
{
    match rec {
        Record::Leaf(entries) => enter_entries(waiting, below, entries.as_slice()),
        Record::Inode { children, .. } => enter_children(waiting, below, children.as_slice()),
        Record::Commit(c) => enter_one(waiting, below, c.root_at),
        _ => Ok(()),
    }
}

fn enter_entries(
    waiting: &mut BTreeSet<u64>,
    below: u64,
    entries: &[LeafEntry],
) -> Result<(), Memory>
    ensures all { OnOk result (Gains waiting.old.keys waiting.new.keys (map (λ (e : LeafEntry). e.at) entries.now) below) }
    ensures some { GainsSome waiting.old.keys waiting.new.keys (map (λ (e : LeafEntry). e.at) entries.now) below }
{
    for entry in entries {
        enter_one(waiting, below, entry.at)?;
    }
    Ok(())
}

fn enter_children(
    waiting: &mut BTreeSet<u64>,
    below: u64,
    children: &[InodeChild],
) -> Result<(), Memory>
    ensures all { OnOk result (Gains waiting.old.keys waiting.new.keys (map (λ (c : InodeChild). c.at) children.now) below) }
    ensures some { GainsSome waiting.old.keys waiting.new.keys (map (λ (c : InodeChild). c.at) children.now) below }
{
    for child in children {
        enter_one(waiting, below, child.at)?;
    }
    Ok(())
}

fn enter_one(waiting: &mut BTreeSet<u64>, below: u64, at: u64) -> Result<(), Memory>
    ensures all { OnOk result (Gains waiting.old.keys waiting.new.keys (at ∷ []) below) }
    ensures some { GainsSome waiting.old.keys waiting.new.keys (at ∷ []) below }
{
    if at >= below {
        return Ok(());
    }
    match waiting.insert(at) {
        Ok(_) => Ok(()),
        Err(_) => Err(Memory),
    }
}
