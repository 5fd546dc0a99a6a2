// The records of directories that no record is known to spell.
ghost use Rattle.std.specs.Prelude.{◌≡◌, ◌≢◌, ◌+◌, ◌-◌, ◌++◌, ◌≤◌, ◌<◌, ℕ, List, length, Option, Some, None, IfErr, IfOk, OnOk, MatchResult, IsOkAnd, IsSomeAnd};
ghost use Rattle.ip_base.specs.declared.limit.TheConstants.{OFFSET_MAX};
ghost use Rattle.ip_save.specs.Laid.{BeginsWith, IsHighFault, IsLaid, IsLaidRoot, IsLayFault, IsReady, IsRootFault, IsRow, IsRowFault};
ghost use Rattle.ip_save.specs.Laid.{breadth, breadth_among, count_of, fresh, fresh_root, lay, lay_at, lay_children, lay_part, lay_steps, new_inode, new_leaf, nodes_in, record_of, ref_at, tallies, tallies_root};
ghost use Rattle.ip_save.specs.declared.batch.SaveFault.TheVariants as SaveFault;
ghost use Rattle.ip_shape.specs.Heights.{inode_height, leaf_height};
ghost use Rattle.ip_spec.specs.Record.{Fits, spelling};
ghost use Rattle.ip_spec.specs.Shape.{deepest};
ghost use Rattle.ip_spec.specs.declared.record.Record.TheVariants as Record;
ghost use Rattle.ip_tree.specs.Shown.{shown, shown_directory, shown_root};
ghost use Rattle.ip_tree.specs.declared.node.Stored.{Stored};

use crate::SaveFault;
use crate::inode::add_child;
use crate::leaf::leaf_entry;
use crate::measure::record_of;
use crate::records::{put_inode, put_leaf};
use crate::starts::{Start, start_at, starts_of};
use crate::tally::{Tally, inside};
use ip_base::limit::ENTRIES_MAX;
use ip_base::{Items, Limit, Step};
use ip_shape::dir::find;
use ip_shape::height::{inode_height, leaf_height};
use ip_shape::part::Part;
use ip_shape::places::DEEPEST;
use ip_spec::kind::DIRECTORY;
use ip_spec::record::{InodeChildren, LeafEntries, Ref};
use ip_tree::{Directory, Node, Root, Stored};
use std::alloc::Global;

/// Puts the records of the directories of a tree behind what is there, whose first byte lies at the offset `end`, and answers the root. Of each of
/// the tree's new contents, ascending by path, `refs` has what refers to it, and `ahead` are its tallies.
pub fn put_root(
    alloc: Global,
    root: &Root,
    refs: &[Stored],
    ahead: &[Tally],
    end: u64,
    out: &mut Vec<u8>,
) -> Result<Ref, SaveFault>
    requires end { end ≤ OFFSET_MAX }
    requires tallied { ahead.now ≡ tallies_root (shown_root root.now) }
    requires all { length refs.now ≡ length (fresh_root (shown_root root.now)) }
    ensures laid { MatchResult result (IsLaidRoot end refs.now (shown_root root.now) out.old.items out.new.items) (IsRootFault end refs.now (shown_root root.now) out.old.items) }
{
    match root {
        Root::Stored(reference) => Ok(*reference),
        Root::Loaded(dir) => match put_directory(alloc, dir, refs, ahead, end, out) {
            Ok(stored) => Ok(stored.reference),
            Err(fault) => Err(fault),
        },
    }
}

// Puts the records of what stands at a node, where there are such, and answers what refers to it. The first of `refs` refer to its new contents, the
// first tallies are its own, and the first byte lies at `end`.
#[cycle(lay)]
fn put_node(
    alloc: Global,
    node: &Node,
    refs: &[Stored],
    ahead: &[Tally],
    end: u64,
    out: &mut Vec<u8>,
) -> Result<Stored, SaveFault>
    ensures laid { end ≤ OFFSET_MAX → length (fresh (shown node.now)) ≤ length refs.now → BeginsWith (tallies (shown node.now)) ahead.now
        → MatchResult result (IsLaid end (lay (shown node.now) refs.now) out.old.items out.new.items) (IsLayFault (breadth (shown node.now)) end (lay (shown node.now) refs.now) out.old.items) }
{
    match node {
        Node::Stored(stored) => Ok(*stored),
        Node::Contents(_) => first_of(refs),
        Node::Directory(dir) => put_directory(alloc, dir, refs, ahead, end, out),
    }
}

// What refers to new contents: there is one for each.
fn first_of(refs: &[Stored]) -> Result<Stored, SaveFault>
    ensures first { IfOk result (λ stored. stored ≡ ref_at refs.now) }
    ensures cause { IfErr result (λ fault. fault ≡ SaveFault.Memory) }
{
    match refs.first() {
        Some(stored) => Ok(*stored),
        None => Err(SaveFault::Memory),
    }
}

// Puts the records of a directory, where it is not known as a whole.
#[cycle(lay)]
fn put_directory(
    alloc: Global,
    dir: &Directory,
    refs: &[Stored],
    ahead: &[Tally],
    end: u64,
    out: &mut Vec<u8>,
) -> Result<Stored, SaveFault>
    ensures laid { end ≤ OFFSET_MAX → length (fresh (shown_directory dir.now)) ≤ length refs.now → BeginsWith (tallies (shown_directory dir.now)) ahead.now
        → MatchResult result (IsLaid end (lay (shown_directory dir.now) refs.now) out.old.items out.new.items) (IsLayFault (breadth (shown_directory dir.now)) end (lay (shown_directory dir.now) refs.now) out.old.items) }
{
    let root = dir.root();
    if let Some(stored) = record_of(root) {
        return Ok(stored);
    }
    if root.count() > ENTRIES_MAX {
        return Err(SaveFault::Limit(Limit::Entries));
    }
    let starts = starts_of(alloc, dir, refs, inside(ahead))?;
    put_new_part(alloc, dir, &starts, root, 0, end, out)
}

// Puts the records of a part of a directory at a depth, all under it first, where no record is known to spell it, and answers what refers to it.
#[cycle(lay)]
fn put_part(
    alloc: Global,
    dir: &Directory,
    starts: &[Start<'_>],
    part: &Part<Stored>,
    depth: u8,
    end: u64,
    out: &mut Vec<u8>,
) -> Result<Stored, SaveFault>
    ensures laid { (refs : List Stored) → IsReady dir.now refs starts.now end → depth ≤ deepest
        → MatchResult result (IsLaid end (lay_part (lay_at (nodes_in dir.now) refs) (deepest - depth) depth part.now) out.old.items out.new.items)
        (IsLayFault (breadth_among (nodes_in dir.now)) end (lay_part (lay_at (nodes_in dir.now) refs) (deepest - depth) depth part.now) out.old.items) }
{
    match record_of(part) {
        Some(stored) => Ok(stored),
        None => put_new_part(alloc, dir, starts, part, depth, end, out),
    }
}

// The same of a part that no record is known to spell.
#[cycle(lay)]
fn put_new_part(
    alloc: Global,
    dir: &Directory,
    starts: &[Start<'_>],
    part: &Part<Stored>,
    depth: u8,
    end: u64,
    out: &mut Vec<u8>,
) -> Result<Stored, SaveFault>
    ensures laid { (refs : List Stored) → IsReady dir.now refs starts.now end → depth ≤ deepest → record_of part.now ≡ None
        → MatchResult result (IsLaid end (lay_part (lay_at (nodes_in dir.now) refs) (deepest - depth) depth part.now) out.old.items out.new.items)
        (IsLayFault (breadth_among (nodes_in dir.now)) end (lay_part (lay_at (nodes_in dir.now) refs) (deepest - depth) depth part.now) out.old.items) }
{
    match part {
        Part::Leaf { steps, .. } => {
            let leaf = put_entries(alloc, dir, starts, steps, end, out)?;
            put_new_leaf(leaf, end, out)
        }
        Part::Inode { children, .. } => {
            // So deep no directory has an inode.
            if depth >= DEEPEST {
                return Err(SaveFault::Memory);
            }
            let row = put_children(alloc, dir, starts, children, depth, end, out)?;
            put_new_inode(depth, row, end, out)
        }
        Part::Unread { record, .. } => Ok(*record),
    }
}

// Puts the records of what stands at the steps of a leaf, and answers its entries.
#[cycle(lay)]
fn put_entries(
    alloc: Global,
    dir: &Directory,
    starts: &[Start<'_>],
    steps: &[Step],
    end: u64,
    out: &mut Vec<u8>,
) -> Result<LeafEntries, SaveFault>
    ensures row { (refs : List Stored) → IsReady dir.now refs starts.now end
        → MatchResult result (IsRow end (lay_steps (lay_at (nodes_in dir.now) refs) steps.now) out.old.items out.new.items)
        (IsRowFault leaf_height (breadth_among (nodes_in dir.now)) end (lay_steps (lay_at (nodes_in dir.now) refs) steps.now) out.old.items) }
{
    let mut leaf = Items::of(Vec::with_capacity(alloc, steps.len())?);
    for step in steps {
        let stored = match put_at(alloc, dir, starts, step, end, out) {
            Ok(stored) => stored,
            Err(fault) => return Err(fault),
        };
        leaf.push(leaf_entry(alloc, step, &stored)?)?;
    }
    Ok(leaf)
}

// Puts the records of what stands at a step of a directory.
#[cycle(lay)]
fn put_at(
    alloc: Global,
    dir: &Directory,
    starts: &[Start<'_>],
    step: &Step,
    end: u64,
    out: &mut Vec<u8>,
) -> Result<Stored, SaveFault>
    ensures laid { (refs : List Stored) → IsReady dir.now refs starts.now end
        → MatchResult result (IsLaid end (lay_at (nodes_in dir.now) refs step.now) out.old.items out.new.items)
        (IsLayFault (breadth_among (nodes_in dir.now)) end (lay_at (nodes_in dir.now) refs step.now) out.old.items) }
{
    // Each step of a part that was read has its entry, and each entry its start.
    let Some(node) = find(dir, step) else {
        return Err(SaveFault::Memory);
    };
    let Some(start) = start_at(starts, step) else {
        return Err(SaveFault::Memory);
    };
    put_node(alloc, node, start.refs, start.ahead, end, out)
}

// Puts the records of the children of an inode at a depth, in the order of their indexes, and answers what it tells of them.
#[cycle(lay)]
fn put_children(
    alloc: Global,
    dir: &Directory,
    starts: &[Start<'_>],
    children: &[Part<Stored>],
    depth: u8,
    end: u64,
    out: &mut Vec<u8>,
) -> Result<InodeChildren, SaveFault>
    ensures row { (refs : List Stored) → IsReady dir.now refs starts.now end → depth < deepest
        → MatchResult result (IsRow end (lay_children (lay_at (nodes_in dir.now) refs) (lay_part (lay_at (nodes_in dir.now) refs) (deepest - (depth + 1)) (depth + 1)) 0 children.now) out.old.items out.new.items)
        (IsRowFault inode_height (breadth_among (nodes_in dir.now)) end (lay_children (lay_at (nodes_in dir.now) refs) (lay_part (lay_at (nodes_in dir.now) refs) (deepest - (depth + 1)) (depth + 1)) 0 children.now) out.old.items) }
{
    let mut row = Items::of(Vec::with_capacity(alloc, children.len())?);
    for index in 0..children.len() {
        let child = &children[index];
        let stored = match put_some(alloc, dir, starts, child, depth, end, out) {
            Ok(stored) => stored,
            Err(fault) => return Err(fault),
        };
        add_child(&mut row, index, child.count(), &stored)?;
    }
    Ok(row)
}

// Puts the records of a child of an inode at a depth. One without entries is absent, and has no record.
#[cycle(lay)]
fn put_some(
    alloc: Global,
    dir: &Directory,
    starts: &[Start<'_>],
    child: &Part<Stored>,
    depth: u8,
    end: u64,
    out: &mut Vec<u8>,
) -> Result<Option<Stored>, SaveFault>
    ensures absent { count_of child.now ≡ 0 → IsOkAnd result (λ stored. stored ≡ None) × (out.new.items ≡ out.old.items) }
    ensures laid { (refs : List Stored) → IsReady dir.now refs starts.now end → depth < deepest → count_of child.now ≢ 0
        → MatchResult result (λ stored. IsSomeAnd stored (IsLaid end (lay_part (lay_at (nodes_in dir.now) refs) (deepest - (depth + 1)) (depth + 1) child.now) out.old.items out.new.items))
        (IsLayFault (breadth_among (nodes_in dir.now)) end (lay_part (lay_at (nodes_in dir.now) refs) (deepest - (depth + 1)) (depth + 1) child.now) out.old.items) }
{
    if child.count() == 0 {
        return Ok(None);
    }
    match put_part(alloc, dir, starts, child, depth.saturating_add(1), end, out) {
        Ok(stored) => Ok(Some(stored)),
        Err(fault) => Err(fault),
    }
}

// Puts the record of a leaf with these entries, and answers what refers to it.
fn put_new_leaf(leaf: LeafEntries, end: u64, out: &mut Vec<u8>) -> Result<Stored, SaveFault>
    ensures bytes { OnOk result (out.new.items ≡ out.old.items ++ spelling (Record.Leaf leaf)) }
    ensures stands { end ≤ OFFSET_MAX → IfOk result (λ stored. stored ≡ new_leaf leaf (end + length out.old.items)) }
    ensures fits { OnOk result (Fits 1 (Record.Leaf leaf)) }
    ensures cause { IfErr result (IsHighFault (leaf_height leaf)) }
{
    let height = leaf_height(leaf.as_slice());
    let at = end.saturating_add(out.len() as u64);
    match put_leaf(leaf, out) {
        Ok(name) => Ok(Stored {
            reference: Ref {
                at,
                name,
                kind: DIRECTORY,
            },
            height,
        }),
        Err(fault) => Err(fault),
    }
}

// Puts the record of an inode at a depth with these children, and answers what refers to it.
fn put_new_inode(
    depth: u8,
    row: InodeChildren,
    end: u64,
    out: &mut Vec<u8>,
) -> Result<Stored, SaveFault>
    ensures bytes { OnOk result (out.new.items ≡ out.old.items ++ spelling (Record.Inode depth row)) }
    ensures stands { end ≤ OFFSET_MAX → IfOk result (λ stored. stored ≡ new_inode depth row (end + length out.old.items)) }
    ensures fits { OnOk result (Fits 1 (Record.Inode depth row)) }
    ensures cause { IfErr result (IsHighFault (inode_height row)) }
{
    let height = inode_height(row.as_slice());
    let at = end.saturating_add(out.len() as u64);
    match put_inode(depth, row, out) {
        Ok(name) => Ok(Stored {
            reference: Ref {
                at,
                name,
                kind: DIRECTORY,
            },
            height,
        }),
        Err(fault) => Err(fault),
    }
}
