// Putting all entries of a part on one side.
ghost use Rattle.std.specs.Prelude.{◌≡◌, ◌≤◌, ℕ, List, Option, Some, None, cond, false, length, option_map, IsTrue, IfErr, IsErrOf, OnOk, MatchResult};
ghost use Rattle.std.specs.FinMap.Entries.{find};
ghost use Rattle.ip_ground.specs.Counts.{Counts};
ghost use Rattle.ip_shape.specs.Directory.{entries_in};
ghost use Rattle.ip_shape.specs.Shape.{has};
ghost use Rattle.ip_shape.specs.declared.part.Part.{out-Part};
ghost use Rattle.ip_space.specs.declared.fault.FetchFault.TheVariants as FetchFault;
ghost use Rattle.ip_spec.specs.Path.{Step as TheStep, bytes_cmp, same_bytes};
ghost use Rattle.ip_spec.specs.Shape.{Entries, deepest};
ghost use Rattle.ip_spec.specs.StoredParts.{entry_named};
ghost use Rattle.ip_spec.specs.View.{leads};
ghost use Rattle.ip_spec.specs.declared.record.Record.{Record};
ghost use Rattle.ip_tree.specs.Faults.{counted_tree};
ghost use Rattle.ip_tree.specs.Reads.{IsOver, IsFree, Looks, IsCause, record_of};
ghost use Rattle.ip_tree.specs.declared.node.Stored.{Stored};
ghost use Rattle.ip_tree.specs.declared.tree.TreeFault.TheVariants as TreeFault;
ghost use Rattle.ip_differ.specs.Pieces.{IsRead, IsUnreadPart, OpenedIs, has_children, is_inode_content, is_inode_layer, read_entry, stored_entry};
ghost use Rattle.ip_differ.specs.Sides.{Puts};
ghost use Rattle.ip_differ.specs.declared.pairs.Entry.{Entry};
ghost use Rattle.ip_differ.specs.declared.pairs.Entry.TheVariants as TheEntry;

use crate::pairs::{Entry, Pairs, Side, put_entry};
use crate::piece::{Piece, child_of, fetch_piece, is_inode};
use ip_base::{Memory, Step};
use ip_ground::Ground;
use ip_shape::dir::find;
use ip_shape::part::Part;
use ip_shape::places::DEEPEST;
use ip_space::Space;
use ip_spec::record::LeafEntries;
use ip_tree::below::stored;
use ip_tree::fetch::Content;
use ip_tree::{Directory, Stored, TreeFault};
use std::alloc::Global;

/// Puts the entries of a part at a depth, and of all below it. What its record holds is given, if that was not read.
pub fn put_all<G: Ground>(
    alloc: Global,
    outside: &mut G,
    space: &mut Space,
    piece: &Piece<'_>,
    content: Option<Content>,
    depth: u8,
    side: Side,
    found: &mut Pairs,
) -> Result<(), TreeFault>
    requires { depth ≤ deepest }
    ensures put { IsTrue G.tells → (records : ℕ → Option Record) (a : TheStep → Option Entry) (es : Entries) (is : List ℕ) → IsOver (G.told outside.old) space.old records
        → length is ≡ depth → OpenedIs records a es is piece.now content
        → MatchResult result (λ _. Puts side (λ s. cond (leads 0 is s) (a s) None) found.old.entries found.new.entries) IsFree }
    ensures looks { Looks G.tells (G.told outside.old) (G.told outside.new) space.old space.new }
    ensures counts { Counts counted_tree result (G.counts_of outside.old) (G.counts_of outside.new) }
    ensures causes { IfErr result (IsCause G.tells (G.told outside.old) space.old) }
{
    if !is_inode(piece, &content) {
        return Ok(put_leaf(alloc, piece, content, side, found)?);
    }
    if depth >= DEEPEST {
        return Ok(());
    }
    let held = &content;
    for index in 0..32u8 {
        let below = child_of(piece, held, index);
        let inner = fetch_piece(outside, space, &below)?;
        put_all(alloc, outside, space, &below, inner, depth + 1, side, found)?;
    }
    Ok(())
}

// The entries of a leaf.
fn put_leaf(
    alloc: Global,
    piece: &Piece<'_>,
    content: Option<Content>,
    side: Side,
    found: &mut Pairs,
) -> Result<(), Memory>
    ensures { (records : ℕ → Option Record) (a : TheStep → Option Entry) (es : Entries) (is : List ℕ) → length is ≤ deepest → has_children piece.now content ≡ false
        → OpenedIs records a es is piece.now content → OnOk result (Puts side (λ s. cond (leads 0 is s) (a s) None) found.old.entries found.new.entries) }
{
    match content {
        Some(content) => put_record(content, side, found),
        None => put_piece(alloc, piece, side, found),
    }
}

// Of a record.
fn put_record(content: Content, side: Side, found: &mut Pairs) -> Result<(), Memory>
    ensures { (records : ℕ → Option Record) (a : TheStep → Option Entry) (es : Entries) (is : List ℕ) (x : Stored) → is_inode_content content ≡ false → IsUnreadPart records a es is x
        → records x.reference.at ≡ Some (record_of content) → OnOk result (Puts side (λ s. cond (leads 0 is s) (a s) None) found.old.entries found.new.entries) }
{
    match content {
        Content::Leaf(entries) => put_entries(entries, side, found),
        Content::Inode { children, .. } => {
            drop(children);
            Ok(())
        }
    }
}

// Of a leaf that was read.
fn put_piece(alloc: Global, piece: &Piece<'_>, side: Side, found: &mut Pairs) -> Result<(), Memory>
    ensures { (records : ℕ → Option Record) (a : TheStep → Option Entry) (es : Entries) (is : List ℕ) → length is ≤ deepest → has_children piece.now None ≡ false
        → OpenedIs records a es is piece.now None → OnOk result (Puts side (λ s. cond (leads 0 is s) (a s) None) found.old.entries found.new.entries) }
{
    match piece {
        Piece::Nothing => Ok(()),
        Piece::Unread(_) => Ok(()),
        Piece::Read(dir, part) => put_part(alloc, dir, part, side, found),
    }
}

// Of a part that was read.
fn put_part(
    alloc: Global,
    dir: &Directory,
    part: &Part<Stored>,
    side: Side,
    found: &mut Pairs,
) -> Result<(), Memory>
    ensures { (records : ℕ → Option Record) (a : TheStep → Option Entry) (es : Entries) (is : List ℕ) → length is ≤ deepest → is_inode_layer (out-Part Stored part.now) ≡ false
        → IsRead records a es is dir.now part.now → OnOk result (Puts side (λ s. cond (leads 0 is s) (a s) None) found.old.entries found.new.entries) }
{
    match part {
        Part::Leaf { steps, .. } => put_steps(alloc, dir, steps, side, found),
        Part::Inode { .. } => Ok(()),
        Part::Unread { .. } => Ok(()),
    }
}

// The entries of the record of a leaf.
fn put_entries(entries: LeafEntries, side: Side, found: &mut Pairs) -> Result<(), Memory>
    ensures { OnOk result (Puts side (λ s. option_map stored_entry (entry_named s entries)) found.old.entries found.new.entries) }
{
    // The last one first: of two with one step, which others may have written, the first counts, as where a step is looked up.
    let mut left = entries.into_vec();
    while let Some(entry) = left.pop() {
        let below = Entry::Stored(stored(&entry));
        put_entry(found, entry.step, side, below)?;
    }
    Ok(())
}

// The entries of a leaf that was read, by its steps.
fn put_steps(
    alloc: Global,
    dir: &Directory,
    steps: &[Step],
    side: Side,
    found: &mut Pairs,
) -> Result<(), Memory>
    ensures { OnOk result (Puts side (λ s. cond (has s steps.now) (option_map read_entry (find bytes_cmp s (entries_in dir.now))) None) found.old.entries found.new.entries) }
{
    for step in steps {
        put_step(alloc, dir, step, side, found)?;
    }
    Ok(())
}

// What stands at a step, if its part was read.
fn put_step(
    alloc: Global,
    dir: &Directory,
    step: &Step,
    side: Side,
    found: &mut Pairs,
) -> Result<(), Memory>
    ensures { OnOk result (Puts side (λ s. cond (same_bytes s step.now) (option_map read_entry (find bytes_cmp s (entries_in dir.now))) None) found.old.entries found.new.entries) }
{
    match find(dir, step) {
        Some(_) => put_read(alloc, step, side, found),
        None => Ok(()),
    }
}

fn put_read(alloc: Global, step: &Step, side: Side, found: &mut Pairs) -> Result<(), Memory>
    ensures { OnOk result (Puts side (λ s. cond (same_bytes s step.now) (Some TheEntry.Read) None) found.old.entries found.new.entries) }
{
    let copy = step.copy(alloc)?;
    put_entry(found, copy, side, Entry::Read)
}
