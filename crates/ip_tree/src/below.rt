// Walks below records of the store: nothing is loaded.
ghost use Rattle.std.specs.Prelude.{◌≡◌, ◌+◌, ◌<◌, ℕ, Option, option_map, map, Contains, IsTrue, IfOk, IfErr, IfSome, IsErrOf, OnOk, MatchResult};
ghost use Rattle.std.specs.FinMap.Entries.{find};
ghost use Rattle.ip_ground.specs.Counts.{Counts};
ghost use Rattle.ip_space.specs.declared.fault.FetchFault.TheVariants as FetchFault;
ghost use Rattle.ip_tree.specs.Faults.{counted_tree};
ghost use Rattle.ip_space.specs.SpaceView.{IsReadable, records_of};
ghost use Rattle.ip_spec.specs.Path.{Step as TheStep, bytes_cmp};
ghost use Rattle.ip_spec.specs.Record.{Fits, are_rising};
ghost use Rattle.ip_spec.specs.Shape.{Entries, deepest, place};
ghost use Rattle.ip_spec.specs.StoredParts.{child_with, entry_named};
ghost use Rattle.ip_spec.specs.declared.record.InodeChild.{InodeChild};
ghost use Rattle.ip_spec.specs.declared.record.LeafEntry.{LeafEntry};
ghost use Rattle.ip_spec.specs.declared.record.Record.{Record};
ghost use Rattle.ip_tree.specs.Leading.{HasDepth, LeadsBy, LeadsThrough, LeadsTo};
ghost use Rattle.ip_tree.specs.Listing.{Adds, entry_kind, kind_or};
ghost use Rattle.ip_tree.specs.Reads.{IsOver, IsPartRef, IsFetchFault, IsFree, FindsEntry, Looks, IsCause, as_content, entry_below, record_of, ref_of_child, stored_of_child, stored_of_entry};
ghost use Rattle.ip_tree.specs.declared.tree.TreeFault.TheVariants as TreeFault;

use crate::fetch::{Content, LentContent, bring_part, fetch_part, lent_part};
use crate::node::Stored;
use crate::tree::TreeFault;
use ip_base::{Memory, Step};
use ip_ground::Ground;
use ip_shape::places::place;
use ip_space::Space;
use ip_spec::kind;
use ip_spec::record::{InodeChild, LeafEntries, LeafEntry, Ref};
use std::collections::BTreeMap;

/// The entry at a step of a directory, below the record of a part with so many depths below it. It brings a record for each inode on the way, and the leaf, and copies none of those that
/// are kept.
pub fn entry_below<G: Ground>(
    outside: &mut G,
    space: &mut Space,
    reference: &Ref,
    levels: u8,
    step: &Step,
) -> Result<Option<Stored>, TreeFault>
    ensures entry { IsTrue G.tells → (records : ℕ → Option Record) (depth : ℕ) (es : Entries) → IsOver (G.told outside.old) space.old records → depth + levels ≡ deepest
        → IsPartRef records depth reference.now es → MatchResult result (FindsEntry records es step.now) IsFree }
    // over any records
    ensures any { IsTrue G.tells → IsReadable (G.told outside.old) space.old →
        IfOk result (λ found. found ≡ entry_below (records_of (G.told outside.old) space.old) levels reference.now.at step.now) }
    ensures looks { Looks G.tells (G.told outside.old) (G.told outside.new) space.old space.new }
    ensures counts { Counts counted_tree result (G.counts_of outside.old) (G.counts_of outside.new) }
    ensures causes { IfErr result (IsCause G.tells (G.told outside.old) space.old) }
    ensures fault { IfErr result IsFetchFault }
{
    let next = match next_below(outside, space, reference, levels, step) {
        Ok(next) => next,
        Err(fault) => return Err(fault),
    };
    match next {
        Next::Found(found) => Ok(found),
        Next::Child(child) => entry_below(outside, space, &child, levels - 1, step),
    }
}

/// Where one record leads for a step.
#[derive(Clone, Copy)]
enum Next {
    /// The entry at the step, or there is none.
    Found(Option<Stored>),
    /// To the record of a child, and there is a depth below.
    Child(Ref),
}

// Where the record of a part leads for a step. It is let go before the next one is brought.
fn next_below<G: Ground>(
    outside: &mut G,
    space: &mut Space,
    reference: &Ref,
    levels: u8,
    step: &Step,
) -> Result<Next, TreeFault>
    ensures next { IsTrue G.tells → (records : ℕ → Option Record) (depth : ℕ) (es : Entries) → IsOver (G.told outside.old) space.old records → depth + levels ≡ deepest
        → IsPartRef records depth reference.now es → MatchResult result (LeadsTo records depth es step.now) IsFree }
    ensures any { IsTrue G.tells → IsReadable (G.told outside.old) space.old →
        IfOk result (λ next. LeadsThrough (records_of (G.told outside.old) space.old) levels reference.now.at step.now next) }
    ensures low { IfOk result (HasDepth levels) }
    ensures looks { Looks G.tells (G.told outside.old) (G.told outside.new) space.old space.new }
    ensures counts { Counts counted_tree result (G.counts_of outside.old) (G.counts_of outside.new) }
    ensures causes { IfErr result (IsCause G.tells (G.told outside.old) space.old) }
    ensures fault { IfErr result IsFetchFault }
{
    let found = match bring_part(outside, space, reference) {
        Ok(found) => found,
        Err(fault) => return Err(fault),
    };
    Ok(next_in(lent_part(space, reference.at, &found), levels, step))
}

// Where the record of a part with so many depths below it leads for a step.
fn next_in(content: LentContent<'_>, levels: u8, step: &Step) -> Next
    requires { (version : ℕ) × Fits version (record_of (as_content content)) }
    ensures { LeadsBy levels step.now (as_content content.entry) result }
{
    match content {
        LentContent::Leaf(entries) => Next::Found(entry_in(entries, step)),
        LentContent::Inode { depth, children } => {
            if levels == 0 {
                return Next::Found(None);
            }
            match child_in(children, depth, step) {
                Some(child) => Next::Child(child),
                None => Next::Found(None),
            }
        }
    }
}

/// What the entry of a leaf with this step refers to.
pub fn entry_in(entries: &[LeafEntry], step: &Step) -> Option<Stored>
    requires { IsTrue (are_rising (map (λ e. e.step) entries.now)) }
    ensures { result ≡ option_map stored_of_entry (entry_named step.now entries.now) }
{
    match entries.binary_search_by(|entry| entry.step.cmp(step)) {
        Ok(place) => Some(stored(&entries[place])),
        Err(_) => None,
    }
}

/// What an entry of a leaf refers to.
pub fn stored(entry: &LeafEntry) -> Stored
    ensures { result ≡ stored_of_entry entry.now }
{
    Stored {
        reference: Ref {
            at: entry.at,
            name: entry.name,
            kind: entry.kind,
        },
        height: entry.height,
    }
}

/// The record of the child of an inode of a depth to which a step goes.
pub fn child_in(children: &[InodeChild], depth: u8, step: &Step) -> Option<Ref>
    requires { depth < deepest }
    ensures at { option_map (λ r. r.at) result ≡ child_with (place step.now depth) children.now }
    ensures child { IfSome result (λ r. (c : InodeChild) × Contains children.now c × (r ≡ ref_of_child c)) }
{
    let index = place(step, depth);
    for child in children {
        if child.index == index {
            return Some(reference_of(child));
        }
    }
    None
}

/// Where the record of a child of an inode lies.
pub fn reference_of(child: &InodeChild) -> Ref
    ensures { result ≡ ref_of_child child.now }
{
    Ref {
        at: child.at,
        name: child.name,
        kind: kind::DIRECTORY,
    }
}

/// The part of a directory that a child of an inode refers to.
pub fn stored_child(child: &InodeChild) -> Stored
    ensures { result ≡ stored_of_child child.now }
{
    Stored {
        reference: reference_of(child),
        height: child.height,
    }
}

/// Puts the steps below the record of a part with so many depths below it, and whether a directory stands at each. It holds one path of records,
/// as copies: the steps of a leaf go into the map.
pub fn gather<G: Ground>(
    outside: &mut G,
    space: &mut Space,
    reference: &Ref,
    levels: u8,
    found: &mut BTreeMap<Step, bool>,
) -> Result<(), TreeFault>
    ensures gathered { IsTrue G.tells → (records : ℕ → Option Record) (depth : ℕ) (es : Entries) → IsOver (G.told outside.old) space.old records → depth + levels ≡ deepest
        → IsPartRef records depth reference.now es → MatchResult result (λ _. Adds es found.old.entries found.new.entries) IsFree }
    ensures looks { Looks G.tells (G.told outside.old) (G.told outside.new) space.old space.new }
    ensures counts { Counts counted_tree result (G.counts_of outside.old) (G.counts_of outside.new) }
    ensures causes { IfErr result (IsCause G.tells (G.told outside.old) space.old) }
{
    match fetch_part(outside, space, reference)? {
        Content::Leaf(entries) => Ok(put_kinds(entries, found)?),
        Content::Inode { children, .. } => {
            if levels == 0 {
                return Ok(());
            }
            for child in children.as_slice() {
                gather(outside, space, &reference_of(child), levels - 1, found)?;
            }
            Ok(())
        }
    }
}

/// Puts the entries of a leaf, in place of those at their steps.
fn put_kinds(entries: LeafEntries, found: &mut BTreeMap<Step, bool>) -> Result<(), Memory>
    ensures { OnOk result ((s : TheStep) → find bytes_cmp s found.new.entries ≡ kind_or (entry_kind s entries) (find bytes_cmp s found.old.entries)) }
{
    // The last one first: of two with one step, which others may have written, the first counts, as where a step is looked up.
    let mut left = entries.into_vec();
    while let Some(entry) = left.pop() {
        let is_directory = entry.kind == kind::DIRECTORY;
        found.insert(entry.step, is_directory)?;
    }
    Ok(())
}
