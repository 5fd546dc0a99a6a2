// Listing what stands at a path.
ghost use Rattle.std.specs.Prelude.{◌≡◌, ◌≤◌, ◌+◌, ◌-◌, ℕ, [], List, T, Option, Some, map, filter, length, is_some, IsTrue, IfErr, IfOk, IsErrOf, MatchResult};
ghost use Rattle.std.specs.FinMap.Entries.{is_sorted};
ghost use Rattle.ip_ground.specs.Counts.{Counts};
ghost use Rattle.ip_spec.specs.Path.{bytes_cmp};
ghost use Rattle.ip_space.specs.declared.fault.FetchFault.TheVariants as FetchFault;
ghost use Rattle.ip_tree.specs.Faults.{counted_tree};
ghost use Rattle.ip_shape.specs.Loaded.{unread_in, way};
ghost use Rattle.ip_shape.specs.Shape.{IsPart};
ghost use Rattle.ip_spec.specs.Shape.{Entries, deepest, part_from};
ghost use Rattle.ip_spec.specs.Tree.{Tree as Map, listed_at};
ghost use Rattle.ip_spec.specs.View.{View};
ghost use Rattle.ip_spec.specs.declared.record.Record.{Record};
ghost use Rattle.ip_tree.specs.Edits.{IsDirectory};
ghost use Rattle.ip_tree.specs.Listing.{Adds, is_directory, item_of, kind_at};
ghost use Rattle.ip_tree.specs.Meaning.{SpellsPart, steps_of};
ghost use Rattle.ip_tree.specs.Reads.{IsOver, IsFree, Reaches, Looks, IsCause};
ghost use Rattle.ip_tree.specs.Shown.{entries_shown, shown, shown_directory};
ghost use Rattle.ip_tree.specs.TreeView.{IsView};
ghost use Rattle.ip_tree.specs.declared.node.Stored.{Stored};
ghost use Rattle.ip_tree.specs.declared.tree.TreeFault.TheVariants as TreeFault;

use crate::below::gather;
use crate::look::Place;
use crate::node::{Directory, Node, Stored};
use crate::tree::{Tree, TreeFault};
use ip_base::{Memory, Step};
use ip_ground::Ground;
use ip_shape::part::Part;
use ip_shape::places::DEEPEST;
use ip_space::Space;
use ip_spec::kind;
use ip_spec::record::Ref;
use ip_spec::tree::{Item, Listed, Listing};
use std::alloc::Global;
use std::collections::BTreeMap;

impl Tree {
    /// What is listed at a path: the entries of a directory in their order, that contents stand there, or that nothing does. No steps are
    /// the root. It fetches the records on the path that were not read, and each part that was not read of what stands there, and loads none.
    pub fn list<G: Ground>(
        &self,
        alloc: Global,
        outside: &mut G,
        space: &mut Space,
        path: &[Step],
    ) -> Result<Listed, TreeFault>
        ensures listed { IsTrue G.tells → (records : ℕ → Option Record) (v : View) → IsOver (G.told outside.old) space.old records → IsView records self.now v
            → MatchResult result (λ listed. listed ≡ listed_at v.map path.now) IsFree }
        ensures looks { Looks G.tells (G.told outside.old) (G.told outside.new) space.old space.new }
        ensures counts { Counts counted_tree result (G.counts_of outside.old) (G.counts_of outside.new) }
        ensures causes { IfErr result (IsCause G.tells (G.told outside.old) space.old) }
    {
        match self.at(outside, space, path) {
            Ok(None) => Ok(Listed::Absent),
            Ok(Some(Place::Contents(_))) => Ok(Listed::Contents),
            Ok(Some(Place::Stored(stored))) => {
                list_stored(alloc, outside, space, &stored.reference)
            }
            Ok(Some(Place::Directory(dir))) => list_directory(alloc, outside, space, dir),
            Err(fault) => Err(fault),
        }
    }
}

/// What is listed at a record. Contents are not fetched.
fn list_stored<G: Ground>(
    alloc: Global,
    outside: &mut G,
    space: &mut Space,
    reference: &Ref,
) -> Result<Listed, TreeFault>
    ensures listed { IsTrue G.tells → (records : ℕ → Option Record) (t : Map) → IsOver (G.told outside.old) space.old records → Reaches records reference.now t
        → MatchResult result (λ listed. listed ≡ listed_at t []) IsFree }
    ensures looks { Looks G.tells (G.told outside.old) (G.told outside.new) space.old space.new }
    ensures counts { Counts counted_tree result (G.counts_of outside.old) (G.counts_of outside.new) }
    ensures causes { IfErr result (IsCause G.tells (G.told outside.old) space.old) }
{
    if reference.kind == kind::CONTENTS {
        return Ok(Listed::Contents);
    }
    let mut found = BTreeMap::new(alloc);
    gather(outside, space, reference, DEEPEST, &mut found)?;
    Ok(Listed::Entries(items_of(alloc, found)?))
}

/// What is listed at a directory of which parts were read.
fn list_directory<G: Ground>(
    alloc: Global,
    outside: &mut G,
    space: &mut Space,
    dir: &Directory,
) -> Result<Listed, TreeFault>
    ensures listed { IsTrue G.tells → (records : ℕ → Option Record) (t : Map) → IsOver (G.told outside.old) space.old records → IsDirectory records (shown_directory dir.now) t
        → MatchResult result (λ listed. listed ≡ listed_at t []) IsFree }
    ensures looks { Looks G.tells (G.told outside.old) (G.told outside.new) space.old space.new }
    ensures counts { Counts counted_tree result (G.counts_of outside.old) (G.counts_of outside.new) }
    ensures causes { IfErr result (IsCause G.tells (G.told outside.old) space.old) }
{
    let mut found = kinds_read(alloc, dir)?;
    gather_unread(outside, space, dir.root(), 0, &mut found)?;
    Ok(Listed::Entries(items_of(alloc, found)?))
}

/// Whether a directory stands at a node.
fn holds_directory(node: &Node) -> bool
    ensures { result ≡ is_directory (shown node.now) }
{
    match node {
        Node::Stored(stored) => stored.reference.kind == kind::DIRECTORY,
        Node::Contents(_) => false,
        Node::Directory(_) => true,
    }
}

/// The steps that were read of a directory, and whether a directory stands at each.
fn kinds_read(alloc: Global, dir: &Directory) -> Result<BTreeMap<Step, bool>, Memory>
    ensures { IfOk result (λ kinds. kinds.entries ≡ map kind_at (entries_shown dir.now)) }
{
    let mut kinds = BTreeMap::new(alloc);
    for (step, node) in dir.entries().iter() {
        kinds.insert(step.copy(alloc)?, holds_directory(node))?;
    }
    Ok(kinds)
}

/// Puts the steps of the parts that were not read below a part at a depth, and whether a directory stands at each.
fn gather_unread<G: Ground>(
    outside: &mut G,
    space: &mut Space,
    part: &Part<Stored>,
    depth: u8,
    found: &mut BTreeMap<Step, bool>,
) -> Result<(), TreeFault>
    requires { depth ≤ deepest }
    ensures gathered { IsTrue G.tells → (records : ℕ → Option Record) (es : Entries) → IsOver (G.told outside.old) space.old records → IsPart (deepest - depth) depth (steps_of es) part.now
        → ((is : List ℕ) (x : Stored) → unread_in is part.now ≡ Some (x, []) → SpellsPart records (depth + length is) x (part_from depth es is))
        → MatchResult result (λ _. Adds (filter (λ e. is_some (unread_in (way (deepest - depth) depth e.0) part.now)) es) found.old.entries found.new.entries) IsFree }
    ensures looks { Looks G.tells (G.told outside.old) (G.told outside.new) space.old space.new }
    ensures counts { Counts counted_tree result (G.counts_of outside.old) (G.counts_of outside.new) }
    ensures causes { IfErr result (IsCause G.tells (G.told outside.old) space.old) }
{
    match part {
        Part::Leaf { .. } => Ok(()),
        Part::Inode { children, .. } => {
            if depth >= DEEPEST {
                return Ok(());
            }
            for child in children {
                gather_unread(outside, space, child, depth + 1, found)?;
            }
            Ok(())
        }
        Part::Unread { record, .. } => {
            gather(outside, space, &record.reference, DEEPEST - depth, found)
        }
    }
}

/// The items of a listing, in the order of their steps.
fn items_of(alloc: Global, found: BTreeMap<Step, bool>) -> Result<Listing, Memory>
    ensures made { IfOk result (λ items. items ≡ map item_of found.entries) }
    ensures ordered { T (is_sorted bytes_cmp found.entries) }
{
    let mut items = Vec::with_capacity(alloc, found.len())?;
    for (step, dir) in found {
        items.push(Item { step, dir })?;
    }
    Ok(Listing::of(items))
}
