// Reading the parts of directories.
ghost use Rattle.std.specs.Prelude.{◌≡◌, ◌+◌, ℕ, [], map, Option, Some, None, IsTrue, IsFalse, IfOk, IfErr, IsErrOf, MatchResult, min, sum_by, ◌-◌, ◌^◌};
ghost use Rattle.sha2.specs.Sha256.{sha256};
ghost use Rattle.ip_ground.specs.Counts.{Counts};
ghost use Rattle.ip_space.specs.declared.fault.FetchFault.TheVariants as FetchFault;
ghost use Rattle.ip_tree.specs.Faults.{counted_tree};
ghost use Rattle.ip_shape.specs.Directory.{root_of};
ghost use Rattle.ip_shape.specs.Loaded.{unread_in};
ghost use Rattle.ip_shape.specs.Reading.{IsNeeded};
ghost use Rattle.ip_spec.specs.Path.{Step as TheStep};
ghost use Rattle.ip_spec.specs.Tree.{Tree as Map, entries_of, is_contents};
ghost use Rattle.ip_spec.specs.View.{Part};
ghost use Rattle.ip_spec.specs.StoredParts.{stored_part};
ghost use Rattle.ip_spec.specs.declared.record.InodeChild.{InodeChild};
ghost use Rattle.ip_spec.specs.declared.record.Record.{Record};
ghost use Rattle.ip_tree.specs.Edits.{IsDirectory, IsKept, IsOpened, IsReadAt, IsSame, IsUnfolded};
ghost use Rattle.ip_tree.specs.Known.{knows};
ghost use Rattle.ip_tree.specs.Meaning.{NodeIs, Spells, steps_of};
ghost use Rattle.ip_tree.specs.Reads.{IsOver, IsFree, Looks, IsCause, as_content, content_count, node_of_entry, record_of, unread_child};
ghost use Rattle.ip_tree.specs.Shown.{shown, shown_directory, shown_entry};
ghost use Rattle.ip_tree.specs.declared.node.Stored.{Stored};
ghost use Rattle.ip_tree.specs.declared.tree.TreeFault.TheVariants as TreeFault;

use crate::below::{stored, stored_child};
use crate::fetch::{Content, LentContent, fetch_part};
use crate::height::height_of;
use crate::node::{Directory, Node, Stored};
use crate::tree::TreeFault;
use ip_base::{Memory, Step};
use ip_ground::Ground;
use ip_shape::dir::Entries;
use ip_shape::places::Places;
use ip_shape::reading::{
    Child, UnreadPart, missing, missing_to_remove, read_inode, read_leaf, unread,
};
use ip_space::Space;
use ip_spec::kind;
use ip_spec::record::{InodeChild, InodeChildren, LeafEntries, Ref};
use std::alloc::Global;

/// The directory in the record at a reference, of which that record alone is read.
pub fn load<G: Ground>(
    alloc: Global,
    outside: &mut G,
    space: &mut Space,
    reference: &Ref,
) -> Result<Directory, TreeFault>
    ensures loaded { IsTrue G.tells → (records : ℕ → Option Record) (t : Map) → IsOver (G.told outside.old) space.old records → Spells records reference.now t → IsFalse (is_contents t)
        → MatchResult result (λ dir. IsDirectory records (shown_directory dir) t × ((part : Part) → knows records (shown_directory dir) part ≡ stored_part records reference.now.at part.path part.indexes)) IsFree }
    ensures looks { Looks G.tells (G.told outside.old) (G.told outside.new) space.old space.new }
    ensures counts { Counts counted_tree result (G.counts_of outside.old) (G.counts_of outside.new) }
    ensures causes { IfErr result (IsCause G.tells (G.told outside.old) space.old) }
{
    let content = fetch_part(outside, space, reference)?;
    let by = Stored {
        reference: *reference,
        height: height_of(content.lent()),
    };
    let mut dir = unread(alloc, by, count_of(content.lent()));
    enter(alloc, &mut dir, &[], content)?;
    Ok(dir)
}

/// How many entries a record of a directory tells. A number that lies stands at the greatest one.
pub fn count_of(content: LentContent<'_>) -> usize
    ensures { result ≡ min (content_count (as_content content.entry)) (2 ^ 64 - 1) }
{
    match content {
        LentContent::Leaf(entries) => entries.len(),
        LentContent::Inode { children, .. } => counted(children),
    }
}

/// How many entries the children of an inode tell, or the greatest number.
fn counted(children: &[InodeChild]) -> usize
    ensures { result ≡ min (sum_by (λ (c : InodeChild). c.count) children.now) (2 ^ 64 - 1) }
{
    let mut total: usize = 0;
    for child in children {
        total = total.saturating_add(child.count as usize);
    }
    total
}

/// The entries of a leaf as nodes that were not read, in their order.
fn nodes_of(alloc: Global, entries: LeafEntries) -> Result<Entries<Node>, Memory>
    ensures { IfOk result (λ nodes. map shown_entry nodes.items ≡ map node_of_entry entries) }
{
    let mut nodes = Vec::with_capacity(alloc, entries.len())?;
    for entry in entries.into_vec() {
        let node = Node::Stored(stored(&entry));
        nodes.push((entry.step, node))?;
    }
    Ok(nodes)
}

/// The children of an inode as parts that were not read, in their order.
fn children_of(alloc: Global, children: InodeChildren) -> Result<Vec<Child<Stored>>, Memory>
    ensures { IfOk result (λ all. all.items ≡ map unread_child children) }
{
    let mut all = Vec::with_capacity(alloc, children.len())?;
    for child in children.as_slice() {
        all.push(Child {
            index: child.index,
            record: stored_child(child),
            count: child.count as usize,
        })?;
    }
    Ok(all)
}

/// Enters what a record holds in place of the part that it spells, which was not read. An `Err` leaves the directory as it was.
fn enter(alloc: Global, dir: &mut Directory, indexes: &[u8], content: Content) -> Result<(), Memory>
    ensures entered { (records : ℕ → Option Record) (t : Map) (x : Stored) → IsDirectory records (shown_directory dir.old) t → unread_in indexes.now (root_of dir.old) ≡ Some (x, [])
        → records x.reference.at ≡ Some (record_of content) → MatchResult result (λ _. IsSame (IsDirectory records) records (shown_directory dir.old) (shown_directory dir.new) t × IsReadAt indexes.now (root_of dir.new))
        (λ _. IsSame (IsDirectory records) records (shown_directory dir.old) (shown_directory dir.new) t) }
{
    match content {
        Content::Leaf(entries) => read_leaf(alloc, dir, indexes, nodes_of(alloc, entries)?),
        Content::Inode { children, .. } => {
            read_inode(alloc, dir, indexes, children_of(alloc, children)?)
        }
    }
}

/// Reads a part that was not read.
fn load_part<G: Ground>(
    alloc: Global,
    outside: &mut G,
    space: &mut Space,
    dir: &mut Directory,
    part: &UnreadPart<Stored>,
) -> Result<(), TreeFault>
    ensures loaded { IsTrue G.tells → (records : ℕ → Option Record) (t : Map) → IsOver (G.told outside.old) space.old records → IsDirectory records (shown_directory dir.old) t
        → unread_in part.now.indexes.items (root_of dir.old) ≡ Some (part.now.record, [])
        → MatchResult result (λ _. IsSame (IsDirectory records) records (shown_directory dir.old) (shown_directory dir.new) t) (IsKept (IsDirectory records) records (shown_directory dir.old) (shown_directory dir.new) t) }
    ensures looks { Looks G.tells (G.told outside.old) (G.told outside.new) space.old space.new }
    ensures counts { Counts counted_tree result (G.counts_of outside.old) (G.counts_of outside.new) }
    ensures causes { IfErr result (IsCause G.tells (G.told outside.old) space.old) }
{
    let content = fetch_part(outside, space, &part.record.reference)?;
    enter(alloc, dir, &part.indexes, content)?;
    Ok(())
}

// More parts than a removal can have to read: 52 on the way to its step, and 32 leaves beside it below a part of 33 entries. Records that lie may lead on for longer, so the loops have a bound.
const READS_MAX: u8 = 52 + 32;

/// Reads each part on the way to a step of these places. It fetches a record for each of them that was not read.
pub fn load_way<G: Ground>(
    alloc: Global,
    outside: &mut G,
    space: &mut Space,
    dir: &mut Directory,
    places: &Places,
) -> Result<(), TreeFault>
    ensures opened { IsTrue G.tells → (records : ℕ → Option Record) (t : Map) (s : TheStep) → IsOver (G.told outside.old) space.old records → IsDirectory records (shown_directory dir.old) t → places.now ≡ sha256 s
        → MatchResult result (λ _. IsOpened records s (shown_directory dir.old) (shown_directory dir.new) t) (IsKept (IsDirectory records) records (shown_directory dir.old) (shown_directory dir.new) t) }
    ensures looks { Looks G.tells (G.told outside.old) (G.told outside.new) space.old space.new }
    ensures counts { Counts counted_tree result (G.counts_of outside.old) (G.counts_of outside.new) }
    ensures causes { IfErr result (IsCause G.tells (G.told outside.old) space.old) }
{
    for _ in 0..READS_MAX {
        let Some(part) = missing(alloc, dir, places)? else {
            return Ok(());
        };
        load_part(alloc, outside, space, dir, &part)?;
    }
    Err(TreeFault::Memory)
}

/// Reads each part on the way to a step, which has these places, and besides, where a part becomes a leaf without the step, each part below it.
pub fn load_to_remove<G: Ground>(
    alloc: Global,
    outside: &mut G,
    space: &mut Space,
    dir: &mut Directory,
    step: &Step,
    places: &Places,
) -> Result<(), TreeFault>
    requires { places.now ≡ sha256 step.now }
    ensures opened { IsTrue G.tells → (records : ℕ → Option Record) (t : Map) → IsOver (G.told outside.old) space.old records → IsDirectory records (shown_directory dir.old) t
        → MatchResult result (λ _. IsOpened records step.now (shown_directory dir.old) (shown_directory dir.new) t × IsNeeded step.now (steps_of (entries_of t).entries) (root_of dir.new) None)
        (IsKept (IsDirectory records) records (shown_directory dir.old) (shown_directory dir.new) t) }
    ensures looks { Looks G.tells (G.told outside.old) (G.told outside.new) space.old space.new }
    ensures counts { Counts counted_tree result (G.counts_of outside.old) (G.counts_of outside.new) }
    ensures causes { IfErr result (IsCause G.tells (G.told outside.old) space.old) }
{
    for _ in 0..READS_MAX {
        let Some(part) = missing_to_remove(alloc, dir, step, places)? else {
            return Ok(());
        };
        load_part(alloc, outside, space, dir, &part)?;
    }
    Err(TreeFault::Memory)
}

/// Reads the directory's own record where one stands at a node that was not read.
pub fn unfold<G: Ground>(
    alloc: Global,
    outside: &mut G,
    space: &mut Space,
    node: &mut Node,
) -> Result<(), TreeFault>
    ensures opened { IsTrue G.tells → (records : ℕ → Option Record) (t : Map) → IsOver (G.told outside.old) space.old records → NodeIs records (shown node.old) t
        → MatchResult result (λ _. IsUnfolded records (shown node.old) (shown node.new) t) (λ fault. (node.new ≡ node.old) × IsFree fault) }
    ensures looks { Looks G.tells (G.told outside.old) (G.told outside.new) space.old space.new }
    ensures counts { Counts counted_tree result (G.counts_of outside.old) (G.counts_of outside.new) }
    ensures causes { IfErr result (IsCause G.tells (G.told outside.old) space.old) }
{
    let reference = match &*node {
        Node::Stored(stored) => stored.reference,
        _ => return Ok(()),
    };
    if reference.kind != kind::DIRECTORY {
        return Ok(());
    }
    *node = Node::Directory(load(alloc, outside, space, &reference)?);
    Ok(())
}
