// The contents of a tree that no record is known to hold, and those of them that another tree has at the same path.
ghost use Rattle.std.specs.Prelude.{◌≡◌, ◌∷◌, [], ◌&&◌, ◌==◌, ℕ, length, Option, Some, None, Ok, IsTrue, IfOk, IfErr, MatchResult};
ghost use Rattle.std.specs.List.{AllByRecursion};
ghost use Rattle.ip_ground.specs.Counts.{Counts};
ghost use Rattle.ip_save.specs.Batches.{IsFirst};
ghost use Rattle.ip_save.specs.Laid.{BeginsWith, IsShort, fresh, fresh_among, fresh_root, longest, longest_among, longest_root, nodes_in, tallies, tallies_among, tallies_root};
ghost use Rattle.ip_save.specs.Reused.{AreHashed, IsDirectoryThere, IsFound, IsFreeSave, IsFreshFault, IsLost, IsSaveCause, IsThere, IsUnfetched};
ghost use Rattle.ip_save.specs.Reused.{again, again_among, again_root, as_directory, bytes_in, entry_at, found_in, counted_save, held_by, look_fault, reference_in, same_contents};
ghost use Rattle.ip_space.specs.SpaceView.{IsReadable, records_of};
ghost use Rattle.ip_spec.specs.View.{View};
ghost use Rattle.ip_spec.specs.declared.kind.TheConstants as kinds;
ghost use Rattle.ip_spec.specs.declared.record.Record.{Record};
ghost use Rattle.ip_tree.specs.Reads.{IsOver, Looks};
ghost use Rattle.ip_tree.specs.Shown.{shown, shown_root};
ghost use Rattle.sha2.specs.Sha256.{sha256};
ghost use Rattle.ip_spec.specs.Path.{same_bytes};

use crate::SaveFault;
use crate::tally::{Tally, behind, inside, new_in};
use ip_base::limit::CONTENTS_MAX;
use ip_base::{Hash, Limit, Step};
use ip_ground::Ground;
use ip_object::hash_contents;
use ip_shape::places::DEEPEST;
use ip_space::Space;
use ip_spec::kind::{CONTENTS, DIRECTORY};
use ip_spec::record::{Record, Ref};
use ip_tree::below::entry_below;
use ip_tree::{Directory, Node, Root, Stored, TreeFault};
use std::alloc::Global;

/// New contents of a tree.
#[derive(Clone, Copy)]
pub struct Fresh<'a> {
    pub bytes: &'a [u8],
    pub name: Hash,
    /// The offset of a record that holds them, where the other tree has the same bytes at their path.
    pub at: Option<u64>,
}

/// The new contents of a tree, ascending by path, each with the offset of the record in which the tree whose root is at the reference `first` has
/// the same bytes at its path, if it has. Of that tree the records on the way are fetched, and contents only where they have the same name.
pub fn find_fresh<'a, G: Ground>(
    alloc: Global,
    outside: &mut G,
    space: &mut Space,
    root: &'a Root,
    ahead: &[Tally],
    first: Option<Ref>,
) -> Result<Vec<Fresh<'a>>, SaveFault>
    requires tallied { ahead.now ≡ tallies_root (shown_root root.now) }
    ensures bytes { IfOk result (λ fresh. bytes_in fresh.items ≡ fresh_root (shown_root root.now)) }
    ensures hashed { IfOk result (λ fresh. AreHashed fresh.items) }
    ensures short { IfOk result (λ fresh. AllByRecursion IsShort (bytes_in fresh.items)) }
    // over any records
    ensures found { IsTrue G.tells → IsReadable (G.told outside.old) space.old →
        IfOk result (λ fresh. found_in fresh.items ≡ again_root (records_of (G.told outside.old) space.old) (shown_root root.now) first) }
    // over those of a tree
    ensures free { IsTrue G.tells → (records : ℕ → Option Record) (other : Option View) → IsOver (G.told outside.old) space.old records → IsFirst records first other → IfErr result IsFreeSave }
    ensures cause { IfErr result (IsFreshFault (longest_root (shown_root root.now))) }
    ensures looks { Looks G.tells (G.told outside.old) (G.told outside.new) space.old space.new }
    ensures counts { Counts counted_save result (G.counts_of outside.old) (G.counts_of outside.new) }
    ensures causes { IfErr result (IsSaveCause G.tells (G.told outside.old) space.old) }
    ensures alone { first ≡ None → (outside.new ≡ outside.old) × (space.new ≡ space.old) × IfErr result IsUnfetched }
{
    let mut fresh = Vec::new(alloc);
    match root {
        Root::Stored(_) => Ok(fresh),
        Root::Loaded(dir) => {
            let new = new_in(ahead);
            if new == 0 {
                return Ok(fresh);
            }
            match find_in(outside, space, dir, inside(ahead), &first, &mut fresh) {
                Ok(()) => Ok(fresh),
                Err(fault) => Err(fault),
            }
        }
    }
}

// Puts the new contents below a directory behind those that there are. The other tree has a directory at its path, if there is a reference. The first
// tallies are those of the directories below it.
#[cycle(fresh)]
fn find_in<'a, G: Ground>(
    outside: &mut G,
    space: &mut Space,
    dir: &'a Directory,
    ahead: &[Tally],
    other: &Option<Ref>,
    out: &mut Vec<Fresh<'a>>,
) -> Result<(), SaveFault>
    ensures found { BeginsWith (tallies_among (nodes_in dir.now)) ahead.now → MatchResult result (λ _. IsFound G.tells (G.told outside.old) space.old (fresh_among (nodes_in dir.now)) (λ records. again_among records (nodes_in dir.now) other.now) out.old.items out.new.items)
        (IsLost G.tells (G.told outside.old) space.old (longest_among (nodes_in dir.now)) (λ records. IsDirectoryThere records other.now)) }
    ensures looks { Looks G.tells (G.told outside.old) (G.told outside.new) space.old space.new }
    ensures counts { Counts counted_save result (G.counts_of outside.old) (G.counts_of outside.new) }
    ensures alone { other.now ≡ None → (outside.new ≡ outside.old) × (space.new ≡ space.old) × IfErr result IsUnfetched }
{
    let mut left = ahead;
    for (step, node) in dir.entries() {
        match find_at(outside, space, step, node, left, other, out) {
            Ok(()) => {}
            Err(fault) => return Err(fault),
        }
        left = behind(node, left);
    }
    Ok(())
}

// The same of the new contents at a step of a directory, where the first tallies are the node's. Nothing is looked up where there are none.
#[cycle(fresh)]
fn find_at<'a, G: Ground>(
    outside: &mut G,
    space: &mut Space,
    step: &Step,
    node: &'a Node,
    ahead: &[Tally],
    other: &Option<Ref>,
    out: &mut Vec<Fresh<'a>>,
) -> Result<(), SaveFault>
    ensures found { BeginsWith (tallies (shown node.now)) ahead.now → MatchResult result (λ _. IsFound G.tells (G.told outside.old) space.old (fresh (shown node.now)) (λ records. again records (shown node.now) (entry_at records step.now other.now)) out.old.items out.new.items)
        (IsLost G.tells (G.told outside.old) space.old (longest (shown node.now)) (λ records. IsDirectoryThere records other.now)) }
    ensures looks { Looks G.tells (G.told outside.old) (G.told outside.new) space.old space.new }
    ensures counts { Counts counted_save result (G.counts_of outside.old) (G.counts_of outside.new) }
    ensures alone { other.now ≡ None → (outside.new ≡ outside.old) × (space.new ≡ space.old) × IfErr result IsUnfetched }
{
    match node {
        Node::Stored(_) => Ok(()),
        Node::Contents(bytes) => find_one(outside, space, step, bytes.as_slice(), other, out),
        Node::Directory(dir) => {
            let new = new_in(ahead);
            if new == 0 {
                return Ok(());
            }
            let below = match directory_at(outside, space, step, other) {
                Ok(below) => below,
                Err(fault) => return Err(fault),
            };
            find_in(outside, space, dir, inside(ahead), &below, out)
        }
    }
}

// Puts the new contents at a step of a directory.
fn find_one<'a, G: Ground>(
    outside: &mut G,
    space: &mut Space,
    step: &Step,
    bytes: &'a [u8],
    other: &Option<Ref>,
    out: &mut Vec<Fresh<'a>>,
) -> Result<(), SaveFault>
    ensures found { MatchResult result (λ _. IsFound G.tells (G.told outside.old) space.old (bytes.now ∷ []) (λ records. held_by records bytes.now (entry_at records step.now other.now) ∷ []) out.old.items out.new.items)
        (IsLost G.tells (G.told outside.old) space.old (length bytes.now) (λ records. IsDirectoryThere records other.now)) }
    ensures looks { Looks G.tells (G.told outside.old) (G.told outside.new) space.old space.new }
    ensures counts { Counts counted_save result (G.counts_of outside.old) (G.counts_of outside.new) }
    ensures alone { other.now ≡ None → (outside.new ≡ outside.old) × (space.new ≡ space.old) × IfErr result IsUnfetched }
{
    if bytes.len() > CONTENTS_MAX {
        return Err(SaveFault::Limit(Limit::Contents));
    }
    let name = hash_contents(bytes);
    let at = match held_at(outside, space, step, bytes, &name, other) {
        Ok(at) => at,
        Err(fault) => return Err(fault),
    };
    match out.push(Fresh { bytes, name, at }) {
        Ok(()) => Ok(()),
        Err(_) => Err(SaveFault::Memory),
    }
}

// The record in which the other tree has these bytes, of this name, at a step of a directory, if it has.
fn held_at<G: Ground>(
    outside: &mut G,
    space: &mut Space,
    step: &Step,
    bytes: &[u8],
    name: &Hash,
    other: &Option<Ref>,
) -> Result<Option<u64>, SaveFault>
    requires { name.now ≡ sha256 bytes.now }
    ensures found { IsTrue G.tells → IsReadable (G.told outside.old) space.old → IfOk result (λ at. at ≡ held_by (records_of (G.told outside.old) space.old) bytes.now (entry_at (records_of (G.told outside.old) space.old) step.now other.now)) }
    ensures lost { IfErr result (IsLost G.tells (G.told outside.old) space.old 0 (λ records. IsDirectoryThere records other.now)) }
    ensures looks { Looks G.tells (G.told outside.old) (G.told outside.new) space.old space.new }
    ensures counts { Counts counted_save result (G.counts_of outside.old) (G.counts_of outside.new) }
    ensures alone { other.now ≡ None → (result ≡ Ok None) × (outside.new ≡ outside.old) × (space.new ≡ space.old) }
{
    match entry_at(outside, space, step, other) {
        Ok(entry) => held_by(outside, space, bytes, name, &entry),
        Err(fault) => Err(fault),
    }
}

// The directory that the other tree has at a step of a directory, if it has one.
fn directory_at<G: Ground>(
    outside: &mut G,
    space: &mut Space,
    step: &Step,
    other: &Option<Ref>,
) -> Result<Option<Ref>, SaveFault>
    ensures found { IsTrue G.tells → IsReadable (G.told outside.old) space.old → IfOk result (λ found. found ≡ as_directory (entry_at (records_of (G.told outside.old) space.old) step.now other.now)) }
    ensures there { IsTrue G.tells → (records : ℕ → Option Record) → IsOver (G.told outside.old) space.old records → IsDirectoryThere records other.now → IfOk result (IsDirectoryThere records) }
    ensures lost { IfErr result (IsLost G.tells (G.told outside.old) space.old 0 (λ records. IsDirectoryThere records other.now)) }
    ensures looks { Looks G.tells (G.told outside.old) (G.told outside.new) space.old space.new }
    ensures counts { Counts counted_save result (G.counts_of outside.old) (G.counts_of outside.new) }
    ensures alone { other.now ≡ None → (result ≡ Ok None) × (outside.new ≡ outside.old) × (space.new ≡ space.old) }
{
    match entry_at(outside, space, step, other) {
        Ok(entry) => Ok(as_directory(&entry)),
        Err(fault) => Err(fault),
    }
}

// What stands there, if it is a directory.
fn as_directory(entry: &Option<Ref>) -> Option<Ref>
    ensures { result ≡ as_directory entry.now }
{
    let reference = entry.as_ref()?;
    if reference.kind == DIRECTORY {
        Some(*reference)
    } else {
        None
    }
}

// What the other tree has at a step of a directory. Where it has no directory nothing is fetched.
fn entry_at<G: Ground>(
    outside: &mut G,
    space: &mut Space,
    step: &Step,
    other: &Option<Ref>,
) -> Result<Option<Ref>, SaveFault>
    ensures found { IsTrue G.tells → IsReadable (G.told outside.old) space.old → IfOk result (λ found. found ≡ entry_at (records_of (G.told outside.old) space.old) step.now other.now) }
    ensures there { IsTrue G.tells → (records : ℕ → Option Record) → IsOver (G.told outside.old) space.old records → IsDirectoryThere records other.now → IfOk result (IsThere records) }
    ensures lost { IfErr result (IsLost G.tells (G.told outside.old) space.old 0 (λ records. IsDirectoryThere records other.now)) }
    ensures looks { Looks G.tells (G.told outside.old) (G.told outside.new) space.old space.new }
    ensures counts { Counts counted_save result (G.counts_of outside.old) (G.counts_of outside.new) }
    ensures alone { other.now ≡ None → (result ≡ Ok None) × (outside.new ≡ outside.old) × (space.new ≡ space.old) }
{
    let Some(reference) = other else {
        return Ok(None);
    };
    match entry_below(outside, space, reference, DEEPEST, step) {
        Ok(found) => Ok(reference_of(&found)),
        Err(fault) => Err(look_fault(fault)),
    }
}

// What an entry refers to, if there is one.
fn reference_of(entry: &Option<Stored>) -> Option<Ref>
    ensures { result ≡ reference_in entry.now }
{
    let stored = entry.as_ref()?;
    Some(stored.reference)
}

// The fault of a look-up.
fn look_fault(fault: TreeFault) -> SaveFault
    ensures { result ≡ look_fault fault }
{
    match fault {
        TreeFault::Limit(limit) => SaveFault::Limit(limit),
        TreeFault::Fetch(fault) => SaveFault::Fetch(fault),
        TreeFault::Memory => SaveFault::Memory,
    }
}

// The record of what stands in the other tree, where it holds these bytes. It is brought only where it is contents of this name.
fn held_by<G: Ground>(
    outside: &mut G,
    space: &mut Space,
    bytes: &[u8],
    name: &Hash,
    entry: &Option<Ref>,
) -> Result<Option<u64>, SaveFault>
    requires { name.now ≡ sha256 bytes.now }
    ensures found { IsTrue G.tells → IsReadable (G.told outside.old) space.old → IfOk result (λ at. at ≡ held_by (records_of (G.told outside.old) space.old) bytes.now entry.now) }
    ensures lost { IfErr result (IsLost G.tells (G.told outside.old) space.old 0 (λ records. IsThere records entry.now)) }
    ensures looks { Looks G.tells (G.told outside.old) (G.told outside.new) space.old space.new }
    ensures counts { Counts counted_save result (G.counts_of outside.old) (G.counts_of outside.new) }
    ensures alone { entry.now ≡ None → (result ≡ Ok None) × (outside.new ≡ outside.old) × (space.new ≡ space.old) }
{
    let Some(reference) = entry else {
        return Ok(None);
    };
    if !is_named(reference, name) {
        return Ok(None);
    }
    held_in(outside, space, bytes, reference)
}

// Whether a reference is one to contents of this name.
fn is_named(reference: &Ref, name: &Hash) -> bool
    ensures { result ≡ (reference.now.kind == kinds.CONTENTS) && same_bytes reference.now.name name.now }
{
    reference.kind == CONTENTS && reference.name.as_slice().cmp(name.as_slice()).is_eq()
}

// The record of contents at a reference, where it holds these bytes.
fn held_in<G: Ground>(
    outside: &mut G,
    space: &mut Space,
    bytes: &[u8],
    reference: &Ref,
) -> Result<Option<u64>, SaveFault>
    requires { reference.now.kind ≡ kinds.CONTENTS }
    ensures found { IsTrue G.tells → IsReadable (G.told outside.old) space.old →
        IfOk result (λ at. at ≡ same_contents bytes.now reference.now.at (records_of (G.told outside.old) space.old reference.now.at)) }
    ensures lost { IfErr result (IsLost G.tells (G.told outside.old) space.old 0 (λ records. IsThere records (Some reference.now))) }
    ensures looks { Looks G.tells (G.told outside.old) (G.told outside.new) space.old space.new }
    ensures counts { Counts counted_save result (G.counts_of outside.old) (G.counts_of outside.new) }
{
    let at = reference.at;
    match space.bring(outside, *reference) {
        Ok(found) => Ok(same_contents(bytes, at, space.lent(at, &found))),
        Err(fault) => Err(SaveFault::Fetch(fault)),
    }
}

// The offset of a record, if these bytes are what it holds.
fn same_contents(bytes: &[u8], at: u64, rec: &Record) -> Option<u64>
    ensures { result ≡ same_contents bytes.now at (Some rec.now) }
{
    match rec {
        Record::Contents(held) if bytes.cmp(held.as_slice()).is_eq() => Some(at),
        _ => None,
    }
}
