// The names of directories and commits, each the SHA-256 (FIPS 180-4) of the bytes that the format makes them from.
ghost use Rattle.std.specs.Prelude.{◌≡◌, ◌<◌, ◌≤◌, ◌^◌, ◌-◌, ℕ, List, ◌∷◌, ◌++◌, length, map, flat_map, sum_by, nat_le, ◌||◌, false, All, IfOk};
ghost use Rattle.sha2.specs.Sha256.{sha256};
ghost use Rattle.sha2.specs.Hashers.{Holds256};
ghost use Rattle.ip_base.specs.declared.limit.TheConstants.{LEAF_ENTRIES_MAX, STEP_BYTES_MAX, AUTHOR_MAX, MESSAGE_MAX, PARENTS_MAX};
ghost use Rattle.ip_spec.specs.Record.{hashed_commit, info_spelling, short_text, u8, u32};
ghost use Rattle.ip_spec.specs.Repository.{CommitParent, commit_name};
ghost use Rattle.ip_spec.specs.Shape.{deepest, part_name, entries_name};
ghost use Rattle.ip_model_trees.specs.Names.{paired, hashed_entry};
ghost use Rattle.ip_model_trees.specs.Places.{ArePlaced, pair_of};

use crate::places::{Child, Placed, children, place_all};
use ip_base::limit::{LEAF_ENTRIES_MAX, MESSAGE_MAX, PARENTS_MAX, STEP_BYTES_MAX};
use ip_base::{Hash, Info, Memory, Step};
use sha2::{Digest, Sha256};
use std::alloc::Global;

// The depth at which every part is a leaf.
const DEEPEST: u8 = 51;

// The most entries that a count in the format can say.
const COUNT_MAX: usize = 4294967295;

/// An entry of a directory, with the name of what it leads to: contents, or a directory.
#[derive(Drop)]
pub struct Entry {
    pub step: Step,
    pub is_directory: bool,
    pub name: Hash,
}

/// The name of a directory, from its entries, ascending by step. It takes memory for each of them.
pub fn entries_name(alloc: Global, entries: &[Entry]) -> Result<Hash, Memory>
    ensures { length entries.now < 2 ^ 32 → All (λ e. length e.step ≤ STEP_BYTES_MAX) entries.now → IfOk result (λ name. name ≡ entries_name (map paired entries.now)) }
{
    let placed = place_all(alloc, entries)?;
    part_name(alloc, placed.as_slice(), 0)
}

/// The name of a commit, from its root's name, the names of its parents in order, and its info.
pub fn commit_name(root: &Hash, parents: &[Hash], info: &Info) -> Hash
    ensures { (ps : List CommitParent) → length parents.now ≤ PARENTS_MAX → length info.now.author ≤ AUTHOR_MAX → length info.now.message ≤ MESSAGE_MAX → map (λ p. p.name) ps ≡ parents.now → result ≡ commit_name root.now ps info.now }
{
    hash_of_commit(root, parents, info)
}

/// The name of contents.
pub fn contents_name(bytes: &[u8]) -> Hash
    ensures { result ≡ sha256 bytes.now }
{
    let mut hasher = Sha256::new();
    hasher.update(bytes);
    Hash(hasher.finalize())
}

fn hash_of_commit(root: &Hash, parents: &[Hash], info: &Info) -> Hash
    ensures { length parents.now ≤ PARENTS_MAX → length info.now.author ≤ AUTHOR_MAX → length info.now.message ≤ MESSAGE_MAX → result ≡ sha256 (hashed_commit root.now parents.now info.now) }
{
    let mut hasher = Sha256::new();
    hasher.update(&[4]);
    hasher.update(root.as_slice());
    hasher.update(&[parents.len().min(PARENTS_MAX) as u8]);
    hash_names(&mut hasher, parents);
    hash_info(&mut hasher, info);
    Hash(hasher.finalize())
}

// The name of a part of a directory at a depth.
fn part_name(alloc: Global, entries: &[Placed], depth: u8) -> Result<Hash, Memory>
    ensures { ArePlaced entries.now → IfOk result (λ name. name ≡ part_name (deepest - depth) (map pair_of entries.now)) }
{
    if is_leaf(entries, depth) {
        return Ok(leaf_name(entries));
    }
    let parts = children(alloc, entries, depth)?;
    let children = parts.as_slice();
    let mut hasher = inode_head(depth, children);
    for child in children {
        let there = child.entries.as_slice();
        let name = part_name(alloc, there, depth + 1)?;
        hash_child(&mut hasher, there.len(), &name);
    }
    Ok(Hash(hasher.finalize()))
}

fn is_leaf(entries: &[Placed], depth: u8) -> bool
    ensures is { result ≡ (nat_le (length entries.now) LEAF_ENTRIES_MAX || nat_le 51 depth) }
    ensures above { result ≡ false → depth < 51 }
{
    entries.len() <= LEAF_ENTRIES_MAX || depth >= DEEPEST
}

fn leaf_name(entries: &[Placed]) -> Hash
    ensures { ArePlaced entries.now → result ≡ sha256 (2 ∷ u32 (length entries.now) ++ flat_map (λ p. hashed_entry p.entry.now) entries.now) }
{
    let mut hasher = Sha256::new();
    hasher.update(&[2]);
    hasher.update(&(entries.len().min(COUNT_MAX) as u32).to_le_bytes());
    hash_entries(&mut hasher, entries);
    Hash(hasher.finalize())
}

fn hash_entries<D: Digest>(hasher: &mut D, entries: &[Placed])
    ensures { (m : List ℕ) → All (λ p. length p.entry.now.step ≤ STEP_BYTES_MAX) entries.now → D.holds hasher.old m → D.holds hasher.new (m ++ flat_map (λ p. hashed_entry p.entry.now) entries.now) }
{
    for placed in entries {
        hash_entry(hasher, placed.entry);
    }
}

fn hash_entry<D: Digest>(hasher: &mut D, entry: &Entry)
    ensures { (m : List ℕ) → length entry.now.step ≤ STEP_BYTES_MAX → D.holds hasher.old m → D.holds hasher.new (m ++ hashed_entry entry.now) }
{
    hash_short(hasher, entry.step.bytes());
    hasher.update(&[if entry.is_directory { 2 } else { 1 }]);
    hasher.update(entry.name.as_slice());
}

// A hasher of what stands in front of the children of an inode.
fn inode_head(depth: u8, children: &[Child]) -> Sha256
    requires each { All (λ c. c.index < 32) children.now }
    requires small { sum_by (λ c. 2 ^ c.index) children.now < 2 ^ 32 }
    ensures { Holds256 result (3 ∷ depth ∷ u32 (sum_by (λ c. 2 ^ c.index) children.now)) }
{
    let mut hasher = Sha256::new();
    hasher.update(&[3, depth]);
    hasher.update(&bitmap(children).to_le_bytes());
    hasher
}

// The bit of each child.
fn bitmap(children: &[Child]) -> u32
    requires each { All (λ c. c.index < 32) children.now }
    requires small { sum_by (λ c. 2 ^ c.index) children.now < 2 ^ 32 }
    ensures { result ≡ sum_by (λ c. 2 ^ c.index) children.now }
{
    let mut bitmap = 0;
    for child in children {
        bitmap += 1 << child.index;
    }
    bitmap
}

fn hash_child<D: Digest>(hasher: &mut D, count: usize, name: &Hash)
    ensures { (m : List ℕ) → count < 2 ^ 32 → D.holds hasher.old m → D.holds hasher.new (m ++ (u32 count ++ name.now)) }
{
    hasher.update(&(count.min(COUNT_MAX) as u32).to_le_bytes());
    hasher.update(name.as_slice());
}

fn hash_names<D: Digest>(hasher: &mut D, names: &[Hash])
    ensures { (m : List ℕ) → D.holds hasher.old m → D.holds hasher.new (m ++ flat_map (λ name. name) names.now) }
{
    for name in names {
        hasher.update(name.as_slice());
    }
}

fn hash_info<D: Digest>(hasher: &mut D, info: &Info)
    ensures { (m : List ℕ) → length info.now.author ≤ AUTHOR_MAX → length info.now.message ≤ MESSAGE_MAX → D.holds hasher.old m → D.holds hasher.new (m ++ info_spelling info.now) }
{
    hasher.update(&info.date.to_le_bytes());
    hash_short(hasher, info.author.as_slice());
    hasher.update(&(info.message.len().min(MESSAGE_MAX) as u16).to_le_bytes());
    hasher.update(info.message.as_slice());
}

fn hash_short<D: Digest>(hasher: &mut D, text: &[u8])
    ensures { (m : List ℕ) → length text.now ≤ STEP_BYTES_MAX → D.holds hasher.old m → D.holds hasher.new (m ++ short_text text.now) }
{
    hasher.update(&[text.len().min(STEP_BYTES_MAX) as u8]);
    hasher.update(text);
}
