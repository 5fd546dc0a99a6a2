// The names of records: the SHA-256 (FIPS 180-4) of what they hold, without offsets, heights and commit numbers.
ghost use Rattle.std.specs.Prelude.{◌≡◌, ◌++◌, ◌∷◌, ◌≤◌, ◌<◌, ◌^◌, List, ℕ, Some, length, flat_map, All};
ghost use Rattle.sha2.specs.Sha256.{sha256};
ghost use Rattle.ip_base.specs.declared.limit.TheConstants.{STEP_BYTES_MAX, AUTHOR_MAX, MESSAGE_MAX, PARENTS_MAX};
ghost use Rattle.ip_spec.specs.declared.record.Record.TheVariants as Record;
ghost use Rattle.ip_spec.specs.Record.{Fits, IsLeafEntry, IsCommitRecord, name_of, short_text, info_spelling, u8, u32, bitmap};
ghost use Rattle.ip_object.specs.Lists.{commit_of, hashed_entry, hashed_child};

use crate::encode::bitmap_of;
use ip_base::{Hash, Info};
use ip_spec::kind;
use ip_spec::record::{InodeChild, LeafEntry, Parent, Record, Ref};
use sha2::{Digest, Sha256};

/// The name of contents. It takes no memory.
pub fn hash_contents(bytes: &[u8]) -> Hash
    ensures { name_of (Record.Contents bytes.now) ≡ Some result }
{
    Hash(Sha256::digest(bytes))
}

fn hash_short<D: Digest>(hasher: &mut D, text: &[u8])
    requires { length text.now ≤ STEP_BYTES_MAX }
    ensures { (m : List ℕ) → D.holds hasher.old m → D.holds hasher.new (m ++ short_text text.now) }
{
    hasher.update(&[text.len() as u8]);
    hasher.update(text);
}

fn hash_info<D: Digest>(hasher: &mut D, info: &Info)
    requires author { length info.now.author ≤ AUTHOR_MAX }
    requires message { length info.now.message ≤ MESSAGE_MAX }
    ensures { (m : List ℕ) → D.holds hasher.old m → D.holds hasher.new (m ++ info_spelling info.now) }
{
    hasher.update(&info.date.to_le_bytes());
    hash_short(hasher, info.author.as_slice());
    hasher.update(&(info.message.len() as u16).to_le_bytes());
    hasher.update(info.message.as_slice());
}

fn hash_entry<D: Digest>(hasher: &mut D, entry: &LeafEntry)
    requires { length entry.now.step ≤ STEP_BYTES_MAX }
    ensures { (m : List ℕ) → D.holds hasher.old m → D.holds hasher.new (m ++ hashed_entry entry.now) }
{
    hash_short(hasher, entry.step.bytes());
    hasher.update(&[entry.kind]);
    hasher.update(entry.name.as_slice());
}

fn hash_entries<D: Digest>(hasher: &mut D, entries: &[LeafEntry])
    requires { All IsLeafEntry entries.now }
    ensures { (m : List ℕ) → D.holds hasher.old m → D.holds hasher.new (m ++ flat_map hashed_entry entries.now) }
{
    for entry in entries {
        hash_entry(hasher, entry);
    }
}

fn hash_child<D: Digest>(hasher: &mut D, child: &InodeChild)
    ensures { (m : List ℕ) → D.holds hasher.old m → D.holds hasher.new (m ++ hashed_child child.now) }
{
    hasher.update(&child.count.to_le_bytes());
    hasher.update(child.name.as_slice());
}

fn hash_children<D: Digest>(hasher: &mut D, children: &[InodeChild])
    ensures { (m : List ℕ) → D.holds hasher.old m → D.holds hasher.new (m ++ flat_map hashed_child children.now) }
{
    for child in children {
        hash_child(hasher, child);
    }
}

fn hash_parents<D: Digest>(hasher: &mut D, parents: &[Parent])
    ensures { (m : List ℕ) → D.holds hasher.old m → D.holds hasher.new (m ++ flat_map (λ p. p.name) parents.now) }
{
    for parent in parents {
        hasher.update(parent.name.as_slice());
    }
}

fn leaf_name(entries: &[LeafEntry]) -> Hash
    requires few { length entries.now < 2 ^ 32 }
    requires each { All IsLeafEntry entries.now }
    ensures { result ≡ sha256 (2 ∷ u32 (length entries.now) ++ flat_map hashed_entry entries.now) }
{
    let mut hasher = Sha256::new();
    hasher.update(&[kind::LEAF]);
    hasher.update(&(entries.len() as u32).to_le_bytes());
    hash_entries(&mut hasher, entries);
    Hash(hasher.finalize())
}

fn inode_name(depth: u8, children: &[InodeChild]) -> Hash
    requires each { All (λ c. c.index < 32) children.now }
    requires small { bitmap children.now < 2 ^ 32 }
    ensures { result ≡ sha256 (3 ∷ depth ∷ u32 (bitmap children.now) ++ flat_map hashed_child children.now) }
{
    let mut hasher = Sha256::new();
    hasher.update(&[kind::INODE, depth]);
    hasher.update(&bitmap_of(children).to_le_bytes());
    hash_children(&mut hasher, children);
    Hash(hasher.finalize())
}

/// The name of a commit, whatever its number and the place of its root. It takes no memory.
pub fn commit_name(root: &Ref, parents: &[Parent], info: &Info) -> Hash
    requires few { length parents.now ≤ PARENTS_MAX }
    requires author { length info.now.author ≤ AUTHOR_MAX }
    requires message { length info.now.message ≤ MESSAGE_MAX }
    ensures { (number : ℕ) → name_of (Record.Commit (commit_of number root.now parents.now info.now)) ≡ Some result }
{
    let mut hasher = Sha256::new();
    hasher.update(&[kind::COMMIT]);
    hasher.update(root.name.as_slice());
    hasher.update(&[parents.len() as u8]);
    hash_parents(&mut hasher, parents);
    hash_info(&mut hasher, info);
    Hash(hasher.finalize())
}

/// The name of a record within the bounds of the format; records of branches and tags have none. It takes no memory.
pub fn name_of_record(rec: &Record) -> Option<Hash>
    ghost version: { ℕ }
    requires { Fits version rec.now }
    ensures { result ≡ name_of rec.now }
{
    match rec {
        Record::Contents(bytes) => Some(hash_contents(bytes.as_slice())),
        Record::Leaf(entries) => Some(leaf_name(entries.as_slice())),
        Record::Inode { depth, children } => Some(inode_name(*depth, children.as_slice())),
        Record::Commit(c) => {
            let root = Ref {
                at: c.root_at,
                name: c.root_name,
                kind: kind::DIRECTORY,
            };
            Some(commit_name(&root, c.parents.as_slice(), &c.info))
        }
        _ => None,
    }
}
