// Entries by their places: five bits of the SHA-256 (FIPS 180-4) of a step for each depth, as the format counts them.
ghost use Rattle.std.specs.Prelude.{◌≡◌, ◌<◌, ◌+◌, ◌-◌, ◌*◌, ◌/◌, ◌%◌, ◌^◌, [], ◌∷◌, ◌++◌, cond, length, map, nat_lt, All, IfOk, OnOk};
ghost use Rattle.ip_spec.specs.Shape.{deepest, number_of};
ghost use Rattle.ip_model_trees.specs.Places.{place_in, entry_of, IsPlaced, entries_at, child_parts, children_in};

use crate::names::Entry;
use ip_base::Memory;
use sha2::{Digest, Sha256};
use std::alloc::Global;

/// An entry, with the SHA-256 of its step.
#[derive(Clone, Copy)]
pub struct Placed<'a> {
    pub entry: &'a Entry,
    pub digest: [u8; 32],
}

/// A child of an inode: its index, and the entries under it.
#[derive(Drop)]
pub struct Child<'a> {
    pub index: u8,
    pub entries: Vec<Placed<'a>>,
}

/// The entries, each with the SHA-256 of its step.
pub fn place_all<'a>(alloc: Global, entries: &'a [Entry]) -> Result<Vec<Placed<'a>>, Memory>
    ensures entries { IfOk result (λ all. map entry_of all.items ≡ entries.now) }
    ensures digests { IfOk result (λ all. All IsPlaced all.items) }
{
    let mut all = Vec::new(alloc);
    for entry in entries {
        all.push(Placed {
            entry,
            digest: Sha256::digest(entry.step.bytes()),
        })?;
    }
    Ok(all)
}

/// The children of an inode of a depth, ascending by index: those that have entries.
pub fn children<'a>(
    alloc: Global,
    entries: &[Placed<'a>],
    depth: u8,
) -> Result<Vec<Child<'a>>, Memory>
    requires { depth < deepest }
    ensures { IfOk result (λ all. map child_parts all.items ≡ children_in depth entries.now) }
{
    let mut all = Vec::new(alloc);
    for index in 0..32 {
        let there = entries_at(alloc, entries, depth, index)?;
        push_some(&mut all, index, there)?;
    }
    Ok(all)
}

// The entries of the child with an index.
fn entries_at<'a>(
    alloc: Global,
    entries: &[Placed<'a>],
    depth: u8,
    index: u8,
) -> Result<Vec<Placed<'a>>, Memory>
    requires { depth < deepest }
    ensures { IfOk result (λ there. there.items ≡ entries_at depth index entries.now) }
{
    let mut there = Vec::new(alloc);
    for placed in entries {
        push_if(
            &mut there,
            placed,
            five_bits(&placed.digest, depth) == index,
        )?;
    }
    Ok(there)
}

fn push_if<'a>(list: &mut Vec<Placed<'a>>, placed: &Placed<'a>, belongs: bool) -> Result<(), Memory>
    ensures { OnOk result (list.new.items ≡ list.old.items ++ cond belongs (placed.now ∷ []) []) }
{
    if belongs {
        list.push(*placed)?;
    }
    Ok(())
}

// Puts a child behind the others, if it has entries.
fn push_some<'a>(
    children: &mut Vec<Child<'a>>,
    index: u8,
    entries: Vec<Placed<'a>>,
) -> Result<(), Memory>
    ensures { OnOk result (map child_parts children.new.items ≡ map child_parts children.old.items ++ cond (nat_lt 0 (length entries.entry.items)) ((index, entries.entry.items) ∷ []) []) }
{
    if entries.is_empty() {
        return Ok(());
    }
    children.push(Child { index, entries })?;
    Ok(())
}

// Five bits of a digest, the first one counting most.
fn five_bits(digest: &[u8; 32], depth: u8) -> u8
    requires { depth < deepest }
    ensures { result ≡ place_in digest.now depth }
{
    let first = 5 * depth as usize;
    16 * bit_at(digest, first)
        + 8 * bit_at(digest, first + 1)
        + 4 * bit_at(digest, first + 2)
        + 2 * bit_at(digest, first + 3)
        + bit_at(digest, first + 4)
}

// A bit of a digest, counted from the most significant one of its first byte.
fn bit_at(digest: &[u8], bit: usize) -> u8
    requires whole { length digest.now ≡ 32 }
    requires within { bit < 256 }
    ensures { result ≡ number_of digest.now / 2 ^ (255 - bit) % 2 }
{
    (digest[bit / 8] >> (7 - bit % 8)) % 2
}
