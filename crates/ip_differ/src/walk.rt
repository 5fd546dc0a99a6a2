// Walking two directories side by side.
ghost use Rattle.std.specs.Prelude.{◌≡◌, ◌≤◌, ℕ, List, Option, length, IsTrue, IfErr, IsErrOf, MatchResult};
ghost use Rattle.ip_ground.specs.Counts.{Counts};
ghost use Rattle.ip_space.specs.declared.fault.FetchFault.TheVariants as FetchFault;
ghost use Rattle.ip_spec.specs.Path.{Step};
ghost use Rattle.ip_spec.specs.Shape.{Entries, deepest};
ghost use Rattle.ip_spec.specs.declared.record.Record.{Record};
ghost use Rattle.ip_tree.specs.Faults.{counted_tree};
ghost use Rattle.ip_tree.specs.Reads.{IsOver, IsFree, Looks, IsCause};
ghost use Rattle.ip_tree.specs.declared.tree.TreeFault.TheVariants as TreeFault;
ghost use Rattle.ip_differ.specs.Pieces.{PieceIs};
ghost use Rattle.ip_differ.specs.declared.pairs.Entry.{Entry};
ghost use Rattle.ip_differ.specs.Sides.{IsClear, Walks};

use crate::pairs::{Pairs, Side};
use crate::piece::{Piece, child_of, fetch_piece, is_inode, is_one_record};
use crate::put::put_all;
use ip_ground::Ground;
use ip_shape::places::DEEPEST;
use ip_space::Space;
use ip_tree::TreeFault;
use std::alloc::Global;

/// Puts what two parts at the same indexes have where they may differ.
pub fn walk_parts<G: Ground>(
    alloc: Global,
    outside: &mut G,
    space: &mut Space,
    one: &Piece<'_>,
    other: &Piece<'_>,
    depth: u8,
    found: &mut Pairs,
) -> Result<(), TreeFault>
    requires { depth ≤ deepest }
    ensures walked { IsTrue G.tells → (records : ℕ → Option Record) (a b : Step → Option Entry) (es fs : Entries) (is : List ℕ) → IsOver (G.told outside.old) space.old records → length is ≡ depth
        → PieceIs records a es is one.now → PieceIs records b fs is other.now → IsClear is found.old.entries
        → MatchResult result (λ _. Walks a b is found.old.entries found.new.entries) IsFree }
    ensures looks { Looks G.tells (G.told outside.old) (G.told outside.new) space.old space.new }
    ensures counts { Counts counted_tree result (G.counts_of outside.old) (G.counts_of outside.new) }
    ensures causes { IfErr result (IsCause G.tells (G.told outside.old) space.old) }
{
    if is_one_record(one, other) {
        return Ok(());
    }
    let left = fetch_piece(outside, space, one)?;
    let right = fetch_piece(outside, space, other)?;
    if !is_inode(one, &left) || !is_inode(other, &right) {
        put_all(alloc, outside, space, one, left, depth, Side::One, found)?;
        return put_all(
            alloc,
            outside,
            space,
            other,
            right,
            depth,
            Side::Other,
            found,
        );
    }
    if depth >= DEEPEST {
        return Ok(());
    }
    let here = &left;
    let there = &right;
    for index in 0..32u8 {
        let below = child_of(one, here, index);
        let beside = child_of(other, there, index);
        walk_parts(alloc, outside, space, &below, &beside, depth + 1, found)?;
    }
    Ok(())
}
