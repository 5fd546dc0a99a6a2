// Parts of directories, as a walk through two of them meets them.
ghost use Rattle.std.specs.Prelude.{◌≡◌, ◌<◌, ◌≤◌, ◌++◌, ◌∷◌, ℕ, [], List, true, false, length, Option, Some, None, option_map, IsTrue, IfErr, IsErrOf, MatchResult};
ghost use Rattle.ip_ground.specs.Counts.{Counts};
ghost use Rattle.ip_shape.specs.Directory.{root_of};
ghost use Rattle.ip_shape.specs.Reading.{child_in};
ghost use Rattle.ip_shape.specs.declared.part.Part.{out-Part};
ghost use Rattle.ip_space.specs.declared.fault.FetchFault.TheVariants as FetchFault;
ghost use Rattle.ip_spec.specs.Path.{Path, Step};
ghost use Rattle.ip_spec.specs.Shape.{Entries, deepest};
ghost use Rattle.ip_spec.specs.Tree.{entries_of, subtree};
ghost use Rattle.ip_spec.specs.View.{View};
ghost use Rattle.ip_spec.specs.declared.record.Record.{Record};
ghost use Rattle.ip_tree.specs.Faults.{counted_tree};
ghost use Rattle.ip_tree.specs.Finding.{IsPlaceOf, as_node};
ghost use Rattle.ip_tree.specs.Node as view;
ghost use Rattle.ip_tree.specs.Reads.{IsOver, IsFree, Looks, IsCause, children_read, record_of};
ghost use Rattle.ip_tree.specs.Shown.{shown_directory};
ghost use Rattle.ip_tree.specs.declared.look.Place.TheVariants as Place;
ghost use Rattle.ip_tree.specs.declared.node.Stored.{Stored};
ghost use Rattle.ip_tree.specs.declared.tree.TreeFault.TheVariants as TreeFault;
ghost use Rattle.ip_differ.specs.Differing.{IsDirectoryAt};
ghost use Rattle.ip_differ.specs.declared.pairs.Entry.{Entry};
ghost use Rattle.ip_differ.specs.Pieces.{IsHeld, IsRead, IsUnreadPart, OpenedIs, PieceIs, at_place, has_children, in_directory, is_inode_content, is_inode_layer, is_one_record};

use ip_ground::Ground;
use ip_shape::part::Part;
use ip_space::Space;
use ip_spec::kind;
use ip_spec::record::InodeChild;
use ip_tree::below::stored_child;
use ip_tree::fetch::{Content, fetch_part};
use ip_tree::look::Place;
use ip_tree::{Directory, Stored, TreeFault};

/// A part of a directory.
#[derive(Clone, Copy)]
pub enum Piece<'a> {
    /// There is none: no directory stands there, or no entry has these indexes.
    Nothing,
    /// A record that was not read.
    Unread(Stored),
    /// A part that was read, and the directory that has it.
    Read(&'a Directory, &'a Part<Stored>),
}

/// The whole of what stands at a place.
pub fn piece_of<'a>(place: &Option<Place<'a>>) -> Piece<'a>
    ensures { (records : ℕ → Option Record) (w : View) (p : Path) → IsDirectoryAt records w p (option_map as_node place.now)
        → PieceIs records (at_place records place.now) (entries_of (subtree w.map p)).entries [] result }
{
    match place {
        Some(place) => place_piece(place),
        None => Piece::Nothing,
    }
}

fn place_piece<'a>(place: &Place<'a>) -> Piece<'a>
    ensures { (records : ℕ → Option Record) (w : View) (p : Path) → IsPlaceOf records w p (as_node place.now)
        → PieceIs records (at_place records (Some place.now)) (entries_of (subtree w.map p)).entries [] result }
{
    match place {
        Place::Stored(stored) => unread_piece(stored),
        Place::Contents(_) => Piece::Nothing,
        Place::Directory(dir) => whole_piece(dir),
    }
}

fn whole_piece<'a>(dir: &'a Directory) -> Piece<'a>
    ensures { (records : ℕ → Option Record) (w : View) (p : Path) → IsPlaceOf records w p (shown_directory dir.now)
        → PieceIs records (in_directory records dir.now) (entries_of (subtree w.map p)).entries [] result }
{
    part_piece(dir, dir.root())
}

// Contents have no parts.
fn unread_piece<'a>(stored: &Stored) -> Piece<'a>
    ensures { (records : ℕ → Option Record) (w : View) (p : Path) → IsPlaceOf records w p (view.stored stored.now)
        → PieceIs records (at_place records (Some (Place.Stored stored.now))) (entries_of (subtree w.map p)).entries [] result }
{
    if stored.reference.kind == kind::CONTENTS {
        return Piece::Nothing;
    }
    Piece::Unread(*stored)
}

// A part of a directory, read or not.
fn part_piece<'a>(dir: &'a Directory, part: &'a Part<Stored>) -> Piece<'a>
    ensures { (records : ℕ → Option Record) (a : Step → Option Entry) (es : Entries) (is : List ℕ) → length is ≤ deepest → IsHeld records a es is dir.now part.now → PieceIs records a es is result }
{
    match part {
        Part::Unread { record, .. } => Piece::Unread(*record),
        Part::Leaf { .. } => Piece::Read(dir, part),
        Part::Inode { .. } => Piece::Read(dir, part),
    }
}

/// Whether both are one record that was not read. Of a part that was read the entries may have been read too, so it is gone into whatever record it is known to be in.
pub fn is_one_record(one: &Piece<'_>, other: &Piece<'_>) -> bool
    ensures { result ≡ is_one_record one.now other.now }
{
    match (one, other) {
        (Piece::Unread(here), Piece::Unread(there)) => here.reference.at == there.reference.at,
        _ => false,
    }
}

/// What the record of a piece holds, if that was not read.
pub fn fetch_piece<G: Ground>(
    outside: &mut G,
    space: &mut Space,
    piece: &Piece<'_>,
) -> Result<Option<Content>, TreeFault>
    ensures opened { IsTrue G.tells → (records : ℕ → Option Record) (a : Step → Option Entry) (es : Entries) (is : List ℕ) → IsOver (G.told outside.old) space.old records
        → PieceIs records a es is piece.now → MatchResult result (OpenedIs records a es is piece.now) IsFree }
    ensures looks { Looks G.tells (G.told outside.old) (G.told outside.new) space.old space.new }
    ensures counts { Counts counted_tree result (G.counts_of outside.old) (G.counts_of outside.new) }
    ensures causes { IfErr result (IsCause G.tells (G.told outside.old) space.old) }
{
    match piece {
        Piece::Nothing => Ok(None),
        Piece::Unread(stored) => {
            let content = fetch_part(outside, space, &stored.reference)?;
            Ok(Some(content))
        }
        Piece::Read(_, _) => Ok(None),
    }
}

/// Whether a piece has children, with what its record holds, if that was fetched.
pub fn is_inode(piece: &Piece<'_>, content: &Option<Content>) -> bool
    ensures { result ≡ has_children piece.now content.now }
{
    match content {
        Some(content) => is_inode_record(content),
        None => is_inode_piece(piece),
    }
}

fn is_inode_record(content: &Content) -> bool
    ensures { result ≡ is_inode_content content.now }
{
    match content {
        Content::Leaf(_) => false,
        Content::Inode { .. } => true,
    }
}

fn is_inode_piece(piece: &Piece<'_>) -> bool
    ensures { result ≡ has_children piece.now None }
{
    match piece {
        Piece::Nothing => false,
        Piece::Unread(_) => false,
        Piece::Read(_, part) => is_inode_part(part),
    }
}

fn is_inode_part(part: &Part<Stored>) -> bool
    ensures { result ≡ is_inode_layer (out-Part Stored part.now) }
{
    match part {
        Part::Leaf { .. } => false,
        Part::Inode { .. } => true,
        Part::Unread { .. } => false,
    }
}

/// The child at an index.
pub fn child_of<'a>(piece: &Piece<'a>, content: &Option<Content>, index: u8) -> Piece<'a>
    requires { index < 32 }
    ensures { (records : ℕ → Option Record) (a : Step → Option Entry) (es : Entries) (is : List ℕ) → length is < deepest → has_children piece.now content.now ≡ true
        → OpenedIs records a es is piece.now content.now → PieceIs records a es (is ++ index ∷ []) result }
{
    match content {
        Some(content) => fetched_child(content, index),
        None => held_child(piece, index),
    }
}

// Of a piece that was read.
fn held_child<'a>(piece: &Piece<'a>, index: u8) -> Piece<'a>
    requires { index < 32 }
    ensures { (records : ℕ → Option Record) (a : Step → Option Entry) (es : Entries) (is : List ℕ) → length is < deepest → has_children piece.now None ≡ true
        → OpenedIs records a es is piece.now None → PieceIs records a es (is ++ index ∷ []) result }
{
    match piece {
        Piece::Nothing => Piece::Nothing,
        Piece::Unread(_) => Piece::Nothing,
        Piece::Read(dir, part) => read_child(dir, part, index),
    }
}

// Of a record.
fn fetched_child<'a>(content: &Content, index: u8) -> Piece<'a>
    ensures { (records : ℕ → Option Record) (a : Step → Option Entry) (es : Entries) (is : List ℕ) (x : Stored) → is_inode_content content.now ≡ true → IsUnreadPart records a es is x
        → records x.reference.at ≡ Some (record_of content.now) → PieceIs records a es (is ++ index ∷ []) result }
{
    match content {
        Content::Leaf(_) => Piece::Nothing,
        Content::Inode { children, .. } => match child_at(children.as_slice(), index) {
            Some(stored) => Piece::Unread(stored),
            None => Piece::Nothing,
        },
    }
}

fn child_at(children: &[InodeChild], index: u8) -> Option<Stored>
    ensures { result ≡ option_map (λ c. c.0) (child_in index (children_read children.now)) }
{
    for child in children {
        if child.index == index {
            return Some(stored_child(child));
        }
    }
    None
}

// Of a part that was read.
fn read_child<'a>(dir: &'a Directory, part: &'a Part<Stored>, index: u8) -> Piece<'a>
    requires { index < 32 }
    ensures { (records : ℕ → Option Record) (a : Step → Option Entry) (es : Entries) (is : List ℕ) → length is < deepest → is_inode_layer (out-Part Stored part.now) ≡ true
        → IsRead records a es is dir.now part.now → PieceIs records a es (is ++ index ∷ []) result }
{
    match part {
        Part::Inode { children, .. } => match children.get(index as usize) {
            Some(child) => part_piece(dir, child),
            None => Piece::Nothing,
        },
        _ => Piece::Nothing,
    }
}
