// What is new below each directory of a tree that was loaded. It is counted once, for the walks that follow: these go by it to what is new and past what is not.
ghost use Rattle.std.specs.Prelude.{◌≡◌, ◌++◌, ◌∷◌, [], drop, length, None, IfOk};
ghost use Rattle.ip_save.specs.Laid.{BeginsWith, behind_first, behind_refs, fresh, fresh_among, new_in, no_tally, nodes_in, record_of, tallies, tallies_among, tallies_root};
ghost use Rattle.ip_shape.specs.Directory.{root_of};
ghost use Rattle.ip_tree.specs.Shown.{shown, shown_directory, shown_root};

use crate::measure::{record_of, room_of};
use ip_base::Memory;
use ip_tree::{Directory, Node, Root, Stored};
use std::alloc::Global;

/// What lies below a directory that was loaded: nothing, where a record is known to spell it.
#[derive(Clone, Copy)]
pub struct Tally {
    /// How many new contents.
    pub new: usize,
    /// How many directories that were gone through. Their tallies stand behind this one.
    pub directories: usize,
}

/// What lies below the directories of a tree.
#[derive(Drop)]
pub struct Tallied {
    /// The root's tally first, each before those of the directories below it, in the order of paths.
    pub ahead: Vec<Tally>,
    /// How many bytes the records of the directories will take, as a hint.
    pub room: usize,
}

/// The tallies of the directories of a tree. Where a record is known to spell a directory nothing below it is new, and it is not gone through.
pub fn tally_root(alloc: Global, root: &Root) -> Result<Tallied, Memory>
    ensures { IfOk result (λ tallied. tallied.ahead.items ≡ tallies_root (shown_root root.now)) }
{
    let mut out = Vec::new(alloc);
    let room = match root {
        Root::Stored(_) => 0,
        Root::Loaded(dir) => tally_directory(dir, &mut out)?.room,
    };
    Ok(Tallied { ahead: out, room })
}

// What is new below a directory: how many contents, and how many bytes the records of directories will take.
#[derive(Clone, Copy)]
struct Below {
    new: usize,
    room: usize,
}

// Puts a directory's tally and those below it behind the others, and answers what is new below it.
#[cycle(tally)]
fn tally_directory(dir: &Directory, out: &mut Vec<Tally>) -> Result<Below, Memory>
    ensures { IfOk result (λ below. (below.new ≡ length (fresh (shown_directory dir.now))) × (out.new.items ≡ out.old.items ++ tallies (shown_directory dir.now))) }
{
    match record_of(dir.root()) {
        Some(_) => tally_known(out),
        None => tally_new(dir, out),
    }
}

// The same of one that a record is known to spell.
fn tally_known(out: &mut Vec<Tally>) -> Result<Below, Memory>
    ensures { IfOk result (λ below. (below.new ≡ 0) × (out.new.items ≡ out.old.items ++ no_tally ∷ [])) }
{
    out.push(Tally {
        new: 0,
        directories: 0,
    })?;
    Ok(Below { new: 0, room: 0 })
}

// The same of one that no record is known to spell.
#[cycle(tally)]
fn tally_new(dir: &Directory, out: &mut Vec<Tally>) -> Result<Below, Memory>
    ensures { record_of (root_of dir.now) ≡ None → IfOk result (λ below. (below.new ≡ length (fresh (shown_directory dir.now))) × (out.new.items ≡ out.old.items ++ tallies (shown_directory dir.now))) }
{
    let at = out.len();
    out.push(Tally {
        new: 0,
        directories: 0,
    })?;
    let below = tally_entries(dir, out)?;
    let directories = out.len() - at - 1;
    out[at] = Tally {
        new: below.new,
        directories,
    };
    Ok(Below {
        new: below.new,
        room: below.room.saturating_add(room_of(dir.root())),
    })
}

// The same of those below its entries. So many new contents that they cannot be counted are no room.
#[cycle(tally)]
fn tally_entries(dir: &Directory, out: &mut Vec<Tally>) -> Result<Below, Memory>
    ensures { IfOk result (λ below. (below.new ≡ length (fresh_among (nodes_in dir.now))) × (out.new.items ≡ out.old.items ++ tallies_among (nodes_in dir.now))) }
{
    let mut new: usize = 0;
    let mut room: usize = 0;
    for (_, node) in dir.entries() {
        let below = tally_node(node, out)?;
        let Some(more) = new.checked_add(below.new) else {
            return Err(Memory);
        };
        new = more;
        room = room.saturating_add(below.room);
    }
    Ok(Below { new, room })
}

#[cycle(tally)]
fn tally_node(node: &Node, out: &mut Vec<Tally>) -> Result<Below, Memory>
    ensures { IfOk result (λ below. (below.new ≡ length (fresh (shown node.now))) × (out.new.items ≡ out.old.items ++ tallies (shown node.now))) }
{
    match node {
        Node::Stored(_) => Ok(Below { new: 0, room: 0 }),
        Node::Contents(_) => Ok(Below { new: 1, room: 0 }),
        Node::Directory(dir) => tally_directory(dir, out),
    }
}

/// How many new contents there are below the directory whose tally is the first.
pub fn new_in(ahead: &[Tally]) -> usize
    ensures { result ≡ new_in ahead.now }
{
    match ahead.first() {
        Some(tally) => tally.new,
        None => 0,
    }
}

/// The tallies behind the first.
pub fn inside(ahead: &[Tally]) -> &[Tally]
    ensures { result.now ≡ drop 1 ahead.now }
{
    from(ahead, 1)
}

// The tallies behind those of the directory whose tally is the first.
fn behind_first(ahead: &[Tally]) -> &[Tally]
    ensures { result.now ≡ behind_first ahead.now }
{
    match ahead.split_first() {
        Some((tally, rest)) => from(rest, tally.directories),
        None => ahead,
    }
}

/// The tallies behind those of a node, which are the first.
pub fn behind<'a>(node: &Node, ahead: &'a [Tally]) -> &'a [Tally]
    ensures { BeginsWith (tallies (shown node.now)) ahead.now → result.now ≡ drop (length (tallies (shown node.now))) ahead.now }
{
    match node {
        Node::Stored(_) => ahead,
        Node::Contents(_) => ahead,
        Node::Directory(_) => behind_first(ahead),
    }
}

/// What refers to the new contents behind those at a node, where the first of `refs` refer to these, and the first tallies are the node's.
pub fn behind_new<'a>(node: &Node, ahead: &[Tally], refs: &'a [Stored]) -> &'a [Stored]
    ensures { BeginsWith (tallies (shown node.now)) ahead.now → result.now ≡ behind_refs (shown node.now) refs.now }
{
    match node {
        Node::Stored(_) => refs,
        Node::Contents(_) => from(refs, 1),
        Node::Directory(_) => from(refs, new_in(ahead)),
    }
}

// All but so many of the first.
fn from<T>(items: &[T], count: usize) -> &[T]
    ensures { result.now ≡ drop count items.now }
{
    if count <= items.len() {
        &items[count..]
    } else {
        &[]
    }
}
