// Taking away what stands at a path. What goes is found first, so that nothing has changed where a record can't be read.
ghost use Rattle.std.specs.Prelude.{◌≡◌, ◌<◌, ◌≤◌, ◌&&◌, ◌==◌, ◌^◌, ℕ, suc, cond, Option, length, IsTrue, IsFalse, IfOk, IfErr, IsErrOf};
ghost use Rattle.ip_ground.specs.Counts.{Counts};
ghost use Rattle.ip_space.specs.declared.fault.FetchFault.TheVariants as FetchFault;
ghost use Rattle.ip_tree.specs.Faults.{counted_tree};
ghost use Rattle.ip_spec.specs.Tree.{Tree as Map, is_empty, subtree};
ghost use Rattle.ip_spec.specs.View.{View};
ghost use Rattle.ip_spec.specs.declared.record.Record.{Record};
ghost use Rattle.ip_tree.specs.Edits.{IsDirectory};
ghost use Rattle.ip_tree.specs.Meaning.{NodeIs};
ghost use Rattle.ip_tree.specs.Reads.{IsOver, Looks, IsCause};
ghost use Rattle.ip_tree.specs.Removal.{FindsFront, FindsFrontAt, RemovesFrom, Takes, TakesAt, taken_front};
ghost use Rattle.ip_tree.specs.Shown.{shown, shown_directory};
ghost use Rattle.ip_tree.specs.TreeView.{IsView, Removes};
ghost use Rattle.ip_tree.specs.declared.remove.Front.TheVariants as Front;
ghost use Rattle.ip_tree.specs.declared.tree.TreeFault.TheVariants as TreeFault;

use crate::load::{load_to_remove, load_way, unfold};
use crate::node::{Directory, Node};
use crate::place::{put_back, vacant};
use crate::tree::{Root, Tree, TreeFault};
use ip_base::Step;
use ip_ground::Ground;
use ip_shape::dir::{exchange, remove};
use ip_shape::places::Places;
use ip_space::Space;
use std::alloc::Global;

/// What goes with what stands at a path below a directory.
#[derive(Clone, Copy)]
pub enum Front {
    /// Nothing stands there.
    Nothing,
    /// The entry at so many first steps of the path: below it nothing else stands.
    Steps(usize),
}

impl Tree {
    /// Takes away what stands at a path and under it, and each directory on the path that is empty then; false where nothing stands there.
    /// Where it fails or answers false the tree is what it was, though parts of directories on the path may have been read.
    pub fn remove<G: Ground>(
        &mut self,
        alloc: Global,
        outside: &mut G,
        space: &mut Space,
        path: &[Step],
    ) -> Result<bool, TreeFault>
        requires { 0 < length path.now }
        ensures removes { IsTrue G.tells → (records : ℕ → Option Record) (v : View) → IsOver (G.told outside.old) space.old records → IsView records self.old v
            → Removes records path.now self.new v result }
        ensures looks { Looks G.tells (G.told outside.old) (G.told outside.new) space.old space.new }
        ensures counts { Counts counted_tree result (G.counts_of outside.old) (G.counts_of outside.new) }
        ensures causes { IfErr result (IsCause G.tells (G.told outside.old) space.old) }
    {
        self.open_root(alloc, outside, space)?;
        match &mut self.root {
            Root::Loaded(dir) => remove_from(alloc, outside, space, dir, path),
            Root::Stored(_) => Err(TreeFault::Memory),
        }
    }
}

/// Takes away what stands at a path below a directory, and each directory below it that is empty then; false where nothing stands there.
fn remove_from<G: Ground>(
    alloc: Global,
    outside: &mut G,
    space: &mut Space,
    dir: &mut Directory,
    path: &[Step],
) -> Result<bool, TreeFault>
    requires { 0 < length path.now }
    ensures removes { IsTrue G.tells → (records : ℕ → Option Record) (t : Map) → IsOver (G.told outside.old) space.old records → IsDirectory records (shown_directory dir.old) t
        → RemovesFrom records path.now (shown_directory dir.old) (shown_directory dir.new) t result }
    ensures looks { Looks G.tells (G.told outside.old) (G.told outside.new) space.old space.new }
    ensures counts { Counts counted_tree result (G.counts_of outside.old) (G.counts_of outside.new) }
    ensures causes { IfErr result (IsCause G.tells (G.told outside.old) space.old) }
{
    match front_in(alloc, outside, space, dir, path)? {
        Front::Nothing => Ok(false),
        Front::Steps(count) => {
            take_in(alloc, outside, space, dir, &path[..count])?;
            Ok(true)
        }
    }
}

/// What goes with what stands at a path below a directory. It reads the parts on the way to each step.
#[cycle(front)]
fn front_in<G: Ground>(
    alloc: Global,
    outside: &mut G,
    space: &mut Space,
    dir: &mut Directory,
    steps: &[Step],
) -> Result<Front, TreeFault>
    requires { 0 < length steps.now }
    ensures front { IsTrue G.tells → (records : ℕ → Option Record) (t : Map) → IsOver (G.told outside.old) space.old records → IsDirectory records (shown_directory dir.old) t
        → FindsFront records steps.now (shown_directory dir.old) (shown_directory dir.new) t result }
    ensures within { IfOk result (λ front. (n : ℕ) → front ≡ Front.Steps n → (0 < n) × (n ≤ length steps.now)) }
    ensures looks { Looks G.tells (G.told outside.old) (G.told outside.new) space.old space.new }
    ensures counts { Counts counted_tree result (G.counts_of outside.old) (G.counts_of outside.new) }
    ensures causes { IfErr result (IsCause G.tells (G.told outside.old) space.old) }
{
    let step = &steps[0];
    let places = Places::of(step);
    load_way(alloc, outside, space, dir, &places)?;
    match exchange(dir, step, vacant(alloc)) {
        None => Ok(Front::Nothing),
        Some(mut node) => {
            let front = front_at(alloc, outside, space, &mut node, &steps[1..]);
            put_back(alloc, dir, step, &places, node, false);
            front
        }
    }
}

/// The same of a node at a step, counted from above it.
#[cycle(front)]
fn front_at<G: Ground>(
    alloc: Global,
    outside: &mut G,
    space: &mut Space,
    node: &mut Node,
    steps: &[Step],
) -> Result<Front, TreeFault>
    ensures front { IsTrue G.tells → (records : ℕ → Option Record) (t : Map) → IsOver (G.told outside.old) space.old records → NodeIs records (shown node.old) t
        → FindsFrontAt records steps.now (shown node.old) (shown node.new) t result }
    ensures within { IfOk result (λ front. (n : ℕ) → front ≡ Front.Steps n → (0 < n) × (n ≤ suc (length steps.now))) }
    ensures looks { Looks G.tells (G.told outside.old) (G.told outside.new) space.old space.new }
    ensures counts { Counts counted_tree result (G.counts_of outside.old) (G.counts_of outside.new) }
    ensures causes { IfErr result (IsCause G.tells (G.told outside.old) space.old) }
{
    if steps.is_empty() {
        return Ok(Front::Steps(1));
    }
    unfold(alloc, outside, space, node)?;
    let Node::Directory(dir) = node else {
        return Ok(Front::Nothing);
    };
    let front = front_in(alloc, outside, space, dir, steps)?;
    Ok(above(front, dir.root().count()))
}

// What goes, counted from above a directory with so many entries: where its only entry goes, it goes itself.
fn above(front: Front, entries: usize) -> Front
    requires { (n : ℕ) → front ≡ Front.Steps n → n < 2 ^ 63 }
    ensures nothing { front ≡ Front.Nothing → result ≡ Front.Nothing }
    ensures steps { (n : ℕ) → front ≡ Front.Steps n → result ≡ Front.Steps (cond (n == 1 && entries == 1) 1 (suc n)) }
{
    match front {
        Front::Nothing => Front::Nothing,
        Front::Steps(1) if entries == 1 => Front::Steps(1),
        Front::Steps(count) => Front::Steps(count + 1),
    }
}

/// Takes out the entry at the last of the steps. Each directory on the way to it holds something else.
#[cycle(take)]
fn take_in<G: Ground>(
    alloc: Global,
    outside: &mut G,
    space: &mut Space,
    dir: &mut Directory,
    steps: &[Step],
) -> Result<(), TreeFault>
    requires { 0 < length steps.now }
    ensures taken { IsTrue G.tells → (records : ℕ → Option Record) (t : Map) → IsOver (G.told outside.old) space.old records → IsDirectory records (shown_directory dir.old) t
        → IsFalse (is_empty (subtree t steps.now)) → length steps.now ≡ taken_front t steps.now → Takes records steps.now (shown_directory dir.old) (shown_directory dir.new) t result }
    ensures looks { Looks G.tells (G.told outside.old) (G.told outside.new) space.old space.new }
    ensures counts { Counts counted_tree result (G.counts_of outside.old) (G.counts_of outside.new) }
    ensures causes { IfErr result (IsCause G.tells (G.told outside.old) space.old) }
{
    let step = &steps[0];
    let places = Places::of(step);
    if steps.len() == 1 {
        load_to_remove(alloc, outside, space, dir, step, &places)?;
        remove(alloc, dir, step, &places)?;
        return Ok(());
    }
    match exchange(dir, step, vacant(alloc)) {
        // The front was found through a directory there, the way to which was read.
        None => Err(TreeFault::Memory),
        Some(mut node) => {
            let taken = take_at(alloc, outside, space, &mut node, &steps[1..]);
            put_back(alloc, dir, step, &places, node, taken.is_ok());
            taken
        }
    }
}

/// The same below a node that is a directory, of which something is left.
#[cycle(take)]
fn take_at<G: Ground>(
    alloc: Global,
    outside: &mut G,
    space: &mut Space,
    node: &mut Node,
    steps: &[Step],
) -> Result<(), TreeFault>
    requires { 0 < length steps.now }
    ensures taken { IsTrue G.tells → (records : ℕ → Option Record) (t : Map) → IsOver (G.told outside.old) space.old records → NodeIs records (shown node.old) t
        → IsFalse (is_empty (subtree t steps.now)) → length steps.now ≡ taken_front t steps.now → TakesAt records steps.now (shown node.old) (shown node.new) t result }
    ensures looks { Looks G.tells (G.told outside.old) (G.told outside.new) space.old space.new }
    ensures counts { Counts counted_tree result (G.counts_of outside.old) (G.counts_of outside.new) }
    ensures causes { IfErr result (IsCause G.tells (G.told outside.old) space.old) }
{
    match node {
        Node::Directory(dir) => take_in(alloc, outside, space, dir, steps),
        // The front was found through it.
        _ => Err(TreeFault::Memory),
    }
}
