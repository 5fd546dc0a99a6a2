// Putting a node at a path.
ghost use Rattle.std.specs.Prelude.{◌≡◌, ◌<◌, ℕ, true, [], ◌∷◌, List, Option, length, is_some, IsTrue, IfOk, IfErr, IsErrOf};
ghost use Rattle.std.specs.FinMap.Entries.{find, put};
ghost use Rattle.sha2.specs.Sha256.{sha256};
ghost use Rattle.ip_ground.specs.Counts.{Counts};
ghost use Rattle.ip_space.specs.declared.fault.FetchFault.TheVariants as FetchFault;
ghost use Rattle.ip_tree.specs.Faults.{counted_tree};
ghost use Rattle.ip_shape.specs.Directory.{IsPartly, root_of};
ghost use Rattle.ip_shape.specs.Loaded.{IsEdited};
ghost use Rattle.ip_shape.specs.Shape.{ByTest};
ghost use Rattle.ip_spec.specs.Path.{Step as TheStep, bytes_cmp};
ghost use Rattle.ip_spec.specs.Tree.{Tree as Map};
ghost use Rattle.ip_spec.specs.View.{View};
ghost use Rattle.ip_spec.specs.declared.record.Record.{Record};
ghost use Rattle.ip_tree.specs.Edits.{IsDirectory, IsNewAt};
ghost use Rattle.ip_tree.specs.Meaning.{NodeIs};
ghost use Rattle.ip_tree.specs.Node as view;
ghost use Rattle.ip_tree.specs.Placing.{IsChain, Places, PlacesTree};
ghost use Rattle.ip_tree.specs.Reads.{IsOver, IsOwn, Looks, IsCause};
ghost use Rattle.ip_tree.specs.Shown.{shown, shown_directory};
ghost use Rattle.ip_tree.specs.TreeView.{IsView};
ghost use Rattle.ip_tree.specs.declared.node.Node.{Node};
ghost use Rattle.ip_tree.specs.declared.tree.TreeFault.TheVariants as TreeFault;

use crate::load::{load_way, unfold};
use crate::node::{Directory, Node};
use crate::tree::{Root, Tree, TreeFault};
use ip_base::limit::ENTRIES_MAX;
use ip_base::{Blob, Limit, Memory, Step};
use ip_ground::Ground;
use ip_shape::dir::{Dir, exchange, forget, insert};
use ip_shape::places::Places as StepPlaces;
use ip_space::Space;
use std::alloc::Global;

impl Tree {
    /// Puts a node at a path, in place of what stands there, under it, or at a step before its last. Where it fails the tree is what it
    /// was, though parts of directories on the path may have been read.
    pub fn place<G: Ground>(
        &mut self,
        alloc: Global,
        outside: &mut G,
        space: &mut Space,
        path: &[Step],
        part: Node,
    ) -> Result<(), TreeFault>
        requires { 0 < length path.now }
        ensures place { IsTrue G.tells → (records : ℕ → Option Record) (v : View) (sub : Map) → IsOver (G.told outside.old) space.old records → IsView records self.old v → NodeIs records (shown part) sub
            → PlacesTree records path.now (shown part) sub self.new v result }
        ensures looks { Looks G.tells (G.told outside.old) (G.told outside.new) space.old space.new }
        ensures counts { Counts counted_tree result (G.counts_of outside.old) (G.counts_of outside.new) }
        ensures causes { IfErr result (IsCause G.tells (G.told outside.old) space.old) }
    {
        self.open_root(alloc, outside, space)?;
        match &mut self.root {
            Root::Loaded(dir) => place_in(alloc, outside, space, dir, path, part),
            Root::Stored(_) => Err(TreeFault::Memory),
        }
    }
}

/// Puts a node at a path below a directory.
#[cycle(place)]
fn place_in<G: Ground>(
    alloc: Global,
    outside: &mut G,
    space: &mut Space,
    dir: &mut Directory,
    steps: &[Step],
    part: Node,
) -> Result<(), TreeFault>
    requires { 0 < length steps.now }
    ensures place { IsTrue G.tells → (records : ℕ → Option Record) (t sub : Map) → IsOver (G.told outside.old) space.old records → IsDirectory records (shown_directory dir.old) t → NodeIs records (shown part) sub
        → Places (IsDirectory records) records steps.now (shown part) sub (shown_directory dir.old) (shown_directory dir.new) t result }
    ensures looks { Looks G.tells (G.told outside.old) (G.told outside.new) space.old space.new }
    ensures counts { Counts counted_tree result (G.counts_of outside.old) (G.counts_of outside.new) }
    ensures causes { IfErr result (IsCause G.tells (G.told outside.old) space.old) }
{
    let step = &steps[0];
    let places = StepPlaces::of(step);
    load_way(alloc, outside, space, dir, &places)?;
    match exchange(dir, step, vacant(alloc)) {
        None => add(alloc, dir, step, &places, &steps[1..], part),
        Some(mut node) => {
            let placed = place_at(alloc, outside, space, &mut node, &steps[1..], part);
            put_back(alloc, dir, step, &places, node, placed.is_ok());
            placed
        }
    }
}

/// Puts a node at a path below another, or in its place.
#[cycle(place)]
fn place_at<G: Ground>(
    alloc: Global,
    outside: &mut G,
    space: &mut Space,
    node: &mut Node,
    steps: &[Step],
    part: Node,
) -> Result<(), TreeFault>
    ensures place { IsTrue G.tells → (records : ℕ → Option Record) (t sub : Map) → IsOver (G.told outside.old) space.old records → NodeIs records (shown node.old) t → NodeIs records (shown part) sub
        → Places (NodeIs records) records steps.now (shown part) sub (shown node.old) (shown node.new) t result }
    ensures looks { Looks G.tells (G.told outside.old) (G.told outside.new) space.old space.new }
    ensures counts { Counts counted_tree result (G.counts_of outside.old) (G.counts_of outside.new) }
    ensures causes { IfErr result (IsCause G.tells (G.told outside.old) space.old) }
{
    if steps.is_empty() {
        *node = part;
        return Ok(());
    }
    unfold(alloc, outside, space, node)?;
    match node {
        Node::Directory(dir) => place_in(alloc, outside, space, dir, steps, part),
        _ => {
            *node = chain(alloc, steps, part)?;
            Ok(())
        }
    }
}

/// What stands at a step while what stood there is edited. It takes no memory.
pub fn vacant(alloc: Global) -> Node
    ensures { shown result ≡ view.contents [] }
{
    Node::Contents(Blob::empty(alloc))
}

/// Puts what was edited back at its step, which has these places. Where it was changed, no part on the way to it is known any more.
pub fn put_back(
    alloc: Global,
    dir: &mut Directory,
    step: &Step,
    places: &StepPlaces,
    node: Node,
    is_changed: bool,
)
    requires { places.now ≡ sha256 step.now }
    ensures { (steps : List TheStep) (es : List (TheStep × Node)) → IsPartly dir.old steps es → is_some (find bytes_cmp step.now es) ≡ true →
        IsPartly dir.new steps (put bytes_cmp step.now node es) × ByTest is_changed (IsEdited 0 step.now (root_of dir.old) (root_of dir.new)) (root_of dir.new ≡ root_of dir.old) }
{
    exchange(dir, step, node);
    if is_changed {
        forget(alloc, dir, step, places);
    }
}

/// Adds an entry for a step of these places, with new directories for the steps behind it from there down to the node.
fn add(
    alloc: Global,
    dir: &mut Directory,
    step: &Step,
    places: &StepPlaces,
    behind: &[Step],
    part: Node,
) -> Result<(), TreeFault>
    requires { places.now ≡ sha256 step.now }
    ensures place { (records : ℕ → Option Record) (t sub : Map) → IsDirectory records (shown_directory dir.old) t → IsNewAt (step.now ∷ behind.now) (shown_directory dir.old) → NodeIs records (shown part) sub
        → Places (IsDirectory records) records (step.now ∷ behind.now) (shown part) sub (shown_directory dir.old) (shown_directory dir.new) t result }
    ensures own { IfErr result IsOwn }
{
    if dir.root().count() >= ENTRIES_MAX {
        return Err(TreeFault::Limit(Limit::Entries));
    }
    let node = chain(alloc, behind, part)?;
    insert(alloc, dir, step, places, node)?;
    Ok(())
}

/// New directories one in another down to a node.
fn chain(alloc: Global, steps: &[Step], part: Node) -> Result<Node, Memory>
    ensures { IfOk result (λ node. (records : ℕ → Option Record) (sub : Map) → NodeIs records (shown part) sub → IsChain records steps.now (shown part) sub (shown node)) }
{
    if steps.is_empty() {
        return Ok(part);
    }
    let inner = chain(alloc, &steps[1..], part)?;
    let mut dir = Dir::empty(alloc);
    let step = &steps[0];
    insert(alloc, &mut dir, step, &StepPlaces::of(step), inner)?;
    Ok(Node::Directory(dir))
}
