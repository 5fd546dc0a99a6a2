// Reading the parts of directories on the way to a path, so that what stands beside it can be told.
ghost use Rattle.std.specs.Prelude.{◌≡◌, ◌<◌, ℕ, Option, length, IsTrue, IsFalse, IfErr, IsErrOf};
ghost use Rattle.ip_ground.specs.Counts.{Counts};
ghost use Rattle.ip_space.specs.declared.fault.FetchFault.TheVariants as FetchFault;
ghost use Rattle.ip_spec.specs.Tree.{Tree as Map};
ghost use Rattle.ip_spec.specs.View.{View};
ghost use Rattle.ip_spec.specs.declared.record.Record.{Record};
ghost use Rattle.ip_tree.specs.Edits.{IsDirectory, IsSame};
ghost use Rattle.ip_tree.specs.Faults.{counted_tree};
ghost use Rattle.ip_tree.specs.Meaning.{NodeIs};
ghost use Rattle.ip_tree.specs.Reads.{IsOver, IsFree, Looks, IsCause};
ghost use Rattle.ip_tree.specs.Shown.{shown, shown_directory};
ghost use Rattle.ip_tree.specs.TreeView.{IsView};
ghost use Rattle.ip_tree.specs.declared.tree.TreeFault.TheVariants as TreeFault;

use ip_base::Step;
use ip_ground::Ground;
use ip_shape::dir::exchange;
use ip_shape::places::Places;
use ip_space::Space;
use ip_tree::load::{load_way, unfold};
use ip_tree::place::{put_back, vacant};
use ip_tree::{Directory, Node, Root, Tree, TreeFault};
use std::alloc::Global;

/// Reads each part of a directory on the way to each step of a path, as far as it leads. What the tree holds stays, whatever comes of it.
pub fn load_path<G: Ground>(
    alloc: Global,
    outside: &mut G,
    space: &mut Space,
    tree: &mut Tree,
    path: &[Step],
) -> Result<(), TreeFault>
    requires { 0 < length path.now }
    ensures same { IsTrue G.tells → (records : ℕ → Option Record) (v : View) → IsOver (G.told outside.old) space.old records → IsView records tree.old v
        → IsView records tree.new v × IfErr result IsFree }
    ensures looks { Looks G.tells (G.told outside.old) (G.told outside.new) space.old space.new }
    ensures counts { Counts counted_tree result (G.counts_of outside.old) (G.counts_of outside.new) }
    ensures causes { IfErr result (IsCause G.tells (G.told outside.old) space.old) }
{
    tree.open_root(alloc, outside, space)?;
    match &mut tree.root {
        Root::Loaded(dir) => load_in(alloc, outside, space, dir, path),
        Root::Stored(_) => Err(TreeFault::Memory),
    }
}

/// Below a directory.
#[cycle(steps)]
fn load_in<G: Ground>(
    alloc: Global,
    outside: &mut G,
    space: &mut Space,
    dir: &mut Directory,
    steps: &[Step],
) -> Result<(), TreeFault>
    requires { 0 < length steps.now }
    ensures same { IsTrue G.tells → (records : ℕ → Option Record) (t : Map) → IsOver (G.told outside.old) space.old records → IsDirectory records (shown_directory dir.old) t
        → IsSame (IsDirectory records) records (shown_directory dir.old) (shown_directory dir.new) t × IfErr result IsFree }
    ensures looks { Looks G.tells (G.told outside.old) (G.told outside.new) space.old space.new }
    ensures counts { Counts counted_tree result (G.counts_of outside.old) (G.counts_of outside.new) }
    ensures causes { IfErr result (IsCause G.tells (G.told outside.old) space.old) }
{
    let step = &steps[0];
    let places = Places::of(step);
    load_way(alloc, outside, space, dir, &places)?;
    match exchange(dir, step, vacant(alloc)) {
        None => Ok(()),
        Some(mut node) => {
            let loaded = load_at(alloc, outside, space, &mut node, &steps[1..]);
            put_back(alloc, dir, step, &places, node, false);
            loaded
        }
    }
}

/// At a node.
#[cycle(steps)]
fn load_at<G: Ground>(
    alloc: Global,
    outside: &mut G,
    space: &mut Space,
    node: &mut Node,
    steps: &[Step],
) -> Result<(), TreeFault>
    ensures same { IsTrue G.tells → (records : ℕ → Option Record) (t : Map) → IsOver (G.told outside.old) space.old records → NodeIs records (shown node.old) t
        → IsSame (NodeIs records) records (shown node.old) (shown node.new) t × IfErr result IsFree }
    ensures looks { Looks G.tells (G.told outside.old) (G.told outside.new) space.old space.new }
    ensures counts { Counts counted_tree result (G.counts_of outside.old) (G.counts_of outside.new) }
    ensures causes { IfErr result (IsCause G.tells (G.told outside.old) space.old) }
{
    if steps.is_empty() {
        return Ok(());
    }
    unfold(alloc, outside, space, node)?;
    let Node::Directory(dir) = node else {
        return Ok(());
    };
    load_in(alloc, outside, space, dir, steps)
}
