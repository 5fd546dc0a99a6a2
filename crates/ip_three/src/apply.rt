// Making the edits that turn the left tree into the merge.
ghost use Rattle.std.specs.Prelude.{◌≡◌, ℕ, All, Option, IsTrue, IfErr, IsErrOf, MatchResult};
ghost use Rattle.ip_ground.specs.Counts.{Counts};
ghost use Rattle.ip_space.specs.declared.fault.FetchFault.TheVariants as FetchFault;
ghost use Rattle.ip_spec.specs.Path.{IsPath};
ghost use Rattle.ip_spec.specs.View.{View};
ghost use Rattle.ip_spec.specs.declared.record.Record.{Record};
ghost use Rattle.ip_three.specs.Applying.{IsFound, IsFoundAt, Puts, PutsAll, as_coming, as_edits, node_of};
ghost use Rattle.ip_three.specs.Merging.{less, less_at, more_at};
ghost use Rattle.ip_tree.specs.Faults.{counted_tree};
ghost use Rattle.ip_tree.specs.Reads.{IsOver, IsFree, Looks, IsCause};
ghost use Rattle.ip_tree.specs.Shown.{shown};
ghost use Rattle.ip_tree.specs.TreeView.{IsView};
ghost use Rattle.ip_tree.specs.declared.tree.Tree.{Tree as TheTree};
ghost use Rattle.ip_tree.specs.declared.tree.TreeFault.TheVariants as TreeFault;

use ip_base::{Blob, Path, Step};
use ip_ground::Ground;
use ip_space::Space;
use ip_tree::{Node, Tree, TreeFault};
use std::alloc::Global;

/// What comes to a path.
#[derive(Drop)]
pub enum Coming {
    /// Contents.
    Put(Blob),
    /// What stands there in the right tree.
    Taken(Node),
}

/// What comes to which path.
#[derive(Drop)]
pub struct Edit {
    pub path: Path,
    pub coming: Coming,
}

/// Takes away what stands at each of the paths and under it. Where it fails some of it was taken away.
pub fn remove_all<G: Ground>(
    alloc: Global,
    outside: &mut G,
    space: &mut Space,
    tree: &mut Tree,
    gone: &[Path],
) -> Result<(), TreeFault>
    ensures removes { IsTrue G.tells → (records : ℕ → Option Record) (v : View) → IsOver (G.told outside.old) space.old records → IsView records tree.old v
        → MatchResult result (λ _. IsView records tree.new (less v gone.now)) IsFree }
    ensures looks { Looks G.tells (G.told outside.old) (G.told outside.new) space.old space.new }
    ensures counts { Counts counted_tree result (G.counts_of outside.old) (G.counts_of outside.new) }
    ensures causes { IfErr result (IsCause G.tells (G.told outside.old) space.old) }
{
    for path in gone {
        remove(alloc, outside, space, tree, path.steps())?;
    }
    Ok(())
}

// Takes away what stands at one path and under it.
fn remove<G: Ground>(
    alloc: Global,
    outside: &mut G,
    space: &mut Space,
    tree: &mut Tree,
    path: &[Step],
) -> Result<(), TreeFault>
    ensures removes { IsTrue G.tells → (records : ℕ → Option Record) (v : View) → IsOver (G.told outside.old) space.old records → IsView records tree.old v
        → MatchResult result (λ _. IsView records tree.new (less_at v path.now)) IsFree }
    ensures looks { Looks G.tells (G.told outside.old) (G.told outside.new) space.old space.new }
    ensures counts { Counts counted_tree result (G.counts_of outside.old) (G.counts_of outside.new) }
    ensures causes { IfErr result (IsCause G.tells (G.told outside.old) space.old) }
{
    // The root of a merge stays.
    if path.is_empty() {
        return Err(TreeFault::Memory);
    }
    tree.remove(alloc, outside, space, path)?;
    Ok(())
}

/// Puts what comes, one after the other. Where it fails some of it was put.
pub fn put_all<G: Ground>(
    alloc: Global,
    outside: &mut G,
    space: &mut Space,
    tree: &mut Tree,
    come: Vec<Edit>,
) -> Result<(), TreeFault>
    ensures puts { IsTrue G.tells → (records : ℕ → Option Record) (v r : View) (right : TheTree) → IsOver (G.told outside.old) space.old records → IsView records tree.old v → IsView records right r
        → All (IsFound records r) come.items → PutsAll records r v (as_edits come.items) tree.new result }
    ensures looks { Looks G.tells (G.told outside.old) (G.told outside.new) space.old space.new }
    ensures counts { Counts counted_tree result (G.counts_of outside.old) (G.counts_of outside.new) }
    ensures causes { IfErr result (IsCause G.tells (G.told outside.old) space.old) }
{
    for edit in come {
        let Edit { path, coming } = edit;
        put(alloc, outside, space, tree, path.steps(), coming)?;
    }
    Ok(())
}

// Puts what comes to one path.
fn put<G: Ground>(
    alloc: Global,
    outside: &mut G,
    space: &mut Space,
    tree: &mut Tree,
    path: &[Step],
    coming: Coming,
) -> Result<(), TreeFault>
    ensures puts { IsTrue G.tells → (records : ℕ → Option Record) (v r : View) (right : TheTree) → IsOver (G.told outside.old) space.old records → IsView records tree.old v → IsView records right r
        → IsPath path.now → IsFoundAt records r path.now coming → Puts records (more_at r v path.now (as_coming coming)) tree.new result }
    ensures looks { Looks G.tells (G.told outside.old) (G.told outside.new) space.old space.new }
    ensures counts { Counts counted_tree result (G.counts_of outside.old) (G.counts_of outside.new) }
    ensures causes { IfErr result (IsCause G.tells (G.told outside.old) space.old) }
{
    // The root of a merge stays.
    if path.is_empty() {
        return Err(TreeFault::Memory);
    }
    tree.place(alloc, outside, space, path, node_for(coming))
}

// What comes, as a node.
fn node_for(coming: Coming) -> Node
    ensures { shown result ≡ node_of coming }
{
    match coming {
        Coming::Put(bytes) => Node::Contents(bytes),
        Coming::Taken(node) => node,
    }
}
