// Trees over a store's records.
ghost use Rattle.std.specs.Prelude.{◌≡◌, ◌<◌, length, Err, IfErr, IsTrue, MatchResult};
ghost use Rattle.ip_base.specs.declared.limit.Limit.TheVariants as Limit;
ghost use Rattle.ip_held.specs.Causes.{IsStoreCause};
ghost use Rattle.ip_held.specs.Faults.{counted_store};
ghost use Rattle.ip_tree.specs.Faults.{counted_tree};
ghost use Rattle.ip_ground.specs.Counts.{Counts};
ghost use Rattle.ip_space.specs.SpaceView.{IsReadable, records_of};
ghost use Rattle.ip_spec.specs.Path.{IsPath};
ghost use Rattle.ip_spec.specs.Repository.{Repository, is_retained, name_at};
ghost use Rattle.ip_spec.specs.Step.{contents_limit};
ghost use Rattle.ip_spec.specs.Tree.{got_at, listed_at};
ghost use Rattle.ip_spec.specs.View.{View};
ghost use Rattle.ip_tree.specs.Reads.{IsCause, IsFree};
ghost use Rattle.ip_tree.specs.TreeView.{IsView, Sets, Removes, Grafts};
ghost use Rattle.ip_tree.specs.declared.tree.TreeFault.TheVariants as TreeFault;
ghost use Rattle.ip_held.specs.Showing.{IsFetchedOr, BlamesCommit, Damages};
ghost use Rattle.ip_held.specs.Held.{IsOf, Holds, SameTables, image_records, place_of_commit};
ghost use Rattle.ip_held.specs.Trees.{OnlyLooks, IsTreeOf};
ghost use Rattle.ip_held.specs.declared.fault.StoreFault.TheVariants as StoreFault;

use crate::commit::root_of;
use ip_base::{Number, Step};
use ip_ground::Ground;
use ip_held::{Held, StoreFault};
use ip_spec::tree::{Got, Listed};
use ip_tree::{Tree, TreeFault};
use std::alloc::Global;

/// What stands at a path of a tree; no steps are the root, which is a directory though it may be empty. A fault but for want of memory
/// comes only where a call on the ground failed or others changed the files: the store may not be used any more after it.
pub fn get<G: Ground>(
    store: &mut Held,
    alloc: Global,
    outside: &mut G,
    tree: &Tree,
    path: &[Step],
) -> Result<Got, TreeFault>
    ensures got { IsTrue G.tells → (r : Repository) (v : View) (held : Holds store.old (G.told outside.old) r) → IsView (image_records held) tree.now v
        → MatchResult result (λ got. got ≡ got_at v.map path.now) IsFree }
    ensures same { SameTables store.old store.new }
    ensures looks { IsTrue G.tells → OnlyLooks (G.told outside.old) (G.told outside.new) store.old store.new }
    ensures counts { Counts counted_tree result (G.counts_of outside.old) (G.counts_of outside.new) }
    ensures causes { IfErr result (IsCause G.tells (G.told outside.old) store.old.space) }
{
    tree.get(alloc, outside, &mut store.space, path)
}

/// What is listed at a path of a tree. Faults are as those of `get`.
pub fn list<G: Ground>(
    store: &mut Held,
    alloc: Global,
    outside: &mut G,
    tree: &Tree,
    path: &[Step],
) -> Result<Listed, TreeFault>
    ensures listed { IsTrue G.tells → (r : Repository) (v : View) (held : Holds store.old (G.told outside.old) r) → IsView (image_records held) tree.now v
        → MatchResult result (λ listed. listed ≡ listed_at v.map path.now) IsFree }
    ensures same { SameTables store.old store.new }
    ensures looks { IsTrue G.tells → OnlyLooks (G.told outside.old) (G.told outside.new) store.old store.new }
    ensures counts { Counts counted_tree result (G.counts_of outside.old) (G.counts_of outside.new) }
    ensures causes { IfErr result (IsCause G.tells (G.told outside.old) store.old.space) }
{
    tree.list(alloc, outside, &mut store.space, path)
}

/// Puts contents at a path of a tree, in place of what stands there, under it, or at a step before its last. Where it fails the tree is
/// what it was. Faults but for limits are as those of `get`.
pub fn set<G: Ground>(
    store: &mut Held,
    alloc: Global,
    outside: &mut G,
    tree: &mut Tree,
    path: &[Step],
    value: &[u8],
) -> Result<(), TreeFault>
    requires { IsPath path.now }
    ensures sets { IsTrue G.tells → (r : Repository) (v : View) (held : Holds store.old (G.told outside.old) r) → IsView (image_records held) tree.old v
        → Sets (image_records held) path.now value.now tree.new v result }
    ensures same { SameTables store.old store.new }
    ensures long { contents_limit < length value.now → result ≡ Err (TreeFault.Limit Limit.Contents) }
    ensures looks { IsTrue G.tells → OnlyLooks (G.told outside.old) (G.told outside.new) store.old store.new }
    ensures counts { Counts counted_tree result (G.counts_of outside.old) (G.counts_of outside.new) }
    ensures causes { IfErr result (IsCause G.tells (G.told outside.old) store.old.space) }
{
    tree.set(alloc, outside, &mut store.space, path, value)
}

/// Takes away what stands at a path of a tree and under it; false where nothing stands there. Where it fails the tree is what it was.
/// Faults are as those of `get`.
pub fn remove<G: Ground>(
    store: &mut Held,
    alloc: Global,
    outside: &mut G,
    tree: &mut Tree,
    path: &[Step],
) -> Result<bool, TreeFault>
    requires { IsPath path.now }
    ensures removes { IsTrue G.tells → (r : Repository) (v : View) (held : Holds store.old (G.told outside.old) r) → IsView (image_records held) tree.old v
        → Removes (image_records held) path.now tree.new v result }
    ensures same { SameTables store.old store.new }
    ensures looks { IsTrue G.tells → OnlyLooks (G.told outside.old) (G.told outside.new) store.old store.new }
    ensures counts { Counts counted_tree result (G.counts_of outside.old) (G.counts_of outside.new) }
    ensures causes { IfErr result (IsCause G.tells (G.told outside.old) store.old.space) }
{
    tree.remove(alloc, outside, &mut store.space, path)
}

/// Puts what stands in a source at a path and under it to a path of a tree; false where nothing stands in the source. Where it fails the
/// tree is what it was. Faults but for limits are as those of `get`.
pub fn graft<G: Ground>(
    store: &mut Held,
    alloc: Global,
    outside: &mut G,
    tree: &mut Tree,
    source: &Tree,
    from: &[Step],
    to: &[Step],
) -> Result<bool, TreeFault>
    requires { IsPath to.now }
    ensures grafts { IsTrue G.tells → (r : Repository) (v w : View) (held : Holds store.old (G.told outside.old) r) → IsView (image_records held) tree.old v → IsView (image_records held) source.now w
        → Grafts (image_records held) from.now to.now tree.new v w result }
    ensures same { SameTables store.old store.new }
    ensures looks { IsTrue G.tells → OnlyLooks (G.told outside.old) (G.told outside.new) store.old store.new }
    ensures counts { Counts counted_tree result (G.counts_of outside.old) (G.counts_of outside.new) }
    ensures causes { IfErr result (IsCause G.tells (G.told outside.old) store.old.space) }
{
    tree.graft(alloc, outside, &mut store.space, source, from, to)
}

/// The tree of a retained commit, by one fetch of the commit's record: none of its own is read. Faults are as those of `show`.
pub fn tree_of<G: Ground>(
    store: &mut Held,
    outside: &mut G,
    number: Number,
) -> Result<Tree, StoreFault>
    requires tables { (r : Repository) × IsOf store.old r × IsTrue (is_retained r number) }
    ensures tree { IsTrue G.tells → (r : Repository) (held : Holds store.old (G.told outside.old) r) → IsTrue (is_retained r number) →
        IsFetchedOr (IsTreeOf (image_records held) r number) result }
    ensures blames { (r : Repository) → IsOf store.old r → IsTrue (is_retained r number) → BlamesCommit (place_of_commit store.old number) (name_at r number) result }
    ensures damages { IsTrue G.tells → IsReadable (G.told outside.old) store.old.space → Damages (records_of (G.told outside.old) store.old.space) result }
    ensures same { SameTables store.old store.new }
    ensures looks { IsTrue G.tells → OnlyLooks (G.told outside.old) (G.told outside.new) store.old store.new }
    ensures counts { Counts counted_store result (G.counts_of outside.old) (G.counts_of outside.new) }
    ensures causes { IfErr result (IsStoreCause G.tells (G.told outside.old) store.old.space) }
{
    match root_of(store, outside, number) {
        Ok(root) => Ok(Tree::of(number, root)),
        Err(fault) => Err(fault),
    }
}
