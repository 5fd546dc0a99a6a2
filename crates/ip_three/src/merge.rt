// The merge of three trees.
ghost use Rattle.std.specs.Prelude.{◌≡◌, ℕ, [], All, Option, Some, None, option_map, IsTrue, IsFalse, IfOk, IfErr, IsErrOf};
ghost use Rattle.ip_ground.specs.Counts.{Counts};
ghost use Rattle.ip_space.specs.declared.fault.FetchFault.TheVariants as FetchFault;
ghost use Rattle.ip_spec.specs.Merge.{IsOneAnswer};
ghost use Rattle.ip_spec.specs.Path.{Path as ThePath};
ghost use Rattle.ip_spec.specs.View.{View};
ghost use Rattle.ip_spec.specs.declared.record.Record.{Record};
ghost use Rattle.ip_three.specs.Answered.{EditsTree, IsMergeCause, MergesTrees, PutsPlan, counted_three};
ghost use Rattle.ip_three.specs.Applying.{IsFound};
ghost use Rattle.ip_three.specs.Clashes.{lesser as lesser_of};
ghost use Rattle.ip_differ.specs.Differing.{IsDirectoryAt};
ghost use Rattle.ip_three.specs.Merging.{directory_side};
ghost use Rattle.ip_three.specs.Outcomes.{AreMerging};
ghost use Rattle.ip_three.specs.declared.merge.ThreeFault.TheVariants as ThreeFault;
ghost use Rattle.ip_tree.specs.Faults.{counted_tree};
ghost use Rattle.ip_tree.specs.Finding.{as_node};
ghost use Rattle.ip_tree.specs.Reads.{IsOver, Looks};
ghost use Rattle.ip_tree.specs.TreeView.{IsView};
ghost use Rattle.ip_tree.specs.declared.tree.Tree.{Tree as TheTree};

use crate::apply::{put_all, remove_all};
use crate::clash::clash;
use crate::plan::{Places, Plan, plan_entries};
use crate::side::{Side, side_of};
use ip_base::{Limit, Memory, Number, Path};
use ip_ground::Ground;
use ip_merge::Decides;
use ip_space::{FetchFault, Space};
use ip_tree::graft::least;
use ip_tree::{Tree, TreeFault};
use std::alloc::Global;

/// Why three trees were not merged.
#[derive(Drop)]
pub enum ThreeFault {
    /// The least path that conflicts.
    Conflict(Path),
    /// Contents that a rule gave are too long, or a directory would have too many entries.
    Limit(Limit),
    /// A record that a tree refers to was not read.
    Fetch(FetchFault),
    /// Want of memory. The call may be made again.
    Memory,
}

impl From<TreeFault> for ThreeFault {
    ghost use Rattle.ip_three.specs.Answered.{three_fault};

    ghost from_gives = { λ f e. e ≡ three_fault f };

    fn from(fault: TreeFault) -> Self {
        match fault {
            TreeFault::Limit(limit) => ThreeFault::Limit(limit),
            TreeFault::Fetch(fault) => ThreeFault::Fetch(fault),
            TreeFault::Memory => ThreeFault::Memory,
        }
    }
}

impl From<Memory> for ThreeFault {
    ghost use Rattle.ip_three.specs.declared.merge.ThreeFault.TheVariants as ThreeFault;

    ghost from_gives = { λ _ e. e ≡ ThreeFault.Memory };

    fn from(_: Memory) -> Self {
        ThreeFault::Memory
    }
}

/// The merge of the left and the right tree over the base, by rules, of three trees over one space. No part of the base stands in what it answers, and the three stay as they are. A
/// directory that two of them have in one record is not read; where it is the root, nothing is. It holds a copy of what was read or is new of the left tree, and what comes to it.
pub fn merge_trees<G: Ground, D: Decides>(
    alloc: Global,
    outside: &mut G,
    space: &mut Space,
    base: &Tree,
    left: &Tree,
    right: &Tree,
    rules: &D,
) -> Result<Tree, ThreeFault>
    ensures merges { IsTrue G.tells → (records : ℕ → Option Record) (b l r : View) → IsOver (G.told outside.old) space.old records → IsView records base.now b → IsView records left.now l → IsView records right.now r
        → ((p : ThePath) → IsOneAnswer (D.rule rules.now p)) → MergesTrees records (D.rule rules.now) b l r result }
    ensures looks { Looks G.tells (G.told outside.old) (G.told outside.new) space.old space.new }
    ensures counts { Counts counted_three result (G.counts_of outside.old) (G.counts_of outside.new) }
    ensures causes { IfErr result (IsMergeCause G.tells (G.told outside.old) space.old) }
{
    let roots = Places {
        base: Some(base.root_place()),
        right: Some(right.root_place()),
    };
    let oldest = least(left.oldest, right.oldest);
    match side_of(&roots.base, &Some(left.root_place()), &roots.right) {
        Some(Side::Left) => Ok(copy_of(alloc, left, oldest)?),
        Some(Side::Right) => Ok(copy_of(alloc, right, oldest)?),
        None => {
            let mut merged = left.copy(alloc)?;
            merge_entries(alloc, outside, space, &roots, &mut merged, rules)?;
            merged.oldest = oldest;
            Ok(merged)
        }
    }
}

// The tree once more, with this least number.
fn copy_of(alloc: Global, tree: &Tree, oldest: Option<Number>) -> Result<Tree, Memory>
    ensures { IfOk result (λ copy. (records : ℕ → Option Record) (v : View) → IsView records tree.now v → IsView records copy (record v { oldest = oldest })) }
{
    let mut copy = tree.copy(alloc)?;
    copy.oldest = oldest;
    Ok(copy)
}

// The edits by which a copy of the left tree becomes the merge.
fn merge_entries<G: Ground, D: Decides>(
    alloc: Global,
    outside: &mut G,
    space: &mut Space,
    roots: &Places<'_>,
    merged: &mut Tree,
    rules: &D,
) -> Result<(), ThreeFault>
    ensures edits { IsTrue G.tells → (records : ℕ → Option Record) (b l r : View) (right : TheTree) → IsOver (G.told outside.old) space.old records → IsView records merged.old l → IsView records right r
        → IsDirectoryAt records b [] (option_map as_node roots.now.base) → IsDirectoryAt records r [] (option_map as_node roots.now.right) → AreMerging (D.rule rules.now) b l r → directory_side b l r [] ≡ None
        → EditsTree records (D.rule rules.now) b l r merged.new result }
    ensures looks { Looks G.tells (G.told outside.old) (G.told outside.new) space.old space.new }
    ensures counts { Counts counted_three result (G.counts_of outside.old) (G.counts_of outside.new) }
    ensures causes { IfErr result (IsMergeCause G.tells (G.told outside.old) space.old) }
{
    let mut plan = Plan::new(alloc);
    plan_entries(alloc, outside, space, roots, merged, rules, &[], &mut plan)?;
    remove_all(alloc, outside, space, merged, &plan.gone)?;
    let clash = clash(alloc, outside, space, merged, &plan.come)?;
    put_plan(alloc, outside, space, merged, plan, clash)
}

// What comes, where nothing stands against it. A conflict comes before a limit, and the limit of contents before that of entries.
fn put_plan<G: Ground>(
    alloc: Global,
    outside: &mut G,
    space: &mut Space,
    merged: &mut Tree,
    plan: Plan,
    clash: Option<Path>,
) -> Result<(), ThreeFault>
    ensures puts { IsTrue G.tells → (records : ℕ → Option Record) (v r : View) (right : TheTree) → IsOver (G.told outside.old) space.old records → IsView records merged.old v → IsView records right r
        → (lesser_of plan.conflict clash ≡ None → IsFalse plan.is_long → All (IsFound records r) plan.come.items) → PutsPlan records v r plan clash merged.new result }
    ensures looks { Looks G.tells (G.told outside.old) (G.told outside.new) space.old space.new }
    ensures counts { Counts counted_three result (G.counts_of outside.old) (G.counts_of outside.new) }
    ensures causes { IfErr result (IsMergeCause G.tells (G.told outside.old) space.old) }
{
    let Plan {
        come,
        conflict,
        is_long,
        ..
    } = plan;
    if let Some(path) = lesser(conflict, clash) {
        return Err(ThreeFault::Conflict(path));
    }
    if is_long {
        return Err(ThreeFault::Limit(Limit::Contents));
    }
    put_all(alloc, outside, space, merged, come)?;
    Ok(())
}

// The lesser of two paths, where there are any.
fn lesser(one: Option<Path>, other: Option<Path>) -> Option<Path>
    ensures { result ≡ lesser_of one other }
{
    match (one, other) {
        (None, path) => path,
        (path, None) => path,
        (Some(one), Some(other)) => {
            if other.steps().cmp(one.steps()).is_lt() {
                return Some(other);
            }
            Some(one)
        }
    }
}
