// The walk that finds how the left tree is to be edited so that it becomes the merge.
ghost use Rattle.std.specs.Prelude.{◌≡◌, ◌<◌, ◌++◌, ◌∷◌, ◌||◌, ℕ, [], cond, nat_lt, length, is_some, Option, Some, None, option_map, IsTrue, IsFalse, IfErr, IfOk, OnOk, IsErrOf, MatchResult};
ghost use Rattle.ip_ground.specs.Counts.{Counts};
ghost use Rattle.ip_space.specs.declared.fault.FetchFault.TheVariants as FetchFault;
ghost use Rattle.ip_spec.specs.Map.{get};
ghost use Rattle.ip_spec.specs.Path.{Step as TheStep};
ghost use Rattle.ip_spec.specs.Step.{contents_limit};
ghost use Rattle.ip_spec.specs.View.{View, is_nil};
ghost use Rattle.ip_spec.specs.declared.record.Record.{Record};
ghost use Rattle.ip_tree.specs.Faults.{counted_tree};
ghost use Rattle.ip_tree.specs.Finding.{FindsIn, as_node};
ghost use Rattle.ip_tree.specs.Reads.{IsOver, IsFree, Looks, IsCause};
ghost use Rattle.ip_tree.specs.TreeView.{IsView};
ghost use Rattle.ip_tree.specs.Node as view;
ghost use Rattle.ip_tree.specs.declared.tree.TreeFault.TheVariants as TreeFault;
ghost use Rattle.ip_differ.specs.Differing.{IsDirectoryAt, entry_in};
ghost use Rattle.ip_three.specs.Merging.{directory_side, is_merged};
ghost use Rattle.ip_three.specs.Going.{IsBehind, IsLess, PlansAt, PlansContents, PlansUnder};
ghost use Rattle.ip_three.specs.Walking.{Answers, Begins, BySide, IsEditedBy, IsTaken, TakesContents, Walked, as_plan, as_side};
ghost use Rattle.ip_three.specs.declared.apply.Edit.{Edit};
ghost use Rattle.ip_three.specs.declared.apply.Coming.TheVariants as coming;

use crate::apply::{Coming, Edit};
use crate::contents::{Decided, decide};
use crate::load::load_path;
use crate::side::{Side, directory_of, holds_contents, is_one_place, side_of};
use ip_base::limit::{CONTENTS_MAX, STEPS_MAX};
use ip_base::{Blob, Items, Memory, Path, Step};
use ip_differ::differing;
use ip_differ::pairs::{Pair, place_in};
use ip_ground::Ground;
use ip_merge::{Decides, Merged};
use ip_space::Space;
use ip_tree::graft::node_of;
use ip_tree::look::Place;
use ip_tree::{Node, Tree, TreeFault};
use std::alloc::Global;

/// How the left tree is to be edited, ascending by path, and what stands against it.
#[derive(Drop)]
pub struct Plan {
    /// Paths at which what stands in the left tree goes. All go before anything comes.
    pub gone: Vec<Path>,
    /// Of one path what a rule gave comes before what is taken.
    pub come: Vec<Edit>,
    /// The first path whose rule conflicts.
    pub conflict: Option<Path>,
    /// Whether contents that a rule gave are too long.
    pub is_long: bool,
}

impl Plan {
    /// Nothing yet.
    pub fn new(alloc: Global) -> Self
        ensures empty { (result.gone.items ≡ []) × (result.come.items ≡ []) }
        ensures none { result.conflict ≡ None }
        ensures short { IsFalse result.is_long }
    {
        Plan {
            gone: Vec::new(alloc),
            come: Vec::new(alloc),
            conflict: None,
            is_long: false,
        }
    }

    // What stands at the path goes.
    fn remove(&mut self, alloc: Global, path: &[Step]) -> Result<(), Memory>
        ensures gone { OnOk result (self.new.gone.items ≡ self.old.gone.items ++ path.now ∷ []) }
        ensures rest { (self.new.come.items ≡ self.old.come.items) × (self.new.conflict ≡ self.old.conflict) × (self.new.is_long ≡ self.old.is_long) }
    {
        self.gone.push(copy_path(alloc, path)?)?;
        Ok(())
    }

    // What stands at the path in the right tree comes.
    fn take(&mut self, alloc: Global, path: &[Step], node: Node) -> Result<(), Memory>
        ensures come { OnOk result (self.new.come.items ≡ self.old.come.items ++ record { path = path.now; coming = coming.Taken node } ∷ []) }
        ensures rest { (self.new.gone.items ≡ self.old.gone.items) × (self.new.conflict ≡ self.old.conflict) × (self.new.is_long ≡ self.old.is_long) }
    {
        let path = copy_path(alloc, path)?;
        self.come.push(Edit {
            path,
            coming: Coming::Taken(node),
        })?;
        Ok(())
    }

    // Contents come that a rule gave.
    fn put(&mut self, alloc: Global, path: &[Step], bytes: Blob) -> Result<(), Memory>
        ensures come { OnOk result (self.new.come.items ≡ self.old.come.items ++ record { path = path.now; coming = coming.Put bytes } ∷ []) }
        ensures long { OnOk result (self.new.is_long ≡ (self.old.is_long || nat_lt contents_limit (length bytes))) }
        ensures rest { (self.new.gone.items ≡ self.old.gone.items) × (self.new.conflict ≡ self.old.conflict) }
    {
        let path = copy_path(alloc, path)?;
        let is_long = bytes.len() > CONTENTS_MAX;
        self.come.push(Edit {
            path,
            coming: Coming::Put(bytes),
        })?;
        self.is_long = self.is_long || is_long;
        Ok(())
    }

    // The rule of the path conflicts. Of several such paths the first stays.
    fn note_conflict(&mut self, alloc: Global, path: &[Step]) -> Result<(), Memory>
        ensures first { self.old.conflict ≡ None → OnOk result (self.new.conflict ≡ Some path.now) }
        ensures other { (c : _) → self.old.conflict ≡ Some c → OnOk result (self.new.conflict ≡ Some c) }
        ensures rest { (self.new.gone.items ≡ self.old.gone.items) × (self.new.come.items ≡ self.old.come.items) × (self.new.is_long ≡ self.old.is_long) }
    {
        if self.conflict.is_none() {
            self.conflict = Some(copy_path(alloc, path)?);
        }
        Ok(())
    }
}

fn copy_steps(alloc: Global, path: &[Step], room: usize) -> Result<Vec<Step>, Memory>
    ensures { IfOk result (λ steps. steps.items ≡ path.now) }
{
    let mut steps = Vec::with_capacity(alloc, room)?;
    for i in 0..path.len() {
        steps.push(path[i].copy(alloc)?)?;
    }
    Ok(steps)
}

pub(crate) fn copy_path(alloc: Global, path: &[Step]) -> Result<Path, Memory>
    ensures { IfOk result (λ copy. copy ≡ path.now) }
{
    Ok(Path::of(Items::of(copy_steps(alloc, path, path.len())?)))
}

// A path with one step more.
fn path_to(alloc: Global, path: &[Step], step: &Step) -> Result<Vec<Step>, Memory>
    ensures { IfOk result (λ steps. steps.items ≡ path.now ++ step.now ∷ []) }
{
    let mut steps = copy_steps(alloc, path, path.len().saturating_add(1))?;
    steps.push(step.copy(alloc)?)?;
    Ok(steps)
}

/// What stands at a path in the base and in the right tree.
#[derive(Clone, Copy)]
pub struct Places<'a> {
    pub base: Option<Place<'a>>,
    pub right: Option<Place<'a>>,
}

/// Goes through what stands below a directory of the base and of the right tree, of which these are the places; none stands for a directory without entries.
#[cycle(plan)]
pub fn plan_entries<G: Ground, D: Decides>(
    alloc: Global,
    outside: &mut G,
    space: &mut Space,
    places: &Places<'_>,
    left: &mut Tree,
    rules: &D,
    path: &[Step],
    plan: &mut Plan,
) -> Result<(), TreeFault>
    ensures planned { IsTrue G.tells → (records : ℕ → Option Record) (b l r : View) → IsOver (G.told outside.old) space.old records → IsView records left.old l
        → IsDirectoryAt records b path.now (option_map as_node places.now.base) → IsDirectoryAt records r path.now (option_map as_node places.now.right)
        → ((s : TheStep) → IsTrue (is_merged b l r (path.now ++ s ∷ []))) → Begins (D.rule rules.now) records b l r plan.old → IsBehind path.now (as_plan plan.old)
        → MatchResult result (λ _. IsView records left.new l × Walked (PlansUnder (D.rule rules.now) b l r path.now) records r plan.old plan.new) IsFree }
    ensures looks { Looks G.tells (G.told outside.old) (G.told outside.new) space.old space.new }
    ensures counts { Counts counted_tree result (G.counts_of outside.old) (G.counts_of outside.new) }
    ensures causes { IfErr result (IsCause G.tells (G.told outside.old) space.old) }
{
    // No path of a tree has more steps.
    if path.len() >= STEPS_MAX {
        return Err(TreeFault::Memory);
    }
    let pairs = match differing(alloc, outside, space, &places.base, &places.right) {
        Ok(pairs) => pairs,
        Err(fault) => return Err(fault),
    };
    for (step, pair) in &pairs {
        let at = path_to(alloc, path, step)?;
        let below = places_in(places, step, pair);
        plan_step(alloc, outside, space, &below, left, rules, &at, plan)?;
    }
    Ok(())
}

// Where it stands what a pair tells of a step.
fn places_in<'a>(places: &Places<'a>, step: &Step, pair: &Pair) -> Places<'a>
    ensures base { option_map as_node result.base ≡ entry_in places.now.base step.now pair.now.one }
    ensures right { option_map as_node result.right ≡ entry_in places.now.right step.now pair.now.other }
{
    Places {
        base: place_in(&places.base, step, &pair.one),
        right: place_in(&places.right, step, &pair.other),
    }
}

// At a path, and under it. The parts of the left tree on the way to it are read first.
#[cycle(plan)]
fn plan_step<G: Ground, D: Decides>(
    alloc: Global,
    outside: &mut G,
    space: &mut Space,
    places: &Places<'_>,
    left: &mut Tree,
    rules: &D,
    path: &[Step],
    plan: &mut Plan,
) -> Result<(), TreeFault>
    requires { 0 < length path.now }
    ensures planned { IsTrue G.tells → (records : ℕ → Option Record) (b l r : View) → IsOver (G.told outside.old) space.old records → IsView records left.old l
        → FindsIn records b path.now (option_map as_node places.now.base) → FindsIn records r path.now (option_map as_node places.now.right)
        → IsTrue (is_merged b l r path.now) → Begins (D.rule rules.now) records b l r plan.old → IsLess path.now (as_plan plan.old)
        → MatchResult result (λ _. IsView records left.new l × Walked (PlansAt (D.rule rules.now) b l r path.now) records r plan.old plan.new) IsFree }
    ensures looks { Looks G.tells (G.told outside.old) (G.told outside.new) space.old space.new }
    ensures counts { Counts counted_tree result (G.counts_of outside.old) (G.counts_of outside.new) }
    ensures causes { IfErr result (IsCause G.tells (G.told outside.old) space.old) }
{
    if is_one_place(&places.right, &places.base) {
        return Ok(());
    }
    load_path(alloc, outside, space, left, path)?;
    match plan_place(alloc, outside, space, places, left, rules, path, plan)? {
        Some(side) => Ok(plan_directory(alloc, side, &places.right, path, plan)?),
        None => plan_entries(alloc, outside, space, places, left, rules, path, plan),
    }
}

// The contents at a path, and the side from which the directory there comes.
fn plan_place<G: Ground, D: Decides>(
    alloc: Global,
    outside: &mut G,
    space: &mut Space,
    places: &Places<'_>,
    left: &Tree,
    rules: &D,
    path: &[Step],
    plan: &mut Plan,
) -> Result<Option<Side>, TreeFault>
    ensures planned { IsTrue G.tells → (records : ℕ → Option Record) (b l r : View) → IsOver (G.told outside.old) space.old records → IsView records left.now l → IsFalse (is_nil path.now)
        → FindsIn records b path.now (option_map as_node places.now.base) → FindsIn records r path.now (option_map as_node places.now.right)
        → IsTrue (is_merged b l r path.now) → Begins (D.rule rules.now) records b l r plan.old → IsLess path.now (as_plan plan.old)
        → MatchResult result (λ side. (option_map as_side side ≡ directory_side b l r path.now) × Walked (PlansContents (D.rule rules.now) b l r path.now) records r plan.old plan.new) IsFree }
    ensures looks { Looks G.tells (G.told outside.old) (G.told outside.new) space.old space.new }
    ensures counts { Counts counted_tree result (G.counts_of outside.old) (G.counts_of outside.new) }
    ensures causes { IfErr result (IsCause G.tells (G.told outside.old) space.old) }
{
    let here = match left.at(outside, space, path) {
        Ok(here) => here,
        Err(fault) => return Err(fault),
    };
    plan_contents(alloc, outside, space, places, &here, rules, path, plan)?;
    Ok(side_of(&places.base, &here, &places.right))
}

// The contents at a path, where this stands in the left tree.
fn plan_contents<G: Ground, D: Decides>(
    alloc: Global,
    outside: &mut G,
    space: &mut Space,
    places: &Places<'_>,
    here: &Option<Place<'_>>,
    rules: &D,
    path: &[Step],
    plan: &mut Plan,
) -> Result<(), TreeFault>
    ensures planned { IsTrue G.tells → (records : ℕ → Option Record) (b l r : View) → IsOver (G.told outside.old) space.old records
        → FindsIn records b path.now (option_map as_node places.now.base) → FindsIn records l path.now (option_map as_node here.now) → FindsIn records r path.now (option_map as_node places.now.right)
        → IsTrue (is_merged b l r path.now) → Begins (D.rule rules.now) records b l r plan.old → IsLess path.now (as_plan plan.old)
        → MatchResult result (λ _. Walked (PlansContents (D.rule rules.now) b l r path.now) records r plan.old plan.new) IsFree }
    ensures looks { Looks G.tells (G.told outside.old) (G.told outside.new) space.old space.new }
    ensures counts { Counts counted_tree result (G.counts_of outside.old) (G.counts_of outside.new) }
    ensures causes { IfErr result (IsCause G.tells (G.told outside.old) space.old) }
{
    match decide(
        alloc,
        outside,
        space,
        &places.base,
        here,
        &places.right,
        rules,
        path,
    )? {
        Decided::Stays => Ok(()),
        Decided::Taken => Ok(contents_taken(alloc, here, &places.right, path, plan)?),
        Decided::Answered(merged) => Ok(answered(alloc, here, path, merged, plan)?),
    }
}

// The right side's contents come, or where it has none, what stands goes.
fn contents_taken(
    alloc: Global,
    here: &Option<Place<'_>>,
    right: &Option<Place<'_>>,
    path: &[Step],
    plan: &mut Plan,
) -> Result<(), Memory>
    ensures { (records : ℕ → Option Record) (l r : View) → FindsIn records l path.now (option_map as_node here.now) → FindsIn records r path.now (option_map as_node right.now)
        → OnOk result (TakesContents records l r path.now plan.old plan.new) }
{
    if !holds_contents(right) {
        return gone(alloc, here, path, plan);
    }
    taken(alloc, right, path, plan)
}

// Contents go, where there are any.
fn gone(
    alloc: Global,
    here: &Option<Place<'_>>,
    path: &[Step],
    plan: &mut Plan,
) -> Result<(), Memory>
    ensures gone { (records : ℕ → Option Record) (l : View) → FindsIn records l path.now (option_map as_node here.now)
        → OnOk result (plan.new.gone.items ≡ cond (is_some (get l.map path.now)) (plan.old.gone.items ++ path.now ∷ []) plan.old.gone.items) }
    ensures rest { (plan.new.come.items ≡ plan.old.come.items) × (plan.new.conflict ≡ plan.old.conflict) × (plan.new.is_long ≡ plan.old.is_long) }
{
    if holds_contents(here) {
        plan.remove(alloc, path)?;
    }
    Ok(())
}

// What a rule answered.
fn answered(
    alloc: Global,
    here: &Option<Place<'_>>,
    path: &[Step],
    merged: Merged,
    plan: &mut Plan,
) -> Result<(), Memory>
    ensures { (records : ℕ → Option Record) (l : View) → FindsIn records l path.now (option_map as_node here.now) → OnOk result (Answers l path.now merged plan.old plan.new) }
{
    match merged {
        Merged::Keep(Some(bytes)) => plan.put(alloc, path, bytes),
        Merged::Keep(None) => gone(alloc, here, path, plan),
        Merged::Conflict => {
            plan.note_conflict(alloc, path)?;
            gone(alloc, here, path, plan)
        }
    }
}

// The directory at a path, which comes from a side.
fn plan_directory(
    alloc: Global,
    side: Side,
    right: &Option<Place<'_>>,
    path: &[Step],
    plan: &mut Plan,
) -> Result<(), Memory>
    ensures { (records : ℕ → Option Record) (r : View) → IsFalse (is_nil path.now) → FindsIn records r path.now (option_map as_node right.now)
        → OnOk result (BySide records r path.now side plan.old plan.new) }
{
    match side {
        Side::Left => Ok(()),
        Side::Right => taken(alloc, &directory_of(right), path, plan),
    }
}

// What stands at the path in the right tree comes, or where nothing does, what stands in the left one goes.
fn taken(
    alloc: Global,
    right: &Option<Place<'_>>,
    path: &[Step],
    plan: &mut Plan,
) -> Result<(), Memory>
    ensures some { (records : ℕ → Option Record) (r : View) (n : view.Node) → option_map as_node right.now ≡ Some n → FindsIn records r path.now (Some n) → OnOk result (IsTaken records r path.now plan.old plan.new) }
    ensures none { option_map as_node right.now ≡ None → OnOk result (IsEditedBy (λ p. p ++ path.now ∷ []) (λ es. es) plan.old plan.new) }
{
    match right {
        Some(place) => {
            let node = node_of(alloc, place)?;
            plan.take(alloc, path, node)
        }
        None => plan.remove(alloc, path),
    }
}
