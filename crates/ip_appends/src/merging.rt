// Merging a commit into a branch: the commit of a work whose tree is the merged one, or the branch moves on.
ghost use Rattle.std.specs.Prelude.{◌≡◌, [], ◌∷◌, min, IfSome, IfErr, IfOk, IsTrue};
ghost use Rattle.ip_ground.specs.Counts.{Counts};
ghost use Rattle.ip_spec.specs.Path.{Bytes};
ghost use Rattle.ip_spec.specs.Record.{IsBranchName, IsInfo};
ghost use Rattle.ip_spec.specs.Repository.{Repository, is_retained};
ghost use Rattle.ip_held.specs.Collecting.{phase_of};
ghost use Rattle.ip_held.specs.Causes.{IsStoreCause};
ghost use Rattle.ip_held.specs.Faults.{counted_store};
ghost use Rattle.ip_held.specs.Held.{IsOf, Holds, image_records};
ghost use Rattle.ip_held.specs.Showing.{IsFetchedOr};
ghost use Rattle.ip_appends.specs.Merging.{Forwards, JoinsTrees, MergesInto, MergesWhere, StoreLooks, IsCourse, IsCourseBy, IsBaseTree, IsJoin, IsForward, course_in, stopped_by, unless_leaving};

use crate::committing::commit;
use crate::naming::{append_branch_record, set_record};
use ip_base::{Hash, Info, Memory, Number, Numbers, Path};
use ip_ground::Ground;
use ip_held::{Held, StoreFault, Work};
use ip_merge::Decides;
use ip_reads::tree_of;
use ip_three::{ThreeFault, merge_trees};
use ip_tree::Tree;
use std::alloc::Global;

/// What a merge into a branch came to.
#[derive(Drop)]
pub enum Merge {
    /// The branch has the commit already: it stays at this one.
    Current(Hash),
    /// The branch was an ancestor of the commit, and moved on to it.
    Forward(Hash),
    /// The branch is at this new commit, whose parents are the branch's old one and the commit merged with it.
    Merged(Hash),
    /// No branch has the name.
    NoBranch,
    /// There are so many least common ancestors, which is more than one.
    Bases(u32),
    /// The least path that conflicts.
    Conflict(Path),
}

// How a commit stands to the one that a branch is at.
#[derive(Clone, Copy)]
pub enum Course {
    // It is an ancestor of the branch's, or the same.
    Current,
    // The branch's is a proper ancestor of it.
    Forward,
    // Neither is an ancestor of the other, and a collection gives it up.
    Leaving,
    // There are several least common ancestors.
    Bases(u32),
    // There is this one, or none.
    Join(Option<Number>),
}

// The commits whose trees are merged: the least common ancestor, if there is one, the branch's, and the one merged with it.
#[derive(Clone, Copy)]
pub struct Sides {
    pub base: Option<Number>,
    pub head: Number,
    pub number: Number,
}

// What the merge of their trees came to.
#[derive(Drop)]
pub enum Joined {
    Tree(Tree),
    Conflict(Path),
}

// By the least common ancestors. Of more than 2^32 of them the memory for the list is refused.
fn course_by(least: &[Number], head: Number, number: Number) -> Result<Course, Memory>
    ensures { IfOk result (IsCourseBy least.now head number) }
{
    if least.len() > 1 {
        return match u32::try_from(least.len()) {
            Ok(count) => Ok(Course::Bases(count)),
            Err(_) => Err(Memory),
        };
    }
    match least.first() {
        None => Ok(Course::Join(None)),
        Some(base) if *base == number => Ok(Course::Current),
        Some(base) if *base == head => Ok(Course::Forward),
        Some(base) => Ok(Course::Join(Some(*base))),
    }
}

// A list of two numbers.
fn both(alloc: Global, one: Number, other: Number) -> Result<Numbers, Memory>
    ensures { IfOk result (λ numbers. numbers ≡ one ∷ other ∷ []) }
{
    let mut numbers = Numbers::empty(alloc);
    numbers.push(one)?;
    numbers.push(other)?;
    Ok(numbers)
}

// The lesser of two numbers.
fn lesser(one: Number, other: Number) -> Number
    ensures { result ≡ min one other }
{
    if one.get() < other.get() { one } else { other }
}

// What comes of trees that were not merged.
fn stopped_by(fault: ThreeFault) -> Result<Joined, StoreFault>
    ensures { result ≡ stopped_by fault }
{
    match fault {
        ThreeFault::Conflict(path) => Ok(Joined::Conflict(path)),
        ThreeFault::Limit(limit) => Err(StoreFault::Limit(limit)),
        ThreeFault::Fetch(fault) => Err(StoreFault::from(fault)),
        ThreeFault::Memory => Err(StoreFault::Memory),
    }
}

/// Merges a retained commit into a branch: of the trees of the branch's commit and of this one, over that of their least common ancestor,
/// it commits the merge by these rules. What is not `Current`, `Forward` or `Merged` changes nothing. Once it is one of these it is there
/// for good. After `Ground` and `Damaged` the store may not be used any more.
pub fn merge_into<G: Ground, D: Decides>(
    store: &mut Held,
    alloc: Global,
    outside: &mut G,
    number: Number,
    branch: &[u8],
    info: Info,
    rules: &D,
) -> Result<Merge, StoreFault>
    requires branch { IsBranchName branch.now }
    requires info { IsInfo info }
    requires tables { (r : Repository) × IsOf store.old r × IsTrue (is_retained r number) }
    ensures merges { MergesInto G.tells (D.rule rules.now) number branch.now info result store.old store.new (G.told outside.old) (G.told outside.new) }
    ensures counts { Counts counted_store result (G.counts_of outside.old) (G.counts_of outside.new) }
{
    let head = match store.head(branch) {
        Some(head) => head,
        None => return Ok(Merge::NoBranch),
    };
    match course_of(store, alloc, head, number)? {
        Course::Current => Ok(Merge::Current(store.retained_name(head))),
        Course::Leaving => Err(StoreFault::Leaving(number)),
        Course::Bases(count) => Ok(Merge::Bases(count)),
        Course::Forward => forward(store, alloc, outside, number, branch),
        Course::Join(base) => {
            let sides = Sides { base, head, number };
            join(store, alloc, outside, &sides, branch, info, rules)
        }
    }
}

// Where neither commit is an ancestor of the other, and a collection runs that gives this one up, nothing is merged.
fn unless_leaving(store: &Held, number: Number, course: Course) -> Course
    ensures { result ≡ unless_leaving (phase_of store.now.collection) number course }
{
    match &store.collection {
        Some(collection) if number.get() < collection.commit.get() => Course::Leaving,
        _ => course,
    }
}

// The course that is taken while a collection may run.
fn allowed(store: &Held, number: Number, course: Course) -> Course
    ensures { result ≡ course_in (phase_of store.now.collection) number course }
{
    match course {
        Course::Current => Course::Current,
        Course::Forward => Course::Forward,
        Course::Leaving => Course::Leaving,
        Course::Bases(count) => unless_leaving(store, number, Course::Bases(count)),
        Course::Join(base) => unless_leaving(store, number, Course::Join(base)),
    }
}

// How the commit stands to the branch's, by one walk of the history.
fn course_of(store: &Held, alloc: Global, head: Number, number: Number) -> Result<Course, Memory>
    requires tables { (r : Repository) × IsOf store.now r × IsTrue (is_retained r head) × IsTrue (is_retained r number) }
    ensures { (r : Repository) → IsOf store.now r → IsTrue (is_retained r head) → IsTrue (is_retained r number) → IfOk result (IsCourse r (phase_of store.now.collection) head number) }
{
    let least = store.history.lcas(alloc, head, number)?;
    let course = course_by(least.as_slice(), head, number)?;
    Ok(allowed(store, number, course))
}

// Moves a branch on to a commit that its own is an ancestor of.
fn forward<G: Ground>(
    store: &mut Held,
    alloc: Global,
    outside: &mut G,
    number: Number,
    branch: &[u8],
) -> Result<Merge, StoreFault>
    requires branch { IsBranchName branch.now }
    requires tables { (r : Repository) × IsOf store.old r × IsForward r branch.now number }
    ensures forwards { Forwards G.tells number branch.now result store.old store.new (G.told outside.old) (G.told outside.new) }
    ensures counts { Counts counted_store result (G.counts_of outside.old) (G.counts_of outside.new) }
{
    let name = store.retained_name(number);
    let rec = set_record(alloc, branch, number)?;
    append_branch_record(store, alloc, outside, rec)?;
    Ok(Merge::Forward(name))
}

// The commit of the merged tree.
fn join<G: Ground, D: Decides>(
    store: &mut Held,
    alloc: Global,
    outside: &mut G,
    sides: &Sides,
    branch: &[u8],
    info: Info,
    rules: &D,
) -> Result<Merge, StoreFault>
    requires branch { IsBranchName branch.now }
    requires info { IsInfo info }
    requires tables { (r : Repository) × IsOf store.old r × IsJoin r (phase_of store.old.collection) branch.now sides.now }
    ensures joins { MergesWhere (λ r. IsJoin r (phase_of store.old.collection) branch.now sides.now) G.tells (D.rule rules.now) sides.now.number branch.now info result store.old store.new (G.told outside.old) (G.told outside.new) }
    ensures counts { Counts counted_store result (G.counts_of outside.old) (G.counts_of outside.new) }
{
    let tree = match join_trees(store, alloc, outside, sides, rules)? {
        Joined::Tree(tree) => tree,
        Joined::Conflict(path) => return Ok(Merge::Conflict(path)),
    };
    let mut work = Work {
        tree,
        parents: both(alloc, sides.head, sides.number)?,
        least: Some(lesser(sides.head, sides.number)),
    };
    let name = commit(store, alloc, outside, &mut work, branch, info)?;
    Ok(Merge::Merged(name))
}

// The merge of the trees, each of which is fetched once.
fn join_trees<G: Ground, D: Decides>(
    store: &mut Held,
    alloc: Global,
    outside: &mut G,
    sides: &Sides,
    rules: &D,
) -> Result<Joined, StoreFault>
    requires tables { (r : Repository) × (branch : Bytes) × IsOf store.old r × IsJoin r (phase_of store.old.collection) branch sides.now }
    ensures joins { JoinsTrees G.tells (D.rule rules.now) sides.now result store.old store.new (G.told outside.old) (G.told outside.new) }
    ensures counts { Counts counted_store result (G.counts_of outside.old) (G.counts_of outside.new) }
{
    let base = base_tree(store, alloc, outside, sides.base)?;
    let left = tree_of(store, outside, sides.head)?;
    let right = tree_of(store, outside, sides.number)?;
    match merge_trees(
        alloc,
        outside,
        &mut store.space,
        &base,
        &left,
        &right,
        rules,
    ) {
        Ok(tree) => Ok(Joined::Tree(tree)),
        Err(fault) => stopped_by(fault),
    }
}

// The tree of the least common ancestor, or the empty one where there is none.
fn base_tree<G: Ground>(
    store: &mut Held,
    alloc: Global,
    outside: &mut G,
    base: Option<Number>,
) -> Result<Tree, StoreFault>
    requires tables { (r : Repository) × IsOf store.old r × IfSome base (λ n. IsTrue (is_retained r n)) }
    ensures tree { IsTrue G.tells → (r : Repository) (held : Holds store.old (G.told outside.old) r) → IfSome base (λ n. IsTrue (is_retained r n)) →
        IsFetchedOr (IsBaseTree (image_records held) r base) result }
    ensures looked { StoreLooks G.tells store.old store.new (G.told outside.old) (G.told outside.new) }
    ensures counts { Counts counted_store result (G.counts_of outside.old) (G.counts_of outside.new) }
    ensures causes { IfErr result (IsStoreCause G.tells (G.told outside.old) store.old.space) }
{
    match base {
        Some(number) => tree_of(store, outside, number),
        None => Ok(Tree::empty(alloc)),
    }
}
