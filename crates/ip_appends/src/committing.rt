// Committing a work: its refusals, its records, and the step.
ghost use Rattle.std.specs.Prelude.{◌≡◌, ◌+◌, [], ◌∷◌, ◌≤◌, ◌<◌, Option, Ok, Err, None, map, All, length, IsTrue, IfOk, IfErr, IsErr, IsErrOf};
ghost use Rattle.ip_base.specs.declared.limit.TheConstants.{OFFSET_MAX, PARENTS_MAX};
ghost use Rattle.ip_held.specs.Causes.{IsFaultFrom, IsStoreCause};
ghost use Rattle.ip_held.specs.Faults.{counted_store};
ghost use Rattle.ip_ground.specs.Counts.{Counts};
ghost use Rattle.ip_base.specs.declared.limit.Limit.TheVariants as Limit;
ghost use Rattle.ip_spec.specs.Record.{IsBranchName, IsInfo, IsHash, IsU64};
ghost use Rattle.ip_spec.specs.Repository.{Repository, is_retained, next};
ghost use Rattle.ip_spec.specs.Step.{not_existing};
ghost use Rattle.ip_image.specs.Slot.{IsSlot};
ghost use Rattle.ip_image.specs.Appending.{fields_of};
ghost use Rattle.ip_save.specs.Batches.{fields_told, AreFields, HasShortContents, IsFirst};
ghost use Rattle.ip_save.specs.Reused.{counted_save};
ghost use Rattle.ip_spec.specs.View.{View};
ghost use Rattle.ip_tree.specs.TreeView.{IsView};
ghost use Rattle.ip_held.specs.declared.fault.StoreFault.TheVariants as StoreFault;
ghost use Rattle.ip_held.specs.Answers.{parent_named, IsRefusal, first_parent, first_refusal, first_view};
ghost use Rattle.ip_appends.specs.Commits.{CommitsWork, IsNewBatch, IsNext, IsNotMade, IsPlan, end_of};
ghost use Rattle.ip_held.specs.Changes.{HasAnswer, IsUndamaged};
ghost use Rattle.ip_held.specs.Showing.{IsFetchedOr};
ghost use Rattle.ip_held.specs.Held.{IsOf, Holds, SameTables, image_records};
ghost use Rattle.ip_held.specs.Trees.{OnlyLooks};
ghost use Rattle.ip_held.specs.Work.{AreParents, IsAt, IsThere};
ghost use Rattle.ip_held.specs.Collecting.{phase_of};

use ip_base::{Blob, Hash, Info, Limit, Memory, Number, Numbers};
use ip_ground::Ground;
use ip_held::{Entry, Held, Step, StoreFault, Work};
use ip_reads::root_of;
use ip_save::{Batch, CommitFields, SaveFault};
use ip_spec::record::{Parent, Parents, Ref};
use ip_tree::Tree;
use std::alloc::Global;

// A commit that nothing refuses, but for want of memory for the tables.
#[derive(Drop)]
pub struct Plan {
    number: Number,
    batch: Batch,
    step: Step,
    // Of the work behind it.
    parents: Numbers,
}

// A list of one number.
fn only(alloc: Global, number: Number) -> Result<Numbers, Memory>
    ensures { IfOk result (λ numbers. numbers ≡ number ∷ []) }
{
    let mut numbers = Numbers::empty(alloc);
    numbers.push(number)?;
    Ok(numbers)
}

// The parent of this number as a commit record has it.
fn parent_named(store: &Held, number: Number) -> Parent
    requires tables { (r : Repository) × IsOf store.now r × IsTrue (is_retained r number) }
    ensures value { (r : Repository) → IsOf store.now r → IsTrue (is_retained r number) → result ≡ parent_named r number }
    ensures within { IsU64 result.number × IsHash result.name }
{
    let name = store.retained_name(number);
    Parent { number, name }
}

// The parents as a commit record has them.
fn parents_named(store: &Held, alloc: Global, numbers: &[Number]) -> Result<Parents, Memory>
    requires tables { (r : Repository) × IsOf store.now r × All (λ n. IsTrue (is_retained r n)) numbers.now }
    ensures named { (r : Repository) → IsOf store.now r → All (λ n. IsTrue (is_retained r n)) numbers.now → IfOk result (λ parents. parents ≡ map (parent_named r) numbers.now) }
    ensures within { IfOk result (λ parents. All (λ p. IsU64 p.number × IsHash p.name) parents) }
{
    let mut parents = Parents::empty(alloc);
    for number in numbers {
        parents.push(parent_named(store, *number))?;
    }
    Ok(parents)
}

/// Commits the work's tree to a branch, and answers the commit's name. Afterwards the work goes on from that commit, and its tree is the
/// one that was stored. Once it is `Ok` the commit is there for good. Contents that the tree of the work's first parent has at the same path are not
/// written again. After `Ground` and `Damaged` the store may not be used any more.
pub fn commit<G: Ground>(
    store: &mut Held,
    alloc: Global,
    outside: &mut G,
    work: &mut Work,
    branch: &[u8],
    info: Info,
) -> Result<Hash, StoreFault>
    requires branch { IsBranchName branch.now }
    requires info { IsInfo info }
    requires tables { (r : Repository) × IsOf store.old r × AreParents r work.old.least work.old.parents }
    ensures commits { CommitsWork G.tells branch.now info result store.old store.new work.old work.new (G.told outside.old) (G.told outside.new) }
    // Over any ground the work is as it was where nothing was committed.
    ensures spared { IsErr result → work.new ≡ work.old }
    ensures counts { Counts counted_store result (G.counts_of outside.old) (G.counts_of outside.new) }
{
    let plan = plan_commit(store, alloc, outside, work, branch, info)?;
    let step = plan.step;
    store.take(alloc, outside, plan.batch.bytes(), step)?;
    work.tree = Tree::of(plan.number, plan.batch.root());
    work.parents = plan.parents;
    work.least = Some(plan.number);
    Ok(plan.batch.name())
}

// The refusals in their order, the records, and all memory but for the tables. Of the tree of the first parent records are fetched.
fn plan_commit<G: Ground>(
    store: &mut Held,
    alloc: Global,
    outside: &mut G,
    work: &Work,
    branch: &[u8],
    info: Info,
) -> Result<Plan, StoreFault>
    requires branch { IsBranchName branch.now }
    requires info { IsInfo info }
    requires tables { (r : Repository) × IsOf store.old r × AreParents r work.now.least work.now.parents }
    ensures coming { (r : Repository) → IsOf store.old r → IfOk result (IsNext r work.now.parents branch.now store.old) }
    ensures there { (r : Repository) → IsOf store.old r → IfOk result (λ plan. IsThere r work.now.least) }
    ensures passed { (r : Repository) → IsOf store.old r → IfOk result (λ plan. first_refusal r (phase_of store.old.collection) work.now.least work.now.parents branch.now ≡ Ok tt) }
    ensures begun { (r : Repository) → IsOf store.old r → ¬ HasAnswer result → first_refusal r (phase_of store.old.collection) work.now.least work.now.parents branch.now ≡ Ok tt }
    ensures wanted { (r : Repository) → IsOf store.old r → IsErrOf result StoreFault.Memory → first_refusal r (phase_of store.old.collection) work.now.least work.now.parents branch.now ≡ Ok tt }
    ensures refused { IsTrue G.tells → (r : Repository) (v : View) → IsAt (G.told outside.old) store.old r work.now v → IfErr result (IsRefusal r (phase_of store.old.collection) work.now v branch.now info) }
    ensures planned { IsTrue G.tells → (r : Repository) (v : View) (here : IsAt (G.told outside.old) store.old r work.now v) → IfOk result (IsPlan r work.now v (first_parent here) branch.now info store.old) }
    ensures space { IsTrue G.tells → (r : Repository) (v : View) (here : IsAt (G.told outside.old) store.old r work.now v) → IsErrOf result (StoreFault.Limit Limit.Space) →
        OFFSET_MAX < end_of r work.now v (first_parent here) branch.now info store.old }
    ensures sequence { IsTrue G.tells → (r : Repository) (v : View) (here : IsAt (G.told outside.old) store.old r work.now v) → IsErrOf result (StoreFault.Limit Limit.Sequence) →
        (end_of r work.now v (first_parent here) branch.now info store.old ≤ OFFSET_MAX) × (store.old.slot.sequence ≡ OFFSET_MAX) }
    ensures same { SameTables store.old store.new }
    ensures looks { IsTrue G.tells → OnlyLooks (G.told outside.old) (G.told outside.new) store.old store.new }
    ensures counts { Counts counted_store result (G.counts_of outside.old) (G.counts_of outside.new) }
    ensures causes { IfErr result (IsStoreCause G.tells (G.told outside.old) store.old.space) }
    ensures undamaged { IsTrue G.tells → (r : Repository) (v : View) → IsAt (G.told outside.old) store.old r work.now v → IsUndamaged result }
    ensures alone { work.now.parents ≡ [] → (outside.new ≡ outside.old) × IsUndamaged result }
{
    store.there(work.least)?;
    store.head_among(work.parents.as_slice(), branch)?;
    store.staying(work.least)?;
    store.room_for(branch)?;
    let fields = fields(store, alloc, work.parents.as_slice(), branch, info)?;
    let batch = batch_of(
        store,
        alloc,
        outside,
        &work.tree,
        work.parents.as_slice(),
        &fields,
    )?;
    let slot = store.next_slot(batch.bytes().len(), 1)?;
    let parents = only(alloc, fields.number)?;
    let entry = Entry::Commit {
        name: batch.name(),
        parents: Numbers::copy_of(alloc, work.parents.as_slice())?,
        branch: fields.branch,
        place: batch.commit_at(),
    };
    Ok(Plan {
        number: fields.number,
        batch,
        step: Step { slot, entry },
        parents,
    })
}

// The commit's batch, by the tree of its first parent, where no other has its name.
fn batch_of<G: Ground>(
    store: &mut Held,
    alloc: Global,
    outside: &mut G,
    tree: &Tree,
    parents: &[Number],
    fields: &CommitFields,
) -> Result<Batch, StoreFault>
    requires tables { (r : Repository) × IsOf store.old r × All (λ n. IsTrue (is_retained r n)) parents.now }
    requires fields { AreFields (fields_told fields.now) }
    ensures made { IsTrue G.tells → (r : Repository) (v : View) (held : Holds store.old (G.told outside.old) r) → All (λ n. IsTrue (is_retained r n)) parents.now → IsView (image_records held) tree.now v → HasShortContents v.map
        → IsNewBatch r v (first_view (image_records held) store.old r parents.now) (fields_told fields.now) store.old.slot.end result }
    ensures is_name { IfOk result (λ b. IsHash b.name) }
    ensures some { IfOk result (λ b. 0 < length b.bytes.items) }
    ensures placed { IfOk result (λ b. (store.old.slot.end ≤ b.commit_at) × (b.commit_at < store.old.slot.end + length b.bytes.items)) }
    ensures fresh { (r : Repository) → IsOf store.old r → IfOk result (λ b. not_existing r b.name ≡ Ok tt) }
    ensures same { SameTables store.old store.new }
    ensures looks { IsTrue G.tells → OnlyLooks (G.told outside.old) (G.told outside.new) store.old store.new }
    ensures counts { Counts counted_store result (G.counts_of outside.old) (G.counts_of outside.new) }
    ensures causes { IfErr result (IsStoreCause G.tells (G.told outside.old) store.old.space) }
    ensures alone { parents.now ≡ [] → (outside.new ≡ outside.old) × IsUndamaged result }
{
    match first_root(store, outside, parents) {
        Ok(first) => new_batch(store, alloc, outside, tree, fields, first),
        Err(fault) => Err(fault),
    }
}

// Where the root of the tree of a work's first parent lies, if it has one.
fn first_root<G: Ground>(
    store: &mut Held,
    outside: &mut G,
    parents: &[Number],
) -> Result<Option<Ref>, StoreFault>
    requires tables { (r : Repository) × IsOf store.old r × All (λ n. IsTrue (is_retained r n)) parents.now }
    ensures first { IsTrue G.tells → (r : Repository) (held : Holds store.old (G.told outside.old) r) → All (λ n. IsTrue (is_retained r n)) parents.now →
        IsFetchedOr (λ root. IsFirst (image_records held) root (first_view (image_records held) store.old r parents.now)) result }
    ensures same { SameTables store.old store.new }
    ensures looks { IsTrue G.tells → OnlyLooks (G.told outside.old) (G.told outside.new) store.old store.new }
    ensures counts { Counts counted_store result (G.counts_of outside.old) (G.counts_of outside.new) }
    ensures causes { IfErr result (IsStoreCause G.tells (G.told outside.old) store.old.space) }
    ensures alone { parents.now ≡ [] → (result ≡ Ok None) × (outside.new ≡ outside.old) }
{
    match parents.first() {
        None => Ok(None),
        Some(number) => match root_of(store, outside, *number) {
            Ok(root) => Ok(Some(root)),
            Err(fault) => Err(fault),
        },
    }
}

// What the commit's record and its branch's are made of.
fn fields(
    store: &Held,
    alloc: Global,
    parents: &[Number],
    branch: &[u8],
    info: Info,
) -> Result<CommitFields, Memory>
    requires branch { IsBranchName branch.now }
    requires info { IsInfo info }
    requires tables { (r : Repository) × IsOf store.now r × All (λ n. IsTrue (is_retained r n)) parents.now }
    requires few { length parents.now ≤ PARENTS_MAX }
    ensures fields { (r : Repository) → IsOf store.now r → All (λ n. IsTrue (is_retained r n)) parents.now →
        IfOk result (λ fields. fields_told fields ≡ fields_of r parents.now info branch.now) }
    ensures within { IfOk result (λ fields. AreFields (fields_told fields)) }
    ensures number { (r : Repository) → IsOf store.now r → IfOk result (λ fields. (fields.number ≡ next r) × (fields.branch ≡ branch.now)) }
{
    Ok(CommitFields {
        number: Number(store.slot.next),
        parents: parents_named(store, alloc, parents)?,
        info,
        branch: Blob::copy_of(alloc, branch)?,
    })
}

// The commit's batch, where no other has its name. That one has it comes before the space that the batch would take.
fn new_batch<G: Ground>(
    store: &mut Held,
    alloc: Global,
    outside: &mut G,
    tree: &Tree,
    fields: &CommitFields,
    first: Option<Ref>,
) -> Result<Batch, StoreFault>
    requires slot { IsSlot store.old.slot }
    requires fields { AreFields (fields_told fields.now) }
    ensures made { IsTrue G.tells → (r : Repository) (v : View) (other : Option View) (held : Holds store.old (G.told outside.old) r) → IsView (image_records held) tree.now v
        → IsFirst (image_records held) first other → HasShortContents v.map → IsNewBatch r v other (fields_told fields.now) store.old.slot.end result }
    ensures is_name { IfOk result (λ b. IsHash b.name) }
    ensures some { IfOk result (λ b. 0 < length b.bytes.items) }
    ensures placed { IfOk result (λ b. (store.old.slot.end ≤ b.commit_at) × (b.commit_at < store.old.slot.end + length b.bytes.items)) }
    ensures fresh { (r : Repository) → IsOf store.old r → IfOk result (λ b. not_existing r b.name ≡ Ok tt) }
    ensures same { SameTables store.old store.new }
    ensures looks { IsTrue G.tells → OnlyLooks (G.told outside.old) (G.told outside.new) store.old store.new }
    ensures counts { Counts counted_store result (G.counts_of outside.old) (G.counts_of outside.new) }
    ensures causes { IfErr result (IsStoreCause G.tells (G.told outside.old) store.old.space) }
    ensures alone { first ≡ None → (outside.new ≡ outside.old) × IsUndamaged result }
{
    let end = store.slot.end;
    match Batch::of(alloc, outside, &mut store.space, tree, fields, first, end) {
        Ok(batch) => {
            let name = batch.name();
            store.is_new(name)?;
            Ok(batch)
        }
        Err(fault) => Err(not_made(store, fault)),
    }
}

// Why there is no batch.
fn not_made(store: &Held, fault: SaveFault) -> StoreFault
    ensures made { (r : Repository) → IsOf store.now r → IsNotMade r fault result }
    ensures comes { IsFaultFrom fault result }
    ensures counted { counted_store result ≡ counted_save fault }
{
    match fault {
        SaveFault::Space(name) => match store.is_new(name) {
            Ok(()) => StoreFault::Limit(Limit::Space),
            Err(fault) => fault,
        },
        SaveFault::Limit(limit) => StoreFault::Limit(limit),
        SaveFault::Fetch(fault) => StoreFault::from(fault),
        SaveFault::Memory => StoreFault::Memory,
    }
}
