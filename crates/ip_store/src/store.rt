// The store: what it holds, what the last call has met that may change it, and all of its calls.
ghost use Rattle.std.specs.Prelude.{◌≡◌, IsTrue, IfOk, slice_get, map, option_map, MatchOption, None, Some, IfErr, IsErr, reverse, MatchResult, false, Ok, ◌+◌, Option, true, IsErrOf, ◌⊎◌, ◌++◌, OnOk, is_err, IsSome, is_some, not, ◌<◌, length, Err};
ghost use Rattle.ip_base.specs.declared.limit.Limit.TheVariants as Limit;
ghost use Rattle.ip_tree.specs.declared.tree.TreeFault.TheVariants as TreeFault;
ghost use Rattle.ip_spec.specs.Map.{len};
ghost use Rattle.ip_spec.specs.Repository.{Repository, next, head, number_named, commit_at, is_retained, name_at};
ghost use Rattle.ip_spec.specs.Machine.{phase_told};
ghost use Rattle.ip_spec.specs.Step.{below, contents_limit, head_of};
ghost use Rattle.ip_held.specs.Collecting.{phase_of, child_of};
ghost use Rattle.ip_held.specs.Held.{IsOf, place_of_commit, Holds, SameTables, image_records};
ghost use Rattle.ip_held.specs.Causes.{IsStoreCause};
ghost use Rattle.ip_held.specs.Faults.{counted_store};
ghost use Rattle.ip_ground.specs.Counts.{Counts};
ghost use Rattle.ip_spec.specs.Record.{IsBranchName, IsInfo};
ghost use Rattle.ip_space.specs.SpaceView.{IsReadable, records_of};
ghost use Rattle.ip_held.specs.Showing.{IsFetchedOr, BlamesCommit, Damages};
ghost use Rattle.ip_reads.specs.Shown.{IsShown};
ghost use Rattle.ip_held.specs.Trees.{OnlyLooks, IsTreeOf};
ghost use Rattle.ip_spec.specs.History.{ancestors, lcas};
ghost use Rattle.ip_tree.specs.Faults.{counted_tree};
ghost use Rattle.ip_spec.specs.Path.{IsPath};
ghost use Rattle.ip_spec.specs.Tree.{got_at, listed_at};
ghost use Rattle.ip_spec.specs.View.{View};
ghost use Rattle.ip_tree.specs.Reads.{IsCause, IsFree};
ghost use Rattle.ip_tree.specs.TreeView.{IsView, Sets, Removes, Grafts};
ghost use Rattle.ip_appends.specs.Naming.{RemovesBranch, SetsBranch};
ghost use Rattle.ip_image.specs.Slot.{IsChunkSize};
ghost use Rattle.ip_held.specs.Answers.{met_by, met_nothing};
ghost use Rattle.ip_appends.specs.Commits.{CommitsWork};
ghost use Rattle.ip_held.specs.Work.{AreParents};
ghost use Rattle.ip_appends.specs.Merging.{MergesInto};
ghost use Rattle.ip_spawn.specs.declared.job.Job.{Job};
ghost use Rattle.ip_held.specs.Clear.{unswept_in};
ghost use Rattle.ip_collects.specs.CollectFaults.{counted_start};
ghost use Rattle.ip_collects.specs.Starting.{new_collection, met_by_start, BeginsCollecting, IsBegun, IsTurnedDown, IsJobAt, started_by};
ghost use Rattle.ip_base.specs.declared.exit.Reaped.{Reaped, Reaped as ReapedValue};
ghost use Rattle.ip_spawn.specs.Children.{told_after};
ghost use Rattle.ip_collects.specs.Cancelling.{CancelsCollecting, IsKilled, CountsCancel};
ghost use Rattle.ip_held.specs.declared.collection.Collection.{Collection};
ghost use Rattle.ip_collects.specs.Concluding.{AsksChild, ConcludesAs};
ghost use Rattle.ip_collects.specs.Finishing.{IsQuiet, CountsFinish};
ghost use Rattle.ip_opens.specs.OpenFaults.{counted_init, counted_open};
ghost use Rattle.ip_opens.specs.Opening.{Makes, Opens};
ghost use Rattle.ip_store.specs.Opened.{held_of};
ghost use Rattle.ip_spawn.specs.Counts as spawn;
ghost use Rattle.ip_collects.specs.declared.starting.CollectFault.TheVariants as CollectFault;
ghost use Rattle.ip_collects.specs.declared.cancelling.CancelFault.TheVariants as CancelFault;
ghost use Rattle.ip_collects.specs.declared.cancelling.Cancelled.TheVariants as Cancelled;
ghost use Rattle.ip_spec.specs.declared.met.Child.TheVariants as Heard;
ghost use Rattle.ip_collects.specs.declared.finishing.FinishFault.TheVariants as FinishFault;

use ip_appends::Merge;
use ip_base::{Hash, Info, Memory, Number, Step};
use ip_collects::{CancelFault, Cancelled, CollectFault, FinishFault, Looked, met_by_start};
use ip_ground::Ground;
use ip_held::{Held, StoreFault, Work, met_by, nothing_met};
use ip_merge::Decides;
use ip_opens::{InitFault, OpenFault};
use ip_reads::Shown;
use ip_spawn::Spawner;
use ip_spec::met::{Met, Phase};
use ip_spec::reply::Heads;
use ip_spec::tree::{Got, Listed};
use ip_tree::{Tree, TreeFault};
use std::alloc::Global;

/// An open store.
#[derive(Drop)]
pub struct Store {
    pub(crate) held: Held,
    pub(crate) met: Met,
}

// How it comes to be.
impl Store {
    /// Makes a store without commits, whose chunks have so many bytes. It is there for good once this is `Ok`.
    pub fn init<G: Ground>(outside: &mut G, chunk: u64) -> Result<(), InitFault>
        requires { IsChunkSize chunk }
        ensures does { IsTrue G.tells → Makes chunk result (G.told outside.old) (G.told outside.new) }
        ensures counts { Counts counted_init result (G.counts_of outside.old) (G.counts_of outside.new) }
    {
        ip_opens::init(outside, chunk)
    }

    /// Opens the store: it reads each byte of its records once, and of a live mapping, and keeps the names of the commits, where their records
    /// lie, the branches and the mapping. It reads by the mebibyte, or run by run below the horizon, and besides these it takes memory for one record and for a buffer, which has no more than a
    /// mebibyte and the bytes of the longest record, as its head tells them. `NoStore` and `Damaged` are final; after the other two it
    /// may be tried again.
    pub fn open_at<G: Ground>(alloc: Global, outside: &mut G) -> Result<Store, OpenFault>
        ensures tables { IfOk result (λ store. (r : Repository) × IsOf store.held r) }
        ensures met { IfOk result (λ store. store.met ≡ met_nothing) }
        ensures idle { IfOk result (λ store. store.held.collection ≡ None) }
        ensures unswept { IfOk result (λ store. store.held.unswept ≡ unswept_in store.held.slot) }
        ensures does { IsTrue G.tells → Opens (held_of result) (G.told outside.old) (G.told outside.new) }
        ensures counts { Counts counted_open result (G.counts_of outside.old) (G.counts_of outside.new) }
    {
        match ip_opens::open_at(alloc, outside) {
            Ok(held) => Ok(Store {
                held,
                met: nothing_met(),
            }),
            Err(fault) => Err(fault),
        }
    }
}

// What it tells, by its tables alone.
impl Store {
    /// What the last call that changes the store met.
    pub fn met(&self) -> Met
        ensures { result ≡ self.now.met }
    {
        self.met
    }

    /// The number of the first commit that is retained.
    pub fn floor(&self) -> Number
        ensures { (r : Repository) → IsOf self.now.held r → result ≡ r.floor }
    {
        self.held.floor()
    }

    /// The number of the commit that comes next.
    pub fn next(&self) -> Number
        ensures { (r : Repository) → IsOf self.now.held r → result ≡ next r }
    {
        self.held.next()
    }

    /// Whether a collection runs, and at which commit.
    pub fn phase(&self) -> Phase
        ensures { result ≡ phase_told (phase_of self.now.held.collection) }
    {
        self.held.phase()
    }

    /// The least number of a work, where the commit of that number was given up: then nothing is done with the work.
    pub fn given_up(&self, least: Option<Number>) -> Option<Number>
        ensures { (r : Repository) → IsOf self.now.held r → result ≡ below r.floor least }
    {
        self.held.given_up(least)
    }

    /// The number of the commit that a branch is at.
    pub fn head(&self, name: &[u8]) -> Option<Number>
        ensures { (r : Repository) → IsOf self.now.held r → result ≡ head r name.now }
    {
        self.held.head(name)
    }

    /// How many branches there are.
    pub fn branch_count(&self) -> u32
        ensures { (r : Repository) → IsOf self.now.held r → result ≡ len r.branches }
    {
        self.held.branch_count()
    }

    /// The branch at a place, counted from 0 in the order of the names' bytes, and the number of the commit that it is at.
    pub fn branch_at(&self, place: u32) -> Option<(&[u8], Number)>
        ensures { (r : Repository) → IsOf self.now.held r →
            MatchOption result (slice_get r.branches.entries place ≡ None) (λ e. slice_get r.branches.entries place ≡ Some (e.0.now, e.1)) }
    {
        self.held.branch_at(place)
    }

    /// The branches and the names of their commits, in the order of the branches' names.
    pub fn branches(&self, alloc: Global) -> Result<Heads, Memory>
        requires { (r : Repository) × IsOf self.now.held r }
        ensures { (r : Repository) → IsOf self.now.held r → IfOk result (λ heads. heads ≡ map (head_of r) r.branches.entries) }
    {
        self.held.branches(alloc)
    }

    /// The number of the retained commit of a name.
    pub fn commit_named(&self, name: &Hash) -> Option<Number>
        requires { (r : Repository) × IsOf self.now.held r }
        ensures { (r : Repository) → IsOf self.now.held r → result ≡ number_named r name.now }
    {
        self.held.commit_named(name)
    }

    /// The name of the retained commit of a number.
    pub fn name_of(&self, number: Number) -> Option<Hash>
        ensures { (r : Repository) → IsOf self.now.held r → result ≡ option_map (λ c. c.name) (commit_at r number) }
    {
        self.held.name_of(number)
    }

    /// The name of a retained commit.
    pub fn retained_name(&self, number: Number) -> Hash
        requires tables { (r : Repository) × IsOf self.now.held r × IsTrue (is_retained r number) }
        ensures { (r : Repository) → IsOf self.now.held r → IsTrue (is_retained r number) → result ≡ name_at r number }
    {
        self.held.retained_name(number)
    }
}

// What it tells by its records.
impl Store {
    /// A retained commit as its record tells it, which takes two reads at most. `Damaged` comes only where others changed the files; after it
    /// and after `Ground` the store may not be used any more.
    pub fn show<G: Ground>(
        &mut self,
        alloc: Global,
        outside: &mut G,
        number: Number,
    ) -> Result<Shown, StoreFault>
        requires tables { (r : Repository) × IsOf self.old.held r × IsTrue (is_retained r number) }
        ensures shows { IsTrue G.tells → (r : Repository) → Holds self.old.held (G.told outside.old) r → IsTrue (is_retained r number) → IsShown r number result }
        ensures blames { (r : Repository) → IsOf self.old.held r → IsTrue (is_retained r number) → BlamesCommit (place_of_commit self.old.held number) (name_at r number) result }
        ensures damages { IsTrue G.tells → IsReadable (G.told outside.old) self.old.held.space → Damages (records_of (G.told outside.old) self.old.held.space) result }
        ensures same { SameTables self.old.held self.new.held }
        ensures looks { IsTrue G.tells → OnlyLooks (G.told outside.old) (G.told outside.new) self.old.held self.new.held }
        ensures met { self.new.met ≡ self.old.met }
        ensures counts { Counts counted_store result (G.counts_of outside.old) (G.counts_of outside.new) }
    {
        ip_reads::show(&mut self.held, alloc, outside, number)
    }

    /// The names of a retained commit and of its ancestors, descending by number.
    pub fn log(&self, alloc: Global, number: Number) -> Result<Vec<Hash>, Memory>
        requires { (r : Repository) × IsOf self.now.held r × IsTrue (is_retained r number) }
        ensures { (r : Repository) → IsOf self.now.held r → IfOk result (λ names. names.items ≡ map (name_at r) (reverse (ancestors r number))) }
    {
        ip_reads::log(&self.held, alloc, number)
    }

    /// The names of the least common ancestors of two retained commits, ascending by number: the common ancestors that are a proper ancestor
    /// of no other one. There may be none, and there may be several.
    pub fn lcas(&self, alloc: Global, one: Number, other: Number) -> Result<Vec<Hash>, Memory>
        requires { (r : Repository) × IsOf self.now.held r × IsTrue (is_retained r one) × IsTrue (is_retained r other) }
        ensures { (r : Repository) → IsOf self.now.held r → IfOk result (λ names. names.items ≡ map (name_at r) (lcas r one other)) }
    {
        ip_reads::lcas(&self.held, alloc, one, other)
    }

    /// What stands at a path of a tree; no steps are the root, which is a directory though it may be empty. A fault but for want of memory
    /// comes only where a call on the ground failed or others changed the files: the store may not be used any more after it.
    pub fn get<G: Ground>(
        &mut self,
        alloc: Global,
        outside: &mut G,
        tree: &Tree,
        path: &[Step],
    ) -> Result<Got, TreeFault>
        ensures got { IsTrue G.tells → (r : Repository) (v : View) (held : Holds self.old.held (G.told outside.old) r) → IsView (image_records held) tree.now v
            → MatchResult result (λ got. got ≡ got_at v.map path.now) IsFree }
        ensures same { SameTables self.old.held self.new.held }
        ensures looks { IsTrue G.tells → OnlyLooks (G.told outside.old) (G.told outside.new) self.old.held self.new.held }
        ensures met { self.new.met ≡ self.old.met }
        ensures counts { Counts counted_tree result (G.counts_of outside.old) (G.counts_of outside.new) }
        ensures causes { IfErr result (IsCause G.tells (G.told outside.old) self.old.held.space) }
    {
        ip_reads::get(&mut self.held, alloc, outside, tree, path)
    }

    /// What is listed at a path of a tree. Faults are as those of `get`.
    pub fn list<G: Ground>(
        &mut self,
        alloc: Global,
        outside: &mut G,
        tree: &Tree,
        path: &[Step],
    ) -> Result<Listed, TreeFault>
        ensures listed { IsTrue G.tells → (r : Repository) (v : View) (held : Holds self.old.held (G.told outside.old) r) → IsView (image_records held) tree.now v
            → MatchResult result (λ listed. listed ≡ listed_at v.map path.now) IsFree }
        ensures same { SameTables self.old.held self.new.held }
        ensures looks { IsTrue G.tells → OnlyLooks (G.told outside.old) (G.told outside.new) self.old.held self.new.held }
        ensures met { self.new.met ≡ self.old.met }
        ensures counts { Counts counted_tree result (G.counts_of outside.old) (G.counts_of outside.new) }
        ensures causes { IfErr result (IsCause G.tells (G.told outside.old) self.old.held.space) }
    {
        ip_reads::list(&mut self.held, alloc, outside, tree, path)
    }

    /// Puts contents at a path of a tree, in place of what stands there, under it, or at a step before its last. Where it fails the tree is
    /// what it was. Faults but for limits are as those of `get`.
    pub fn set<G: Ground>(
        &mut self,
        alloc: Global,
        outside: &mut G,
        tree: &mut Tree,
        path: &[Step],
        value: &[u8],
    ) -> Result<(), TreeFault>
        requires { IsPath path.now }
        ensures sets { IsTrue G.tells → (r : Repository) (v : View) (held : Holds self.old.held (G.told outside.old) r) → IsView (image_records held) tree.old v
            → Sets (image_records held) path.now value.now tree.new v result }
        ensures same { SameTables self.old.held self.new.held }
        ensures long { contents_limit < length value.now → result ≡ Err (TreeFault.Limit Limit.Contents) }
        ensures looks { IsTrue G.tells → OnlyLooks (G.told outside.old) (G.told outside.new) self.old.held self.new.held }
        ensures met { self.new.met ≡ self.old.met }
        ensures counts { Counts counted_tree result (G.counts_of outside.old) (G.counts_of outside.new) }
        ensures causes { IfErr result (IsCause G.tells (G.told outside.old) self.old.held.space) }
    {
        ip_reads::set(&mut self.held, alloc, outside, tree, path, value)
    }

    /// Takes away what stands at a path of a tree and under it; false where nothing stands there. Where it fails the tree is what it was.
    /// Faults are as those of `get`.
    pub fn remove<G: Ground>(
        &mut self,
        alloc: Global,
        outside: &mut G,
        tree: &mut Tree,
        path: &[Step],
    ) -> Result<bool, TreeFault>
        requires { IsPath path.now }
        ensures removes { IsTrue G.tells → (r : Repository) (v : View) (held : Holds self.old.held (G.told outside.old) r) → IsView (image_records held) tree.old v
            → Removes (image_records held) path.now tree.new v result }
        ensures same { SameTables self.old.held self.new.held }
        ensures looks { IsTrue G.tells → OnlyLooks (G.told outside.old) (G.told outside.new) self.old.held self.new.held }
        ensures met { self.new.met ≡ self.old.met }
        ensures counts { Counts counted_tree result (G.counts_of outside.old) (G.counts_of outside.new) }
        ensures causes { IfErr result (IsCause G.tells (G.told outside.old) self.old.held.space) }
    {
        ip_reads::remove(&mut self.held, alloc, outside, tree, path)
    }

    /// Puts what stands in a source at a path and under it to a path of a tree; false where nothing stands in the source. Where it fails the
    /// tree is what it was. Faults but for limits are as those of `get`.
    pub fn graft<G: Ground>(
        &mut self,
        alloc: Global,
        outside: &mut G,
        tree: &mut Tree,
        source: &Tree,
        from: &[Step],
        to: &[Step],
    ) -> Result<bool, TreeFault>
        requires { IsPath to.now }
        ensures grafts { IsTrue G.tells → (r : Repository) (v w : View) (held : Holds self.old.held (G.told outside.old) r) → IsView (image_records held) tree.old v → IsView (image_records held) source.now w
            → Grafts (image_records held) from.now to.now tree.new v w result }
        ensures same { SameTables self.old.held self.new.held }
        ensures looks { IsTrue G.tells → OnlyLooks (G.told outside.old) (G.told outside.new) self.old.held self.new.held }
        ensures met { self.new.met ≡ self.old.met }
        ensures counts { Counts counted_tree result (G.counts_of outside.old) (G.counts_of outside.new) }
        ensures causes { IfErr result (IsCause G.tells (G.told outside.old) self.old.held.space) }
    {
        ip_reads::graft(&mut self.held, alloc, outside, tree, source, from, to)
    }

    /// The tree of a retained commit, by one fetch of the commit's record: none of its own is read. Faults are as those of `show`.
    pub fn tree_of<G: Ground>(
        &mut self,
        outside: &mut G,
        number: Number,
    ) -> Result<Tree, StoreFault>
        requires tables { (r : Repository) × IsOf self.old.held r × IsTrue (is_retained r number) }
        ensures tree { IsTrue G.tells → (r : Repository) (held : Holds self.old.held (G.told outside.old) r) → IsTrue (is_retained r number) →
            IsFetchedOr (IsTreeOf (image_records held) r number) result }
        ensures blames { (r : Repository) → IsOf self.old.held r → IsTrue (is_retained r number) → BlamesCommit (place_of_commit self.old.held number) (name_at r number) result }
        ensures damages { IsTrue G.tells → IsReadable (G.told outside.old) self.old.held.space → Damages (records_of (G.told outside.old) self.old.held.space) result }
        ensures same { SameTables self.old.held self.new.held }
        ensures looks { IsTrue G.tells → OnlyLooks (G.told outside.old) (G.told outside.new) self.old.held self.new.held }
        ensures met { self.new.met ≡ self.old.met }
        ensures counts { Counts counted_store result (G.counts_of outside.old) (G.counts_of outside.new) }
        ensures causes { IfErr result (IsStoreCause G.tells (G.told outside.old) self.old.held.space) }
    {
        ip_reads::tree_of(&mut self.held, outside, number)
    }
}

// What changes it.
impl Store {
    /// Puts a branch at a retained commit. Once it is `Ok` it is there for good. After `Ground` the store may not be used any more.
    pub fn set_branch<G: Ground>(
        &mut self,
        alloc: Global,
        outside: &mut G,
        name: &[u8],
        number: Number,
    ) -> Result<(), StoreFault>
        requires name { IsBranchName name.now }
        requires tables { (r : Repository) × IsOf self.old.held r × IsTrue (is_retained r number) }
        ensures sets { SetsBranch G.tells name.now number result self.old.held self.new.held (G.told outside.old) (G.told outside.new) }
        ensures met { self.new.met ≡ met_by result }
        ensures counts { Counts counted_store result (G.counts_of outside.old) (G.counts_of outside.new) }
    {
        let answer = ip_appends::set_branch(&mut self.held, alloc, outside, name, number);
        self.met = met_by(&answer);
        answer
    }

    /// Takes a branch away. `Ok(false)`: no branch has the name, and nothing was done. Once it is `Ok(true)` it is gone for good. After
    /// `Ground` the store may not be used any more.
    pub fn remove_branch<G: Ground>(
        &mut self,
        alloc: Global,
        outside: &mut G,
        name: &[u8],
    ) -> Result<bool, StoreFault>
        requires name { IsBranchName name.now }
        requires tables { (r : Repository) × IsOf self.old.held r }
        ensures removes { RemovesBranch G.tells name.now result self.old.held self.new.held (G.told outside.old) (G.told outside.new) }
        ensures absent { result ≡ Ok false → outside.new ≡ outside.old }
        ensures met { self.new.met ≡ met_by result }
        ensures counts { Counts counted_store result (G.counts_of outside.old) (G.counts_of outside.new) }
    {
        let answer = ip_appends::remove_branch(&mut self.held, alloc, outside, name);
        self.met = met_by(&answer);
        answer
    }

    /// Commits the work's tree to a branch, and answers the commit's name. Afterwards the work goes on from that commit, and its tree is the
    /// one that was stored. Once it is `Ok` the commit is there for good. Contents that the tree of the work's first parent has at the same path are not
    /// written again. After `Ground` and `Damaged` the store may not be used any more.
    pub fn commit<G: Ground>(
        &mut self,
        alloc: Global,
        outside: &mut G,
        work: &mut Work,
        branch: &[u8],
        info: Info,
    ) -> Result<Hash, StoreFault>
        requires branch { IsBranchName branch.now }
        requires info { IsInfo info }
        requires tables { (r : Repository) × IsOf self.old.held r × AreParents r work.old.least work.old.parents }
        ensures commits { CommitsWork G.tells branch.now info result self.old.held self.new.held work.old work.new (G.told outside.old) (G.told outside.new) }
        ensures met { self.new.met ≡ met_by result }
        ensures counts { Counts counted_store result (G.counts_of outside.old) (G.counts_of outside.new) }
        // What is not done leaves the work as it was, over any ground.
        ensures spared { IsErr result → work.new ≡ work.old }
    {
        let answer = ip_appends::commit(&mut self.held, alloc, outside, work, branch, info);
        self.met = met_by(&answer);
        answer
    }

    /// Merges a retained commit into a branch: of the trees of the branch's commit and of this one, over that of their least common ancestor,
    /// it commits the merge by these rules. What is not `Current`, `Forward` or `Merged` changes nothing. Once it is one of these it is there
    /// for good. After `Ground` and `Damaged` the store may not be used any more.
    pub fn merge_into<G: Ground, D: Decides>(
        &mut self,
        alloc: Global,
        outside: &mut G,
        number: Number,
        branch: &[u8],
        info: Info,
        rules: &D,
    ) -> Result<Merge, StoreFault>
        requires branch { IsBranchName branch.now }
        requires info { IsInfo info }
        requires tables { (r : Repository) × IsOf self.old.held r × IsTrue (is_retained r number) }
        ensures merges { MergesInto G.tells (D.rule rules.now) number branch.now info result self.old.held self.new.held (G.told outside.old) (G.told outside.new) }
        ensures met { self.new.met ≡ met_by result }
        ensures counts { Counts counted_store result (G.counts_of outside.old) (G.counts_of outside.new) }
    {
        let answer = ip_appends::merge_into(
            &mut self.held,
            alloc,
            outside,
            number,
            branch,
            info,
            rules,
        );
        self.met = met_by(&answer);
        answer
    }

    /// Begins a collection at a retained commit: a child is started, in the store's folder, that is to copy what this commit and all later ones need, and the store goes on meanwhile. It is answered with the commit's
    /// name, once the attempt is drawn for good. After `Ground` the store may not be used any more.
    pub fn start_collect<G: Ground, P: Spawner>(
        &mut self,
        alloc: Global,
        outside: &mut G,
        spawner: &mut P,
        dir: &str,
        number: Number,
    ) -> Result<Hash, CollectFault>
        requires tables { (r : Repository) × IsOf self.old.held r × IsTrue (is_retained r number) }
        requires child { P.held spawner.old ≡ child_of self.old.held.collection }
        ensures begins { BeginsCollecting G.tells number result self.old.held self.new.held (G.told outside.old) (G.told outside.new) }
        ensures child { P.held spawner.new ≡ child_of self.new.held.collection }
        ensures turned_down { IsTurnedDown result → outside.new ≡ outside.old }
        ensures unasked { IsTurnedDown result ⊎ IsErrOf result CollectFault.Ground → spawner.new ≡ spawner.old }
        // One child was started, or its start failed.
        ensures asked { IsBegun result → (job : Job) × IsJobAt self.old.held number self.new.held.slot job × OnOk result (self.new.held.collection ≡ Some (new_collection number job))
            × (IsTrue P.tells → P.told spawner.new ≡ record { started = (P.told spawner.old).started ++ started_by dir.now job result; reaped = (P.told spawner.old).reaped })
            × spawn.Counts false false false (is_err result) (P.counts_of spawner.old) (P.counts_of spawner.new) }
        ensures met { self.new.met ≡ met_by_start result }
        ensures counts { Counts counted_start result (G.counts_of outside.old) (G.counts_of outside.new) }
    {
        let answer = ip_collects::start_collect(
            &mut self.held,
            alloc,
            outside,
            spawner,
            dir,
            number,
        );
        self.met = met_by_start(&answer);
        answer
    }

    /// Gives the collection up that runs: its child is killed, and the files of its attempt are removed, with all others that nobody needs. It takes no memory. After `Ground` the store may not be used any
    /// more.
    pub fn cancel<G: Ground, P: Spawner>(
        &mut self,
        outside: &mut G,
        spawner: &mut P,
    ) -> Result<Cancelled, CancelFault>
        requires tables { (r : Repository) × IsOf self.old.held r }
        requires child { P.held spawner.old ≡ child_of self.old.held.collection }
        ensures cancels { CancelsCollecting G.tells result self.new.met self.old.held self.new.held (G.told outside.old) (G.told outside.new) }
        ensures child { P.held spawner.new ≡ None }
        ensures idle { IsErrOf result CancelFault.Idle → (outside.new ≡ outside.old) × (spawner.new ≡ spawner.old) }
        ensures orphan { result ≡ Ok Cancelled.Orphan → outside.new ≡ outside.old }
        // A child that was reaped before needs no kill.
        ensures kept { (c : Collection) → self.old.held.collection ≡ Some c → IsSome c.exit → spawner.new ≡ spawner.old }
        ensures killed { (c : Collection) → self.old.held.collection ≡ Some c → c.exit ≡ None → (end : Option Reaped) × IsKilled c result end
            × (IsTrue P.tells → P.told spawner.new ≡ told_after end (P.told spawner.old)) × spawn.Counts false false (is_some end) (not (is_some end)) (P.counts_of spawner.old) (P.counts_of spawner.new) }
        ensures counts { CountsCancel result self.new.met.left (G.counts_of outside.old) (G.counts_of outside.new) }
    {
        ip_collects::cancel(&mut self.held, &mut self.met, outside, spawner)
    }

    /// Looks whether the child has ended, unless it was reaped before. Where it has, what it wrote is checked, a slice of records in each look; where
    /// the check is through it is as `finish` says. While the child runs nothing is done, and no memory is taken.
    pub fn look<G: Ground, P: Spawner>(
        &mut self,
        alloc: Global,
        outside: &mut G,
        spawner: &mut P,
    ) -> Result<Looked, FinishFault>
        requires tables { (r : Repository) × IsOf self.old.held r }
        requires child { P.held spawner.old ≡ child_of self.old.held.collection }
        ensures concludes { ConcludesAs G.tells false result self.new.met self.old.held self.new.held (G.told outside.old) (G.told outside.new) }
        ensures child { P.held spawner.new ≡ child_of self.new.held.collection }
        ensures idle { IsErrOf result FinishFault.Idle → spawner.new ≡ spawner.old }
        ensures quiet { IsQuiet result → outside.new ≡ outside.old }
        // A child that was reaped before is not asked again.
        ensures kept { (c : Collection) (reaped : ReapedValue) → self.old.held.collection ≡ Some c → c.exit ≡ Some reaped → (spawner.new ≡ spawner.old) × (self.new.met.child ≡ Heard.Ended reaped) }
        ensures asked { (c : Collection) → self.old.held.collection ≡ Some c → c.exit ≡ None → AsksChild false c.job.attempt self.new.met.child P.tells (P.told spawner.old) (P.told spawner.new) (P.counts_of spawner.old) (P.counts_of spawner.new) }
        ensures counts { CountsFinish result self.new.met.left (G.counts_of outside.old) (G.counts_of outside.new) }
    {
        ip_collects::conclude(
            &mut self.held,
            &mut self.met,
            alloc,
            outside,
            spawner,
            false,
        )
    }

    /// Waits until the child has ended, unless it was reaped before, and checks all of what it wrote that is not checked yet: it is answered neither
    /// `Running` nor `Checking`. Where it ended with code 0
    /// and the files are the valid pair, the store gives up the commits below the collection's and reads from the pair what lies below it; else the
    /// collection is over and nothing is given up. Then what nobody needs is swept away. After `Ground` and `Damaged` the store may not be used any more.
    pub fn finish<G: Ground, P: Spawner>(
        &mut self,
        alloc: Global,
        outside: &mut G,
        spawner: &mut P,
    ) -> Result<Looked, FinishFault>
        requires tables { (r : Repository) × IsOf self.old.held r }
        requires child { P.held spawner.old ≡ child_of self.old.held.collection }
        ensures concludes { ConcludesAs G.tells true result self.new.met self.old.held self.new.held (G.told outside.old) (G.told outside.new) }
        ensures child { P.held spawner.new ≡ child_of self.new.held.collection }
        ensures idle { IsErrOf result FinishFault.Idle → spawner.new ≡ spawner.old }
        ensures quiet { IsQuiet result → outside.new ≡ outside.old }
        // A child that was reaped before is not asked again.
        ensures kept { (c : Collection) (reaped : ReapedValue) → self.old.held.collection ≡ Some c → c.exit ≡ Some reaped → (spawner.new ≡ spawner.old) × (self.new.met.child ≡ Heard.Ended reaped) }
        ensures asked { (c : Collection) → self.old.held.collection ≡ Some c → c.exit ≡ None → AsksChild true c.job.attempt self.new.met.child P.tells (P.told spawner.old) (P.told spawner.new) (P.counts_of spawner.old) (P.counts_of spawner.new) }
        ensures counts { CountsFinish result self.new.met.left (G.counts_of outside.old) (G.counts_of outside.new) }
    {
        ip_collects::conclude(&mut self.held, &mut self.met, alloc, outside, spawner, true)
    }
}
