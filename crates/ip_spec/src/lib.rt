//! The definitions that every contract of the store cites, and the laws that hold of them.
#![tactic(auto)]

ghost use Rattle.std.specs.Prelude.{◌≡◌, ℕ, Option, Some, None, cond, not, IsFalse, IsTrue, List, ◌++◌, length, map, Ok, IfSome};
ghost use Rattle.ip_spec.specs.Map.{get};
ghost use Rattle.ip_spec.specs.Path.{Bytes, Path, AreBytes, same_path, is_prefix, is_related};
ghost use Rattle.ip_spec.specs.Record.{Record, InodeChild, IsInode, Fits, spelling, bitmap, name_of};
ghost use Rattle.ip_spec.specs.Reading.{reading, bits_of};
ghost use Rattle.ip_spec.specs.Tree.{Tree, IsTree, put, remove, graft};
ghost use Rattle.ip_spec.specs.TreeAt.{TreeAt};
ghost use Rattle.ip_spec.specs.Shape.{root_name};
ghost use Rattle.ip_spec.specs.View.{View};
ghost use Rattle.ip_spec.specs.Batch.{CommitFields, Sources, sources, reusing_sources, batch, batch_root, batch_end, with_batch, AreEndToEnd, HoldsContents, KnownStand, SourcesStand};
ghost use Rattle.ip_spec.specs.Core.{Core, Event, CoreStep, CoreRun, no_core, IsClosed, KeepsReached};
ghost use Rattle.ip_spec.specs.Repository.{Repository};
ghost use Rattle.ip_spec.specs.History.{Ancestor, ParentsFirst, is_ancestor};
ghost use Rattle.ip_spec.specs.Merge.{Merges, Outcome, means};
ghost use Rattle.ip_spec.specs.MergeModel.{Merger, merge_of, machine};
ghost use Rattle.ip_spec.specs.Machine.{State, Command, Conditions};
ghost use Rattle.ip_spec.specs.Step.{MayAnswer};
ghost use Rattle.ip_spec.specs.Line.{IsLineOf, IsBadAt};

pub mod command;
pub mod event;
pub mod kind;
pub mod merge;
pub mod met;
pub mod record;
pub mod reply;
pub mod tree;

/// What stands at each path after bytes are put at one, after a removal, and after a graft.
pub fn edits()
    ensures put { (t : Tree) (p q : Path) (bytes : Bytes) →
        get (put t p bytes) q ≡ cond (same_path q p) (Some bytes) (cond (not (is_related p q)) (get t q) None) }
    ensures remove { (t : Tree) (p q : Path) → get (remove t p) q ≡ cond (not (is_prefix p q)) (get t q) None }
    ensures graft { (t source : Tree) (from to p : Path) → get (graft t source from to) (to ++ p) ≡ get source (from ++ p) }
    ensures beside { (t source : Tree) (from to q : Path) → IsFalse (is_prefix to q) →
        get (graft t source from to) q ≡ cond (not (is_related to q)) (get t q) None }
{}

/// A tree that stands among some records stands among more of them.
pub fn trees_stay()
    ensures { (records more : ℕ → Option Record) →
        ((at : ℕ) (r : Record) → records at ≡ Some r → more at ≡ Some r) →
        (at : ℕ) (t : Tree) → TreeAt records at t → TreeAt more at t }
{}

/// Where parents come before their children, the test of ancestors decides the closure of the parent relation.
pub fn ancestors()
    ensures test { (r : Repository) → ParentsFirst r → (a n : ℕ) → IsTrue (is_ancestor r a n) → Ancestor r a n }
    ensures ancestor { (r : Repository) → ParentsFirst r → (a n : ℕ) → Ancestor r a n → IsTrue (is_ancestor r a n) }
{}

/// For rules that compute, the merge that computes is a merge, and there is no other.
pub fn merges()
    ensures some { (f : Path → Merger) (o a b : Tree) → Merges (λ p. means (f p)) o a b (merge_of f o a b) }
    ensures one { (f : Path → Merger) (o a b : Tree) (m n : Outcome) →
        Merges (λ p. means (f p)) o a b m → Merges (λ p. means (f p)) o a b n → m ≡ n }
{}

/// For rules that compute, the machine that computes answers as the machine may, want of memory included.
pub fn turns()
    ensures { (f : Path → Merger) (s : State) (command : Command) (met : Conditions) →
        MayAnswer (λ p. means (f p)) s command met (machine f s command met) }
{}

/// A line that is no command goes wrong at one place at most.
pub fn bad_lines()
    ensures { (line : Bytes) (a b : ℕ) → IsBadAt IsLineOf line a → IsBadAt IsLineOf line b → a ≡ b }
{}

/// At one offset of some records stands one tree at most.
pub fn one_tree()
    ensures { (records : ℕ → Option Record) (at : ℕ) (t u : Tree) → TreeAt records at t → TreeAt records at u → t ≡ u }
{}

/// The record at a tree's root has the tree's name.
pub fn tree_names()
    ensures { (records : ℕ → Option Record) (at : ℕ) (t : Tree) (r : Record) →
        TreeAt records at t → records at ≡ Some r → name_of r ≡ Some (root_name t) }
{}

/// The records of a batch lie end to end, and together with what was there they spell the tree at the batch's root: where each known
/// record is used again, and where records with equal contents are, too.
pub fn batch_stands()
    ensures lies { (v : View) (from : Sources) (f : CommitFields) (end : ℕ) → AreEndToEnd end (batch v from f end) (batch_end v from f end) }
    ensures stands { (records : ℕ → Option Record) (v : View) (from : Sources) (end : ℕ) →
        KnownStand records v end → SourcesStand records v from → IsTree v.map →
        (f : CommitFields) → TreeAt (with_batch records (batch v from f end)) (batch_root v from end).at v.map }
    ensures known { (records : ℕ → Option Record) (v : View) (end : ℕ) → KnownStand records v end → SourcesStand records v (sources v) }
    ensures reused { (records : ℕ → Option Record) (v : View) (first : Option View) (end : ℕ) →
        KnownStand records v end → IfSome first (HoldsContents records) → SourcesStand records v (reusing_sources v first) }
{}

/// The bits of an inode's bitmap are the indexes of its children.
pub fn bitmaps()
    ensures { (depth : ℕ) (children : List InodeChild) → IsInode depth children → bits_of (bitmap children) ≡ map (λ c. c.index) children }
{}

/// Every list of events leaves the core closed; an event has one outcome at most; and each event keeps what the commits from the horizon on reach.
pub fn core_events()
    ensures closed { (events : List Event) (core : Core) → CoreRun no_core events core → IsClosed core }
    ensures one { (core one other : Core) (event : Event) → CoreStep core event one → CoreStep core event other → one ≡ other }
    ensures keeps { (old new : Core) (event : Event) → CoreStep old event new → IsClosed old → IsClosed new × KeepsReached old new }
{}

/// What is spelled is read, whatever follows; what is read is within its bounds and spells the bytes that were read; and no spelling
/// begins another.
pub fn records_read()
    ensures exact { (v : ℕ) (r : Record) (rest : Bytes) → Fits v r → reading v (spelling r ++ rest) ≡ Ok (r, length (spelling r)) }
    ensures spelled { (v : ℕ) (bytes : Bytes) (r : Record) (n : ℕ) → AreBytes bytes → reading v bytes ≡ Ok (r, n) →
        Fits v r × ((rest : Bytes) × (bytes ≡ spelling r ++ rest)) × (n ≡ length (spelling r)) }
    ensures one { (v : ℕ) (r s : Record) (a b : Bytes) → Fits v r → Fits v s → spelling r ++ a ≡ spelling s ++ b → r ≡ s }
{}
