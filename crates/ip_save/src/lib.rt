//! What a commit appends: the records of the parts of a tree that no record of the store spells yet, then the commit and its branch.
#![tactic(auto)]

ghost use Rattle.std.specs.Prelude.{◌≡◌, ◌<◌, ℕ, Option, Some};
ghost use Rattle.ip_spec.specs.Batch.{CommitFields as Fields, reusing_sources, batch, batch_root, with_batch};
ghost use Rattle.ip_save.specs.Batches.{IsFirst};
ghost use Rattle.ip_spec.specs.TreeAt.{TreeAt};
ghost use Rattle.ip_spec.specs.declared.record.Ref.{Ref};
ghost use Rattle.ip_spec.specs.View.{View};
ghost use Rattle.ip_spec.specs.declared.record.Record.{Record};
ghost use Rattle.ip_tree.specs.TreeView.{IsView};
ghost use Rattle.ip_tree.specs.declared.tree.Tree.{Tree};

mod batch;
mod fresh;
mod inode;
mod lay;
mod leaf;
mod measure;
mod places;
mod records;
mod starts;
mod tally;

pub use batch::{Batch, CommitFields, SaveFault};
use ip_spec::batch_stands;
use ip_tree::known_parts;

/// A law, which does nothing when it is called: the records of a batch, together with those that were there and lie below it, spell the tree
/// at the batch's root. So do those of one that takes contents from another tree of these records.
pub fn saved_trees()
    ensures { (records : ℕ → Option Record) (tree : Tree) (v : View) (r : Option Ref) (first : Option View) (f : Fields) (end : ℕ) → ((at : ℕ) (x : Record) → records at ≡ Some x → at < end) → IsView records tree v → IsFirst records r first
        → TreeAt (with_batch records (batch v (reusing_sources v first) f end)) (batch_root v (reusing_sources v first) end).at v.map }
{
    batch_stands();
    known_parts();
}
