//! Trees that are read lazily: an edit reads the parts of directories on its path and no others, but where one becomes a leaf, and what only looks loads none. What is said of
//! a tree is its view: the map, the least number, and the parts that records are known to spell.
#![tactic(auto)]

ghost use Rattle.std.specs.Prelude.{◌≡◌, ◌<◌, ℕ, Option, Some};
ghost use Rattle.ip_spec.specs.Batch.{KnownStand};
ghost use Rattle.ip_spec.specs.View.{View};
ghost use Rattle.ip_spec.specs.declared.record.Record.{Record};
ghost use Rattle.ip_tree.specs.TreeView.{IsView};
ghost use Rattle.ip_tree.specs.declared.tree.Tree.{Tree};

pub mod below;
pub mod copy;
pub mod fetch;
pub mod graft;
mod height;
mod list;
pub mod load;
pub mod look;
mod node;
pub mod place;
mod remove;
mod set;
mod tree;

pub use node::{Directory, Node, Stored};
pub use tree::{Root, Tree, TreeFault};

/// What a tree knows of records is so: where all of them lie below an end, the parts that its view knows are records that spell them. So a
/// batch of the parts that it doesn't know, written from the end on, spells the tree.
pub fn known_parts()
    ensures { (records : ℕ → Option Record) (tree : Tree) (v : View) (end : ℕ) → IsView records tree v → ((at : ℕ) (r : Record) → records at ≡ Some r → at < end)
        → KnownStand records v end }
{}

/// A tree that is lawful over some records is so over more of them, with the same view: its known parts lie where they did. So whoever only
/// adds records keeps what it knows of its trees.
pub fn views_stay()
    ensures { (records more : ℕ → Option Record) (tree : Tree) (v : View) → IsView records tree v → ((at : ℕ) (r : Record) → records at ≡ Some r → more at ≡ Some r)
        → IsView more tree v }
{}
