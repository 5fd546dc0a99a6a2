// Trees.
ghost use Rattle.std.specs.Prelude.{◌≡◌, ◌≤◌, ℕ, Option, IsTrue, IsFalse, IfErr, IsErrOf};
ghost use Rattle.ip_ground.specs.Counts.{Counts};
ghost use Rattle.ip_space.specs.declared.fault.FetchFault.TheVariants as FetchFault;
ghost use Rattle.ip_tree.specs.Faults.{counted_tree};
ghost use Rattle.ip_spec.specs.declared.record.Record.{Record};
ghost use Rattle.ip_spec.specs.Step.{entries_limit};
ghost use Rattle.ip_spec.specs.Tree.{Tree as Map, is_contents, widest, IsTree};
ghost use Rattle.ip_spec.specs.View.{View, no_view};
ghost use Rattle.ip_tree.specs.Meaning.{Spells};

use crate::load::load;
use crate::node::Directory;
use ip_base::{Limit, Memory, Number};
use ip_ground::Ground;
use ip_shape::dir::Dir;
use ip_space::{FetchFault, Space};
use ip_spec::record::Ref;
use std::alloc::Global;

/// Why a call on a tree failed. Whatever it is, the tree is what it was.
#[derive(Clone, Copy, Debug, PartialEq, Eq)]
pub enum TreeFault {
    /// The edit would pass this limit: contents, depth or entries.
    Limit(Limit),
    /// A record that the tree refers to was not read.
    Fetch(FetchFault),
    /// Want of memory. The call may be made again.
    Memory,
}

impl From<FetchFault> for TreeFault {
    ghost use Rattle.ip_tree.specs.declared.tree.TreeFault.TheVariants as TreeFault;

    ghost from_gives = { λ f e. e ≡ TreeFault.Fetch f };

    fn from(fault: FetchFault) -> Self {
        TreeFault::Fetch(fault)
    }
}

impl From<Memory> for TreeFault {
    ghost use Rattle.ip_tree.specs.declared.tree.TreeFault.TheVariants as TreeFault;

    ghost from_gives = { λ _ e. e ≡ TreeFault.Memory };

    fn from(_: Memory) -> Self {
        TreeFault::Memory
    }
}

/// The root directory.
#[derive(Drop)]
pub enum Root {
    /// A record of the store, not read.
    Stored(Ref),
    Loaded(Directory),
}

/// A tree: what it holds is read from the store where it is needed.
#[derive(Drop)]
pub struct Tree {
    pub root: Root,
    pub oldest: Option<Number>,
}

impl Tree {
    ghost use Rattle.ip_tree.specs.Reads.{IsOver, IsFree, Looks, IsCause};
    ghost use Rattle.ip_tree.specs.TreeView.{IsView, stored_view};
    ghost use Rattle.ip_tree.specs.declared.tree.TreeFault.TheVariants as TreeFault;

    /// The tree with nothing in it. It takes no memory.
    pub fn empty(alloc: Global) -> Tree
        ensures { (records : ℕ → Option Record) → IsView records result no_view }
    {
        Tree {
            root: Root::Loaded(Dir::empty(alloc)),
            oldest: None,
        }
    }

    /// The tree of the commit of this number, its root in the record at the reference. Nothing is read.
    pub fn of(number: Number, root: Ref) -> Tree
        ensures { (records : ℕ → Option Record) (map : Map) → IsFalse (is_contents map) → Spells records root map → IsTree map → widest map ≤ entries_limit
            → IsView records result (stored_view records number root.at map) }
    {
        Tree {
            root: Root::Stored(root),
            oldest: Some(number),
        }
    }

    /// The least number of the commits that it took from, if it took from any.
    pub fn oldest(&self) -> Option<Number>
        ensures { result ≡ self.now.oldest }
    {
        self.oldest
    }

    /// Reads the root's record where it was not read.
    pub fn open_root<G: Ground>(
        &mut self,
        alloc: Global,
        outside: &mut G,
        space: &mut Space,
    ) -> Result<(), TreeFault>
        ensures opened { IsTrue G.tells → (records : ℕ → Option Record) (v : View) → IsOver (G.told outside.old) space.old records → IsView records self.old v
            → IsView records self.new v × IfErr result IsFree }
        ensures looks { Looks G.tells (G.told outside.old) (G.told outside.new) space.old space.new }
        ensures counts { Counts counted_tree result (G.counts_of outside.old) (G.counts_of outside.new) }
        ensures causes { IfErr result (IsCause G.tells (G.told outside.old) space.old) }
    {
        let reference = match &self.root {
            Root::Stored(reference) => *reference,
            Root::Loaded(_) => return Ok(()),
        };
        self.root = Root::Loaded(load(alloc, outside, space, &reference)?);
        Ok(())
    }
}
