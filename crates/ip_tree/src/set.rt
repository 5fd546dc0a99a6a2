// Putting contents.
ghost use Rattle.std.specs.Prelude.{◌≡◌, ◌<◌, ℕ, Option, Err, IsTrue, IfErr, IsErrOf, length};
ghost use Rattle.ip_base.specs.declared.limit.Limit.TheVariants as Limit;
ghost use Rattle.ip_ground.specs.Counts.{Counts};
ghost use Rattle.ip_space.specs.declared.fault.FetchFault.TheVariants as FetchFault;
ghost use Rattle.ip_tree.specs.Faults.{counted_tree};
ghost use Rattle.ip_spec.specs.Path.{IsPath};
ghost use Rattle.ip_spec.specs.Step.{contents_limit};
ghost use Rattle.ip_spec.specs.View.{View};
ghost use Rattle.ip_spec.specs.declared.record.Record.{Record};
ghost use Rattle.ip_tree.specs.Reads.{IsOver, Looks, IsCause};
ghost use Rattle.ip_tree.specs.TreeView.{IsView, Sets};
ghost use Rattle.ip_tree.specs.declared.tree.TreeFault.TheVariants as TreeFault;

use crate::node::Node;
use crate::tree::{Tree, TreeFault};
use ip_base::limit::CONTENTS_MAX;
use ip_base::{Blob, Limit, Step};
use ip_ground::Ground;
use ip_space::Space;
use std::alloc::Global;

impl Tree {
    /// Puts contents at a path, in place of what stands there, under it, or at a step before its last. Where it fails the tree is what it
    /// was, though parts of directories on the path may have been read.
    pub fn set<G: Ground>(
        &mut self,
        alloc: Global,
        outside: &mut G,
        space: &mut Space,
        path: &[Step],
        value: &[u8],
    ) -> Result<(), TreeFault>
        requires { IsPath path.now }
        ensures sets { IsTrue G.tells → (records : ℕ → Option Record) (v : View) → IsOver (G.told outside.old) space.old records → IsView records self.old v
            → Sets records path.now value.now self.new v result }
        // Contents that are too long are refused before anything is read or held.
        ensures long { contents_limit < length value.now → result ≡ Err (TreeFault.Limit Limit.Contents) }
        ensures looks { Looks G.tells (G.told outside.old) (G.told outside.new) space.old space.new }
        ensures counts { Counts counted_tree result (G.counts_of outside.old) (G.counts_of outside.new) }
        ensures causes { IfErr result (IsCause G.tells (G.told outside.old) space.old) }
    {
        if value.len() > CONTENTS_MAX {
            return Err(TreeFault::Limit(Limit::Contents));
        }
        let contents = Blob::copy_of(alloc, value)?;
        self.place(alloc, outside, space, path, Node::Contents(contents))
    }
}
