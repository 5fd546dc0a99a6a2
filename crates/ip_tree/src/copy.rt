// The same tree once more.
ghost use Rattle.std.specs.Prelude.{◌≡◌, ℕ, Option, IfOk};
ghost use Rattle.ip_spec.specs.Tree.{Tree as Map};
ghost use Rattle.ip_spec.specs.View.{View};
ghost use Rattle.ip_spec.specs.declared.record.Record.{Record};
ghost use Rattle.ip_tree.specs.Edits.{IsDirectory, IsSame};
ghost use Rattle.ip_tree.specs.Meaning.{NodeIs};
ghost use Rattle.ip_tree.specs.Shown.{shown, shown_directory};
ghost use Rattle.ip_tree.specs.TreeView.{IsView};

use crate::node::{Directory, Node};
use crate::tree::{Root, Tree};
use ip_base::Memory;
use ip_shape::dir::copy_with;
use std::alloc::Global;

impl Tree {
    /// The same tree once more: what was read or is new is copied, and nothing is read.
    pub fn copy(&self, alloc: Global) -> Result<Tree, Memory>
        ensures { IfOk result (λ tree. (records : ℕ → Option Record) (v : View) → IsView records self.now v → IsView records tree v) }
    {
        let root = match &self.root {
            Root::Stored(reference) => Root::Stored(*reference),
            Root::Loaded(dir) => Root::Loaded(copy_directory(alloc, dir)?),
        };
        Ok(Tree {
            root,
            oldest: self.oldest,
        })
    }
}

/// A directory once more: its parts with what is known and unread of them, and all that was read or is new below it.
#[cycle(copy)]
pub fn copy_directory(alloc: Global, dir: &Directory) -> Result<Directory, Memory>
    ensures { IfOk result (λ copy. (records : ℕ → Option Record) (t : Map) → IsDirectory records (shown_directory dir.now) t
        → IsSame (IsDirectory records) records (shown_directory dir.now) (shown_directory copy) t) }
{
    let mut entries = Vec::with_capacity(alloc, dir.entries().len())?;
    for (step, node) in dir.entries() {
        entries.push((step.copy(alloc)?, copy_node(alloc, node)?))?;
    }
    copy_with(alloc, dir, entries)
}

/// A node once more, with all that was read or is new below it.
#[cycle(copy)]
pub fn copy_node(alloc: Global, node: &Node) -> Result<Node, Memory>
    ensures { IfOk result (λ copy. (records : ℕ → Option Record) (t : Map) → NodeIs records (shown node.now) t
        → IsSame (NodeIs records) records (shown node.now) (shown copy) t) }
{
    match node {
        Node::Stored(stored) => Ok(Node::Stored(*stored)),
        Node::Contents(bytes) => Ok(Node::Contents(bytes.copy(alloc)?)),
        Node::Directory(dir) => Ok(Node::Directory(copy_directory(alloc, dir)?)),
    }
}
