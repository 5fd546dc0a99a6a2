// The greatest number of steps in a tree.
ghost use Rattle.std.specs.Prelude.{◌≡◌, ℕ, Option, IsTrue, IsFalse, IfErr, IsErrOf, MatchResult};
ghost use Rattle.ip_ground.specs.Counts.{Counts};
ghost use Rattle.ip_space.specs.declared.fault.FetchFault.TheVariants as FetchFault;
ghost use Rattle.ip_tree.specs.Faults.{counted_tree};
ghost use Rattle.ip_spec.specs.Tree.{Tree as Map, IsTree, height as height_of_map, is_contents};
ghost use Rattle.ip_spec.specs.View.{View};
ghost use Rattle.ip_spec.specs.declared.record.Record.{Record};
ghost use Rattle.ip_tree.specs.Heights.{content_height, node_height, unread_height};
ghost use Rattle.ip_tree.specs.Meaning.{Spells};
ghost use Rattle.ip_tree.specs.Reads.{IsOver, IsFree, Looks, IsCause, as_content};
ghost use Rattle.ip_tree.specs.Shown.{shown, shown_directory};
ghost use Rattle.ip_tree.specs.TreeView.{IsView};
ghost use Rattle.ip_tree.specs.declared.tree.TreeFault.TheVariants as TreeFault;

use crate::fetch::{LentContent, bring_part, lent_part};
use crate::node::{Directory, Node, Stored};
use crate::tree::{Root, Tree, TreeFault};
use ip_ground::Ground;
use ip_shape::height::{inode_height, leaf_height, raised_by};
use ip_shape::part::Part;
use ip_space::Space;
use ip_spec::record::Ref;

impl Tree {
    /// The greatest number of steps of a path with contents, 0 of the tree with nothing in it. It fetches the root's record at most, and
    /// loads none.
    pub fn height<G: Ground>(&self, outside: &mut G, space: &mut Space) -> Result<u8, TreeFault>
        ensures height { IsTrue G.tells → (records : ℕ → Option Record) (v : View) → IsOver (G.told outside.old) space.old records → IsView records self.now v
            → MatchResult result (λ n. n ≡ height_of_map v.map) IsFree }
        ensures looks { Looks G.tells (G.told outside.old) (G.told outside.new) space.old space.new }
        ensures counts { Counts counted_tree result (G.counts_of outside.old) (G.counts_of outside.new) }
        ensures causes { IfErr result (IsCause G.tells (G.told outside.old) space.old) }
    {
        match &self.root {
            Root::Stored(reference) => stored_height(outside, space, reference),
            Root::Loaded(dir) => Ok(height_in(dir)),
        }
    }
}

/// The greatest number of steps of what a record of a directory spells.
pub fn height_of(content: LentContent<'_>) -> u8
    ensures { result ≡ content_height (as_content content.entry) }
{
    match content {
        LentContent::Leaf(entries) => leaf_height(entries),
        LentContent::Inode { children, .. } => inode_height(children),
    }
}

/// The greatest number of steps below the directory in the record at a reference.
pub fn stored_height<G: Ground>(
    outside: &mut G,
    space: &mut Space,
    reference: &Ref,
) -> Result<u8, TreeFault>
    ensures height { IsTrue G.tells → (records : ℕ → Option Record) (t : Map) → IsOver (G.told outside.old) space.old records → Spells records reference.now t → IsFalse (is_contents t)
        → IsTree t → MatchResult result (λ n. n ≡ height_of_map t) IsFree }
    ensures looks { Looks G.tells (G.told outside.old) (G.told outside.new) space.old space.new }
    ensures counts { Counts counted_tree result (G.counts_of outside.old) (G.counts_of outside.new) }
    ensures causes { IfErr result (IsCause G.tells (G.told outside.old) space.old) }
{
    let found = bring_part(outside, space, reference)?;
    Ok(height_of(lent_part(space, reference.at, &found)))
}

/// The greatest height of the parts of a directory that were not read.
fn unread_height(part: &Part<Stored>) -> u8
    ensures { result ≡ unread_height part.now }
{
    match part {
        Part::Leaf { .. } => 0,
        Part::Inode { children, .. } => {
            let mut most: u8 = 0;
            for child in children {
                most = most.max(unread_height(child));
            }
            most
        }
        Part::Unread { record, .. } => record.height,
    }
}

/// The greatest number of steps below a directory.
#[cycle(height)]
pub fn height_in(dir: &Directory) -> u8
    ensures { result ≡ node_height (shown_directory dir.now) }
{
    let mut most = unread_height(dir.root());
    for (_, node) in dir.entries() {
        most = raised_by(most, height_at(node));
    }
    most
}

/// The greatest number of steps below a node.
#[cycle(height)]
pub fn height_at(node: &Node) -> u8
    ensures { result ≡ node_height (shown node.now) }
{
    match node {
        Node::Stored(stored) => stored.height,
        Node::Contents(_) => 0,
        Node::Directory(dir) => height_in(dir),
    }
}
