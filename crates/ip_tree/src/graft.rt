// Putting what stands in one tree into another.
ghost use Rattle.std.specs.Prelude.{◌≡◌, ℕ, [], Option, option_map, IsTrue, IfOk, IfErr, IsErrOf, MatchResult};
ghost use Rattle.ip_ground.specs.Counts.{Counts};
ghost use Rattle.ip_space.specs.declared.fault.FetchFault.TheVariants as FetchFault;
ghost use Rattle.ip_tree.specs.Faults.{counted_tree};
ghost use Rattle.ip_spec.specs.Path.{IsPath};
ghost use Rattle.ip_spec.specs.Tree.{Tree as Map};
ghost use Rattle.ip_spec.specs.View.{View, least as least_of};
ghost use Rattle.ip_spec.specs.declared.record.Record.{Record};
ghost use Rattle.ip_tree.specs.Edits.{IsSame};
ghost use Rattle.ip_tree.specs.Finding.{FindsIn, as_node};
ghost use Rattle.ip_tree.specs.Heights.{node_height};
ghost use Rattle.ip_tree.specs.Meaning.{NodeIs};
ghost use Rattle.ip_tree.specs.Reads.{IsOver, IsFree, Looks, IsCause};
ghost use Rattle.ip_tree.specs.Shown.{shown};
ghost use Rattle.ip_tree.specs.TreeView.{IsView, Grafts};
ghost use Rattle.ip_tree.specs.declared.tree.TreeFault.TheVariants as TreeFault;

use crate::copy::copy_directory;
use crate::height::{height_in, stored_height};
use crate::look::Place;
use crate::node::{Node, Stored};
use crate::tree::{Root, Tree, TreeFault};
use ip_base::limit::STEPS_MAX;
use ip_base::{Limit, Memory, Number, Step};
use ip_ground::Ground;
use ip_space::Space;
use std::alloc::Global;

impl Tree {
    /// Puts what stands in a source at a path and under it to another path, in place of what stands there; no steps are the source's root.
    /// False where nothing stands in the source. Where it fails or answers false the tree is what it was, though parts of directories on the path
    /// may have been read.
    pub fn graft<G: Ground>(
        &mut self,
        alloc: Global,
        outside: &mut G,
        space: &mut Space,
        source: &Tree,
        from: &[Step],
        to: &[Step],
    ) -> Result<bool, TreeFault>
        requires { IsPath to.now }
        ensures grafts { IsTrue G.tells → (records : ℕ → Option Record) (v w : View) → IsOver (G.told outside.old) space.old records → IsView records self.old v → IsView records source.now w
            → Grafts records from.now to.now self.new v w result }
        ensures looks { Looks G.tells (G.told outside.old) (G.told outside.new) space.old space.new }
        ensures counts { Counts counted_tree result (G.counts_of outside.old) (G.counts_of outside.new) }
        ensures causes { IfErr result (IsCause G.tells (G.told outside.old) space.old) }
    {
        let place = match source.some_at(outside, space, from) {
            Ok(Some(place)) => place,
            Ok(None) => return Ok(false),
            Err(fault) => return Err(fault),
        };
        // Before anything is copied.
        if to.len() + place_height(&place) as usize > STEPS_MAX {
            return Err(TreeFault::Limit(Limit::Depth));
        }
        let part = node_of(alloc, &place)?;
        self.place(alloc, outside, space, to, part)?;
        self.oldest = least(self.oldest, source.oldest);
        Ok(true)
    }

    // What stands at a path, where something does; no steps are the root. It fetches the records on the path that were not read.
    fn some_at<'a, G: Ground>(
        &'a self,
        outside: &mut G,
        space: &mut Space,
        path: &[Step],
    ) -> Result<Option<Place<'a>>, TreeFault>
        ensures part { IsTrue G.tells → (records : ℕ → Option Record) (w : View) → IsOver (G.told outside.old) space.old records → IsView records self.now w
            → MatchResult result (λ found. FindsIn records w path.now (option_map as_node found)) IsFree }
        ensures looks { Looks G.tells (G.told outside.old) (G.told outside.new) space.old space.new }
        ensures counts { Counts counted_tree result (G.counts_of outside.old) (G.counts_of outside.new) }
        ensures causes { IfErr result (IsCause G.tells (G.told outside.old) space.old) }
    {
        if path.is_empty() {
            return self.some_root(outside, space);
        }
        self.at(outside, space, path)
    }

    // The root, where it is not empty. Of one that was not read the record is fetched, which tells the height: 0 of one that is empty.
    fn some_root<'a, G: Ground>(
        &'a self,
        outside: &mut G,
        space: &mut Space,
    ) -> Result<Option<Place<'a>>, TreeFault>
        ensures part { IsTrue G.tells → (records : ℕ → Option Record) (w : View) → IsOver (G.told outside.old) space.old records → IsView records self.now w
            → MatchResult result (λ found. FindsIn records w [] (option_map as_node found)) IsFree }
        ensures looks { Looks G.tells (G.told outside.old) (G.told outside.new) space.old space.new }
        ensures counts { Counts counted_tree result (G.counts_of outside.old) (G.counts_of outside.new) }
        ensures causes { IfErr result (IsCause G.tells (G.told outside.old) space.old) }
    {
        match &self.root {
            Root::Stored(reference) => {
                let height = stored_height(outside, space, reference)?;
                if height == 0 {
                    return Ok(None);
                }
                Ok(Some(Place::Stored(Stored {
                    reference: *reference,
                    height,
                })))
            }
            Root::Loaded(dir) => {
                if dir.root().count() == 0 {
                    return Ok(None);
                }
                Ok(Some(Place::Directory(dir)))
            }
        }
    }
}

/// The greatest number of steps below what stands at a place.
fn place_height(place: &Place<'_>) -> u8
    ensures { result ≡ node_height (as_node place.now) }
{
    match place {
        Place::Stored(stored) => stored.height,
        Place::Contents(_) => 0,
        Place::Directory(dir) => height_in(dir),
    }
}

/// What stands at a place as a node of its own: a record as it is, else a copy.
pub fn node_of(alloc: Global, place: &Place<'_>) -> Result<Node, Memory>
    ensures { IfOk result (λ node. (records : ℕ → Option Record) (t : Map) → NodeIs records (as_node place.now) t → IsSame (NodeIs records) records (as_node place.now) (shown node) t) }
{
    match place {
        Place::Stored(stored) => Ok(Node::Stored(*stored)),
        Place::Contents(bytes) => Ok(Node::Contents(bytes.copy(alloc)?)),
        Place::Directory(dir) => Ok(Node::Directory(copy_directory(alloc, dir)?)),
    }
}

/// The least of the two numbers, where there are any.
pub fn least(one: Option<Number>, other: Option<Number>) -> Option<Number>
    ensures { result ≡ least_of one other }
{
    match (one, other) {
        (None, number) => number,
        (number, None) => number,
        (Some(m), Some(n)) => Some(m.min(n)),
    }
}
