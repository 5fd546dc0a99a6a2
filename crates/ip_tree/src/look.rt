// What stands at a path, where it stands: one descent for whoever reads.
ghost use Rattle.std.specs.Prelude.{◌≡◌, ◌<◌, ◌^◌, ◌++◌, ℕ, [], ◌∷◌, Option, Some, option_map, option_and_then, IsTrue, IsFalse, IsSome, IfSome, IfOk, IfErr, IsErrOf, MatchResult};
ghost use Rattle.ip_ground.specs.Counts.{Counts};
ghost use Rattle.ip_space.specs.declared.fault.FetchFault.TheVariants as FetchFault;
ghost use Rattle.ip_tree.specs.Faults.{counted_tree};
ghost use Rattle.ip_space.specs.SpaceView.{IsReadable, records_of};
ghost use Rattle.ip_spec.specs.Path.{Path};
ghost use Rattle.ip_spec.specs.Tree.{Tree as Map, IsTree, got_at};
ghost use Rattle.ip_spec.specs.View.{View, is_nil};
ghost use Rattle.ip_spec.specs.declared.record.Record.{Record};
ghost use Rattle.ip_spec.specs.declared.record.Ref.{Ref};
ghost use Rattle.ip_tree.specs.Finding.{Finds, FindsIn, FindsPlace, IsPlaceOf, IsWalkTo, as_node, ref_of, walk_to};
ghost use Rattle.ip_tree.specs.Narrow.{IsNarrow};
ghost use Rattle.ip_tree.specs.Node as view;
ghost use Rattle.ip_tree.specs.Reads.{IsOver, IsFree, Reaches, Looks, IsCause};
ghost use Rattle.ip_tree.specs.Shown.{shown, shown_directory};
ghost use Rattle.ip_tree.specs.TreeView.{IsView};
ghost use Rattle.ip_tree.specs.declared.tree.Root.TheVariants as Root;
ghost use Rattle.ip_tree.specs.declared.tree.TreeFault.TheVariants as TreeFault;

use crate::below::entry_below;
use crate::fetch::{bring_part, fetch_contents, lent_part};
use crate::load::count_of;
use crate::node::{Directory, Node, Stored};
use crate::tree::{Root, Tree, TreeFault};
use ip_base::{Blob, Step};
use ip_ground::Ground;
use ip_shape::dir::find;
use ip_shape::places::DEEPEST;
use ip_shape::reading::first_unread;
use ip_space::Space;
use ip_spec::kind;
use ip_spec::record::Ref;
use ip_spec::tree::Got;
use std::alloc::Global;

/// What stands at a path, where it stands.
#[derive(Clone, Copy)]
pub enum Place<'a> {
    /// A record that was not read. Of a root the height is not known, and stands at 0.
    Stored(Stored),
    /// Contents that are new.
    Contents(&'a Blob),
    /// A directory that is new, or of which parts were read.
    Directory(&'a Directory),
}

impl Tree {
    /// What stands at a path, or nothing; no steps are the root, which is a directory though it may be empty. It fetches the records on the path that were not read, and not what
    /// stands there.
    pub fn at<'a, G: Ground>(
        &'a self,
        outside: &mut G,
        space: &mut Space,
        path: &[Step],
    ) -> Result<Option<Place<'a>>, TreeFault>
        ensures place { IsTrue G.tells → (records : ℕ → Option Record) (w : View) → IsOver (G.told outside.old) space.old records → IsView records self.now w
            → MatchResult result (λ found. FindsPlace records w path.now (option_map as_node found)) IsFree }
        // where something stands below the root, it is not empty, and a record's height is told
        ensures part { IsTrue G.tells → (records : ℕ → Option Record) (w : View) → IsOver (G.told outside.old) space.old records → IsView records self.now w → IsFalse (is_nil path.now)
            → MatchResult result (λ found. FindsIn records w path.now (option_map as_node found)) IsFree }
        // a tree that is a record, over any records
        ensures any { IsTrue G.tells → IsReadable (G.told outside.old) space.old → (r : Ref) → self.now.root ≡ Root.Stored r
            → IfOk result (λ found. IsWalkTo (records_of (G.told outside.old) space.old) r path.now (option_map as_node found)) }
        ensures looks { Looks G.tells (G.told outside.old) (G.told outside.new) space.old space.new }
        ensures counts { Counts counted_tree result (G.counts_of outside.old) (G.counts_of outside.new) }
        ensures causes { IfErr result (IsCause G.tells (G.told outside.old) space.old) }
    {
        // By a loop and without `?`: a descent that takes a place by value gets no proof.
        let mut place = self.root_place();
        for step in path {
            match step_down(outside, space, &place, step) {
                Ok(Some(next)) => place = next,
                Ok(None) => return Ok(None),
                Err(fault) => return Err(fault),
            }
        }
        Ok(Some(place))
    }

    /// The root. Of one that was not read the height is not known, and stands at 0.
    pub fn root_place(&self) -> Place<'_>
        ensures { as_node result ≡ (elim self.now.root [ Root.Stored r ↦ view.stored (record { reference = r; height = 0 }) | Root.Loaded d ↦ shown_directory d ]) }
    {
        match &self.root {
            Root::Stored(reference) => Place::Stored(Stored {
                reference: *reference,
                height: 0,
            }),
            Root::Loaded(dir) => Place::Directory(dir),
        }
    }

    /// What stands at a path; no steps are the root, which is a directory though it may be empty. It fetches the records on the path and of what stands there, those that were not read,
    /// and loads none.
    pub fn get<G: Ground>(
        &self,
        alloc: Global,
        outside: &mut G,
        space: &mut Space,
        path: &[Step],
    ) -> Result<Got, TreeFault>
        ensures got { IsTrue G.tells → (records : ℕ → Option Record) (v : View) → IsOver (G.told outside.old) space.old records → IsView records self.now v
            → MatchResult result (λ got. got ≡ got_at v.map path.now) IsFree }
        ensures looks { Looks G.tells (G.told outside.old) (G.told outside.new) space.old space.new }
        ensures counts { Counts counted_tree result (G.counts_of outside.old) (G.counts_of outside.new) }
        ensures causes { IfErr result (IsCause G.tells (G.told outside.old) space.old) }
    {
        match self.at(outside, space, path) {
            Ok(None) => Ok(Got::Absent),
            Ok(Some(Place::Stored(stored))) => whole(outside, space, &stored.reference),
            Ok(Some(Place::Contents(bytes))) => Ok(Got::Value(bytes.copy(alloc)?)),
            Ok(Some(Place::Directory(dir))) => Ok(Got::Dir(told_count(dir.root().count()))),
            Err(fault) => Err(fault),
        }
    }
}

/// A node as a place.
pub fn place_of(node: &Node) -> Place<'_>
    ensures { as_node result ≡ shown node.now }
{
    match node {
        Node::Stored(stored) => Place::Stored(*stored),
        Node::Contents(bytes) => Place::Contents(bytes),
        Node::Directory(dir) => Place::Directory(dir),
    }
}

/// What stands at a step of what stands at a place.
fn step_down<'a, G: Ground>(
    outside: &mut G,
    space: &mut Space,
    place: &Place<'a>,
    step: &Step,
) -> Result<Option<Place<'a>>, TreeFault>
    ensures place { IsTrue G.tells → (records : ℕ → Option Record) (w : View) (p : Path) → IsOver (G.told outside.old) space.old records → IsTree w.map → IsPlaceOf records w p (as_node place.now)
        → MatchResult result (λ found. FindsIn records w (p ++ step.now ∷ []) (option_map as_node found)) IsFree }
    ensures any { IsTrue G.tells → IsReadable (G.told outside.old) space.old → (r : Ref) → ref_of (as_node place.now) ≡ Some r
        → IfOk result (λ found. IsWalkTo (records_of (G.told outside.old) space.old) r (step.now ∷ []) (option_map as_node found)) }
    // below a record nothing was read
    ensures stays { IsSome (ref_of (as_node place.now)) → IfOk result (λ found. IfSome found (λ next. IsSome (ref_of (as_node next)))) }
    ensures looks { Looks G.tells (G.told outside.old) (G.told outside.new) space.old space.new }
    ensures counts { Counts counted_tree result (G.counts_of outside.old) (G.counts_of outside.new) }
    ensures causes { IfErr result (IsCause G.tells (G.told outside.old) space.old) }
{
    match place {
        Place::Contents(_) => Ok(None),
        Place::Stored(stored) => match stored_below(outside, space, &stored.reference, step)? {
            Some(found) => Ok(Some(Place::Stored(found))),
            None => Ok(None),
        },
        Place::Directory(dir) => in_directory(outside, space, dir, step),
    }
}

/// What stands at a step of a directory of which parts were read.
fn in_directory<'a, G: Ground>(
    outside: &mut G,
    space: &mut Space,
    dir: &'a Directory,
    step: &Step,
) -> Result<Option<Place<'a>>, TreeFault>
    ensures place { IsTrue G.tells → (records : ℕ → Option Record) (w : View) (p : Path) → IsOver (G.told outside.old) space.old records → IsTree w.map → IsPlaceOf records w p (shown_directory dir.now)
        → MatchResult result (λ found. FindsIn records w (p ++ step.now ∷ []) (option_map as_node found)) IsFree }
    ensures looks { Looks G.tells (G.told outside.old) (G.told outside.new) space.old space.new }
    ensures counts { Counts counted_tree result (G.counts_of outside.old) (G.counts_of outside.new) }
    ensures causes { IfErr result (IsCause G.tells (G.told outside.old) space.old) }
{
    if let Some(node) = find(dir, step) {
        return Ok(Some(place_of(node)));
    }
    let Some((depth, record)) = first_unread(dir, step) else {
        return Ok(None);
    };
    match entry_below(outside, space, &record.reference, DEEPEST - depth, step)? {
        Some(found) => Ok(Some(Place::Stored(found))),
        None => Ok(None),
    }
}

/// What stands at a step below a record; below contents nothing does.
fn stored_below<G: Ground>(
    outside: &mut G,
    space: &mut Space,
    reference: &Ref,
    step: &Step,
) -> Result<Option<Stored>, TreeFault>
    ensures entry { IsTrue G.tells → (records : ℕ → Option Record) (t : Map) → IsOver (G.told outside.old) space.old records → Reaches records reference.now t
        → MatchResult result (λ found. Finds records (view.stored (record { reference = reference.now; height = 0 })) t (step.now ∷ []) (option_map view.stored found)) IsFree }
    ensures any { IsTrue G.tells → IsReadable (G.told outside.old) space.old
        → IfOk result (λ found. option_map (λ x. x.reference) found ≡ walk_to (records_of (G.told outside.old) space.old) (step.now ∷ []) reference.now) }
    ensures looks { Looks G.tells (G.told outside.old) (G.told outside.new) space.old space.new }
    ensures counts { Counts counted_tree result (G.counts_of outside.old) (G.counts_of outside.new) }
    ensures causes { IfErr result (IsCause G.tells (G.told outside.old) space.old) }
{
    if reference.kind == kind::CONTENTS {
        return Ok(None);
    }
    entry_below(outside, space, reference, DEEPEST, step)
}

/// What the record at a reference is: contents, or a directory and how many entries it has.
fn whole<G: Ground>(outside: &mut G, space: &mut Space, reference: &Ref) -> Result<Got, TreeFault>
    ensures got { IsTrue G.tells → (records : ℕ → Option Record) (sub : Map) → IsOver (G.told outside.old) space.old records → Reaches records reference.now sub → IsNarrow sub
        → MatchResult result (λ got. got ≡ got_at sub []) IsFree }
    ensures looks { Looks G.tells (G.told outside.old) (G.told outside.new) space.old space.new }
    ensures counts { Counts counted_tree result (G.counts_of outside.old) (G.counts_of outside.new) }
    ensures causes { IfErr result (IsCause G.tells (G.told outside.old) space.old) }
{
    if reference.kind == kind::CONTENTS {
        return Ok(Got::Value(fetch_contents(outside, space, reference)?));
    }
    let found = bring_part(outside, space, reference)?;
    let content = lent_part(space, reference.at, &found);
    Ok(Got::Dir(told_count(count_of(content))))
}

// A number of entries as it is told. No directory has more than the limit.
fn told_count(entries: usize) -> u32
    ensures { entries < 2 ^ 32 → result ≡ entries }
{
    u32::try_from(entries).unwrap_or(u32::MAX)
}
