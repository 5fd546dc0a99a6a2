// A directory: its entries, and the shape that they determine.
ghost use Rattle.std.specs.Prelude.{◌≡◌, ◌≤◌, ◌+◌, ◌-◌, ℕ, true, false, List, [], drop, length, None, Some, Ok, IsNone, IsSome, is_some, IfOk, IfErr, OnOk, OnErr, IsErr};
ghost use Rattle.std.specs.Option.{option_copied};
ghost use Rattle.std.specs.FinMap.Entries.{find, put};
ghost use Rattle.sha2.specs.Sha256.{sha256};
ghost use Rattle.ip_spec.specs.Path.{Step as TheStep, bytes_cmp};
ghost use Rattle.ip_spec.specs.Shape.{at_place, deepest, is_leaf, part_from};
ghost use Rattle.ip_shape.specs.Shape.{AreAlike, AreSteps, IsInodeOf, IsLeafOf, IsPart, add, has, take_out};
ghost use Rattle.ip_shape.specs.declared.part.Part.{Part, out-Part};
ghost use Rattle.ip_shape.specs.declared.dir.Dir.{Dir};
ghost use Rattle.ip_shape.specs.Loaded.{IsEdited, IsFresh, IsUnchanged};
ghost use Rattle.ip_shape.specs.Reading.{IsNeeded, steps_under};
ghost use Rattle.ip_shape.specs.Directory.{IsDir, IsPartly, IsTaken, entries_from, entries_in, is_read_to, root_of, steps_of, without};

use crate::part::{Part, copied, forgotten, no_part, with_step, without_step};
use crate::places::Places;
use ip_base::{Memory, Step};
use std::alloc::{AllocError, Global};
use std::collections::BTreeMap;
use std::mem;

/// A directory: a map from steps to children, kept in the one shape of its steps. Parts of it may not be read so far: of these it has the records alone.
#[derive(Drop)]
pub struct Dir<C, R> {
    pub(crate) entries: BTreeMap<Step, C>,
    pub(crate) root: Part<R>,
}

impl<C, R> Dir<C, R> {
    /// The directory without entries.
    pub fn empty(alloc: Global) -> Self
        ensures dir { IsDir result [] }
        ensures fresh { IsFresh (root_of result) }
    {
        Dir {
            entries: BTreeMap::new(alloc),
            root: Part::Leaf {
                known: None,
                steps: Vec::new(alloc),
            },
        }
    }

    /// Its entries, in the order of their steps: those at the parts that were read.
    pub fn entries(&self) -> &BTreeMap<Step, C>
        ensures read { (steps : List TheStep) (entries : List (TheStep × C)) → IsPartly self.now steps entries → result.now.entries ≡ entries }
        ensures held { result.now.entries ≡ entries_in self.now }
    {
        &self.entries
    }

    /// The whole directory as a part, for whoever writes its records.
    pub fn root(&self) -> &Part<R>
        ensures { result.now ≡ root_of self.now }
    {
        &self.root
    }
}

/// A law, which does nothing when it is called: two directories that have entries at the same steps have one shape, whatever edits led to them.
pub fn one_directory<C, R>()
    ensures { (entries others : List (TheStep × C)) (one other : Dir C R) → IsDir one entries → IsDir other others →
        ((s : TheStep) → is_some (find bytes_cmp s entries) ≡ is_some (find bytes_cmp s others)) → AreAlike deepest (root_of one) (root_of other) }
{}

/// Laws, which do nothing when they are called: how the shape of the steps goes by a directory's entries, as the definition of names does. A part that
/// is a leaf by its entries holds their steps, and any other is an inode that counts them, with a child for the entries at each place. The steps at
/// indexes are those of the entries there.
pub fn shape_of_entries<C, R>()
    ensures leaf { (depth : ℕ) (entries : List (TheStep × C)) (part : Part R) → depth ≤ deepest → is_leaf depth entries ≡ true →
        IsPart (deepest - depth) depth (steps_of entries) part → IsLeafOf (steps_of entries) (out-Part R part) }
    ensures inode { (depth : ℕ) (entries : List (TheStep × C)) (part : Part R) → depth ≤ deepest → is_leaf depth entries ≡ false →
        IsPart (deepest - depth) depth (steps_of entries) part →
        IsInodeOf (length entries) (λ i child. IsPart (deepest - (depth + 1)) (depth + 1) (steps_of (at_place depth i entries)) child) (out-Part R part) }
    ensures under { (depth : ℕ) (indexes : List ℕ) (entries : List (TheStep × C)) → steps_under depth indexes (steps_of entries) ≡ steps_of (part_from depth entries indexes) }
{}

/// Entries of a directory, in any order.
pub type Entries<C> = Vec<(Step, C)>;

/// The directory of these entries. Where a step stands more than once, the first entry counts.
pub fn build<C: Drop, R: Drop>(alloc: Global, entries: Entries<C>) -> Result<Dir<C, R>, Memory>
    ensures dir { IfOk result (λ dir. IsDir dir (entries_from entries.items [])) }
    ensures fresh { IfOk result (λ dir. IsFresh (root_of dir)) }
{
    let mut left = entries;
    let mut dir = Dir::empty(alloc);
    while let Some((step, child)) = left.pop() {
        let places = Places::of(&step);
        insert(alloc, &mut dir, &step, &places, child)?;
    }
    Ok(dir)
}

// Puts an entry into a map. An `Err` leaves the map as it was, and drops the entry.
fn put_entry<C: Drop>(map: &mut BTreeMap<Step, C>, step: Step, child: C) -> Result<(), Memory>
    ensures entered { OnOk result (map.new.entries ≡ put bytes_cmp step child map.old.entries) }
    ensures refused { OnErr result (map.new.entries ≡ map.old.entries) }
{
    map.insert(step, child)?;
    Ok(())
}

// Puts entries into a map, the last one first, as far as memory reaches, and tells how many of the first are left out.
pub(crate) fn put_entries<C: Drop>(map: &mut BTreeMap<Step, C>, entries: Entries<C>) -> usize
    ensures within { result ≤ length entries.items }
    ensures entered { map.new.entries ≡ entries_from (drop result entries.items) map.old.entries }
{
    let mut left = entries;
    while let Some((step, child)) = left.pop() {
        if put_entry(map, step, child).is_err() {
            return left.len() + 1;
        }
    }
    0
}

// The map of entries. Where they are in the order of their steps it takes no search for their places.
pub(crate) fn map_of<C: Drop>(
    alloc: Global,
    entries: Entries<C>,
) -> Result<BTreeMap<Step, C>, AllocError>
    ensures { AreSteps (steps_of entries.items) → IfOk result (λ map. map.entries ≡ entries.items) }
{
    entries.into_iter().collect(alloc)
}

/// The directory once more with other children: one for each entry of the parts that were read, in the order of their steps. The same parts are unread, and the same records are
/// known to spell the others, so each child is to be what those say of its step, as a copy of the one that stands there. It takes time in proportion to what was read.
pub fn copy_with<C, D: Drop, R: Copy>(
    alloc: Global,
    dir: &Dir<C, R>,
    children: Entries<D>,
) -> Result<Dir<D, R>, Memory>
    ensures partly { (steps : List TheStep) (entries : List (TheStep × C)) → IsPartly dir.now steps entries → steps_of children.items ≡ steps_of entries →
        IfOk result (λ copy. IsPartly copy steps children.items) }
    ensures same { IfOk result (λ copy. IsUnchanged (root_of dir.now) (root_of copy)) }
{
    let root = copied(alloc, &dir.root, 0)?;
    let entries = map_of(alloc, children)?;
    Ok(Dir { entries, root })
}

/// The child at a step. Where each part on the way to it was read, `None` says that the directory has no such step.
pub fn find<'a, C, R>(dir: &'a Dir<C, R>, step: &Step) -> Option<&'a C>
    ensures child { (steps : List TheStep) (entries : List (TheStep × C)) → IsPartly dir.now steps entries → option_copied result ≡ find bytes_cmp step.now entries }
    ensures absent { (steps : List TheStep) (entries : List (TheStep × C)) → IsPartly dir.now steps entries → is_read_to dir.now step.now ≡ true →
        is_some (option_copied result) ≡ has step.now steps }
    ensures held { option_copied result ≡ find bytes_cmp step.now (entries_in dir.now) }
{
    dir.entries.get(step)
}

/// Puts a child at a step, which has these places, and gives the one that it replaced. Each part on the way is to be read: where one is not, it is an `Err`. That leaves the
/// directory as it was, and drops the child.
pub fn insert<C: Drop, R: Drop>(
    alloc: Global,
    dir: &mut Dir<C, R>,
    step: &Step,
    places: &Places,
    child: C,
) -> Result<Option<C>, Memory>
    requires { places.now ≡ sha256 step.now }
    ensures inserted { (steps : List TheStep) (entries : List (TheStep × C)) → IsPartly dir.old steps entries → is_read_to dir.old step.now ≡ true →
        IfOk result (λ replaced. (replaced ≡ find bytes_cmp step.now entries) × IsPartly dir.new (add step.now steps) (put bytes_cmp step.now child entries) ×
        IsEdited 0 step.now (root_of dir.old) (root_of dir.new)) }
    ensures unread { (steps : List TheStep) (entries : List (TheStep × C)) → IsPartly dir.old steps entries → is_read_to dir.old step.now ≡ false → IsErr result }
    ensures refused { (steps : List TheStep) (entries : List (TheStep × C)) → IsPartly dir.old steps entries →
        IfErr result (λ _. IsPartly dir.new steps entries × IsUnchanged (root_of dir.old) (root_of dir.new)) }
{
    let key = step.copy(alloc)?;
    let replaced = dir.entries.insert(key, child)?;
    let root = mem::replace(&mut dir.root, no_part(alloc));
    if let Some(replaced) = replaced {
        dir.root = forgotten(alloc, root, places, 0, step);
        return Ok(Some(replaced));
    }
    match with_step(alloc, root, places, 0, step) {
        Ok(more) => {
            dir.root = more;
            Ok(None)
        }
        Err(same) => {
            dir.root = same;
            dir.entries.remove(step);
            Err(Memory)
        }
    }
}

/// Takes the entry at a step, which has these places, out, and gives its child, or `None` where no part that was read has the step, which takes no memory and changes nothing. Each part that
/// `missing_to_remove` tells is to be read: where one is not, an entry that stands there stays, and it is an `Err`. That leaves the directory as it was.
pub fn remove<C: Drop, R: Drop>(
    alloc: Global,
    dir: &mut Dir<C, R>,
    step: &Step,
    places: &Places,
) -> Result<Option<C>, Memory>
    requires { places.now ≡ sha256 step.now }
    ensures removed { (steps : List TheStep) (entries : List (TheStep × C)) → IsPartly dir.old steps entries → is_read_to dir.old step.now ≡ true →
        IfOk result (λ removed. (removed ≡ find bytes_cmp step.now entries) × IsPartly dir.new (take_out step.now steps) (without step.now entries) ×
        IsTaken removed step.now steps (root_of dir.old) (root_of dir.new)) }
    ensures absent { (steps : List TheStep) (entries : List (TheStep × C)) → IsPartly dir.old steps entries → find bytes_cmp step.now entries ≡ None →
        (result ≡ Ok None) × (dir.new ≡ dir.old) }
    ensures unread { (steps : List TheStep) (entries : List (TheStep × C)) (part : List ℕ × R) → IsPartly dir.old steps entries → IsSome (find bytes_cmp step.now entries) →
        IsNeeded step.now steps (root_of dir.old) (Some part) → IsErr result }
    ensures refused { (steps : List TheStep) (entries : List (TheStep × C)) → IsPartly dir.old steps entries →
        IfErr result (λ _. IsPartly dir.new steps entries × IsUnchanged (root_of dir.old) (root_of dir.new)) }
{
    if !dir.entries.contains_key(step) {
        return Ok(None);
    }
    let root = mem::replace(&mut dir.root, no_part(alloc));
    match without_step(alloc, root, places, 0, step) {
        Ok(less) => {
            dir.root = less;
            Ok(dir.entries.remove(step))
        }
        Err(whole) => {
            dir.root = whole;
            Err(Memory)
        }
    }
}

/// Puts another child at a step that has one, and gives the one that stood there; where none does, nothing changes, and the child is dropped. It takes no memory. The parts on the
/// way stay known, for whoever puts the child back: where another one is to stay, `forget` says so.
pub fn exchange<C: Drop, R>(dir: &mut Dir<C, R>, step: &Step, child: C) -> Option<C>
    ensures child { (steps : List TheStep) (entries : List (TheStep × C)) → IsPartly dir.old steps entries → result ≡ find bytes_cmp step.now entries }
    ensures exchanged { (steps : List TheStep) (entries : List (TheStep × C)) → IsPartly dir.old steps entries → IsSome result → IsPartly dir.new steps (put bytes_cmp step.now child entries) }
    ensures absent { (steps : List TheStep) (entries : List (TheStep × C)) → IsPartly dir.old steps entries → is_read_to dir.old step.now ≡ true →
        is_some result ≡ has step.now steps }
    ensures held { result ≡ find bytes_cmp step.now (entries_in dir.old) }
    ensures same { IsNone result → dir.new ≡ dir.old }
    ensures known { root_of dir.new ≡ root_of dir.old }
{
    match dir.entries.get_mut(step) {
        Some(place) => Some(mem::replace(place, child)),
        None => None,
    }
}

/// Says that another child stands at a step, which has these places, than the records know: no part on the way to it is known any more.
pub fn forget<C, R: Drop>(alloc: Global, dir: &mut Dir<C, R>, step: &Step, places: &Places)
    requires { places.now ≡ sha256 step.now }
    ensures { (steps : List TheStep) (entries : List (TheStep × C)) → IsPartly dir.old steps entries →
        IsPartly dir.new steps entries × IsEdited 0 step.now (root_of dir.old) (root_of dir.new) }
{
    let root = mem::replace(&mut dir.root, no_part(alloc));
    dir.root = forgotten(alloc, root, places, 0, step);
}
