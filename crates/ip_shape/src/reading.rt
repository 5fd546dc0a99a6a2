// What was not read so far of a directory, and how it is entered when it is.
ghost use Rattle.std.specs.Prelude.{◌≡◌, ◌≤◌, ◌-◌, ◌+◌, ℕ, true, false, List, [], length, take, drop, Option, Some, None, slice_get, option_map, IfOk, IfErr, OnOk, OnErr, IfSome};
ghost use Rattle.sha2.specs.Sha256.{sha256};
ghost use Rattle.ip_spec.specs.Path.{Step as TheStep};
ghost use Rattle.ip_spec.specs.Shape.{deepest, is_leaf};
ghost use Rattle.ip_spec.specs.View.{leads};
ghost use Rattle.ip_shape.specs.Shape.{AreSteps, IsLeafOf, IsPart};
ghost use Rattle.ip_shape.specs.Loaded.{IsFresh, is_under, join_of, known_in, unread_in, way, way_to};
ghost use Rattle.ip_shape.specs.Reading.{AreChildren, IsEntered, IsInodeRead, IsLeafRead, IsMissing, IsNeeded, IsFirstBelow, IsToJoin, IsUnreadOn, Steps, placed_from, spelled_by, steps_under};
ghost use Rattle.ip_shape.specs.Directory.{AreNew, IsPartly, entries_from, entries_off, root_of, steps_of};
ghost use Rattle.ip_shape.specs.declared.part.Part.{Part, out-Part};
ghost use Rattle.ip_shape.specs.declared.part.Part.TheVariants as variant;
ghost use Rattle.std.proofs.Math.ListN.{set};

use crate::dir::{Dir, Entries, map_of, put_entries};
use crate::part::{Part, no_part};
use crate::places::{CHILDREN, DEEPEST, Places};
use ip_base::limit::LEAF_ENTRIES_MAX;
use ip_base::{Memory, Step};
use std::alloc::Global;
use std::collections::BTreeMap;
use std::mem;

/// A part that has to be read before a call can go on.
#[derive(Drop)]
pub struct UnreadPart<R> {
    /// The indexes that lead to it, for `read_leaf` and `read_inode`.
    pub indexes: Vec<u8>,
    /// The record that spells it.
    pub record: R,
}

// The depth and the record of the first unread part on the way to a step.
fn unread_on<'a, R>(part: &'a Part<R>, places: &Places, depth: u8) -> Option<(u8, &'a R)>
    requires { depth ≤ deepest }
    ensures within { IfSome result (λ f. f.0 ≤ deepest) }
    ensures found { (s : TheStep) → places.now ≡ sha256 s →
        IsUnreadOn depth (way (deepest - depth) depth s) part.now (option_map {U = ℕ × R} (λ f. (f.0, f.1.now)) result) }
{
    match part {
        Part::Leaf { .. } => None,
        Part::Inode { children, .. } => {
            if depth >= DEEPEST {
                return None;
            }
            let index = places.at(depth) as usize;
            if index >= children.len() {
                return None;
            }
            unread_on(&children[index], places, depth + 1)
        }
        Part::Unread { record, .. } => Some((depth, record)),
    }
}

/// The depth and the record of the first part on the way to a step that was not read, for whoever goes on below it without entering it, or `None` where each of them was read.
/// It takes no memory.
pub fn first_unread<'a, C, R>(dir: &'a Dir<C, R>, step: &Step) -> Option<(u8, &'a R)>
    ensures within { IfSome result (λ f. f.0 ≤ deepest) }
    ensures found { option_map {U = R × List ℕ} (λ f. (f.1.now, drop f.0 (way_to step.now))) result ≡ unread_in (way_to step.now) (root_of dir.now) }
    ensures part { IfSome result (λ f. unread_in (take f.0 (way_to step.now)) (root_of dir.now) ≡ Some (f.1.now, [])) }
{
    unread_on(dir.root(), &Places::of(step), 0)
}

/// Laws, which do nothing when they are called, of the way to a step: it has 51 indexes, those are the first of it that lead to the step, and where each part on it was read, no
/// indexes that lead to the step are of an unread part.
pub fn way_of_step<R>()
    ensures long { (s : TheStep) → length (way_to s) ≡ deepest }
    ensures leads { (s : TheStep) (indexes : List ℕ) → length indexes ≤ deepest → is_under (Some indexes) (way_to s) ≡ leads 0 indexes s }
    ensures read { (s : TheStep) (steps : List TheStep) (root : Part R) (indexes : List ℕ) (by : R) → IsPart deepest 0 steps root → unread_in (way_to s) root ≡ None →
        unread_in indexes root ≡ Some (by, []) → leads 0 indexes s ≡ false }
{}

// The first of the indexes that lead to a step.
fn first_indexes(alloc: Global, places: &Places, depth: u8) -> Result<Vec<u8>, Memory>
    requires { depth ≤ deepest }
    ensures { (s : TheStep) → places.now ≡ sha256 s → IfOk result (λ indexes. indexes.items ≡ take depth (way_to s)) }
{
    let mut indexes = Vec::with_capacity(alloc, depth as usize)?;
    for i in 0..depth {
        indexes.push(places.at(i))?;
    }
    Ok(indexes)
}

/// The part that has to be read first before `find` and `insert` can go on at a step of these places, or `None` where each part on the way to it was read.
pub fn missing<C, R: Copy>(
    alloc: Global,
    dir: &Dir<C, R>,
    places: &Places,
) -> Result<Option<UnreadPart<R>>, Memory>
    ensures { (s : TheStep) → places.now ≡ sha256 s → IfOk result (λ found. IsMissing s (root_of dir.now) (option_map {U = List ℕ × R} (λ m. (m.indexes.items, m.record)) found)) }
{
    match unread_on(dir.root(), places, 0) {
        None => Ok(None),
        Some((depth, record)) => {
            let indexes = first_indexes(alloc, places, depth)?;
            Ok(Some(UnreadPart {
                record: *record,
                indexes,
            }))
        }
    }
}

// The first unread part of a part at a depth: its indexes, the last one first, and its record.
fn first_below<'a, R>(
    alloc: Global,
    part: &'a Part<R>,
    depth: u8,
) -> Result<Option<(Vec<u8>, &'a R)>, Memory>
    ensures { (steps : List TheStep) → depth ≤ deepest → IsPart (deepest - depth) depth steps part.now →
        IfOk result (λ found. IsFirstBelow part.now (option_map {U = List ℕ × R} (λ f. (f.0.items, f.1.now)) found)) }
{
    match part {
        Part::Leaf { .. } => Ok(None),
        Part::Inode { children, .. } => {
            if depth >= DEEPEST {
                return Ok(None);
            }
            for index in 0..CHILDREN {
                if index as usize >= children.len() {
                    return Ok(None);
                }
                let found = first_below(alloc, &children[index as usize], depth + 1)?;
                if let Some((mut indexes, record)) = found {
                    indexes.push(index)?;
                    return Ok(Some((indexes, record)));
                }
            }
            Ok(None)
        }
        Part::Unread { record, .. } => Ok(Some((Vec::new(alloc), record))),
    }
}

// An unread part below the uppermost part on the way to a step that becomes a leaf without the step.
fn unread_to_join<'a, R>(
    alloc: Global,
    part: &'a Part<R>,
    places: &Places,
    depth: u8,
) -> Result<Option<(Vec<u8>, &'a R)>, Memory>
    ensures { (s : TheStep) (steps : List TheStep) → places.now ≡ sha256 s → depth ≤ deepest → IsPart (deepest - depth) depth steps part.now →
        unread_in (way (deepest - depth) depth s) part.now ≡ None →
        IfOk result (λ found. IsToJoin (join_of (deepest - depth) depth s steps) part.now (option_map {U = List ℕ × R} (λ f. (f.0.items, f.1.now)) found)) }
{
    match part {
        Part::Leaf { .. } => Ok(None),
        Part::Inode {
            count,
            children,
            ..
        } => {
            if depth >= DEEPEST {
                return Ok(None);
            }
            if *count == LEAF_ENTRIES_MAX + 1 {
                return first_below(alloc, part, depth);
            }
            let index = places.at(depth);
            if index as usize >= children.len() {
                return Ok(None);
            }
            match unread_to_join(alloc, &children[index as usize], places, depth + 1)? {
                None => Ok(None),
                Some((mut indexes, record)) => {
                    indexes.push(index)?;
                    Ok(Some((indexes, record)))
                }
            }
        }
        Part::Unread { .. } => Ok(None),
    }
}

/// The part that has to be read next before `remove` can go on at a step, which has these places, or `None` where each of them was read: those on the way to the step, and where it is there and an
/// inode becomes a leaf without it, each part below that inode.
pub fn missing_to_remove<C, R: Copy>(
    alloc: Global,
    dir: &Dir<C, R>,
    step: &Step,
    places: &Places,
) -> Result<Option<UnreadPart<R>>, Memory>
    requires { places.now ≡ sha256 step.now }
    ensures { (steps : List TheStep) (entries : List (TheStep × C)) → IsPartly dir.now steps entries →
        IfOk result (λ found. IsNeeded step.now steps (root_of dir.now) (option_map {U = List ℕ × R} (λ m. (m.indexes.items, m.record)) found)) }
{
    if let Some((depth, record)) = unread_on(dir.root(), places, 0) {
        let indexes = first_indexes(alloc, places, depth)?;
        return Ok(Some(UnreadPart {
            record: *record,
            indexes,
        }));
    }
    if !dir.entries.contains_key(step) {
        return Ok(None);
    }
    match unread_to_join(alloc, dir.root(), places, 0)? {
        None => Ok(None),
        Some((mut indexes, record)) => {
            indexes.reverse();
            Ok(Some(UnreadPart {
                record: *record,
                indexes,
            }))
        }
    }
}

/// What was read of a part.
#[derive(Drop)]
pub enum Content<R> {
    Leaf(Vec<Step>),
    Inode(Vec<Part<R>>),
}

// The part that a record spells, which holds so many steps.
fn spelled<R: Drop>(by: R, count: usize, content: Content<R>) -> Part<R>
    ensures { result ≡ spelled_by by count content }
{
    let known = Some(by);
    match content {
        Content::Leaf(steps) => Part::Leaf { known, steps },
        Content::Inode(children) => Part::Inode {
            known,
            count,
            children,
        },
    }
}

// The part where what was read is entered in place of an unread part, to which the indexes from one place on lead.
fn entered<R: Drop>(
    alloc: Global,
    part: Part<R>,
    indexes: &[u8],
    at: usize,
    content: Content<R>,
) -> Part<R>
    requires { at ≤ length indexes.now }
    ensures shape { (depth : ℕ) (steps : List TheStep) (r : R) → depth ≤ deepest → IsPart (deepest - depth) depth steps part → unread_in (drop at indexes.now) part ≡ Some (r, []) →
        Steps depth (drop at indexes.now) steps (spelled_by r (length (steps_under depth (drop at indexes.now) steps)) content) → IsPart (deepest - depth) depth steps result }
    ensures put { (depth : ℕ) (steps : List TheStep) (r : R) → depth ≤ deepest → IsPart (deepest - depth) depth steps part → unread_in (drop at indexes.now) part ≡ Some (r, []) →
        IsEntered (drop at indexes.now) (spelled_by r (length (steps_under depth (drop at indexes.now) steps)) content) part result }
{
    match part {
        Part::Leaf { known, steps } => Part::Leaf { known, steps },
        Part::Inode {
            known,
            count,
            mut children,
        } => {
            if at >= indexes.len() {
                return Part::Inode {
                    known,
                    count,
                    children,
                };
            }
            let index = indexes[at] as usize;
            if index >= children.len() {
                return Part::Inode {
                    known,
                    count,
                    children,
                };
            }
            let below = mem::replace(&mut children[index], no_part(alloc));
            children[index] = entered(alloc, below, indexes, at + 1, content);
            Part::Inode {
                known,
                count,
                children,
            }
        }
        Part::Unread { record, count } => {
            if at < indexes.len() {
                return Part::Unread { record, count };
            }
            spelled(record, count, content)
        }
    }
}

// The steps of entries.
fn steps_in<C>(alloc: Global, entries: &[(Step, C)]) -> Result<Vec<Step>, Memory>
    ensures { IfOk result (λ steps. steps.items ≡ steps_of entries.now) }
{
    let mut steps = Vec::with_capacity(alloc, entries.len())?;
    for i in 0..entries.len() {
        steps.push(entries[i].0.copy(alloc)?)?;
    }
    Ok(steps)
}

// Takes the entries at steps out of a map, the first one first.
fn take_entries<C: Drop>(map: &mut BTreeMap<Step, C>, steps: &[Step])
    ensures { map.new.entries ≡ entries_off steps.now map.old.entries }
{
    for i in 0..steps.len() {
        map.remove(&steps[i]);
    }
}

// Puts entries at these steps into a map that has none of them. An `Err` leaves the map as it was.
fn enter<C: Drop>(
    alloc: Global,
    map: &mut BTreeMap<Step, C>,
    entries: Entries<C>,
    steps: &[Step],
) -> Result<(), Memory>
    requires { steps.now ≡ steps_of entries.items }
    ensures entered { AreSteps (steps_of entries.items) → OnOk result (map.new.entries ≡ entries_from entries.items map.old.entries) }
    ensures refused { AreNew entries.items map.old.entries → OnErr result (map.new.entries ≡ map.old.entries) }
{
    // In the order of their steps they take no search for their places.
    if map.is_empty() {
        *map = map_of(alloc, entries)?;
        return Ok(());
    }
    let left = put_entries(map, entries);
    if left == 0 {
        return Ok(());
    }
    take_entries(map, &steps[left..]);
    Err(Memory)
}

/// Enters what was read of the unread part at these indexes: the entries of a leaf, in the order of their steps. An `Err` leaves the directory as it was.
/// Where a record spells other entries than stand there, as one that others wrote may, they are entered all the same, however many there are, and then no clause tells what the
/// directory has.
pub fn read_leaf<C: Drop, R: Drop>(
    alloc: Global,
    dir: &mut Dir<C, R>,
    indexes: &[u8],
    entries: Entries<C>,
) -> Result<(), Memory>
    ensures read { (steps : List TheStep) (old : List (TheStep × C)) (r : R) → IsPartly dir.old steps old → unread_in indexes.now (root_of dir.old) ≡ Some (r, []) →
        steps_of entries.items ≡ steps_under 0 indexes.now steps → is_leaf (length indexes.now) entries.items ≡ true →
        OnOk result (IsPartly dir.new steps (entries_from entries.items old) × IsLeafRead indexes.now r (root_of dir.old) (root_of dir.new)) }
    ensures refused { (steps : List TheStep) (old : List (TheStep × C)) (r : R) → IsPartly dir.old steps old → unread_in indexes.now (root_of dir.old) ≡ Some (r, []) →
        steps_of entries.items ≡ steps_under 0 indexes.now steps → OnErr result (IsPartly dir.new steps old × (root_of dir.new ≡ root_of dir.old)) }
{
    let steps = steps_in(alloc, &entries)?;
    enter(alloc, &mut dir.entries, entries, &steps)?;
    let root = mem::replace(&mut dir.root, no_part(alloc));
    dir.root = entered(alloc, root, indexes, 0, Content::Leaf(steps));
    Ok(())
}

/// A child of an inode that was read.
#[derive(Drop)]
pub struct Child<R> {
    /// Its index, below 32.
    pub index: u8,
    /// The record that spells it.
    pub record: R,
    /// How many entries it has.
    pub count: usize,
}

// As many empty parts as an inode has children.
fn no_children<R: Drop>(alloc: Global) -> Result<Vec<Part<R>>, Memory>
    ensures long { IfOk result (λ parts. length parts.items ≡ 32) }
    ensures empty { IfOk result (λ parts. (i : ℕ) (part : Part R) → slice_get parts.items i ≡ Some part → IsLeafOf [] (out-Part R part) × IsFresh part) }
{
    let mut parts = Vec::with_capacity(alloc, CHILDREN as usize)?;
    for _ in 0..CHILDREN {
        parts.push(no_part(alloc))?;
    }
    Ok(parts)
}

// Puts a child at its index. One that has no place is left out.
fn put_child<R: Drop>(parts: &mut Vec<Part<R>>, child: Child<R>)
    ensures { parts.new.items ≡ set parts.old.items child.index (variant.Unread child.record child.count) }
{
    let index = child.index as usize;
    if index < parts.len() {
        parts[index] = Part::Unread {
            record: child.record,
            count: child.count,
        };
    }
}

// Parts where the children stand, each at its index. Of two with one index the first counts.
fn with_children<R: Drop>(parts: Vec<Part<R>>, children: Vec<Child<R>>) -> Vec<Part<R>>
    ensures { result.items ≡ placed_from children.items parts.items }
{
    let mut placed = parts;
    let mut left = children;
    while let Some(child) = left.pop() {
        put_child(&mut placed, child);
    }
    placed
}

/// Enters what was read of the unread part at these indexes: the children of an inode. An `Err` leaves the directory as it was.
pub fn read_inode<C, R: Drop>(
    alloc: Global,
    dir: &mut Dir<C, R>,
    indexes: &[u8],
    children: Vec<Child<R>>,
) -> Result<(), Memory>
    ensures read { (steps : List TheStep) (old : List (TheStep × C)) (r : R) → IsPartly dir.old steps old → unread_in indexes.now (root_of dir.old) ≡ Some (r, []) →
        AreChildren (length indexes.now) (steps_under 0 indexes.now steps) children.items →
        OnOk result (IsPartly dir.new steps old × IsInodeRead indexes.now r children.items (root_of dir.old) (root_of dir.new)) }
    ensures refused { OnErr result (dir.new ≡ dir.old) }
{
    let parts = with_children(no_children(alloc)?, children);
    let root = mem::replace(&mut dir.root, no_part(alloc));
    dir.root = entered(alloc, root, indexes, 0, Content::Inode(parts));
    Ok(())
}

/// A directory of which nothing was read so far but how many entries it has.
pub fn unread<C, R>(alloc: Global, by: R, count: usize) -> Dir<C, R>
    ensures partly { (steps : List TheStep) → AreSteps steps → count ≡ length steps → IsPartly result steps [] }
    ensures known { (is : List ℕ) → (unread_in is (root_of result) ≡ Some (by, is)) × (known_in is (root_of result) ≡ None) }
{
    Dir {
        entries: BTreeMap::new(alloc),
        root: Part::Unread { record: by, count },
    }
}
