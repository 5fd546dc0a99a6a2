// The parts of a directory, over the steps of its entries.
ghost use Rattle.std.specs.Prelude.{◌≡◌, ◌-◌, ◌≤◌, ◌<◌, ℕ, true, false, List, [], map, length, insert, Option, None, Ok, Err, IfOk, IfErr, OnOk, OnErr, IfSome, IsSome};
ghost use Rattle.std.specs.Vec.{with_item};
ghost use Rattle.sha2.specs.Sha256.{sha256};
ghost use Rattle.ip_spec.specs.Path.{Step as TheStep};
ghost use Rattle.ip_spec.specs.Shape.{place, deepest};
ghost use Rattle.ip_shape.specs.declared.part.Part.{Part, out-Part};
ghost use Rattle.ip_shape.specs.declared.part.Part.TheVariants as variant;
ghost use Rattle.ip_shape.specs.declared.part.Part.TheViews as view;
ghost use Rattle.ip_shape.specs.Place.{place_in};
ghost use Rattle.ip_shape.specs.Shape.{AreSteps, AreAlike, AreUnited, IsChainTo, IsLeafOf, IsPart, add, count_in, has, steps_at, take_out};
ghost use Rattle.ip_shape.specs.Loaded.{IsEdited, IsFresh, IsLessened, IsRead, IsUnchanged, join_of, unread_in, way};
ghost use Rattle.ip_shape.specs.Reading.{IsToJoin};

use crate::places::{CHILDREN, DEEPEST, Places};
use ip_base::limit::LEAF_ENTRIES_MAX;
use ip_base::{Memory, Step};
use std::alloc::Global;
use std::cmp::Ordering;
use std::mem;

/// A part of a directory. `known` is the record that spells it, where there is one.
#[derive(Drop)]
pub enum Part<R> {
    /// The steps of its entries, ascending.
    Leaf {
        known: Option<R>,
        steps: Vec<Step>,
    },
    /// How many entries it has, and its children by place. One that is an empty leaf is absent.
    Inode {
        known: Option<R>,
        count: usize,
        children: Vec<Part<R>>,
    },
    /// A part that was not read so far: the record that spells it, and how many entries it has.
    Unread {
        record: R,
        count: usize,
    },
}

impl<R> Part<R> {
    /// How many entries it has. It takes no walk.
    pub fn count(&self) -> usize
        ensures steps { (depth : ℕ) (steps : List TheStep) → IsPart (deepest - depth) depth steps self.now → result ≡ length steps }
        ensures told { result ≡ count_in (out-Part R self.now) }
    {
        match self {
            Part::Leaf { steps, .. } => steps.len(),
            Part::Inode { count, .. } => *count,
            Part::Unread { count, .. } => *count,
        }
    }
}

/// Laws, which do nothing when they are called. Steps have one shape at a depth: two parts that are it differ in nothing, whatever edits led to them, but for what is not read.
/// More than 32 steps that agree in all places are one leaf at depth 51, with one inode above another.
pub fn one_shape<R>()
    ensures alike { (depth : ℕ) (steps : List TheStep) (one other : Part R) → IsPart (deepest - depth) depth steps one → IsPart (deepest - depth) depth steps other →
        AreAlike (deepest - depth) one other }
    ensures agreeing { (s : TheStep) (steps : List TheStep) (part : Part R) → 32 < length steps →
        ((t : TheStep) (depth : ℕ) → has t steps ≡ true → depth < deepest → place t depth ≡ place s depth) →
        IsPart deepest 0 steps part → IsChainTo deepest 0 s steps part }
{}

fn copies_of(alloc: Global, steps: &[Step], room: usize) -> Result<Vec<Step>, Memory>
    ensures { IfOk result (λ copies. copies.items ≡ steps.now) }
{
    let mut copies = Vec::with_capacity(alloc, room)?;
    for i in 0..steps.len() {
        copies.push(steps[i].copy(alloc)?)?;
    }
    Ok(copies)
}

// The places of each step.
fn places_of(alloc: Global, steps: &[Step], room: usize) -> Result<Vec<Places>, Memory>
    ensures { IfOk result (λ places. places.items ≡ map sha256 steps.now) }
{
    let mut places = Vec::with_capacity(alloc, room)?;
    for i in 0..steps.len() {
        places.push(Places::of(&steps[i]))?;
    }
    Ok(places)
}

// Copies of the steps with one index at a depth, and their places.
fn copies_at(
    alloc: Global,
    steps: &[Step],
    places: &[Places],
    index: u8,
    depth: u8,
) -> Result<(Vec<Step>, Vec<Places>), Memory>
    requires inode { depth < deepest }
    requires places { places.now ≡ map sha256 steps.now }
    ensures { IfOk result (λ found. (found.0.items ≡ steps_at depth index steps.now) × (found.1.items ≡ map sha256 found.0.items)) }
{
    let mut copies = Vec::new(alloc);
    let mut their_places = Vec::new(alloc);
    for i in 0..steps.len() {
        let its_places = places[i];
        if its_places.at(depth) == index {
            copies.push(steps[i].copy(alloc)?)?;
            their_places.push(its_places)?;
        }
    }
    Ok((copies, their_places))
}

// The one shape of steps that ascend, at a depth.
fn part_of<R: Drop>(
    alloc: Global,
    steps: &[Step],
    places: &[Places],
    depth: u8,
) -> Result<Part<R>, Memory>
    requires { places.now ≡ map sha256 steps.now }
    ensures shape { IfOk result (λ part. IsPart (deepest - depth) depth steps.now part) }
    ensures fresh { IfOk result IsFresh }
{
    if steps.len() <= LEAF_ENTRIES_MAX || depth >= DEEPEST {
        return Ok(Part::Leaf {
            known: None,
            steps: copies_of(alloc, steps, steps.len())?,
        });
    }
    let mut children = Vec::with_capacity(alloc, CHILDREN as usize)?;
    for index in 0..CHILDREN {
        let (below, their_places) = copies_at(alloc, steps, places, index, depth)?;
        children.push(part_of(alloc, &below, &their_places, depth + 1)?)?;
    }
    Ok(Part::Inode {
        known: None,
        count: steps.len(),
        children,
    })
}

// What stands where a part was taken out, while it is edited. It takes no memory.
pub(crate) fn no_part<R>(alloc: Global) -> Part<R>
    ensures empty { IsLeafOf [] (out-Part R result) }
    ensures fresh { IsFresh result }
{
    Part::Leaf {
        known: None,
        steps: Vec::new(alloc),
    }
}

// The same part at a depth once more.
pub(crate) fn copied<R: Copy>(alloc: Global, part: &Part<R>, depth: u8) -> Result<Part<R>, Memory>
    ensures shape { (steps : List TheStep) → IsPart (deepest - depth) depth steps part.now → IfOk result (IsPart (deepest - depth) depth steps) }
    ensures same { IfOk result (IsUnchanged part.now) }
{
    match part {
        Part::Leaf { known, steps } => Ok(Part::Leaf {
            known: *known,
            steps: copies_of(alloc, steps, steps.len())?,
        }),
        Part::Inode {
            known,
            count,
            children,
        } => {
            // So deep no directory has an inode.
            if depth >= DEEPEST {
                return Err(Memory);
            }
            let mut copies = Vec::with_capacity(alloc, children.len())?;
            for i in 0..children.len() {
                copies.push(copied(alloc, &children[i], depth + 1)?)?;
            }
            Ok(Part::Inode {
                known: *known,
                count: *count,
                children: copies,
            })
        }
        Part::Unread { record, count } => Ok(Part::Unread {
            record: *record,
            count: *count,
        }),
    }
}

// Where a step stands among steps that ascend, or would stand.
fn position(steps: &[Step], step: &Step) -> Result<usize, usize>
    ensures here { IfOk result (λ i. (i < length steps.now) × (add step.now steps.now ≡ steps.now)) }
    ensures absent { IfErr result (λ i. (i ≤ length steps.now) × (add step.now steps.now ≡ insert steps.now i step.now)) }
{
    for i in 0..steps.len() {
        match step.cmp(&steps[i]) {
            Ordering::Less => return Err(i),
            Ordering::Equal => return Ok(i),
            Ordering::Greater => {}
        }
    }
    Err(steps.len())
}

// Adds a step in its place to steps that ascend.
fn add_to(alloc: Global, steps: &mut Vec<Step>, step: &Step) -> Result<(), Memory>
    ensures added { OnOk result (steps.new.items ≡ add step.now steps.old.items) }
    ensures refused { OnErr result (steps.new.items ≡ steps.old.items) }
{
    match position(steps, step) {
        Ok(_) => Ok(()),
        Err(i) => {
            let copy = step.copy(alloc)?;
            steps.insert(i, copy)?;
            Ok(())
        }
    }
}

// A part of the steps of a leaf and of one more.
fn grown<R: Drop>(
    alloc: Global,
    steps: &[Step],
    step: &Step,
    places: &Places,
    depth: u8,
) -> Result<Part<R>, Memory>
    requires { places.now ≡ sha256 step.now }
    ensures shape { IfOk result (λ part. IsPart (deepest - depth) depth (add step.now steps.now) part) }
    ensures fresh { IfOk result IsFresh }
{
    let mut more = copies_of(alloc, steps, steps.len() + 1)?;
    let mut all_places = places_of(alloc, steps, steps.len() + 1)?;
    if let Err(i) = position(steps, step) {
        more.insert(i, step.copy(alloc)?)?;
        all_places.insert(i, *places)?;
    }
    part_of(alloc, &more, &all_places, depth)
}

// The part of the steps of a leaf and of one more, or for want of memory the leaf itself.
fn leaf_with<R: Drop>(
    alloc: Global,
    known: Option<R>,
    leaf: Vec<Step>,
    places: &Places,
    depth: u8,
    step: &Step,
) -> Result<Part<R>, Part<R>>
    requires { places.now ≡ sha256 step.now }
    ensures added { (steps : List TheStep) → IsPart (deepest - depth) depth steps (variant.Leaf known leaf) → IfOk result (IsPart (deepest - depth) depth (add step.now steps)) }
    ensures refused { (steps : List TheStep) → IsPart (deepest - depth) depth steps (variant.Leaf known leaf) → IfErr result (IsPart (deepest - depth) depth steps) }
    ensures fresh { IfOk result IsFresh }
    ensures left { IfErr result (IsUnchanged (variant.Leaf known leaf)) }
{
    let mut steps = leaf;
    if steps.len() < LEAF_ENTRIES_MAX || depth >= DEEPEST {
        return match add_to(alloc, &mut steps, step) {
            Ok(()) => Ok(Part::Leaf { known: None, steps }),
            Err(_) => Err(Part::Leaf { known, steps }),
        };
    }
    match grown(alloc, &steps, step, places, depth) {
        Ok(more) => Ok(more),
        Err(_) => Err(Part::Leaf { known, steps }),
    }
}

// The index of the child of an inode at a depth that a step goes to, or `None` where the inode has no such child, which is so in no directory.
fn child_on_way<R>(children: &[Part<R>], places: &Places, depth: u8) -> Option<usize>
    ensures inode { IsSome result → depth < deepest }
    ensures child { IfSome result (λ i. i < length children.now) }
    ensures place { IfSome result (λ i. i ≡ place_in places.now depth) }
    ensures none { depth < deepest → length children.now ≡ 32 → IsSome result }
{
    if depth >= DEEPEST {
        return None;
    }
    let index = places.at(depth) as usize;
    if index >= children.len() {
        return None;
    }
    Some(index)
}

// An inode whose child at an index was taken out: with the edited child and its new count, or where the edit gave the child back, as it was.
fn put_back<R: Drop>(
    known: Option<R>,
    count: usize,
    children: Vec<Part<R>>,
    index: usize,
    total: usize,
    edited: Result<Part<R>, Part<R>>,
) -> Result<Part<R>, Part<R>>
    requires { index < length children.items }
    ensures edited { IfOk edited (λ child. result ≡ Ok (view.Inode None total (with_item children index child))) }
    ensures same { IfErr edited (λ child. result ≡ Err (view.Inode known count (with_item children index child))) }
{
    let mut all = children;
    match edited {
        Ok(child) => {
            all[index] = child;
            Ok(Part::Inode {
                known: None,
                count: total,
                children: all,
            })
        }
        Err(child) => {
            all[index] = child;
            Err(Part::Inode {
                known,
                count,
                children: all,
            })
        }
    }
}

// The part at a depth with a step more that it lacks, or the part itself, for want of memory or of what is not read.
pub(crate) fn with_step<R: Drop>(
    alloc: Global,
    part: Part<R>,
    places: &Places,
    depth: u8,
    step: &Step,
) -> Result<Part<R>, Part<R>>
    requires { places.now ≡ sha256 step.now }
    ensures added { (steps : List TheStep) → AreSteps steps → has step.now steps ≡ false → IsPart (deepest - depth) depth steps part →
        IfOk result (IsPart (deepest - depth) depth (add step.now steps)) }
    ensures refused { (steps : List TheStep) → IsPart (deepest - depth) depth steps part → IfErr result (IsPart (deepest - depth) depth steps) }
    ensures edited { IfOk result (IsEdited depth step.now part) }
    ensures read { OnOk result (unread_in (way (deepest - depth) depth step.now) part ≡ None) }
    ensures left { IfErr result (IsUnchanged part) }
{
    match part {
        Part::Leaf { known, steps } => leaf_with(alloc, known, steps, places, depth, step),
        Part::Inode {
            known,
            count,
            mut children,
        } => {
            // Neither fails in a directory: an inode has each child, and no memory holds more steps than a count can tell.
            let (Some(index), Some(total)) = (
                child_on_way(&children, places, depth),
                count.checked_add(1),
            ) else {
                return Err(Part::Inode {
                    known,
                    count,
                    children,
                });
            };
            let below = mem::replace(&mut children[index], no_part(alloc));
            let edited = with_step(alloc, below, places, depth + 1, step);
            put_back(known, count, children, index, total, edited)
        }
        Part::Unread { record, count } => Err(Part::Unread { record, count }),
    }
}

// Adds steps to steps that ascend, each in its place.
fn add_all(alloc: Global, into: &mut Vec<Step>, steps: &[Step]) -> Result<(), Memory>
    ensures { AreSteps into.old.items → OnOk result (AreSteps into.new.items × AreUnited into.old.items steps.now into.new.items) }
{
    for i in 0..steps.len() {
        add_to(alloc, into, &steps[i])?;
    }
    Ok(())
}

// Adds the steps of a part at a depth to steps that ascend. It fails also where something below is not read.
fn gather<R>(alloc: Global, into: &mut Vec<Step>, part: &Part<R>, depth: u8) -> Result<(), Memory>
    ensures gathered { (steps : List TheStep) → IsPart (deepest - depth) depth steps part.now → AreSteps into.old.items →
        OnOk result (AreSteps into.new.items × AreUnited into.old.items steps into.new.items) }
    ensures read { OnOk result (IsRead part.now) }
{
    match part {
        Part::Leaf { steps, .. } => add_all(alloc, into, steps),
        Part::Inode { children, .. } => {
            if depth >= DEEPEST {
                return Err(Memory);
            }
            for i in 0..children.len() {
                gather(alloc, into, &children[i], depth + 1)?;
            }
            Ok(())
        }
        Part::Unread { .. } => Err(Memory),
    }
}

// Takes a step out of steps.
fn take_from(steps: &mut Vec<Step>, step: &Step)
    ensures { steps.new.items ≡ take_out step.now steps.old.items }
{
    steps.retain(|other| step.cmp(other).is_ne());
}

// The steps of a part at a depth without one of them. It fails also where something below is not read.
fn joined<R>(alloc: Global, part: &Part<R>, depth: u8, step: &Step) -> Result<Vec<Step>, Memory>
    ensures read { OnOk result (IsRead part.now) }
    ensures left { (steps : List TheStep) → AreSteps steps → IsPart (deepest - depth) depth steps part.now → IfOk result (λ left. left.items ≡ take_out step.now steps) }
{
    let mut steps = Vec::with_capacity(alloc, LEAF_ENTRIES_MAX + 1)?;
    gather(alloc, &mut steps, part, depth)?;
    take_from(&mut steps, step);
    Ok(steps)
}

// A part at a depth as the leaf of its steps without one of them, or the part itself, for want of memory or of what is not read.
fn join<R: Drop>(alloc: Global, part: Part<R>, depth: u8, step: &Step) -> Result<Part<R>, Part<R>>
    ensures removed { (steps : List TheStep) → AreSteps steps → has step.now steps ≡ true → IsPart (deepest - depth) depth steps part → length steps ≡ 33 →
        IfOk result (IsPart (deepest - depth) depth (take_out step.now steps)) }
    ensures read { OnOk result (IsRead part) }
    ensures fresh { IfOk result IsFresh }
    ensures whole { IfErr result (λ same. same ≡ part) }
{
    match joined(alloc, &part, depth, step) {
        Ok(steps) => Ok(Part::Leaf { known: None, steps }),
        Err(_) => Err(part),
    }
}

// Steps without one of them. Where none is left, they take no memory.
fn without(alloc: Global, steps: Vec<Step>, step: &Step) -> Vec<Step>
    ensures { result.items ≡ take_out step.now steps.items }
{
    let mut left = steps;
    take_from(&mut left, step);
    if left.is_empty() {
        return Vec::new(alloc);
    }
    left
}

// The part at a depth without a step that it has, or the part itself, for want of memory or of what is not read.
pub(crate) fn without_step<R: Drop>(
    alloc: Global,
    part: Part<R>,
    places: &Places,
    depth: u8,
    step: &Step,
) -> Result<Part<R>, Part<R>>
    requires { places.now ≡ sha256 step.now }
    ensures removed { (steps : List TheStep) → AreSteps steps → has step.now steps ≡ true → IsPart (deepest - depth) depth steps part →
        IfOk result (IsPart (deepest - depth) depth (take_out step.now steps)) }
    ensures refused { (steps : List TheStep) → IsPart (deepest - depth) depth steps part → IfErr result (IsPart (deepest - depth) depth steps) }
    ensures edited { (steps : List TheStep) → IsPart (deepest - depth) depth steps part → IfOk result (IsLessened (deepest - depth) depth step.now steps part) }
    ensures read { OnOk result (unread_in (way (deepest - depth) depth step.now) part ≡ None) }
    ensures joined { (steps : List TheStep) → IsPart (deepest - depth) depth steps part → OnOk result (IsToJoin (join_of (deepest - depth) depth step.now steps) part None) }
    ensures left { IfErr result (IsUnchanged part) }
{
    match part {
        Part::Leaf { steps, .. } => Ok(Part::Leaf {
            known: None,
            steps: without(alloc, steps, step),
        }),
        Part::Inode {
            known,
            count,
            mut children,
        } => {
            // Neither fails in a directory: an inode has each child, and more steps than a leaf.
            let (Some(index), Some(fewer)) = (
                child_on_way(&children, places, depth),
                count.checked_sub(1),
            ) else {
                return Err(Part::Inode {
                    known,
                    count,
                    children,
                });
            };
            // A part that falls to the limit becomes a leaf before anything below it is touched.
            if count == LEAF_ENTRIES_MAX + 1 {
                let whole = Part::Inode {
                    known,
                    count,
                    children,
                };
                return join(alloc, whole, depth, step);
            }
            let below = mem::replace(&mut children[index], no_part(alloc));
            let edited = without_step(alloc, below, places, depth + 1, step);
            put_back(known, count, children, index, fewer, edited)
        }
        Part::Unread { record, count } => {
            // Whether it holds the step is not known, nor what its record would be without it.
            Err(Part::Unread { record, count })
        }
    }
}

// The part at a depth where something else stands at a step: no part on the way there is known any more.
pub(crate) fn forgotten<R: Drop>(
    alloc: Global,
    part: Part<R>,
    places: &Places,
    depth: u8,
    step: &Step,
) -> Part<R>
    requires { places.now ≡ sha256 step.now }
    ensures kept { (steps : List TheStep) → IsPart (deepest - depth) depth steps part → IsPart (deepest - depth) depth steps result }
    ensures edited { (steps : List TheStep) → IsPart (deepest - depth) depth steps part → IsEdited depth step.now part result }
{
    match part {
        Part::Leaf { steps, .. } => Part::Leaf { known: None, steps },
        Part::Inode {
            known,
            count,
            mut children,
        } => {
            let Some(index) = child_on_way(&children, places, depth) else {
                return Part::Inode {
                    known,
                    count,
                    children,
                };
            };
            let below = mem::replace(&mut children[index], no_part(alloc));
            children[index] = forgotten(alloc, below, places, depth + 1, step);
            Part::Inode {
                known: None,
                count,
                children,
            }
        }
        Part::Unread { record, count } => Part::Unread { record, count },
    }
}
