// The table, and walks from commits down their parents. A parent's number is less than its child's, so by descending numbers a commit comes
// after all of its descendants.
ghost use Rattle.std.specs.Prelude.{◌≡◌, ◌+◌, ◌-◌, ◌^◌, ◌<◌, ◌≤◌, [], ◌∷◌, ◌++◌, length, drop, reverse, All, IfOk, OnOk, OnErr, cond};
ghost use Rattle.ip_spec.specs.Repository.{Repository};
ghost use Rattle.ip_spec.specs.History.{ancestors, common, lcas};
ghost use Rattle.ip_history.specs.History.{HasParentsFirst, Holds, Shows};
ghost use Rattle.ip_history.specs.Frontier.{is_least, IsHeads, Passes};

use crate::frontier::{Flags, Frontier};
use ip_base::{Memory, Number, Numbers};
use std::alloc::Global;
use std::marker::Model;

/// The retained commits with their parents, by number. Commits come in the order of their numbers, without a gap, from the floor on.
#[derive(Debug, Drop)]
pub struct Table {
    alloc: Global,
    floor: u64,
    parents: Vec<Numbers>,
}

impl Model for Table {
    ghost use Rattle.std.specs.Prelude.{ℕ, ◌+◌, ◌^◌, ◌≤◌, length};
    ghost use Rattle.ip_history.specs.History.{History, HasParentsFirst};

    ghost Value = { History };

    ghost view = { λ t. record { floor = t.floor; parents = t.parents.items } };

    ghost invariant = { λ t. HasParentsFirst (record { floor = t.floor; parents = t.parents.items }) × (t.floor + length t.parents.items ≤ 2 ^ 64) };
}

impl Table {
    /// A table of no commit. The next commit has the floor's number.
    pub fn new(alloc: Global, floor: Number) -> Self
        ensures { result ≡ record { floor = floor; parents = [] } }
    {
        Table {
            alloc,
            floor: floor.0,
            parents: Vec::new(alloc),
        }
    }

    /// The number below which no commit is retained.
    pub fn floor(&self) -> Number
        ensures { result ≡ self.now.floor }
    {
        Number(self.floor)
    }

    /// How many commits are retained.
    pub fn len(&self) -> usize
        ensures { result ≡ length self.now.parents }
    {
        self.parents.len()
    }

    /// Puts in the next commit by the numbers of its parents, which may be below the floor. Where memory is refused the table stays.
    pub fn push(&mut self, parents: &[Number]) -> Result<(), Memory>
        requires room { self.old.floor + length self.old.parents < 2 ^ 64 }
        requires below { All (λ p. p < self.old.floor + length self.old.parents) parents.now }
        ensures ok { OnOk result (self.new ≡ record { floor = self.old.floor; parents = self.old.parents ++ parents.now ∷ [] }) }
        ensures refused { OnErr result (self.new ≡ self.old) }
    {
        let parents = Numbers::copy_of(self.alloc, parents)?;
        self.parents.push(parents)?;
        Ok(())
    }

    /// Gives up the commits below a new floor.
    pub fn raise(&mut self, floor: Number)
        requires { (self.old.floor ≤ floor) × (floor ≤ self.old.floor + length self.old.parents) }
        ensures { self.new ≡ record { floor = floor; parents = drop (floor - self.old.floor) self.old.parents } }
    {
        let count = (floor.0 - self.floor) as usize;
        drop_front(&mut self.parents, count);
        self.floor = floor.0;
    }

    /// The commit and its ancestors, ascending by number.
    pub fn ancestors(&self, alloc: Global, number: Number) -> Result<Numbers, Memory>
        requires { Holds self.now number }
        ensures { (r : Repository) → Shows self.now r → IfOk result (λ ns. ns ≡ ancestors r number) }
    {
        Ok(reversed(self.log(alloc, number)?))
    }

    /// The commit and its ancestors, descending by number.
    pub fn log(&self, alloc: Global, number: Number) -> Result<Numbers, Memory>
        requires { Holds self.now number }
        ensures { (r : Repository) → Shows self.now r → IfOk result (λ ns. ns ≡ reverse (ancestors r number)) }
    {
        // the table's invariant, that parents come first, is known from here on
        let _ = &self.floor;
        let mut numbers = Numbers::empty(alloc);
        let mut frontier = heads(alloc, &[], number)?;
        while let Some((next, flags)) = frontier.pop() {
            numbers.push(Number(next))?;
            self.add_parents(next, flags, &mut frontier)?;
        }
        Ok(numbers)
    }

    /// The least common ancestors of two commits, ascending by number: the common ancestors that are a proper ancestor of no other one.
    pub fn lcas(&self, alloc: Global, one: Number, other: Number) -> Result<Numbers, Memory>
        requires one { Holds self.now one }
        requires other { Holds self.now other }
        ensures { (r : Repository) → Shows self.now r → IfOk result (λ ns. ns ≡ lcas r one other) }
    {
        self.common(alloc, &[one], other)
    }

    /// The ancestors of a commit and of one of a list that are a proper ancestor of no other such commit, ascending by number.
    pub fn common(&self, alloc: Global, list: &[Number], number: Number) -> Result<Numbers, Memory>
        requires list { All (Holds self.now) list.now }
        requires number { Holds self.now number }
        ensures { (r : Repository) → Shows self.now r → IfOk result (λ ns. ns ≡ common r list.now number) }
    {
        let Meeting { least, .. } = self.meet(alloc, list, number)?;
        Ok(least)
    }

    // Goes down by number from the given commits. It ends once all ancestors that are left of the one commit, or all of the list, are proper
    // ancestors of a common one: of these none is a least one, and any other is no common one.
    pub(crate) fn meet(
        &self,
        alloc: Global,
        list: &[Number],
        number: Number,
    ) -> Result<Meeting, Memory>
        requires list { All (Holds self.now) list.now }
        requires number { Holds self.now number }
        ensures least { (r : Repository) → Shows self.now r → IfOk result (λ m. m.least ≡ common r list.now number) }
        ensures once { IfOk result (λ m. m.looked_at ≤ length self.now.parents) }
    {
        // the table's invariant, that parents come first, is known from here on
        let _ = &self.floor;
        let mut least = Numbers::empty(alloc);
        let mut looked_at = 0;
        let mut frontier = heads(alloc, list, number)?;
        while let Some((next, flags)) = frontier.pop_unsettled() {
            looked_at += 1;
            push_least(&mut least, next, flags)?;
            self.add_parents(next, flags.passed(), &mut frontier)?;
        }
        Ok(Meeting {
            least: reversed(least),
            looked_at,
        })
    }

    // Puts in the retained parents of a commit, or adds to their flags.
    fn add_parents(&self, number: u64, flags: Flags, frontier: &mut Frontier) -> Result<(), Memory>
        requires { Holds self.now number }
        ensures first { HasParentsFirst self.now }
        ensures passes { OnOk result (Passes self.now number flags frontier.old frontier.new) }
    {
        let parents = self.parents[(number - self.floor) as usize].as_slice();
        for parent in parents {
            if self.floor <= parent.get() {
                frontier.add(parent.get(), flags)?;
            }
        }
        Ok(())
    }
}

/// What a walk from given commits found.
#[derive(Drop)]
pub(crate) struct Meeting {
    /// The least common ancestors, ascending.
    pub(crate) least: Numbers,
    /// How many commits were looked at.
    pub(crate) looked_at: usize,
}

// The frontier that a walk begins with.
fn heads(alloc: Global, list: &[Number], number: Number) -> Result<Frontier, Memory>
    ensures { IfOk result (IsHeads list.now number) }
{
    let mut frontier = Frontier::new(alloc);
    frontier.add(number.get(), Flags::own())?;
    for number in list {
        frontier.add(number.get(), Flags::listed())?;
    }
    Ok(frontier)
}

// Puts in a commit that was looked at, if it is a least common one.
fn push_least(least: &mut Numbers, number: u64, flags: Flags) -> Result<(), Memory>
    ensures { OnOk result (least.new ≡ least.old ++ cond (is_least flags) (number ∷ []) []) }
{
    if flags.is_least() {
        least.push(Number(number))?;
    }
    Ok(())
}

fn reversed(numbers: Numbers) -> Numbers
    ensures { result ≡ reverse numbers }
{
    let mut numbers = numbers.into_vec();
    numbers.reverse();
    Numbers::of(numbers)
}

fn drop_front(parents: &mut Vec<Numbers>, count: usize)
    requires { count ≤ length parents.old.items }
    ensures { parents.new.items ≡ drop count parents.old.items }
{
    let _ = parents.drain(..count);
}
