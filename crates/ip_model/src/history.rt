// Of each retained commit it is kept which commits are its ancestors; all other answers are tests over all retained commits.
ghost use Rattle.std.specs.Prelude.{◌≡◌, ℕ, false, ◌+◌, ◌^◌, ◌<◌, ◌≤◌, ◌↔◌, ◌++◌, [], ◌∷◌, ◌==◌, ◌||◌, IsTrue, length, filter, reverse, IfOk, OnOk, cond, slice_index_or};
ghost use Rattle.std.specs.List.{list_any};
ghost use Rattle.ip_spec.specs.Repository.{Repository};
ghost use Rattle.ip_spec.specs.History.{ParentsFirst, is_ancestor, is_proper_ancestor, is_common, ancestors, common, lcas, retained};
ghost use Rattle.ip_history.specs.History.{Holds, Shows};
ghost use Rattle.ip_model.specs.Ancestry.{reached, reached_from};

use ip_base::{Items, Memory, Number, Numbers};
use std::alloc::Global;
use std::marker::Model;

/// A history with the ancestors of each retained commit.
#[derive(Drop)]
pub struct History {
    floor: u64,
    parents: Vec<Numbers>,
    // of each commit, by its place above the floor, which ones are itself or an ancestor
    rows: Vec<Items<bool>>,
}

impl Model for History {
    ghost use Rattle.std.specs.Prelude.{ℕ, ◌≡◌, ◌+◌, ◌^◌, ◌≤◌, length};
    ghost use Rattle.ip_history.specs.History.{History};
    ghost use Rattle.ip_model.specs.Ancestry.{AreRows};

    ghost Value = { History };

    ghost view = { λ h. record { floor = h.floor; parents = h.parents.items } };

    ghost invariant = { λ h. (h.floor + length h.parents.items ≤ 2 ^ 64) × (length h.rows.items ≡ length h.parents.items) × AreRows (record { floor = h.floor; parents = h.parents.items }) h.rows.items };
}

impl History {
    /// The history of commits with these parents, of which the first has the floor's number. Parents may be below the floor.
    pub fn of(alloc: Global, floor: Number, parents: Vec<Numbers>) -> Result<Self, Memory>
        requires { floor + length parents.items ≤ 2 ^ 64 }
        ensures { IfOk result (λ h. h ≡ record { floor = floor; parents = parents.items }) }
    {
        let mut rows = Vec::new(alloc);
        for list in &parents {
            let row = next_row(alloc, &rows, floor.0, list.as_slice(), parents.len())?;
            rows.push(row)?;
        }
        Ok(History {
            floor: floor.0,
            parents,
            rows,
        })
    }

    /// Whether the first commit is the second one, or an ancestor of it.
    pub fn is_ancestor(&self, a: Number, number: Number) -> bool
        ensures { (r : Repository) → ParentsFirst r → Shows self.now r → result ≡ is_ancestor r a number }
    {
        a == number
            || self.is_retained(a)
                && self.is_retained(number)
                && has(
                    &self.rows,
                    (number.get() - self.floor) as usize,
                    (a.get() - self.floor) as usize,
                )
    }

    /// The commit and its ancestors, ascending by number.
    pub fn ancestors(&self, alloc: Global, number: Number) -> Result<Numbers, Memory>
        ensures { (r : Repository) → ParentsFirst r → Shows self.now r → IfOk result (λ ns. ns ≡ ancestors r number) }
    {
        let mut found = Numbers::empty(alloc);
        for place in 0..self.len() {
            let a = self.number_at(place);
            let is = self.is_ancestor(a, number);
            push_if(&mut found, is, a)?;
        }
        Ok(found)
    }

    /// The commit and its ancestors, descending by number.
    pub fn log(&self, alloc: Global, number: Number) -> Result<Numbers, Memory>
        ensures { (r : Repository) → ParentsFirst r → Shows self.now r → IfOk result (λ ns. ns ≡ reverse (ancestors r number)) }
    {
        let mut found = self.ancestors(alloc, number)?.into_vec();
        found.reverse();
        Ok(Numbers::of(found))
    }

    /// The least common ancestors of two commits, ascending by number.
    pub fn lcas(&self, alloc: Global, one: Number, other: Number) -> Result<Numbers, Memory>
        ensures { (r : Repository) → ParentsFirst r → Shows self.now r → IfOk result (λ ns. ns ≡ lcas r one other) }
    {
        self.common(alloc, &[one], other)
    }

    /// The ancestors of a commit and of one of a list that are a proper ancestor of no other such commit, ascending by number.
    pub fn common(&self, alloc: Global, list: &[Number], number: Number) -> Result<Numbers, Memory>
        ensures { (r : Repository) → ParentsFirst r → Shows self.now r → IfOk result (λ ns. ns ≡ common r list.now number) }
    {
        let all = self.all_common(alloc, list, number)?;
        let mut least = Numbers::empty(alloc);
        for a in all.as_slice() {
            let is = !self.is_below_one(*a, all.as_slice());
            push_if(&mut least, is, *a)?;
        }
        Ok(least)
    }

    // The ancestors of a commit and of one of a list, ascending by number.
    fn all_common(&self, alloc: Global, list: &[Number], number: Number) -> Result<Numbers, Memory>
        ensures { (r : Repository) → ParentsFirst r → Shows self.now r → IfOk result (λ ns. ns ≡ filter (is_common r list.now number) (retained r)) }
    {
        let mut found = Numbers::empty(alloc);
        for place in 0..self.len() {
            let a = self.number_at(place);
            let is = self.is_ancestor(a, number) && self.is_above_one(a, list);
            push_if(&mut found, is, a)?;
        }
        Ok(found)
    }

    // Whether it is one of a list, or an ancestor of one.
    fn is_above_one(&self, a: Number, list: &[Number]) -> bool
        ensures { (r : Repository) → ParentsFirst r → Shows self.now r → result ≡ list_any (λ m. is_ancestor r a m) list.now }
    {
        for number in list {
            if self.is_ancestor(a, *number) {
                return true;
            }
        }
        false
    }

    // Whether it is a proper ancestor of one of a list.
    fn is_below_one(&self, a: Number, list: &[Number]) -> bool
        ensures { (r : Repository) → ParentsFirst r → Shows self.now r → result ≡ list_any (is_proper_ancestor r a) list.now }
    {
        for number in list {
            if self.is_ancestor(a, *number) && a != *number {
                return true;
            }
        }
        false
    }

    // How many commits are retained.
    fn len(&self) -> usize
        ensures { result ≡ length self.now.parents }
    {
        self.parents.len()
    }

    // The number of the commit at a place above the floor.
    fn number_at(&self, place: usize) -> Number
        requires { place < length self.now.parents }
        ensures { result ≡ self.now.floor + place }
    {
        Number(self.floor + place as u64)
    }

    // Whether there is a retained commit with the number.
    fn is_retained(&self, number: Number) -> bool
        ensures { IsTrue result ↔ Holds self.now number }
    {
        self.floor <= number.get() && number.get() - self.floor < self.parents.len() as u64
    }
}

// Puts a number behind all others, if it is wanted.
fn push_if(numbers: &mut Numbers, is: bool, number: Number) -> Result<(), Memory>
    ensures { OnOk result (numbers.new ≡ numbers.old ++ cond is (number ∷ []) []) }
{
    if is {
        numbers.push(number)?;
    }
    Ok(())
}

// Whether the row at a place has another place.
fn has(rows: &[Items<bool>], row: usize, place: usize) -> bool
    ensures { result ≡ reached rows.now row place }
{
    match rows.get(row) {
        Some(row) => match row.as_slice().get(place) {
            Some(is) => *is,
            None => false,
        },
        None => false,
    }
}

// The row of the commit that comes behind those of the rows: itself, and what the rows of its parents have.
fn next_row(
    alloc: Global,
    rows: &[Items<bool>],
    floor: u64,
    parents: &[Number],
    count: usize,
) -> Result<Items<bool>, Memory>
    ensures { IfOk result (λ row. (j : ℕ) → j < count → slice_index_or row j false ≡ (j == length rows.now || reached_from rows.now floor parents.now j)) }
{
    let mut row = Items::empty(alloc);
    for place in 0..count {
        let is = place == rows.len() || one_has(rows, floor, parents, place);
        row.push(is)?;
    }
    Ok(row)
}

// Whether the row of a parent that is not below the floor has a place.
fn one_has(rows: &[Items<bool>], floor: u64, parents: &[Number], place: usize) -> bool
    ensures { result ≡ reached_from rows.now floor parents.now place }
{
    for parent in parents {
        if floor <= parent.get() && has(rows, (parent.get() - floor) as usize, place) {
            return true;
        }
    }
    false
}
