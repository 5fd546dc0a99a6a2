// What a store holds: its slot, its tables and the space of its records; and what it tells of its numbers, names and branches.
ghost use Rattle.std.specs.Prelude.{◌≡◌, IsTrue, IfOk, slice_get, map, option_map, MatchOption, None, Some};
ghost use Rattle.ip_spec.specs.Map.{len};
ghost use Rattle.ip_spec.specs.Repository.{Repository, next, head, number_named, commit_at, is_retained, name_at};
ghost use Rattle.ip_spec.specs.Machine.{phase_told};
ghost use Rattle.ip_spec.specs.Step.{below, head_of};
ghost use Rattle.ip_held.specs.Collecting.{phase_of};
ghost use Rattle.ip_held.specs.Held.{IsOf, place_of_commit};

use crate::{Collection, Unswept};
use ip_audit::Names;
use ip_base::limit::BRANCHES_MAX;
use ip_base::{Blob, Hash, Items, Memory, Number};
use ip_control::Slot;
use ip_history::Table;
use ip_space::Space;
use ip_spec::met::Phase;
use ip_spec::reply::{Head, Heads};
use ip_tables::{Branches, Places};
use std::alloc::Global;

/// What an open store holds: its live slot, the space of its records, and what they say of commits, branches and parents.
#[derive(Drop)]
pub struct Held {
    /// Which of the two slots is live.
    pub index: u8,
    /// The live slot.
    pub slot: Slot,
    /// The names of the commits, in the order of their numbers.
    pub names: Names,
    /// Where the records of the commits lie, as offsets in bytes, in the order of their numbers.
    pub places: Places,
    pub branches: Branches,
    pub history: Table,
    /// Where records are read, up to the end that the live slot names.
    pub space: Space,
    /// The collection that goes on, if any.
    pub collection: Option<Collection>,
    /// What the next slot says of what is not swept yet.
    pub unswept: Unswept,
}

impl Held {
    /// The number of the first commit that is retained.
    pub fn floor(&self) -> Number
        ensures { (r : Repository) → IsOf self.now r → result ≡ r.floor }
    {
        Number(self.slot.floor)
    }

    /// The number of the commit that comes next.
    pub fn next(&self) -> Number
        ensures { (r : Repository) → IsOf self.now r → result ≡ next r }
    {
        Number(self.slot.next)
    }

    /// Whether a collection runs, and at which commit.
    pub fn phase(&self) -> Phase
        ensures { result ≡ phase_told (phase_of self.now.collection) }
    {
        match &self.collection {
            Some(collection) => Phase::Collecting {
                commit: collection.commit,
                kept: collection.exit.is_some(),
            },
            None => Phase::Idle,
        }
    }

    /// The least number of a work, where the commit of that number was given up: then nothing is done with the work.
    pub fn given_up(&self, least: Option<Number>) -> Option<Number>
        ensures { (r : Repository) → IsOf self.now r → result ≡ below r.floor least }
    {
        match least {
            Some(number) if number.get() < self.slot.floor => Some(number),
            _ => None,
        }
    }

    /// The number of the commit that a branch is at.
    pub fn head(&self, name: &[u8]) -> Option<Number>
        ensures { (r : Repository) → IsOf self.now r → result ≡ head r name.now }
    {
        self.branches.get(name)
    }

    /// How many branches there are.
    pub fn branch_count(&self) -> u32
        ensures { (r : Repository) → IsOf self.now r → result ≡ len r.branches }
    {
        self.branches.len().min(BRANCHES_MAX) as u32
    }

    /// The branch at a place, counted from 0 in the order of the names' bytes, and the number of the commit that it is at.
    pub fn branch_at(&self, place: u32) -> Option<(&[u8], Number)>
        ensures { (r : Repository) → IsOf self.now r →
            MatchOption result (slice_get r.branches.entries place ≡ None) (λ e. slice_get r.branches.entries place ≡ Some (e.0.now, e.1)) }
    {
        self.branches.at(place as usize)
    }

    /// The branches and the names of their commits, in the order of the branches' names.
    pub fn branches(&self, alloc: Global) -> Result<Heads, Memory>
        requires { (r : Repository) × IsOf self.now r }
        ensures { (r : Repository) → IsOf self.now r → IfOk result (λ heads. heads ≡ map (head_of r) r.branches.entries) }
    {
        let mut heads = Vec::with_capacity(alloc, self.branches.len())?;
        for (branch, number) in self.branches.iter() {
            heads.push(Head {
                branch: Blob::copy_of(alloc, branch)?,
                name: self.retained_name(*number),
            })?;
        }
        Ok(Items::of(heads))
    }

    /// The number of the retained commit of a name.
    pub fn commit_named(&self, name: &Hash) -> Option<Number>
        requires { (r : Repository) × IsOf self.now r }
        ensures { (r : Repository) → IsOf self.now r → result ≡ number_named r name.now }
    {
        let place = self.names.place_of(name)?;
        Some(Number(self.slot.floor + place))
    }

    /// The name of a retained commit.
    pub fn retained_name(&self, number: Number) -> Hash
        requires tables { (r : Repository) × IsOf self.now r × IsTrue (is_retained r number) }
        ensures { (r : Repository) → IsOf self.now r → IsTrue (is_retained r number) → result ≡ name_at r number }
    {
        match self.names.at((number.get() - self.slot.floor) as usize) {
            Some(name) => name,
            None => unreachable!(),
        }
    }

    /// Where the record of a retained commit lies: its offset, in bytes.
    pub fn place_of(&self, number: Number) -> u64
        requires { (r : Repository) × IsOf self.now r × IsTrue (is_retained r number) }
        ensures { place_of_commit self.now number ≡ Some result }
    {
        match self.places.at((number.get() - self.slot.floor) as usize) {
            Some(place) => place,
            None => unreachable!(),
        }
    }

    /// The name of the retained commit of a number.
    pub fn name_of(&self, number: Number) -> Option<Hash>
        ensures { (r : Repository) → IsOf self.now r → result ≡ option_map (λ c. c.name) (commit_at r number) }
    {
        if number.get() < self.slot.floor {
            return None;
        }
        self.names.at((number.get() - self.slot.floor) as usize)
    }
}
