// The names of commits.
ghost use Rattle.std.specs.Prelude.{◌≡◌, ◌-◌, None, [], ◌∷◌, ◌++◌, ◌≤◌, length, slice_get, take, drop, position, IfOk, OnOk, OnErr, option_copied};
ghost use Rattle.ip_spec.specs.Path.{same_bytes};

use ip_base::{Hash, Memory};
use std::alloc::Global;
use std::collections::BTreeMap;
use std::marker::Model;

/// Names of commits in the order of their numbers, no name twice, which contracts see as a list.
#[derive(Drop)]
pub struct Names {
    names: Vec<Hash>,
    places: BTreeMap<Hash, u64>,
}

impl Model for Names {
    ghost use Rattle.std.specs.Prelude.{List, ℕ};
    ghost use Rattle.ip_audit.specs.Placed.{ArePlaced};

    ghost Value = { List (List ℕ) };

    ghost view = { λ n. n.names.items };

    ghost invariant = { λ n. ArePlaced n.names.items n.places };
}

impl Names {
    /// No names.
    pub fn new(alloc: Global) -> Self
        ensures { result ≡ [] }
    {
        Names {
            names: Vec::new(alloc),
            places: BTreeMap::new(alloc),
        }
    }

    /// How many names there are.
    pub fn len(&self) -> usize
        ensures { result ≡ length self.now }
    {
        self.names.len()
    }

    /// The name at a place, counted from 0.
    pub fn at(&self, place: usize) -> Option<Hash>
        ensures { result ≡ slice_get self.now place }
    {
        self.names.get(place).copied()
    }

    /// The place of a name, counted from 0, in the time that a look-up in an ordered map takes.
    pub fn place_of(&self, name: &Hash) -> Option<u64>
        ensures { result ≡ position (λ n. same_bytes n name.now) self.now }
    {
        self.places.get(name).copied()
    }

    /// Puts a name behind all others. Where memory is refused nothing changes.
    pub fn push(&mut self, name: Hash) -> Result<(), Memory>
        requires new { position (λ n. same_bytes n name) self.old ≡ None }
        ensures ok { OnOk result (self.new ≡ self.old ++ name ∷ []) }
        ensures err { OnErr result (self.new ≡ self.old) }
    {
        let place = self.names.len() as u64;
        self.names.push(name)?;
        if self.places.insert(name, place).is_err() {
            self.names.pop();
            return Err(Memory);
        }
        Ok(())
    }

    /// The names from a place on, in a list of their own.
    pub fn copy_from(&self, alloc: Global, from: usize) -> Result<Names, Memory>
        requires { from ≤ length self.now }
        ensures { IfOk result (λ names. names ≡ drop from self.now) }
    {
        let mut names = Names::new(alloc);
        for name in &self.names[from..] {
            names.push(*name)?;
        }
        Ok(names)
    }

    /// Takes the last name away, where there is one. It takes no memory.
    pub fn pop(&mut self)
        ensures { self.new ≡ take (length self.old - 1) self.old }
    {
        if let Some(name) = self.names.pop() {
            self.places.remove(&name);
        }
    }
}
