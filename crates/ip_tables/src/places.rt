// Where the records of commits lie.
ghost use Rattle.std.specs.Prelude.{◌≡◌, ◌-◌, ◌≤◌, [], ◌∷◌, ◌++◌, length, take, drop, slice_get, OnOk, OnErr};

use ip_base::Memory;
use std::alloc::Global;
use std::marker::Model;

/// Offsets of the records of commits, in bytes, in the order of the commits' numbers, which contracts see as a list.
#[derive(Drop)]
pub struct Places {
    places: Vec<u64>,
}

impl Model for Places {
    ghost use Rattle.std.specs.Prelude.{List, ℕ};

    ghost Value = { List ℕ };

    ghost view = { λ p. p.places.items };
}

impl Places {
    /// No places.
    pub fn new(alloc: Global) -> Self
        ensures { result ≡ [] }
    {
        Places {
            places: Vec::new(alloc),
        }
    }

    /// The place of this number, counted from 0.
    pub fn at(&self, number: usize) -> Option<u64>
        ensures { result ≡ slice_get self.now number }
    {
        self.places.get(number).copied()
    }

    /// Puts a place behind all others. Where memory is refused nothing changes.
    pub fn push(&mut self, place: u64) -> Result<(), Memory>
        ensures ok { OnOk result (self.new ≡ self.old ++ place ∷ []) }
        ensures err { OnErr result (self.new ≡ self.old) }
    {
        self.places.push(place)?;
        Ok(())
    }

    /// Takes the last place away, where there is one. It takes no memory.
    pub fn pop(&mut self)
        ensures { self.new ≡ take (length self.old - 1) self.old }
    {
        self.places.pop();
    }

    /// Takes so many places away in front. It takes no memory.
    pub fn drop_front(&mut self, count: usize)
        requires { count ≤ length self.old }
        ensures { self.new ≡ drop count self.old }
    {
        let _ = self.places.drain(..count);
    }
}
