// The branches of a store.
ghost use Rattle.std.specs.Prelude.{◌≡◌, ◌↔◌, ◌≤◌, ◌<◌, ◌&&◌, nat_le, nat_lt, map, All, IsTrue, IfSome, IfOk, OnOk, OnErr, MatchOption, slice_get, None, Some};
ghost use Rattle.std.specs.List.{list_all};
ghost use Rattle.std.specs.BTreeMap.{values};
ghost use Rattle.ip_spec.specs.Path.{Bytes};
ghost use Rattle.ip_spec.specs.Map.{empty, get, insert, remove, len, from_entries};
ghost use Rattle.ip_image.specs.Standing.{row_of};

use ip_base::{Items, Memory, Number};
use ip_spec::record::Branch;
use std::alloc::Global;
use std::collections::BTreeMap;
use std::collections::btree_map::Iter;
use std::marker::Model;

/// Names of branches and the numbers of their commits, ascending by the bytes of the names, which contracts see as a map.
#[derive(Drop)]
pub struct Branches {
    entries: BTreeMap<Vec<u8>, Number>,
}

impl Model for Branches {
    ghost use Rattle.std.specs.BTreeMap.{IsOrdered};
    ghost use Rattle.std.specs.Prelude.{ℕ};
    ghost use Rattle.ip_spec.specs.Map.{Map};
    ghost use Rattle.ip_spec.specs.Path.{bytes_cmp};
    ghost use Rattle.ip_tables.specs.Entries.{step_cmp, branches_of, branches_code};

    ghost Value = { Map bytes_cmp ℕ };

    ghost coded = { branches_code };

    ghost view = { λ b. branches_of b.entries };

    ghost invariant = { λ b. IsOrdered step_cmp b.entries };
}

impl Branches {
    /// No branch.
    pub fn new(alloc: Global) -> Self
        ensures { result ≡ empty }
    {
        Branches {
            entries: BTreeMap::new(alloc),
        }
    }

    /// Those of the rows of a table; of rows of one name the last one counts.
    pub fn of_rows(alloc: Global, rows: Items<Branch>) -> Result<Self, Memory>
        ensures { IfOk result (λ branches. branches ≡ from_entries (map row_of rows)) }
    {
        let mut branches = Branches::new(alloc);
        for row in rows.into_vec() {
            branches.set(row.name.into_vec(), row.number)?;
        }
        Ok(branches)
    }

    /// How many there are.
    pub fn len(&self) -> usize
        ensures { result ≡ len self.now }
    {
        self.entries.len()
    }

    /// The number of the commit that a branch is at.
    pub fn get(&self, name: &[u8]) -> Option<Number>
        ensures { result ≡ get self.now name.now }
    {
        self.entries.get(name).copied()
    }

    /// Puts a branch at a commit. Only a new branch takes memory. Where it is refused nothing changes.
    pub fn set(&mut self, name: Vec<u8>, number: Number) -> Result<(), Memory>
        ensures ok { OnOk result (self.new ≡ insert self.old name.items number) }
        ensures err { OnErr result (self.new ≡ self.old) }
        ensures absent { OnErr result (get self.old name.items ≡ None) }
    {
        self.entries.insert(name, number)?;
        Ok(())
    }

    /// Takes a branch away, where there is one. It takes no memory.
    pub fn remove(&mut self, name: &[u8])
        ensures { self.new ≡ remove self.old name.now }
    {
        self.entries.remove(name);
    }

    /// The branch at a place, counted from 0 in the order of the names. It passes over those before it.
    pub fn at(&self, place: usize) -> Option<(&[u8], Number)>
        ensures { MatchOption result (slice_get (self.now).entries place ≡ None) (λ e. slice_get (self.now).entries place ≡ Some (e.0.now, e.1)) }
    {
        let mut left = place;
        for (name, number) in &self.entries {
            if left == 0 {
                return Some((name, *number));
            }
            left -= 1;
        }
        None
    }

    /// The branches and the numbers of their commits, in the order of the names.
    pub fn iter(&self) -> Iter<'_, Vec<u8>, Number>
        ensures entries { map (λ e. (e.0.items, e.1)) result ≡ (self.now).entries }
        ensures found { All (λ e. get self.now e.0.items ≡ Some e.1) result }
    {
        self.entries.iter()
    }

    /// Whether each is at a commit with a number from `low` on and below `high`.
    pub fn are_within(&self, low: u64, high: u64) -> bool
        ensures { IsTrue result ↔ ((name : Bytes) → IfSome (get self.now name) (λ n. (low ≤ n) × (n < high))) }
    {
        all_within(&self.entries, low, high)
    }
}

fn all_within(entries: &BTreeMap<Vec<u8>, Number>, low: u64, high: u64) -> bool
    ensures { result ≡ list_all (λ n. nat_le low n && nat_lt n high) (values entries.now) }
{
    entries
        .values()
        .all(|number| low <= number.get() && number.get() < high)
}
