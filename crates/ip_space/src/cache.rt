// Records that were fetched, which are kept.
ghost use Rattle.std.specs.Prelude.{◌≡◌, ◌<◌, ◌≤◌, ℕ, [], length, Some, None, nat_eq, IfSome, IsSome, option_map, option_copied};
ghost use Rattle.std.specs.Int.NonZero.{non_zero_usize_get};
ghost use Rattle.std.specs.Map.{lookup};
ghost use Rattle.ip_spec.specs.Record.{Fits, name_of, spelling};
ghost use Rattle.ip_image.specs.Slot.{newest_version};
ghost use Rattle.ip_space.specs.SpaceView.{kept_at};
ghost use Rattle.ip_space.specs.declared.cache.TheConstants.{RECORDS_MAX, RECORD_BYTES_MAX};
ghost use Rattle.ip_space.specs.Kept.{IsNamed, IsBounded, GainsNone, GainsAtMost, PutsAtMost};

use ip_base::Hash;
use ip_spec::record::Record;
use lru::LruCache;
use std::alloc::Global;
use std::marker::Model;
use std::num::NonZeroUsize;

/// The most records that are kept. Were each as long as one may be, they would take some 16 MiB.
pub const RECORDS_MAX: usize = 256;

/// The most bytes of a record that is kept: a head of 5, and a body of 64 KiB. Parts of directories and commits have fewer; of contents
/// those that have more would drive out many others, and are rarely asked for twice.
pub const RECORD_BYTES_MAX: u64 = 5 + 65536;

/// A record that was fetched, and its name.
#[derive(Drop)]
pub struct Kept {
    pub name: Hash,
    pub rec: Record,
}

/// The records that were fetched last, by offset. It takes no memory before the first is kept.
#[derive(Drop)]
pub struct Cache {
    alloc: Global,
    records: Option<LruCache<u64, Kept>>,
}

impl Model for Cache {
    ghost use Rattle.std.specs.Prelude.{ℕ, List, IfSome};
    ghost use Rattle.ip_spec.specs.declared.record.Record.{Record as Stored};
    ghost use Rattle.ip_space.specs.Kept.{kept_in, AreNamed};

    ghost Value = { List (ℕ × Stored) };

    ghost view = { λ c. kept_in c.records };

    ghost invariant = { λ c. IfSome c.records AreNamed };
}

impl Cache {
    /// Nothing is kept.
    pub fn new(alloc: Global) -> Cache
        ensures { result ≡ [] }
    {
        Cache {
            alloc,
            records: None,
        }
    }

    /// The record that is kept for an offset, and its name.
    pub fn get(&self, at: u64) -> Option<&Kept>
        ensures is { option_map (λ kept. kept.rec) (option_copied result) ≡ kept_at at self.now }
        ensures named { IfSome result (λ kept. IsNamed kept.now) }
        ensures bounded { IsBounded self.now }
    {
        let Some(records) = &self.records else {
            return None;
        };
        match last(records, at) {
            Some(kept) => Some(kept),
            None => records.peek(&at),
        }
    }

    /// The record of an offset is the last to go.
    pub fn touch(&mut self, at: u64)
        ensures none { GainsNone self.old self.new }
        ensures is { kept_at at self.new ≡ kept_at at self.old }
        ensures bounded { IsBounded self.new }
    {
        let Some(records) = &mut self.records else {
            return;
        };
        records.promote(&at);
    }

    /// Keeps the record of an offset, in the place of the one that was used longest ago where there are as many as are kept. Where memory is
    /// refused it is handed back.
    pub fn keep(&mut self, at: u64, name: Hash, rec: Record) -> Option<Record>
        requires fits { Fits newest_version rec }
        requires name { name_of rec ≡ Some name }
        requires short { length (spelling rec) ≤ RECORD_BYTES_MAX }
        ensures gains { GainsAtMost at rec self.old self.new }
        ensures kept { result ≡ None → kept_at at self.new ≡ Some rec }
        ensures back { IfSome result (λ back. back ≡ rec) }
        ensures bounded { IsBounded self.new }
    {
        self.make_room();
        let Some(records) = &mut self.records else {
            return Some(rec);
        };
        put(records, at, Kept { name, rec })
    }

    // Takes the memory that all records share, if it was not taken, and is not refused.
    fn make_room(&mut self)
        ensures { self.new ≡ self.old }
    {
        if self.records.is_some() {
            return;
        }
        let Ok(records) = LruCache::new(self.alloc, most()) else {
            return;
        };
        self.records = Some(records);
    }
}

// The record of an offset, where it is the one that was used last: then it takes no look-up.
fn last(records: &LruCache<u64, Kept>, at: u64) -> Option<&Kept>
    ensures { IfSome result (λ kept. lookup (nat_eq at) records.now.entries ≡ Some kept.now) }
{
    match records.peek_mru() {
        Some((first, kept)) if *first == at => Some(kept),
        _ => None,
    }
}

// Keeps one record more, or hands it back.
fn put(records: &mut LruCache<u64, Kept>, at: u64, kept: Kept) -> Option<Record>
    ensures gains { PutsAtMost at kept records.old.entries records.new.entries }
    ensures kept { result ≡ None → lookup (nat_eq at) records.new.entries ≡ Some kept }
    ensures back { IfSome result (λ back. back ≡ kept.rec) }
    ensures cap { records.new.cap ≡ records.old.cap }
    ensures few { length records.old.entries ≤ records.old.cap → 0 < records.old.cap → length records.new.entries ≤ records.old.cap }
{
    match records.put(at, kept) {
        Ok(_) => None,
        Err(refused) => Some(refused.value.1.rec),
    }
}

fn most() -> NonZeroUsize
    ensures { non_zero_usize_get result ≡ RECORDS_MAX }
{
    match NonZeroUsize::new(RECORDS_MAX) {
        Some(most) => most,
        None => NonZeroUsize::MIN,
    }
}
