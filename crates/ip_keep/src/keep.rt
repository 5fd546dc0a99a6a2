// The search for the records that a collection keeps.
ghost use Rattle.std.specs.Prelude.{◌≡◌, ◌↔◌, ◌+◌, ◌*◌, ◌≤◌, ◌<◌, [], ◌∷◌, ◌++◌, ℕ, List, Option, Contains, reverse, length, IsTrue, IsErrOf, OnOk, OnErr};
ghost use Rattle.ip_base.specs.declared.limit.TheConstants.{OFFSET_MAX};
ghost use Rattle.ip_ground.specs.Contents.{Image};
ghost use Rattle.ip_ground.specs.Counts.{Counts};
ghost use Rattle.ip_ground.specs.Told.{NoFile, ChangesOnly};
ghost use Rattle.ip_spec.specs.TreeAt.{Records};
ghost use Rattle.ip_spec.specs.declared.record.Record.{Record as RecordValue};
ghost use Rattle.ip_image.specs.Virtual.{RowsFit, placed, total};
ghost use Rattle.ip_space.specs.SpaceView.{AreBelow, IsReadable, byte_at, records_of};
ghost use Rattle.ip_space.specs.Scanning.{IsCurrent};
ghost use Rattle.ip_keep.specs.declared.fault.KeepFault.TheVariants as KeepFaultValue;
ghost use Rattle.ip_keep.specs.Faults.{counted_keep, IsUndamaged};
ghost use Rattle.ip_keep.specs.Going.{Goes, Blameless, Blames, Breaks, IsAlong, LooksOne, LooksOn};
ghost use Rattle.ip_keep.specs.Keeping.{IsBlamedKeep, IsBroken, IsKeep, IsThrough, IsKeeping, LeadsDown, LooksUpTo, SameWork, looked_in, lowest};
ghost use Rattle.ip_keep.specs.Runs.{AreHeld, FitRuns, joined, left_of};
ghost use Rattle.ip_keep.specs.Whole.{AreRecords};

use crate::enter::enter;
use crate::read::{next_record, record_below};
use crate::{KeepFault, Runs};
use ip_base::Memory;
use ip_ground::Ground;
use ip_image::run::Run;
use ip_space::{Scan, Space};
use std::alloc::Global;
use std::collections::BTreeSet;
use std::marker::Model;

/// The records that a collection keeps are found one by one: those from the horizon on are looked at in ascending order, and then those below it
/// that were referred to, the greatest first. No other record is read. Eight bytes and a tree's node are held for each that waits, and sixteen
/// bytes for each that is kept.
#[derive(Drop)]
pub struct Keep {
    alloc: Global,
    space: Space,
    horizon: u64,
    next: u64,
    seen: u64,
    waiting: BTreeSet<u64>,
    /// The greatest first.
    kept: Vec<Run>,
}

impl Model for Keep {
    ghost use Rattle.std.specs.Prelude.{reverse};
    ghost use Rattle.ip_keep.specs.KeepView.{KeepView};

    ghost Value = { KeepView };

    ghost view = { λ k. record { space = k.space; horizon = k.horizon; next = k.next; seen = k.seen; waiting = k.waiting.keys; kept = reverse k.kept.items } };
}

impl Keep {
    /// Nothing was looked at, of the records of a space up to its end. `horizon` is the offset of a record.
    pub fn new(alloc: Global, space: Space, horizon: u64) -> Keep
        requires inside { horizon ≤ space.layout.end }
        requires ends { space.layout.end ≤ OFFSET_MAX }
        ensures view { result ≡ record { space = space; horizon = horizon; next = horizon; seen = 0; waiting = []; kept = [] } }
        ensures keep { IsKeep result }
        ensures keeping { (image : Image) (records : Records) → AreRecords image space horizon records → IsKeeping records result }
        ensures sound { (records : ℕ → Option RecordValue) → LeadsDown records result }
    {
        Keep {
            alloc,
            space,
            horizon,
            next: horizon,
            seen: 0,
            waiting: BTreeSet::new(alloc),
            kept: Vec::new(alloc),
        }
    }

    /// Where records are read.
    pub fn space(&self) -> &Space
        ensures { result.now ≡ self.now.space }
    {
        &self.space
    }

    /// How many records were looked at.
    pub fn looked(&self) -> u64
        requires { IsKeep self.now }
        ensures looked { result ≡ looked_in self.now }
        ensures most { result ≤ 2 * OFFSET_MAX }
    {
        self.seen + self.kept.len() as u64
    }

    /// The bytes from the first record that was not looked at to the end, of those from the horizon on: 0 once all were.
    pub fn left(&self) -> u64
        requires { IsKeep self.now }
        ensures { result + self.now.next ≡ self.now.space.layout.end }
    {
        self.space.layout().end - self.next
    }

    /// Whether nothing is left to be looked at.
    pub fn is_through(&self) -> bool
        ensures { IsTrue result ↔ IsThrough self.now }
    {
        self.next == self.space.layout().end && self.waiting.is_empty()
    }

    /// Where the records lie that are kept, as far as they were looked at, the greatest first.
    pub fn kept(&self) -> &[Run]
        requires { IsKeep self.now }
        ensures kept { reverse result.now ≡ self.now.kept }
        ensures few { length result.now ≤ OFFSET_MAX }
        ensures total { total self.now.kept ≤ self.now.horizon }
        ensures inside { AreBelow self.now.horizon result.now }
    {
        &self.kept
    }

    /// The maximal runs of these, ascending.
    pub fn runs(&self) -> Runs<'_>
        requires { IsKeep self.now }
        ensures runs { left_of result ≡ self.now.kept }
        ensures fit { FitRuns (left_of result) }
        ensures rows { RowsFit self.now.horizon (placed 0 (joined self.now.kept)) }
        ensures total { total self.now.kept ≤ OFFSET_MAX }
        ensures few { length (joined self.now.kept) ≤ OFFSET_MAX }
    {
        Runs::of(&self.kept)
    }

    /// Looks at so many records more, or at all that are left, and says how many of `most` are left then. Records from the horizon on are read by
    /// long reads, and nothing that was read ahead is kept. After a fault it goes on where it was.
    pub fn advance<G: Ground>(&mut self, outside: &mut G, most: u64) -> Result<u64, KeepFault>
        requires { IsKeep self.old }
        ensures keep { IsKeep self.new }
        ensures work { SameWork self.old self.new }
        ensures looks { LooksUpTo most self.old self.new result }
        ensures readable { IsTrue G.tells → IsReadable (G.told outside.old) self.old.space → IsReadable (G.told outside.new) self.old.space }
        ensures keeping { IsTrue G.tells → IsReadable (G.told outside.old) self.old.space → (records : Records) → AreRecords (G.told outside.old).held self.old.space self.old.horizon records →
            IsKeeping records self.old → IsKeeping records self.new }
        // Over any files: no byte of what is kept is missing.
        ensures held { IsTrue G.tells → IsReadable (G.told outside.old) self.old.space → AreHeld (byte_at (G.told outside.old) self.old.space) self.old.kept →
            AreHeld (byte_at (G.told outside.new) self.old.space) self.new.kept }
        // And what each record refers to that was looked at lies below it.
        ensures sound { IsTrue G.tells → IsReadable (G.told outside.old) self.old.space → LeadsDown (records_of (G.told outside.old) self.old.space) self.old →
            LeadsDown (records_of (G.told outside.old) self.old.space) self.new }
        ensures undamaged { IsTrue G.tells → IsReadable (G.told outside.old) self.old.space → (records : Records) → AreRecords (G.told outside.old).held self.old.space self.old.horizon records →
            IsKeeping records self.old → IsUndamaged result }
        // Over any ground: damage is told of a record that was not looked at.
        ensures blames { (at : ℕ) → IsErrOf result (KeepFaultValue.Damaged at) → IsBlamedKeep self.new at }
        ensures broken { IsTrue G.tells → IsReadable (G.told outside.old) self.old.space → (at : ℕ) → IsErrOf result (KeepFaultValue.Damaged at) →
            IsBroken (records_of (G.told outside.old) self.old.space) self.new at }
        ensures only { IsTrue G.tells → ChangesOnly NoFile (G.told outside.old) (G.told outside.new) }
        ensures counts { Counts counted_keep result (G.counts_of outside.old) (G.counts_of outside.new) }
    {
        let left = match self.go_up(outside, most) {
            Ok(left) => left,
            Err(fault) => return Err(fault),
        };
        self.go_down(outside, left)
    }

    // Looks at records from the horizon on, by one walk. It says how many of `most` are left.
    fn go_up<G: Ground>(&mut self, outside: &mut G, most: u64) -> Result<u64, KeepFault>
        requires { IsKeep self.old }
        ensures goes { Goes G.tells (G.told outside.old) (G.told outside.new) self.old self.new }
        ensures looks { LooksOn most self.old self.new result }
        ensures undamaged { Blameless G.tells (G.told outside.old) self.old result }
        ensures blames { Blames result self.new }
        ensures broken { Breaks G.tells (G.told outside.old) self.old self.new result }
        ensures counts { Counts counted_keep result (G.counts_of outside.old) (G.counts_of outside.new) }
    {
        let end = self.space.layout().end;
        let mut scan = self.space.scan(self.next, end);
        let mut left = most;
        while left > 0 && self.next < end {
            match self.look_up(outside, &mut scan) {
                Ok(()) => {}
                Err(fault) => return Err(fault),
            }
            left -= 1;
        }
        Ok(left)
    }

    // Looks at the next record from the horizon on.
    fn look_up<G: Ground>(&mut self, outside: &mut G, scan: &mut Scan) -> Result<(), KeepFault>
        requires keep { IsKeep self.old }
        requires more { self.old.next < self.old.space.layout.end }
        requires along { IsAlong self.old scan.old }
        requires current { IsTrue G.tells → IsReadable (G.told outside.old) self.old.space → IsCurrent (G.told outside.old) self.old.space scan.old }
        ensures goes { Goes G.tells (G.told outside.old) (G.told outside.new) self.old self.new }
        ensures looks { LooksOne self.old self.new result }
        ensures along { OnOk result (IsAlong self.new scan.new) }
        ensures current { IsTrue G.tells → IsReadable (G.told outside.old) self.old.space → IsCurrent (G.told outside.new) self.old.space scan.new }
        ensures undamaged { Blameless G.tells (G.told outside.old) self.old result }
        ensures blames { Blames result self.new }
        ensures broken { Breaks G.tells (G.told outside.old) self.old self.new result }
        ensures counts { Counts counted_keep result (G.counts_of outside.old) (G.counts_of outside.new) }
    {
        let rec = match next_record(outside, &self.space, scan) {
            Ok(rec) => rec,
            Err(fault) => return Err(fault),
        };
        enter(&mut self.waiting, self.horizon, &rec)?;
        self.next = scan.next();
        self.seen += 1;
        Ok(())
    }

    // Looks at records that wait, once none is left from the horizon on. It says how many of `most` are left.
    fn go_down<G: Ground>(&mut self, outside: &mut G, most: u64) -> Result<u64, KeepFault>
        requires keep { IsKeep self.old }
        requires up { 0 < most → self.old.next ≡ self.old.space.layout.end }
        ensures goes { Goes G.tells (G.told outside.old) (G.told outside.new) self.old self.new }
        ensures looks { LooksUpTo most self.old self.new result }
        ensures undamaged { Blameless G.tells (G.told outside.old) self.old result }
        ensures blames { Blames result self.new }
        ensures broken { Breaks G.tells (G.told outside.old) self.old self.new result }
        ensures counts { Counts counted_keep result (G.counts_of outside.old) (G.counts_of outside.new) }
    {
        let mut left = most;
        while left > 0 && !self.waiting.is_empty() {
            match self.look_down(outside) {
                Ok(()) => {}
                Err(fault) => return Err(fault),
            }
            left -= 1;
        }
        Ok(left)
    }

    // Looks at the greatest that waits.
    fn look_down<G: Ground>(&mut self, outside: &mut G) -> Result<(), KeepFault>
        requires keep { IsKeep self.old }
        requires up { self.old.next ≡ self.old.space.layout.end }
        requires some { 0 < length self.old.waiting }
        ensures goes { Goes G.tells (G.told outside.old) (G.told outside.new) self.old self.new }
        ensures looks { LooksOne self.old self.new result }
        ensures up { self.new.next ≡ self.new.space.layout.end }
        ensures undamaged { Blameless G.tells (G.told outside.old) self.old result }
        ensures blames { Blames result self.new }
        ensures broken { Breaks G.tells (G.told outside.old) self.old self.new result }
        ensures counts { Counts counted_keep result (G.counts_of outside.old) (G.counts_of outside.new) }
    {
        let at = self.greatest();
        let below = self.lowest();
        let (rec, length) = match record_below(outside, &mut self.space, at, below) {
            Ok(found) => found,
            Err(fault) => return Err(fault),
        };
        enter(&mut self.waiting, at, &rec)?;
        self.keep(Run { at, length })?;
        Ok(())
    }

    // The greatest that waits.
    fn greatest(&self) -> u64
        requires { 0 < length self.now.waiting }
        ensures waits { Contains self.now.waiting result }
        ensures greatest { (at : ℕ) → Contains self.now.waiting at → at ≤ result }
    {
        match self.waiting.last() {
            Some(at) => *at,
            None => unreachable!(),
        }
    }

    // No record is looked at any more that ends above this.
    fn lowest(&self) -> u64
        ensures { result ≡ lowest self.now }
    {
        match self.kept.last() {
            Some(run) => run.at,
            None => self.horizon,
        }
    }

    // Keeps the greatest that waits.
    fn keep(&mut self, run: Run) -> Result<(), Memory>
        requires { (rest : List ℕ) × (self.old.waiting ≡ rest ++ run.at ∷ []) }
        ensures kept { OnOk result ((self.old.waiting ≡ self.new.waiting ++ run.at ∷ []) × (self.new ≡ record self.old { waiting = self.new.waiting; kept = run ∷ self.old.kept })) }
        ensures err { OnErr result (self.new ≡ self.old) }
    {
        self.kept.push(run)?;
        self.waiting.pop_last();
        Ok(())
    }
}
