// The check of what a collection wrote.
ghost use Rattle.std.specs.Prelude.{◌≡◌, ◌≢◌, ℕ, ◌+◌, ◌≤◌, ◌<◌, length, Option, Some, None, IsTrue, IsOk, IsErr, IsErrOf, IfOk, IfSome, IfNone};
ghost use Rattle.ip_base.specs.declared.limit.TheConstants.{OFFSET_MAX};
ghost use Rattle.ip_ground.specs.Contents.{Image};
ghost use Rattle.ip_ground.specs.Counts.{Counts};
ghost use Rattle.ip_ground.specs.Told.{NoFile, ChangesOnly};
ghost use Rattle.ip_spec.specs.TreeAt.{Records};
ghost use Rattle.ip_spawn.specs.Jobs.{IsValid as IsValidJob};
ghost use Rattle.ip_image.specs.Collection.{Found, found_in};
ghost use Rattle.ip_image.specs.Virtual.{RowsFit, placed, total};
ghost use Rattle.ip_space.specs.SpaceView.{IsReadable, byte_at};
ghost use Rattle.ip_keep.specs.Runs.{AreHeld, FitRuns, joined, left_of};
ghost use Rattle.ip_keep.specs.Whole.{AreRecords};
ghost use Rattle.ip_check.specs.declared.check.Stage.TheVariants as Stage;
ghost use Rattle.ip_check.specs.declared.check.Outcome.TheVariants as Outcome;
ghost use Rattle.ip_check.specs.declared.fault.CheckFault.TheVariants as CheckFaultValue;
ghost use Rattle.ip_keep.specs.declared.fault.KeepFault.TheVariants as KeepFaultValue;
ghost use Rattle.ip_keep.specs.Faults.{counted_keep};
ghost use Rattle.ip_spec.specs.declared.reply.Difference.{Difference as DifferenceValue};
ghost use Rattle.ip_check.specs.Faults.{counted_check, IsUndamaged};
ghost use Rattle.ip_check.specs.Going.{Blames, Breaks, Goes, HasNext, HasStood, IsOpen, KeepsTrue, next_stage as next_stage_of};
ghost use Rattle.ip_check.specs.Checking.{Advances, IsBlamed, IsBrokenIn, IsCheck, IsChecking, IsFixed, IsSpaceOf, Says, SameCheck, begun, compared_since, looked_by};

use crate::CheckFault;
use crate::compare::compare_end;
use crate::mapping::compare_mapping;
use crate::prefix::{compare_stretch, stretch_from};
use ip_base::Memory;
use ip_ground::{FileName, Ground};
use ip_keep::{Keep, KeepFault, Runs};
use ip_space::Space;
use ip_spawn::Job;
use ip_spec::reply::{Difference, Produced};
use std::alloc::Global;
use std::marker::Model;

/// What a slice of a check ends with.
#[derive(Clone, Copy, Debug, PartialEq, Eq)]
pub enum Outcome {
    /// As many records were looked at as were asked for, and more is to be done.
    More,
    /// The files are the valid pair.
    Valid,
    /// They are not: the first place at which they differ, the mapping before the prefix.
    Differs(Difference),
}

/// How far a check is.
#[derive(Clone, Copy, Debug, PartialEq, Eq)]
pub enum Stage {
    /// What is kept is still being found.
    Keeping,
    /// The mapping is the valid one, and the prefix is up to this place, in bytes.
    Comparing(u64),
    /// The verdict is there: the first difference, or none.
    Through(Option<Difference>),
}

/// The check whether the files of an attempt are what a collection has to write: what is kept is found, the mapping compared with it, and then the
/// prefix, by stretches of records. It holds what the search for them holds, and while it compares twice a mebibyte, or twice the record where
/// that is longer: nothing of the size of the files.
#[derive(Drop)]
pub struct Check {
    alloc: Global,
    job: Job,
    keep: Keep,
    stage: Stage,
    /// How many of the kept records were compared with the prefix.
    compared: usize,
}

impl Model for Check {
    ghost use Rattle.ip_check.specs.CheckView.{CheckView};

    ghost Value = { CheckView };

    ghost view = { λ c. record { job = c.job; keep = c.keep; stage = c.stage; compared = c.compared } };
}

impl Check {
    /// The check of the files of a job's attempt, over the records of a space up to the job's end. What it needs of the space is copied.
    pub fn new(alloc: Global, job: &Job, space: &Space) -> Result<Check, Memory>
        requires job { IsValidJob job.now }
        requires space { IsSpaceOf job.now space.now }
        ensures begun { IfOk result (λ c. c ≡ begun job.now space.now) }
        ensures check { IfOk result IsCheck }
        ensures checking { IfOk result (λ c. (image : Image) (records : Records) (found : Found) → AreRecords image c.keep.space c.keep.horizon records → IsChecking records found c) }
    {
        let space = space.copy_up_to(job.end)?;
        let keep = Keep::new(alloc, space, job.horizon);
        Ok(Check {
            alloc,
            job: *job,
            keep,
            stage: Stage::Keeping,
            compared: 0,
        })
    }

    /// How many records were looked at: each from the horizon on once, each that is kept twice.
    pub fn looked(&self) -> u64
        requires { IsCheck self.now }
        ensures { result ≡ looked_by self.now }
    {
        self.keep.looked() + self.compared as u64
    }

    /// The bytes from the first record that was not looked at to the end, of those from the horizon on: 0 once all were.
    pub fn left(&self) -> u64
        requires { IsCheck self.now }
        ensures { result + self.now.keep.next ≡ self.now.job.end }
    {
        self.keep.left()
    }

    /// The maximal runs of the records that are kept, ascending: once the verdict is there, all of them.
    pub fn runs(&self) -> Runs<'_>
        requires { IsCheck self.now }
        ensures runs { left_of result ≡ self.now.keep.kept }
        ensures fit { FitRuns (left_of result) }
        ensures rows { RowsFit self.now.job.horizon (placed 0 (joined self.now.keep.kept)) }
        ensures total { total self.now.keep.kept ≤ OFFSET_MAX }
        ensures few { length (joined self.now.keep.kept) ≤ OFFSET_MAX }
    {
        self.keep.runs()
    }

    /// Looks at up to so many records, one at least, and says what comes of it; `More` where so many were looked at and it is not through. Nothing
    /// that was read ahead is kept for the next slice. After a fault it goes on where it was.
    pub fn advance<G: Ground>(&mut self, outside: &mut G, most: u64) -> Result<Outcome, CheckFault>
        requires some { 1 ≤ most }
        requires check { IsCheck self.old }
        ensures check { IsCheck self.new }
        ensures same { SameCheck self.old self.new }
        ensures advances { Advances most self.old self.new result }
        ensures checking { IsTrue G.tells → IsReadable (G.told outside.old) self.old.keep.space → IsFixed (G.told outside.old) self.old.job →
            (records : Records) → AreRecords (G.told outside.old).held self.old.keep.space self.old.keep.horizon records →
            IsChecking records (found_in (G.told outside.old).held self.old.job.attempt) self.old → IsChecking records (found_in (G.told outside.old).held self.old.job.attempt) self.new }
        ensures says { IsTrue G.tells → IsReadable (G.told outside.old) self.old.keep.space → IsFixed (G.told outside.old) self.old.job →
            (records : Records) → AreRecords (G.told outside.old).held self.old.keep.space self.old.keep.horizon records →
            IsChecking records (found_in (G.told outside.old).held self.old.job.attempt) self.old → Says records self.old.job (found_in (G.told outside.old).held self.old.job.attempt) result }
        ensures undamaged { IsTrue G.tells → IsReadable (G.told outside.old) self.old.keep.space → IsFixed (G.told outside.old) self.old.job →
            (records : Records) → AreRecords (G.told outside.old).held self.old.keep.space self.old.keep.horizon records →
            IsChecking records (found_in (G.told outside.old).held self.old.job.attempt) self.old → IsUndamaged result }
        // Over any ground: which record damage is told of.
        ensures blames { (at : ℕ) → IsErrOf result (CheckFaultValue.Damaged at) → IsBlamed self.new at }
        // Over any files: what is wrong with it, and that no byte is missing of what was compared, whatever came of it.
        ensures broken { IsTrue G.tells → IsReadable (G.told outside.old) self.old.keep.space → (at : ℕ) → IsErrOf result (CheckFaultValue.Damaged at) → IsBrokenIn (G.told outside.old) self.new at }
        ensures stood { IsTrue G.tells → IsReadable (G.told outside.old) self.old.keep.space → AreHeld (byte_at (G.told outside.old) self.old.keep.space) (compared_since self.old self.new) }
        // Behind a fault there is no verdict.
        ensures unsaid { IsErr result → IsOpen self.new.stage }
        // A verdict that is there is told again: that takes no memory.
        ensures through { (told : Option DifferenceValue) → self.old.stage ≡ Stage.Through told → IsOk result }
        ensures only { IsTrue G.tells → ChangesOnly NoFile (G.told outside.old) (G.told outside.new) }
        ensures counts { Counts counted_check result (G.counts_of outside.old) (G.counts_of outside.new) }
    {
        let left = match self.find(outside, most) {
            Ok(left) => left,
            Err(fault) => return Err(fault),
        };
        match self.compare_prefix(outside, left) {
            Ok(()) => Ok(self.outcome()),
            Err(fault) => Err(fault),
        }
    }

    // What the stage says.
    fn outcome(&self) -> Outcome
        ensures more { result ≡ Outcome.More → IsOpen self.now.stage }
        ensures valid { result ≡ Outcome.Valid → self.now.stage ≡ Stage.Through None }
        ensures differs { (found : DifferenceValue) → result ≡ Outcome.Differs found → self.now.stage ≡ Stage.Through (Some found) }
    {
        match self.stage {
            Stage::Through(None) => Outcome::Valid,
            Stage::Through(Some(difference)) => Outcome::Differs(difference),
            _ => Outcome::More,
        }
    }

    // Looks for what is kept. Once all of it is found the mapping is compared. It says how many looks are left.
    fn find<G: Ground>(&mut self, outside: &mut G, most: u64) -> Result<u64, CheckFault>
        requires check { IsCheck self.old }
        ensures goes { Goes most self.old self.new }
        ensures uncompared { self.new.compared ≡ self.old.compared }
        ensures left { IfOk result (λ left. (looked_by self.new + left ≡ looked_by self.old + most) × (left ≤ most) × (self.new.stage ≡ Stage.Keeping → left ≡ 0)) }
        ensures blames { Blames result self.new }
        ensures broken { IsTrue G.tells → Breaks (G.told outside.old) self.old self.new result }
        ensures unsaid { IsErr result → IsOpen self.new.stage }
        ensures stood { IsTrue G.tells → HasStood (G.told outside.old) self.old self.new }
        ensures through { (told : Option DifferenceValue) → self.old.stage ≡ Stage.Through told → IsOk result × (self.new.stage ≡ Stage.Through told) }
        ensures keeps { IsTrue G.tells → KeepsTrue (G.told outside.old) self.old self.new result }
        ensures only { IsTrue G.tells → ChangesOnly NoFile (G.told outside.old) (G.told outside.new) }
        ensures counts { Counts counted_check result (G.counts_of outside.old) (G.counts_of outside.new) }
    {
        let Stage::Keeping = self.stage else {
            return Ok(most);
        };
        let left = match self.keep.advance(outside, most) {
            Ok(left) => left,
            Err(fault) => return Err(fault_of(fault)),
        };
        if !self.keep.is_through() {
            return Ok(left);
        }
        let found = match compare_mapping(self.alloc, outside, &self.job, self.keep.runs()) {
            Ok(found) => found,
            Err(fault) => return Err(fault),
        };
        self.stage = next_stage(found, 0);
        Ok(left)
    }

    // Compares the prefix with up to so many records, and with its end behind the last one.
    fn compare_prefix<G: Ground>(&mut self, outside: &mut G, most: u64) -> Result<(), CheckFault>
        requires check { IsCheck self.old }
        requires found { self.old.stage ≡ Stage.Keeping → most ≡ 0 }
        ensures goes { Goes most self.old self.new }
        ensures keep { self.new.keep ≡ self.old.keep }
        ensures all { IfOk result (λ _. IsOpen self.new.stage → looked_by self.new ≡ looked_by self.old + most) }
        ensures blames { Blames result self.new }
        ensures broken { IsTrue G.tells → Breaks (G.told outside.old) self.old self.new result }
        ensures unsaid { IsErr result → IsOpen self.new.stage }
        ensures stood { IsTrue G.tells → HasStood (G.told outside.old) self.old self.new }
        ensures through { (told : Option DifferenceValue) → self.old.stage ≡ Stage.Through told → IsOk result }
        ensures keeps { IsTrue G.tells → KeepsTrue (G.told outside.old) self.old self.new result }
        ensures only { IsTrue G.tells → ChangesOnly NoFile (G.told outside.old) (G.told outside.new) }
        ensures counts { Counts counted_check result (G.counts_of outside.old) (G.counts_of outside.new) }
    {
        let mut left = most;
        while let Some(place) = self.next_place(left) {
            let count = match self.compare_next(outside, place, left) {
                Ok(count) => count,
                Err(fault) => return Err(fault),
            };
            left -= count;
        }
        self.compare_last(outside)
    }

    // The place in the prefix of the next record, where one is to be compared and may be looked at.
    fn next_place(&self, most: u64) -> Option<u64>
        requires check { IsCheck self.now }
        ensures some { IfSome result (HasNext most self.now) }
        ensures none { IfNone result ((place : ℕ) → ¬ HasNext most self.now place) }
    {
        match self.stage {
            Stage::Comparing(place) if most > 0 && self.compared < self.keep.kept().len() => {
                Some(place)
            }
            _ => None,
        }
    }

    // Compares the next records, which lie end to end, and says how many.
    fn compare_next<G: Ground>(
        &mut self,
        outside: &mut G,
        place: u64,
        most: u64,
    ) -> Result<u64, CheckFault>
        requires check { IsCheck self.old }
        requires next { HasNext most self.old place }
        ensures goes { Goes most self.old self.new }
        ensures keep { self.new.keep ≡ self.old.keep }
        ensures some { IfOk result (λ count. (1 ≤ count) × (count ≤ most) × (looked_by self.new ≡ looked_by self.old + count)) }
        ensures stage { self.new.stage ≢ Stage.Keeping }
        ensures blames { Blames result self.new }
        ensures broken { IsTrue G.tells → Breaks (G.told outside.old) self.old self.new result }
        ensures unsaid { IsErr result → IsOpen self.new.stage }
        ensures stood { IsTrue G.tells → HasStood (G.told outside.old) self.old self.new }
        ensures keeps { IsTrue G.tells → KeepsTrue (G.told outside.old) self.old self.new result }
        ensures only { IsTrue G.tells → ChangesOnly NoFile (G.told outside.old) (G.told outside.new) }
        ensures counts { Counts counted_check result (G.counts_of outside.old) (G.counts_of outside.new) }
    {
        let stretch = stretch_from(self.keep.kept(), self.compared, most);
        let space = self.keep.space();
        let file = FileName::Prefix(self.job.attempt);
        let found = match compare_stretch(self.alloc, outside, space, file, place, &stretch) {
            Ok(found) => found,
            Err(fault) => return Err(fault),
        };
        self.compared += stretch.records;
        self.stage = next_stage(found, place + stretch.length);
        Ok(stretch.records as u64)
    }

    // Behind the last record the prefix is to end.
    fn compare_last<G: Ground>(&mut self, outside: &mut G) -> Result<(), CheckFault>
        requires check { IsCheck self.old }
        ensures goes { Goes 0 self.old self.new }
        ensures same { IsOpen self.new.stage → self.new ≡ self.old }
        ensures keep { (self.new.keep ≡ self.old.keep) × (self.new.compared ≡ self.old.compared) }
        ensures blames { Blames result self.new }
        ensures broken { IsTrue G.tells → Breaks (G.told outside.old) self.old self.new result }
        ensures unsaid { IsErr result → IsOpen self.new.stage }
        ensures stood { IsTrue G.tells → HasStood (G.told outside.old) self.old self.new }
        ensures through { (told : Option DifferenceValue) → self.old.stage ≡ Stage.Through told → IsOk result }
        ensures all { IfOk result (λ _. (place : ℕ) → self.new.stage ≡ Stage.Comparing place → self.new.compared < length self.new.keep.kept) }
        ensures keeps { IsTrue G.tells → KeepsTrue (G.told outside.old) self.old self.new result }
        ensures only { IsTrue G.tells → ChangesOnly NoFile (G.told outside.old) (G.told outside.new) }
        ensures counts { Counts counted_check result (G.counts_of outside.old) (G.counts_of outside.new) }
    {
        let Stage::Comparing(place) = self.stage else {
            return Ok(());
        };
        if self.compared < self.keep.kept().len() {
            return Ok(());
        }
        let file = FileName::Prefix(self.job.attempt);
        let found = compare_end(outside, file, Produced::Prefix, place)?;
        self.stage = Stage::Through(found);
        Ok(())
    }
}

// The verdict where a difference was found, else the place up to which there is none.
fn next_stage(found: Option<Difference>, place: u64) -> Stage
    ensures { result ≡ next_stage_of found place }
{
    match found {
        Some(_) => Stage::Through(found),
        None => Stage::Comparing(place),
    }
}

// The fault of the search, as one of the check.
fn fault_of(fault: KeepFault) -> CheckFault
    ensures ground { counted_check result ≡ counted_keep fault }
    ensures damaged { (at : ℕ) → result ≡ CheckFaultValue.Damaged at → fault ≡ KeepFaultValue.Damaged at }
{
    match fault {
        KeepFault::Ground => CheckFault::Ground,
        KeepFault::Damaged(at) => CheckFault::Damaged(at),
        KeepFault::Memory => CheckFault::Memory,
    }
}
