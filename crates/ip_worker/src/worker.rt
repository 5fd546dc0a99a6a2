// The child's work.
ghost use Rattle.std.specs.Prelude.{◌≡◌, IsTrue, IsErrOf};
ghost use Rattle.ip_ground.specs.Told.{NoFile, ChangesOnly};
ghost use Rattle.ip_spec.specs.TreeAt.{Records};
ghost use Rattle.ip_spawn.specs.Jobs.{IsValid as IsValidJob};
ghost use Rattle.ip_worker.specs.declared.fault.WorkFault.TheVariants as WorkFault;
ghost use Rattle.ip_worker.specs.Faults.{CountsWork};
ghost use Rattle.ip_worker.specs.Steps.{IsFree};
ghost use Rattle.ip_worker.specs.Whole.{AreWhole};
ghost use Rattle.ip_worker.specs.Working.{NothingLent, IsServed, WritesAttempt, Works, Refuses};

use crate::WorkFault;
use crate::attempt::{clear, write_done};
use crate::pair::write_pair;
use crate::search::find;
use crate::served::refuse_served;
use ip_ground::Ground;
use ip_spawn::Job;
use std::alloc::Global;

/// What a collection has kept.
#[derive(Clone, Copy, Debug, PartialEq, Eq)]
pub struct Counts {
    /// The records that are kept.
    pub records: u64,
    /// The bytes of the prefix.
    pub bytes: u64,
    /// The rows of the mapping.
    pub runs: u64,
}

/// Copies what the job's commit and all later ones need from below its horizon: the prefix and the mapping of its attempt are written and synced,
/// and then the done file. It reads what the job names and writes the attempt's three files alone; each record is read three times at most. No file is
/// changed before all records were found and the control file was seen not to name the attempt as live, which is damage of the job. What was there
/// of the attempt goes then.
pub fn collect<G: Ground>(alloc: Global, job: &Job, outside: &mut G) -> Result<Counts, WorkFault>
    requires { IsValidJob job.now }
    ensures works { IsTrue G.tells → (records : Records) → AreWhole (G.told outside.old).held job.now records → NothingLent (G.told outside.old) →
        ¬ IsServed (G.told outside.old).held job.now.attempt → Works records job.now result (G.told outside.old) (G.told outside.new) }
    ensures served { IsTrue G.tells → IsServed (G.told outside.old).held job.now.attempt → Refuses result (G.told outside.old) (G.told outside.new) }
    ensures spared { IsTrue G.tells → NothingLent (G.told outside.old) → IsErrOf result WorkFault.Damaged → ChangesOnly NoFile (G.told outside.old) (G.told outside.new) }
    ensures only { IsTrue G.tells → IsFree (G.told outside.old) job.now.attempt → WritesAttempt job.now (G.told outside.old) (G.told outside.new) }
    ensures counts { CountsWork result (G.counts_of outside.old) (G.counts_of outside.new) }
{
    let keep = match find(alloc, job, outside) {
        Ok(keep) => keep,
        Err(fault) => return Err(fault),
    };
    match refuse_served(job.attempt, outside) {
        Ok(()) => {}
        Err(fault) => return Err(fault),
    }
    match clear(outside, job.attempt) {
        Ok(()) => {}
        Err(_) => return Err(WorkFault::Ground),
    }
    let counts = match write_pair(alloc, job, outside, &keep) {
        Ok(counts) => counts,
        Err(fault) => return Err(fault),
    };
    match write_done(outside, job.attempt) {
        Ok(()) => Ok(counts),
        Err(_) => Err(WorkFault::Ground),
    }
}
