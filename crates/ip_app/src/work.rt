// What the child of a collection is started for.
ghost use Rattle.std.specs.Prelude.{◌≡◌, IsTrue};
ghost use Rattle.ip_ground.specs.Counts.{NoneFalls};
ghost use Rattle.ip_spawn.specs.Jobs.{IsValid as IsValidJob};
ghost use Rattle.ip_worker.specs.Steps.{IsFree};
ghost use Rattle.ip_worker.specs.Working.{WritesAttempt};
ghost use Rattle.ip_app.specs.Outside.{IsBound};
ghost use Rattle.ip_app.specs.Working.{worked_status, WorksAs, CountsWorking};

use crate::statuses::Status;
use ip_ground::Ground;
use ip_spawn::Job;
use ip_worker::{Counts, WorkFault, collect};
use std::alloc::Global;

// How a call ends that has collected.
fn worked_status(worked: Result<Counts, WorkFault>) -> Status
    ensures { result ≡ worked_status worked }
{
    match worked {
        Ok(_) => Status::Done,
        Err(WorkFault::Ground) => Status::GroundFault,
        Err(WorkFault::Damaged) => Status::DamagedJob,
        Err(WorkFault::Memory) => Status::Memory,
    }
}

/// Binds the folder and does a collection's job in it: the pair of its attempt is written and synced, and then its done file.
pub fn work<G: Ground>(alloc: Global, folder: &str, job: &Job, ground: &mut G) -> Status
    requires { IsValidJob job.now }
    ensures only { IsTrue G.tells → IsFree (G.told ground.old) job.now.attempt → WritesAttempt job.now (G.told ground.old) (G.told ground.new) }
    ensures works { WorksAs G.tells job.now (G.told ground.old) (G.told ground.new) result }
    ensures counted { CountsWorking result (G.counts_of ground.old) (G.counts_of ground.new) }
    ensures bound { IsBound folder.now result (G.counts_of ground.old) (G.counts_of ground.new) }
    ensures counts { NoneFalls (G.counts_of ground.old) (G.counts_of ground.new) }
{
    // A count's range is that of its type, so one that stands at its last value has not fallen.
    let _counts = ground.counts();
    if ground.attach(folder).is_err() {
        return Status::GroundFault;
    }
    worked_status(collect(alloc, job, ground))
}
