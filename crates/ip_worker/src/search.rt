// What the job keeps.
ghost use Rattle.std.specs.Prelude.{◌≡◌, List, IsTrue, IfOk};
ghost use Rattle.ip_ground.specs.Counts.{Counts};
ghost use Rattle.ip_ground.specs.Told.{NoFile, ChangesOnly};
ghost use Rattle.ip_spec.specs.TreeAt.{Records};
ghost use Rattle.ip_spawn.specs.Jobs.{IsValid as IsValidJob};
ghost use Rattle.ip_image.specs.declared.run.Row.{Row};
ghost use Rattle.ip_image.specs.Standing.{Generation};
ghost use Rattle.ip_image.specs.Virtual.{RowsFit, placed};
ghost use Rattle.ip_space.specs.SpaceView.{IsReadable, byte_at};
ghost use Rattle.ip_keep.specs.Keeping.{IsKeep};
ghost use Rattle.ip_keep.specs.Runs.{AreHeld, joined};
ghost use Rattle.ip_worker.specs.Faults.{counted_work};
ghost use Rattle.ip_worker.specs.Steps.{IsFor, Opens, Finds};
ghost use Rattle.ip_worker.specs.Whole.{AreWhole, layout_of_job};
ghost use Rattle.ip_worker.specs.Working.{NothingLent};

use crate::WorkFault;
use ip_base::Memory;
use ip_ground::Ground;
use ip_keep::{Keep, KeepFault, Run};
use ip_space::{Layout, Space, SpaceFault};
use ip_spawn::Job;
use std::alloc::Global;

// The records that are kept, all of them found.
pub fn find<G: Ground>(alloc: Global, job: &Job, outside: &mut G) -> Result<Keep, WorkFault>
    requires { IsValidJob job.now }
    ensures job { IfOk result (λ keep. IsFor job.now keep) }
    ensures finds { IsTrue G.tells → NothingLent (G.told outside.old) → (records : Records) → AreWhole (G.told outside.old).held job.now records →
        Finds records (G.told outside.new).held result }
    ensures readable { IsTrue G.tells → NothingLent (G.told outside.old) → IfOk result (λ keep. IsReadable (G.told outside.new) keep.space) }
    // Over any files: no byte of what is kept is missing.
    ensures held { IsTrue G.tells → NothingLent (G.told outside.old) → IfOk result (λ keep. AreHeld (byte_at (G.told outside.new) keep.space) keep.kept) }
    ensures only { IsTrue G.tells → ChangesOnly NoFile (G.told outside.old) (G.told outside.new) }
    ensures counts { Counts counted_work result (G.counts_of outside.old) (G.counts_of outside.new) }
{
    let space = match open(alloc, job, outside) {
        Ok(space) => space,
        Err(fault) => return Err(fault),
    };
    let mut keep = Keep::new(alloc, space, job.horizon);
    match keep.advance(outside, u64::MAX) {
        Ok(_) => Ok(keep),
        Err(KeepFault::Ground) => Err(WorkFault::Ground),
        Err(KeepFault::Damaged(_)) => Err(WorkFault::Damaged),
        Err(KeepFault::Memory) => Err(WorkFault::Memory),
    }
}

// Where the job's records lie.
fn open<G: Ground>(alloc: Global, job: &Job, outside: &mut G) -> Result<Space, WorkFault>
    requires { IsValidJob job.now }
    ensures layout { IfOk result (λ space. space.layout ≡ layout_of_job job.now) }
    ensures opens { IsTrue G.tells → NothingLent (G.told outside.old) → (rows : List Row) → Generation (G.told outside.old).held (layout_of_job job.now) rows →
        Opens job.now rows result }
    ensures readable { IsTrue G.tells → NothingLent (G.told outside.old) → IfOk result (λ space. IsReadable (G.told outside.new) space) }
    ensures only { IsTrue G.tells → ChangesOnly NoFile (G.told outside.old) (G.told outside.new) }
    ensures counts { Counts counted_work result (G.counts_of outside.old) (G.counts_of outside.new) }
{
    let layout = Layout {
        chunk: job.chunk,
        horizon: job.old_horizon,
        end: job.end,
        live: job.live,
        prefix_len: job.prefix_len,
        rows: job.rows,
    };
    match Space::of(alloc, outside, layout) {
        Ok(space) => Ok(space),
        Err(SpaceFault::Ground) => Err(WorkFault::Ground),
        Err(SpaceFault::Damaged { .. }) => Err(WorkFault::Damaged),
        Err(SpaceFault::Memory) => Err(WorkFault::Memory),
    }
}

// The runs that the records lie in, ascending.
pub fn list_runs(alloc: Global, keep: &Keep) -> Result<Vec<Run>, Memory>
    requires { IsKeep keep.now }
    ensures runs { IfOk result (λ list. list.items ≡ joined keep.now.kept) }
    ensures rows { RowsFit keep.now.horizon (placed 0 (joined keep.now.kept)) }
{
    let mut runs = keep.runs();
    let mut list = Vec::new(alloc);
    while let Some(run) = runs.take_run() {
        list.push(run)?;
    }
    Ok(list)
}
