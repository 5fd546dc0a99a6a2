// Whether the job's attempt is the one that the store reads from.
ghost use Rattle.std.specs.Prelude.{◌≡◌, IsTrue, IsOk, IsErrOf};
ghost use Rattle.ip_ground.specs.Counts.{Counts};
ghost use Rattle.ip_ground.specs.Told.{NoFile, ChangesOnly};
ghost use Rattle.ip_worker.specs.declared.fault.WorkFault.TheVariants as WorkFault;
ghost use Rattle.ip_worker.specs.Faults.{counted_work};
ghost use Rattle.ip_worker.specs.Working.{IsServed};

use crate::WorkFault;
use ip_control::{ControlFault, read_live};
use ip_ground::Ground;

// Refuses an attempt that the control file names as live: no store asks for it, and its pair is in use. Where no slot is live, or
// the live one cannot be read, none is named: whether that is damage is not for this call to say.
pub fn refuse_served<G: Ground>(attempt: u64, outside: &mut G) -> Result<(), WorkFault>
    ensures served { IsTrue G.tells → IsServed (G.told outside.old).held attempt → IsOk result → ⊥ }
    ensures damaged { IsTrue G.tells → IsErrOf result WorkFault.Damaged → IsServed (G.told outside.old).held attempt }
    ensures memory { IsErrOf result WorkFault.Memory → ⊥ }
    ensures only { IsTrue G.tells → ChangesOnly NoFile (G.told outside.old) (G.told outside.new) }
    ensures counts { Counts counted_work result (G.counts_of outside.old) (G.counts_of outside.new) }
{
    match read_live(outside) {
        Ok(Some((_, slot))) => refuse_live(attempt, slot.live, outside),
        Ok(None) => Ok(()),
        Err(ControlFault::Form(_)) => Ok(()),
        Err(ControlFault::Ground) => Err(WorkFault::Ground),
    }
}

// By the attempt that is live: a job that names it is damage, and is noted.
fn refuse_live<G: Ground>(attempt: u64, live: u64, outside: &mut G) -> Result<(), WorkFault>
    ensures served { IsOk result → live ≡ attempt → ⊥ }
    ensures damaged { IsErrOf result WorkFault.Damaged → live ≡ attempt }
    ensures whole { IsErrOf result WorkFault.Ground → ⊥ }
    ensures memory { IsErrOf result WorkFault.Memory → ⊥ }
    ensures only { IsTrue G.tells → ChangesOnly NoFile (G.told outside.old) (G.told outside.new) }
    ensures counts { Counts counted_work result (G.counts_of outside.old) (G.counts_of outside.new) }
{
    if live == attempt {
        outside.note_damage();
        return Err(WorkFault::Damaged);
    }
    Ok(())
}
