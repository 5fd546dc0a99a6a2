// The attempt's files as a whole: what was there goes, and the done file comes last.
ghost use Rattle.std.specs.Prelude.{◌≡◌, None, IsTrue};
ghost use Rattle.ip_ground.specs.declared.names.FileName.TheVariants.{Done};
ghost use Rattle.ip_ground.specs.Counts.{CountsAs, FileFault, RemoveFault};
ghost use Rattle.ip_worker.specs.Steps.{IsFree, Clears, SyncsPair, Ends};

use ip_ground::{FileName, Ground, GroundFault};

/// What the done file holds.
const DONE: &[u8] = b"IPDONE01";

// Removes what is there of the attempt, so that nothing stands behind what is written. The done file goes first.
pub fn clear<G: Ground>(outside: &mut G, attempt: u64) -> Result<(), GroundFault>
    ensures clears { IsTrue G.tells → IsFree (G.told outside.old) attempt → Clears attempt result (G.told outside.old) (G.told outside.new) }
    ensures counts { CountsAs RemoveFault result (G.counts_of outside.old) (G.counts_of outside.new) }
{
    outside.remove(FileName::Done(attempt))?;
    outside.remove(FileName::Mapping(attempt))?;
    outside.remove(FileName::Prefix(attempt))?;
    Ok(())
}

// Makes what was written of the pair durable.
pub fn sync_pair<G: Ground>(outside: &mut G, attempt: u64) -> Result<(), GroundFault>
    ensures syncs { IsTrue G.tells → IsFree (G.told outside.old) attempt → SyncsPair attempt result (G.told outside.old) (G.told outside.new) }
    ensures counts { CountsAs FileFault result (G.counts_of outside.old) (G.counts_of outside.new) }
{
    outside.sync(FileName::Prefix(attempt))?;
    outside.sync(FileName::Mapping(attempt))?;
    Ok(())
}

// Says that the attempt is through.
pub fn write_done<G: Ground>(outside: &mut G, attempt: u64) -> Result<(), GroundFault>
    ensures ends { IsTrue G.tells → IsFree (G.told outside.old) attempt → (G.told outside.old).held (Done attempt) ≡ None →
        Ends attempt result (G.told outside.old) (G.told outside.new) }
    ensures counts { CountsAs FileFault result (G.counts_of outside.old) (G.counts_of outside.new) }
{
    outside.write(FileName::Done(attempt), 0, DONE)?;
    outside.sync(FileName::Done(attempt))?;
    Ok(())
}
