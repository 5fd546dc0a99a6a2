// Cancelling a collection: its child is killed, unless it was reaped before, and what it left is swept away.
ghost use Rattle.std.specs.Prelude.{◌≡◌, false, Option, Some, None, Ok, IsTrue, IsSome, IsErrOf, is_some, not};
ghost use Rattle.ip_base.specs.declared.exit.Reaped.{Reaped};
ghost use Rattle.ip_spawn.specs.Children.{told_after};
ghost use Rattle.ip_spawn.specs.Counts as spawn;
ghost use Rattle.ip_spec.specs.Repository.{Repository};
ghost use Rattle.ip_collects.specs.Cancelling.{CancelsCollecting, IsKilled, CountsCancel};
ghost use Rattle.ip_held.specs.Collecting.{child_of};
ghost use Rattle.ip_held.specs.Held.{IsOf};
ghost use Rattle.ip_collects.specs.declared.cancelling.CancelFault.TheVariants as CancelFault;
ghost use Rattle.ip_collects.specs.declared.cancelling.Cancelled.TheVariants as Cancelled;
ghost use Rattle.ip_held.specs.declared.collection.Collection.{Collection};

use crate::sweeping::sweep;
use ip_ground::{Ground, GroundFault};
use ip_held::{Held, nothing_met};
use ip_spawn::Spawner;
use ip_spec::met::Met;

/// How a collection was cancelled.
#[derive(Clone, Copy, Debug, PartialEq, Eq)]
pub enum Cancelled {
    /// Its child has ended.
    Done,
    /// Its child could not be killed, as the spawner's counts show, and may go on; what it writes counts for nothing.
    Orphan,
}

/// Why none was cancelled.
#[derive(Clone, Copy, Debug, PartialEq, Eq)]
pub enum CancelFault {
    /// None runs.
    Idle,
    /// A call on the ground failed: what the files hold is known again once the store is opened anew.
    Ground,
}

impl From<GroundFault> for CancelFault {
    ghost use Rattle.ip_collects.specs.declared.cancelling.CancelFault.TheVariants as CancelFault;

    ghost from_gives = { λ _ e. e ≡ CancelFault.Ground };

    fn from(_: GroundFault) -> Self {
        CancelFault::Ground
    }
}

/// Gives the collection up that runs: its child is killed, and the files of its attempt are removed, with all others that nobody needs. It takes no memory. What was met is put into `met`: whether
/// the kill failed, and how many removals did. After `Ground` the store may not be used any more.
pub fn cancel<G: Ground, P: Spawner>(
    store: &mut Held,
    met: &mut Met,
    outside: &mut G,
    spawner: &mut P,
) -> Result<Cancelled, CancelFault>
    requires tables { (r : Repository) × IsOf store.old r }
    requires child { P.held spawner.old ≡ child_of store.old.collection }
    ensures cancels { CancelsCollecting G.tells result met.new store.old store.new (G.told outside.old) (G.told outside.new) }
    ensures child { P.held spawner.new ≡ None }
    ensures idle { IsErrOf result CancelFault.Idle → (outside.new ≡ outside.old) × (spawner.new ≡ spawner.old) }
    ensures orphan { result ≡ Ok Cancelled.Orphan → outside.new ≡ outside.old }
    // A child that was reaped before needs no kill.
    ensures kept { (c : Collection) → store.old.collection ≡ Some c → IsSome c.exit → spawner.new ≡ spawner.old }
    ensures killed { (c : Collection) → store.old.collection ≡ Some c → c.exit ≡ None → (end : Option Reaped) × IsKilled c result end
        × (IsTrue P.tells → P.told spawner.new ≡ told_after end (P.told spawner.old)) × spawn.Counts false false (is_some end) (not (is_some end)) (P.counts_of spawner.old) (P.counts_of spawner.new) }
    ensures counts { CountsCancel result met.new.left (G.counts_of outside.old) (G.counts_of outside.new) }
{
    *met = nothing_met();
    let Some(collection) = store.collection.take() else {
        return Err(CancelFault::Idle);
    };
    let reaped = match collection.exit {
        Some(reaped) => reaped,
        None => match spawner.kill() {
            Ok(reaped) => reaped,
            Err(_) => {
                *met = Met {
                    kill_failed: true,
                    ..nothing_met()
                };
                return Ok(Cancelled::Orphan);
            }
        },
    };
    outside.settle(collection.job.attempt, &reaped)?;
    let left = sweep(store, outside);
    *met = Met {
        left,
        ..nothing_met()
    };
    Ok(Cancelled::Done)
}
