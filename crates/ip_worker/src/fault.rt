// What keeps a collection from being written.
ghost use Rattle.std.specs.Prelude.{◌≡◌};

use ip_base::Memory;
use ip_ground::GroundFault;

/// Why the files of a collection were not written. They may be there in part.
#[derive(Clone, Copy, Debug, PartialEq, Eq)]
pub enum WorkFault {
    /// A call on the ground failed, as its counts show.
    Ground,
    /// The files that the job names are not whole.
    Damaged,
    /// Want of memory.
    Memory,
}

impl From<GroundFault> for WorkFault {
    ghost use Rattle.ip_worker.specs.declared.fault.WorkFault.TheVariants as WorkFault;

    ghost from_gives = { λ _ e. e ≡ WorkFault.Ground };

    fn from(_: GroundFault) -> Self {
        WorkFault::Ground
    }
}

impl From<Memory> for WorkFault {
    ghost use Rattle.ip_worker.specs.declared.fault.WorkFault.TheVariants as WorkFault;

    ghost from_gives = { λ _ e. e ≡ WorkFault.Memory };

    fn from(_: Memory) -> Self {
        WorkFault::Memory
    }
}
