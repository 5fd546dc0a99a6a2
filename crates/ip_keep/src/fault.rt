// What keeps the search from going on.
ghost use Rattle.std.specs.Prelude.{◌≡◌};

use ip_base::Memory;
use ip_ground::GroundFault;

/// Why no more records were looked at. `Ground` and `Memory` say nothing of the files, and the call may be made again.
#[derive(Clone, Copy, Debug, PartialEq, Eq)]
pub enum KeepFault {
    /// A call on the ground failed, as its counts show.
    Ground,
    /// At this offset stands no record, or one that goes over the next that is kept, or that refers to what does not lie below it: the files are
    /// not whole.
    Damaged(u64),
    /// Want of memory.
    Memory,
}

impl From<GroundFault> for KeepFault {
    ghost use Rattle.ip_keep.specs.declared.fault.KeepFault.TheVariants as KeepFault;

    ghost from_gives = { λ _ e. e ≡ KeepFault.Ground };

    fn from(_: GroundFault) -> Self {
        KeepFault::Ground
    }
}

impl From<Memory> for KeepFault {
    ghost use Rattle.ip_keep.specs.declared.fault.KeepFault.TheVariants as KeepFault;

    ghost from_gives = { λ _ e. e ≡ KeepFault.Memory };

    fn from(_: Memory) -> Self {
        KeepFault::Memory
    }
}
