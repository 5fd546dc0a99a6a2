// What keeps a check from going on.
ghost use Rattle.std.specs.Prelude.{◌≡◌};

use ip_base::Memory;
use ip_ground::GroundFault;

/// Why a check did not go on. `Ground` and `Memory` say nothing of the files, and the call may be made again.
#[derive(Clone, Copy, Debug, PartialEq, Eq)]
pub enum CheckFault {
    /// A call on the ground failed, as its counts show.
    Ground,
    /// At this offset of the store stands no record, or one that goes over the next that is kept, or that refers to what does not lie below it, or
    /// bytes behind it are missing: the store's files are not whole.
    Damaged(u64),
    /// Want of memory.
    Memory,
}

impl From<GroundFault> for CheckFault {
    ghost use Rattle.ip_check.specs.declared.fault.CheckFault.TheVariants as CheckFault;

    ghost from_gives = { λ _ e. e ≡ CheckFault.Ground };

    fn from(_: GroundFault) -> Self {
        CheckFault::Ground
    }
}

impl From<Memory> for CheckFault {
    ghost use Rattle.ip_check.specs.declared.fault.CheckFault.TheVariants as CheckFault;

    ghost from_gives = { λ _ e. e ≡ CheckFault.Memory };

    fn from(_: Memory) -> Self {
        CheckFault::Memory
    }
}
