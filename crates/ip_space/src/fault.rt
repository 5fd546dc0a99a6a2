// What keeps records from being read.
ghost use Rattle.std.specs.Prelude.{◌≡◌};

use ip_base::{Hash, Memory};
use ip_ground::{FileName, GroundFault};
use ip_spec::record::RecordFault;

/// Why a record was not read. `Ground` and `Memory` say nothing of the files, and the call may be made again; the other two say that the
/// files were changed, or that the reference is none of theirs, and the ground's counts show them as damage.
#[derive(Clone, Copy, Debug, PartialEq, Eq)]
pub enum FetchFault {
    /// A call on the ground failed, as its counts show.
    Ground,
    /// At this offset stands no record, or one of another kind than the reference's: then `Kind` has its kind.
    Form { at: u64, fault: RecordFault },
    /// The record at this offset has another name than the reference.
    Name { at: u64, want: Hash, got: Hash },
    /// Want of memory, for the buffer or for the record.
    Memory,
}

impl From<GroundFault> for FetchFault {
    ghost use Rattle.ip_space.specs.declared.fault.FetchFault.TheVariants as FetchFault;

    ghost from_gives = { λ _ e. e ≡ FetchFault.Ground };

    fn from(_: GroundFault) -> Self {
        FetchFault::Ground
    }
}

impl From<Memory> for FetchFault {
    ghost use Rattle.ip_space.specs.declared.fault.FetchFault.TheVariants as FetchFault;

    ghost from_gives = { λ _ e. e ≡ FetchFault.Memory };

    fn from(_: Memory) -> Self {
        FetchFault::Memory
    }
}

/// Why no space was made.
#[derive(Clone, Copy, Debug, PartialEq, Eq)]
pub enum SpaceFault {
    /// A call on the ground failed, as its counts show.
    Ground,
    /// The live mapping and prefix are not those of the layout: the file, and the place in it, of the first test that fails.
    Damaged { file: FileName, at: u64 },
    /// Want of memory, for the mapping.
    Memory,
}

impl From<GroundFault> for SpaceFault {
    ghost use Rattle.ip_space.specs.declared.fault.SpaceFault.TheVariants as SpaceFault;

    ghost from_gives = { λ _ e. e ≡ SpaceFault.Ground };

    fn from(_: GroundFault) -> Self {
        SpaceFault::Ground
    }
}

impl From<Memory> for SpaceFault {
    ghost use Rattle.ip_space.specs.declared.fault.SpaceFault.TheVariants as SpaceFault;

    ghost from_gives = { λ _ e. e ≡ SpaceFault.Memory };

    fn from(_: Memory) -> Self {
        SpaceFault::Memory
    }
}
