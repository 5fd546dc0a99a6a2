// Why a call of the store did nothing.
ghost use Rattle.std.specs.Prelude.{◌≡◌};

use ip_base::{Hash, Limit, Memory, Number};
use ip_ground::GroundFault;
use ip_space::FetchFault;

/// Why a call of the store did nothing.
#[derive(Clone, Copy, Debug, PartialEq, Eq)]
pub enum StoreFault {
    /// The commit of the work's least number was given up.
    GivenUp(Number),
    /// The branch is at this commit, which is none of the work's parents.
    HeadMoved(Hash),
    /// A collection runs that gives up the commit of this number, on which it would rest.
    Leaving(Number),
    /// There is a commit of this name.
    Existing(Hash),
    /// The limit that it would pass.
    Limit(Limit),
    /// A call on the ground failed: what the files hold is known again once the store is opened anew.
    Ground,
    /// The files were changed by others: at this offset stands no record of the kind that stood there, or, where `names` has the wanted name
    /// and the one that was found, one of another name. The store may not be used any more. Only calls that fetch records answer it.
    Damaged {
        at: u64,
        names: Option<(Hash, Hash)>,
    },
    Memory,
}

impl From<GroundFault> for StoreFault {
    ghost use Rattle.ip_held.specs.declared.fault.StoreFault.TheVariants as StoreFault;

    ghost from_gives = { λ _ e. e ≡ StoreFault.Ground };

    fn from(_: GroundFault) -> Self {
        StoreFault::Ground
    }
}

impl From<Memory> for StoreFault {
    ghost use Rattle.ip_held.specs.declared.fault.StoreFault.TheVariants as StoreFault;

    ghost from_gives = { λ _ e. e ≡ StoreFault.Memory };

    fn from(_: Memory) -> Self {
        StoreFault::Memory
    }
}

impl From<FetchFault> for StoreFault {
    ghost use Rattle.ip_held.specs.Showing.{fault_from};

    ghost from_gives = { λ fetched e. e ≡ fault_from fetched };

    fn from(fault: FetchFault) -> Self {
        match fault {
            FetchFault::Ground => StoreFault::Ground,
            FetchFault::Form { at, .. } => StoreFault::Damaged { at, names: None },
            FetchFault::Name { at, want, got } => StoreFault::Damaged {
                at,
                names: Some((want, got)),
            },
            FetchFault::Memory => StoreFault::Memory,
        }
    }
}
