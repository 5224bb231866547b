ghost use Rattle.std.specs.Prelude.{◌≡◌};
ghost use Rattle.chunk_groups.specs.declared.fault.GroupFault.TheVariants.{NoMemory};

use std::alloc::{AllocError, AllocFailed};

/// What keeps a graph from being put into groups.
#[derive(Clone, Copy, Debug, PartialEq, Eq)]
pub enum GroupFault {
    /// There would be more groups than a graph may have.
    TooMany,

    /// Memory ran out.
    NoMemory,
}

impl From<AllocError> for GroupFault {
    ghost from_gives = { λ _ fault. fault ≡ NoMemory };

    fn from(_error: AllocError) -> GroupFault {
        GroupFault::NoMemory
    }
}

impl<T: Drop> From<AllocFailed<T>> for GroupFault {
    ghost from_gives = { λ _ fault. fault ≡ NoMemory };

    fn from(_error: AllocFailed<T>) -> GroupFault {
        GroupFault::NoMemory
    }
}
