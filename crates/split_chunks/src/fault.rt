ghost use Rattle.std.specs.Prelude.{◌≡◌};
ghost use Rattle.split_chunks.specs.declared.fault.SplitFault.TheVariants.{NoMemory};

use std::alloc::{AllocError, AllocFailed};

/// What keeps groups from being split into chunks.
#[derive(Clone, Copy, Debug, PartialEq, Eq)]
pub enum SplitFault {
    /// After the last pick there would be more chunks than a bundle may have.
    TooMany,

    /// Memory ran out.
    NoMemory,
}

impl From<AllocError> for SplitFault {
    ghost from_gives = { λ _ fault. fault ≡ NoMemory };

    fn from(_error: AllocError) -> SplitFault {
        SplitFault::NoMemory
    }
}

impl<T: Drop> From<AllocFailed<T>> for SplitFault {
    ghost from_gives = { λ _ fault. fault ≡ NoMemory };

    fn from(_error: AllocFailed<T>) -> SplitFault {
        SplitFault::NoMemory
    }
}
