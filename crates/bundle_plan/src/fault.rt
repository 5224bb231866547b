ghost use Rattle.std.specs.Prelude.{◌≡◌};
ghost use Rattle.bundle_plan.specs.declared.fault.PlanFault.TheVariants.{NoMemory};
ghost use Rattle.bundle_plan.specs.Faults.{of_groups, of_split};

use chunk_groups::GroupFault;
use export_faults::ExportFault;
use split_chunks::SplitFault;
use std::alloc::{AllocError, AllocFailed};

/// What keeps a graph from being planned.
#[derive(Clone, Copy, Debug, PartialEq, Eq)]
pub enum PlanFault {
    /// A name is asked for in vain.
    Export(ExportFault),

    /// There would be more groups than a bundle may have.
    TooManyGroups,

    /// There would be more chunks than a bundle may have.
    TooManyChunks,

    /// Memory ran out.
    NoMemory,
}

impl From<AllocError> for PlanFault {
    ghost from_gives = { λ _ fault. fault ≡ NoMemory };

    fn from(_error: AllocError) -> PlanFault {
        PlanFault::NoMemory
    }
}

impl<T: Drop> From<AllocFailed<T>> for PlanFault {
    ghost from_gives = { λ _ fault. fault ≡ NoMemory };

    fn from(_error: AllocFailed<T>) -> PlanFault {
        PlanFault::NoMemory
    }
}

impl From<GroupFault> for PlanFault {
    ghost from_gives = { λ error fault. fault ≡ of_groups error };

    fn from(error: GroupFault) -> PlanFault {
        match error {
            GroupFault::TooMany => PlanFault::TooManyGroups,
            GroupFault::NoMemory => PlanFault::NoMemory,
        }
    }
}

impl From<SplitFault> for PlanFault {
    ghost from_gives = { λ error fault. fault ≡ of_split error };

    fn from(error: SplitFault) -> PlanFault {
        match error {
            SplitFault::TooMany => PlanFault::TooManyChunks,
            SplitFault::NoMemory => PlanFault::NoMemory,
        }
    }
}
