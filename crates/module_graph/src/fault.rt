ghost use Rattle.std.specs.Prelude.{◌≡◌};
ghost use Rattle.module_graph.specs.declared.fault.GraphFault.TheVariants.{NoMemory};

use std::alloc::{AllocError, AllocFailed};

/// What keeps a module from being added.
#[derive(Clone, Copy, Debug, PartialEq, Eq)]
pub enum GraphFault {
    /// There would be more modules than a graph may have.
    TooMany,

    /// Memory ran out.
    NoMemory,
}

impl From<AllocError> for GraphFault {
    ghost from_gives = { λ _ fault. fault ≡ NoMemory };

    fn from(_error: AllocError) -> GraphFault {
        GraphFault::NoMemory
    }
}

impl<T: Drop> From<AllocFailed<T>> for GraphFault {
    ghost from_gives = { λ _ fault. fault ≡ NoMemory };

    fn from(_error: AllocFailed<T>) -> GraphFault {
        GraphFault::NoMemory
    }
}
