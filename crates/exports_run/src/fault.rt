use module_graph::GraphFault;
use std::alloc::{AllocError, AllocFailed};

/// What keeps a block from being a graph.
#[derive(Clone, Copy, Debug, PartialEq, Eq)]
pub enum Fault {
    /// A line says nothing that a graph may hold.
    Unread,

    /// There are more modules than a graph may have.
    TooMany,

    /// Memory ran out.
    NoMemory,
}

impl From<AllocError> for Fault {
    fn from(_error: AllocError) -> Fault {
        Fault::NoMemory
    }
}

impl<T: Drop> From<AllocFailed<T>> for Fault {
    fn from(_error: AllocFailed<T>) -> Fault {
        Fault::NoMemory
    }
}

impl From<GraphFault> for Fault {
    fn from(fault: GraphFault) -> Fault {
        match fault {
            GraphFault::TooMany => Fault::TooMany,
            GraphFault::NoMemory => Fault::NoMemory,
        }
    }
}
