use crate::line::Line;
use pk_types::Sequence;

/// What sets are taken by.
#[derive(Drop)]
pub struct Ground {
    /// For each module the modules that it is a requester of.
    pub asks: Vec<Sequence<u32>>,

    /// For each module its requesters.
    pub requesters: Vec<Line>,

    /// For each module the chunks that hold it.
    pub homes: Vec<Line>,
}
