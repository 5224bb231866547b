use crate::facts::Facts;
use pk_text::{Sequence, Text};

/// The modules that the entries lead to. A module's number is the place of its row.
#[derive(Debug, Drop)]
pub struct Graph {
    pub rows: Sequence<Row>,
    /// The module of each entry.
    pub entries: Sequence<u32>,
}

/// A module.
#[derive(Debug, Drop)]
pub struct Row {
    /// Its path from the root folder.
    pub label: Text,
    pub facts: Facts,
    /// The module that each request leads to.
    pub targets: Sequence<u32>,
    /// Whether its author says that it has no side effects.
    pub flagged: bool,
    /// The number of bytes of its file.
    pub size: u32,
}
