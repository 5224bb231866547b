use crate::facts::Name;
use pk_text::Sequence;

/// Which modules a bundle needs, and which of their requests it follows.
#[derive(Debug, Drop)]
pub struct Active {
    /// For each module the modules that it evaluates before itself, in order, each once. A module that isn't reached has
    /// none.
    pub edges: Sequence<Sequence<u32>>,
    /// For each module whether the entries lead to it.
    pub reached: Sequence<bool>,
}

/// What of each module is used.
#[derive(Debug, Drop)]
pub struct Used {
    /// For each module the names that are used of it, in byte order, each once.
    pub names: Sequence<Sequence<Name>>,
    /// For each module whether its namespace is used as a value, and so all of its names.
    pub whole: Sequence<bool>,
}

/// The groups of modules that are loaded together: one for each entry in order, and then one for each module that an
/// `import()` of a reached module leads to, by number.
#[derive(Debug, Drop)]
pub struct Groups {
    /// The module of each group, from which the others of it are reached.
    pub targets: Sequence<u32>,
    /// How many of them are groups of entries.
    pub entries: u32,
    /// For each group the modules that active edges and `require` lead to from its target, itself among them, by number.
    pub closures: Sequence<Sequence<u32>>,
    /// For each group the groups, none of an entry, whose target an `import()` of one of its modules leads to, by number.
    pub leads: Sequence<Sequence<u32>>,
}

/// The files that a bundle is cut into. The entry chunks come first, one for each entry in order, and then the others.
#[derive(Debug, Drop)]
pub struct Chunks {
    /// The modules of each chunk, by number.
    pub modules: Sequence<Sequence<u32>>,
    /// How many of them are entry chunks.
    pub entries: u32,
    /// For each group the chunks that it needs beside its entry chunk, numbered without the entry chunks.
    pub lists: Sequence<Sequence<u32>>,
}

/// Which modules share one scope, and in which order it runs.
#[derive(Debug, Drop)]
pub struct Hoists {
    /// For each module the root of its set.
    pub root: Sequence<u32>,
    /// For each root what its scope runs, in order; nothing for other modules.
    pub items: Sequence<Sequence<Item>>,
}

/// One thing that a scope runs.
#[derive(Clone, Copy, Debug, PartialEq, Eq)]
pub enum Item {
    /// The body of one of its modules.
    Segment(u32),

    /// The evaluation of a module of another scope.
    Evaluate(u32),
}

/// The numbers by which a bundle names its modules and its chunks, without the entry chunks.
#[derive(Debug, Drop)]
pub struct Ids {
    pub modules: Sequence<u32>,
    pub chunks: Sequence<u32>,
}

/// How a graph is cut, ordered and named in a bundle.
#[derive(Debug, Drop)]
pub struct Plan {
    pub active: Active,
    pub used: Used,
    pub groups: Groups,
    pub chunks: Chunks,
    pub hoists: Hoists,
    /// For each module the name that each of its bindings has in the bundle.
    pub names: Sequence<Sequence<Name>>,
    pub ids: Ids,
}
