/// What is wrong with a name that is asked of a module.
#[derive(Clone, Copy, Debug, PartialEq, Eq)]
pub enum FaultKind {
    /// The module has no export of the name.
    Missing,

    /// Two `export *` lead to different things.
    Ambiguous,
}

/// What in a module asks: one of its imports or exports, by its place in their list.
#[derive(Clone, Copy, Debug, PartialEq, Eq)]
pub enum Asker {
    Import(u32),
    Export(u32),
}

/// A name that is asked in vain.
#[derive(Clone, Copy, Debug, PartialEq, Eq)]
pub struct ExportFault {
    /// The module that asks.
    pub module: u32,
    /// The byte place of what asks, in the text of that module.
    pub place: u32,
    pub kind: FaultKind,
    pub asker: Asker,
}
