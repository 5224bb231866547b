//! What tracers of imports and exports hand on.

/// How far a list of exported names was read.
#[derive(Clone, Copy, Debug, PartialEq, Eq)]
pub struct NamesListed {
    /// The byte place.
    pub at: u32,
    /// Whether each first word is a Name, and so may name what this module declares.
    pub local: bool,
}
