//! What is handed on while the suffixes of an expression are read.

/// What a suffix is.
#[derive(Clone, Copy, Debug, PartialEq, Eq)]
pub enum SuffixKind {
    /// A property by its name.
    Dot,
    /// A property by its private name.
    Private,
    /// A property by an expression.
    Index,
    /// Arguments of a call.
    Args,
    /// A template, which is tagged.
    Template,
    /// Any of these behind `?.`.
    Optional,
}

/// A suffix that was read.
#[derive(Clone, Copy, Debug, PartialEq, Eq)]
pub struct Suffixed {
    /// The byte place where it ends.
    pub at: u32,
    pub kind: SuffixKind,
}

/// How far suffixes were read, and what those before that place are.
#[derive(Clone, Copy, Debug, PartialEq, Eq)]
pub struct Suffixes {
    /// The byte place.
    pub at: u32,
    /// There are none.
    pub is_empty: bool,
    /// The first is one that may stand behind `super`.
    pub follow_super: bool,
    /// One of them stands behind `?.`.
    pub has_optional: bool,
    /// No template stands behind one of those.
    pub has_plain_templates: bool,
    /// The last names a member, and `?.` stands nowhere before it.
    pub end_with_member: bool,
}
