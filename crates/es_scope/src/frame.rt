/// By what a BindingIdentifier is bound.
#[derive(Clone, Copy, Debug, PartialEq, Eq)]
pub enum Binder {
    /// Nothing around it binds.
    None,
    /// The declaration that begins at this place.
    Declaration(u32),
    /// The parameters of a function.
    Parameters,
    /// A `catch`.
    Catch,
}

/// What is known of the places within a part: the innermost scope, the innermost scope that a `var` belongs to, and what
/// binds. Scopes are told by the places of their first marks.
#[derive(Clone, Copy, Debug, PartialEq, Eq)]
pub struct Frame {
    pub scope: u32,
    pub var_scope: u32,
    pub binder: Binder,
}
