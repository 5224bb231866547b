use pk_types::{BindKind, Name, Sequence, Text};

/// A name and what is read where it is asked for.
#[derive(Debug, Drop)]
pub struct Getter {
    pub name: Name,
    pub spelling: Text,
}

/// A declaration of a scope.
#[derive(Debug, Drop)]
pub struct Variable {
    pub kind: BindKind,
    /// The name that it has in the bundle.
    pub name: Name,
}

/// What the head of a scope's factory lists.
#[derive(Debug, Drop)]
pub struct ScopeGetters {
    /// What its modules declare, by number of the module and then by place.
    pub variables: Sequence<Variable>,
    /// Those of their names that other scopes spell, in the same order, each once.
    pub cells: Sequence<Name>,
    /// The names of its root's namespace in byte order, where the namespace is asked for at all.
    pub space: Option<Sequence<Getter>>,
}

/// What the heads of the factories list: for each module the lists of the scope of which it is the root, and empty ones where
/// it is none.
#[derive(Debug, Drop)]
pub struct Getters {
    pub scopes: Sequence<ScopeGetters>,
}
