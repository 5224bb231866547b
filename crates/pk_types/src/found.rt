use crate::facts::Name;

/// What an exported name stands for: the ResolvedBinding Record of ECMA-262's ResolveExport, or why there is none.
#[derive(Debug, Drop)]
pub enum Found {
    /// A binding of a module, by the place of the binding in its facts.
    Binding(u32, u32),

    /// The namespace of a module.
    Namespace(u32),

    /// A name of a module that is none of ECMAScript: what it is shows when it runs.
    Foreign(u32, Name),

    /// No module that was asked has the name, or only a circle of modules asks for it.
    Nothing,

    /// Two `export *` lead to different things.
    Ambiguous,
}
