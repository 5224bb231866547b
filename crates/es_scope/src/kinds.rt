/// How a name is declared.
#[derive(Clone, Copy, Debug, PartialEq, Eq)]
pub enum DeclarationKind {
    Var,
    Let,
    Const,
    Class,
    Function,
    Import,
    Parameter,
    Catch,
}

/// A construct that is not bundled.
#[derive(Clone, Copy, Debug, PartialEq, Eq)]
pub enum Refusal {
    TopLevelAwait,
    ComputedImport,
    ComputedRequire,
    Eval,
    ImportMeta,
    With,
    RequireInModule,
    RequireMember,
    ModuleHot,
    ReservedName,
    ImportAttribute,
}

/// An early error of a text, those of one place in this order.
#[derive(Clone, Copy, Debug, PartialEq, Eq)]
pub enum EarlyError {
    DeclaredTwice,
    ExportedTwice,
    ExportsUndeclared,
}
