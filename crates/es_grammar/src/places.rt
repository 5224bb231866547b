//! What a production may hold where it stands, and what it ended in.

use es_tree::ProgramGoal;

/// What a production may hold depends on where it stands: the grammar parameters of ECMA-262, clause 5.1.5.
#[derive(Clone, Copy, Debug, PartialEq, Eq)]
pub struct Context {
    /// Whether `in` is an operator.
    pub has_in: bool,
    /// Whether `yield` is an operator.
    pub has_yield: bool,
    /// Whether `await` is an operator.
    pub has_await: bool,
    /// Whether `return` may stand.
    pub has_return: bool,
    /// The goal of the program, which tells what is reserved.
    pub goal: ProgramGoal,
}

/// What ends before a gap, which tells what goes on behind it.
#[derive(Clone, Copy, Debug, PartialEq, Eq)]
pub enum Ending {
    /// An arrow function with a block body, or `yield` alone.
    BlockArrow,
    /// `++` or `--` behind a target.
    Postfix,
    /// Any other expression.
    Expression,
    /// A declared name without initialiser.
    DeclaredName,
    /// A list of exported names.
    ExportedNames,
    /// The request of an import or an export, without attributes.
    Request,
    /// The key of a field without initialiser.
    FieldKey,
    /// The same where it is `get` or `set`.
    AccessorKey,
    /// The same where it is `static`.
    StaticKey,
    Other,
}

/// Where a production ends, and in what.
#[derive(Clone, Copy, Debug, PartialEq, Eq)]
pub struct Stop {
    /// The byte place behind its last token.
    pub at: u32,
    pub ending: Ending,
}
