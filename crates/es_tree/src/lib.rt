//! The tokens of ECMAScript, as ECMA-262's lexical grammar has them, and the syntax tree over them.
//!
//! A `Token` is a kind and where it stands in its text. The tree holds each form of each production with exactly its
//! tokens in order: `cycle` has the types that lead back to one another, `parts` generic ones outside the cycle,
//! `program` programs, imports and exports. Lists and boxes are those of `sqlite_items`, which contracts see as what
//! they hold. `docs/GLOSSARY.md` has ECMA-262's names of the types.
//!
//! Nothing here computes. `specs` says which token stands at a place (`Lexical`), what names mean (`Names`), which
//! words are reserved (`ReservedWords`), and which tokens a tree has in order (`Yield`). What the types allow and the
//! grammar doesn't is left to `es_grammar`.
#![tactic(auto)]

mod cycle;
mod parts;
mod program;
mod tokens;

pub use cycle::{
    Args, Arrow, Assign, Base, Binary, Bind, BindProperty, Case, Class, Cond, Decl, Element, Expr,
    For, Func, Head, Init, Item, Key, LHS, Lex, Member, Method, Operand, Params, Primary, Stmt,
    Suffix, Target, TargetPart, Var,
};
pub use parts::{
    ArgsOf, Argument, Arms, ArrowParams, BinaryOf, Body, CatchParameter, Else, ExprOf, Extends,
    Finally, Initializer, Joined, KeyOf, LexOf, Parenthesised, Piece, PropertyKey, Rest,
    SecondArgument, Separated, SuffixOf, Template, VarOf, Yielded,
};
pub use program::{
    Attribute, Clause, Export, ExportName, Import, ImportName, Named, Names, Program, ProgramItem,
    Renamed, Space, With,
};
pub use tokens::{Goal, LexFault, ProgramGoal, Token, TokenKind};
