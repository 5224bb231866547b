//! The grammar of ECMAScript that is read, as a relation between texts and syntax trees.
//!
//! `specs` has a data type for each production of ECMA-262, clauses 13 to 16: it says that a tree stands from one place
//! of a text to another, in a `Context`, and where it matters in what it ends (`Stop`, `Ending`). `Parses` ties the
//! productions by the nest and says that a text has a tree. `Context`, `Stop` and `Ending` are Rust types (`places`),
//! so that the parser's code and the grammar speak of the same values. `docs/GRAMMAR.md` tells the grammar in words.
//!
//! Nothing here runs. The functions of `law` do nothing, and state laws as their contracts: that a tree's tokens are
//! those of its text, and that the nest is counted as it should be. The nest is at most `MAX_NEST`.
#![tactic(auto)]

mod law;
mod places;

pub use law::{
    arrays_nest_to_the_limit, brackets_nest_no_deeper, greater_nests_hold_more,
    tokens_are_the_yield,
};
pub use places::{Context, Ending, Stop};

/// The greatest nest of a tree: of items (one that is a statement counts once), statements, assignments, patterns, prefix
/// operators, `new` and `extends` on the way from the program to a token.
pub const MAX_NEST: u32 = 256;
