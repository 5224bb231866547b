//! The parser as pure functions on outlines: what is traced from a place of a text adds its marks to those before it.
//!
//! For each reader of `es_reader` that reads a part of the tree there is a tracer, which adds the outline of that part. The
//! parser's code answers by these, and never holds a tree. `trace_program` of `specs/Tying` traces a whole text.
//!
//! `tracers_follow` and `outlines_are_traced` say that what is traced is the outline of what is read. `specs/Trees` says what
//! layers above say of a text, and the other laws that a text has one tree at most, which parses by the grammar.
#![tactic(auto)]

mod law;
mod pieces;
mod pieces_expressions;
mod pieces_modules;
mod pieces_operators;

pub use law::{outlines_are_traced, tracers_follow, trees_are_one, trees_are_some, trees_parse};
pub use pieces::{Chain, Listed, Rule, Turn};
pub use pieces_expressions::{SuffixKind, Suffixed, Suffixes};
pub use pieces_modules::NamesListed;
pub use pieces_operators::Joins;
