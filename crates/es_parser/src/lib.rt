//! The parser: from the text of a script or a module to its outline.
//!
//! The productions stand in `es_functions`, `es_operands`, `es_targets`, `es_operators`, `es_statements` and `es_modules`; none of
//! them calls itself. Here they are tied: `tie` traces whatever counts for the nest, and hands each production a closure for what
//! nests in it. So the nest is the only recursion, and `MAX_NEST` levels bound the stack. `parse` is the main call: it gives the
//! outline of a whole text, exactly that of the tracers, or tells that there is none or that memory ran out. `parse_expression`,
//! `parse_item` and `parse_default` give that of a part that begins at a place.
#![tactic(auto)]

mod knot;
mod pieces;
mod texts;

pub use knot::tie;
pub use pieces::{Piece, parse_default, parse_expression, parse_item};
pub use texts::parse;
