//! Statements, declarations and items of ECMAScript, traced from a text.
//!
//! Each function reads from a cursor and adds the outline of what it reads to an `Outline`: it answers what the tracer of its
//! name in `es_trace` traces over the tracers to the nest of the knot, or want of memory. `trace_item` is the main call;
//! `trace_stmt` is for the knot, and the declarations whose word was seen are for exports. What fails may leave marks in the
//! outline; whoever goes on then has kept it before. None calls itself: what nests is read by the knot. An expression that was
//! looked for in vain in a head of `for` is remembered by the cursor, so that it is not read there again (`try_init`).
#![tactic(auto)]

mod blocks;
mod conditions;
mod declarations;
mod heads;
mod jumps;
mod loops;
mod statements;
mod switches;

pub use declarations::{lex_behind, var_behind};
pub use statements::{declaration_item, trace_item, trace_stmt};
