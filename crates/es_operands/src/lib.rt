//! Operands of ECMAScript: expressions with commas, templates, arguments, suffixes, primaries, and LeftHandSideExpressions.
//!
//! Each function writes an outline from a place of a text on, exactly the one that the tracer of its name in `es_trace` gives,
//! or tells want of memory. What counts for the nest goes through the `Knot`, so nothing here calls itself. `trace_parts` is the
//! main call: it tells too whether what it went through is a Name or a member, which may be assigned to. `trace_expr` goes
//! through an expression with commas, `trace_new` through what `new` makes.
#![tactic(auto)]

mod arguments;
mod bases;
mod exprs;
mod members;
mod parts;
mod primaries;
mod suffixes;

pub use exprs::{trace_closed_expr, trace_expr};
pub use parts::{trace_lhs, trace_new, trace_parts};
