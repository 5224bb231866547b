//! Parses what may be assigned to: names, members, either in parentheses, and patterns.
//!
//! Each function adds to an outline what the tracer of `es_trace` of its name gives (`specs/Targets.antt` there), unless memory
//! runs out. `trace_target_pattern` is what the knot calls; `trace_target`, `trace_simple_target`, `trace_paren_target` and
//! `trace_bare` serve assignments and heads of `for`.
//!
//! What turns out to be something else is tried in vain: then the outline is taken back to where it was (`try_bare`,
//! `try_pattern_alone`). After any other error the outline holds what was read so far.
#![tactic(auto)]

mod bare;
mod parens;
mod parts;
mod patterns;
mod simple;

pub use bare::trace_bare;
pub use parens::trace_paren_target;
pub use patterns::trace_target_pattern;
pub use simple::{trace_simple_target, trace_target};
