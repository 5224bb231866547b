//! Parses assignments: operands with prefix and postfix, operators between them, conditions, arrow functions, assignments to
//! targets, and `yield`.
//!
//! Each function adds to an outline what the tracer of `es_trace` of its name gives (`specs/Operators.antt` there), unless
//! memory runs out. `trace_assign` and `trace_prefixed` are what the knot calls.
//!
//! An arrow's head, and an LHS that is assigned to and is no target, are tried in vain: then the outline is taken back to where
//! it was (`try_bracket_head`, `try_async_head`, `operand_behind`, `assign_behind`), and the cursor remembers that, so that it
//! is not tried there again. After any other error the outline holds what was read so far.
#![tactic(auto)]

mod arrows;
mod assigns;
mod conditions;
mod operands;
mod targets;

pub use assigns::trace_assign;
pub use operands::trace_prefixed;
