//! Texts and their trees, and texts without one: points of the grammar of ECMAScript that are easily got wrong.
//!
//! Nothing here runs. Each row is the contract of a function that does nothing. `specs` has the trees and `proofs` the
//! derivations. It stands apart so that `es_grammar` is checked no longer for it.
#![tactic(auto)]

mod law;

pub use law::{
    await_call, await_in_script, call_over_line, declared_variable, default_function,
    default_value, export_in_script, member_assigned, object_in_parentheses, return_over_line,
};
