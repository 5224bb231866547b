//! Laws of what is found in a tree: it has one answer at most, and a plan of its modules is the one by the general
//! definitions.
//!
//! Nothing here runs. Each function states a law as its contract, over the definitions of `watch_core` and of the plans:
//! `finds_one_answer` is what makes the definitions of a build say something, and `plans_of_trees_are_plans` ties the plan
//! that is computed to the general ones.
#![tactic(auto)]

mod answer;
mod trees;

pub use answer::finds_one_answer;
pub use trees::{modules_of_trees_are_bare, plans_of_trees_are_plans};
