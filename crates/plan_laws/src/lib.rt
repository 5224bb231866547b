//! Laws of plans: a graph has one at most, and what is planned so far is the plan by the general definitions.
//!
//! Nothing here runs. Each law is the contract of a function that does nothing. `one` has the first, `plans` the
//! others, over `specs/GeneralPlans.antt`, which gathers what `pk_types` says of use, edges, groups, chunks, scopes,
//! names and ids. Most hold of bare graphs; each says what it asks for.
#![tactic(auto)]

mod one;
mod plans;

pub use one::a_graph_has_one_plan;
pub use plans::{
    bare_graphs_have_one_plan, edges_avoid_flagged_modules, plans_of_bare_graphs_are_plans,
};
