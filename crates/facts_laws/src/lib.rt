//! What the facts of a text come to: they fit one another, as the facts in a graph must.
//!
//! Nothing here runs. Each law is the contract of a function that does nothing, over the definitions of `es_scope`, which
//! say what the facts of a text are, and those of `pk_types`, which say what facts a graph may hold. `facts_fit` is the
//! whole, and those before it say what each part of it needs. The crate that gathers the facts of a text stands above, and
//! promises by it that they fit.
#![tactic(auto)]

mod laws;

pub use laws::{
    facts_are_lawful, facts_fit, facts_have_places, lists_are_short, scripts_declare_nothing,
};
