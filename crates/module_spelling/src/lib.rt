//! What is written at the sites of a module in a bundle.
//!
//! A `Speller` is made for a graph, the sets of its modules, the names of their bindings and the ids. Its `spelling`
//! answers for a module the text of each site and the name of each binding. A binding of the module's own set is spelled
//! by its name, one of another set as a cell of that set's root, and what is none of ECMAScript by what the module
//! exports when it runs. `found_text` spells one thing that a name stands for.
//!
//! The graph has to fit. The only fault is want of memory. The time is linear in the sites and in what is
//! written, beside that of resolving the name of each site that asks for an import or a member.
#![tactic(auto)]

mod sites;
mod speller;
mod texts;

pub use speller::Speller;
