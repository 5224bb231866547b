//! What the names of a text stand for, told of its outline: which scope declares a name, to which declaration an
//! occurrence refers, and which name is declared twice.
//!
//! `specs` has the definitions, from the parts of an outline (`Parts`) over occurrences (`Occurrences`), scopes (`Scopes`) and
//! references (`Refers`) to the facts (`FactsOf`) and the first fault (`Faults`). `Scopes::new` goes through the marks of an
//! outline: it numbers the names (`names`), notes where each scope declares each name first (`firsts`), looks up what each
//! occurrence refers to (`finding`) and finds the first name that is declared twice (`twice`). Each pass keeps the parts
//! that are open (`open_parts`), so an answer takes the depth of the parts at most, and then stands in a table.
//!
//! Limits: an outline of fewer than 4,294,967,294 marks.
#![tactic(auto)]

mod declared;
mod finding;
mod firsts;
mod found;
mod frame;
mod kinds;
mod names;
mod open_parts;
mod outlined;
mod scopes;
mod twice;

pub use found::{Declared, First};
pub use kinds::{DeclarationKind, EarlyError, Refusal};
pub use outlined::Outlined;
pub use scopes::Scopes;
