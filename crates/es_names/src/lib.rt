//! What the names of a text mean: the name that an identifier name spells, with its escapes decoded, in UTF-8.
//!
//! `name` decodes any spelling; `is_plain` tells cheaply that a spelling stands for itself, so that most names are taken
//! as they are written.
#![tactic(auto)]

mod decode;

pub use decode::{is_plain, name};
