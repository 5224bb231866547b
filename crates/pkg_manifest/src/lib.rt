//! Reads a `package.json`.
//!
//! `manifest` goes from the bytes of the file to a `Manifest`, or says that they are no JSON or no object. `read` makes
//! the JSON value over the kit's `json` reader, and `fields` takes the manifest's fields from it. `Manifest::flagged`
//! tells by the field `sideEffects` whether a file of the package is said to have no side effects (`flags`, `pattern`).
//!
//! A nest is at most 127. The value of a number isn't kept. A field of a wrong type is absent, but `exports` is kept
//! whatever it is.
#![tactic(auto)]

mod fault;
mod fields;
mod flags;
mod law;
mod package;
mod parse;
mod pattern;
mod read;
mod value;

pub use fault::ManifestFault;
pub use law::stands_for_one_value;
pub use package::{Manifest, SideEffects};
pub use parse::manifest;
pub use value::{Json, Member};
