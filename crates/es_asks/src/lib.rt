//! What a module's text asks for: its requests, told of its outline.
//!
//! `Asked::new` goes through the marks of an outline once (`asked`): each import and export declaration with a request, each
//! `import()` of a text and, in CommonJS, each call of a free `require` with a text asks (`asking`). Equal requests have one
//! number, that of the first, which is found by the text in a map (`requests`). Then it goes through the numbers once more for
//! the order of the declarations' requests.
//!
//! The tests for single places are public, since other crates make them too: `texts` has argument lists of one text, `import()`
//! and import attributes, `free` has names that no scope declares, with `forwarded` for the names in export lists that are names of
//! another module. Each takes constant time a place, but for what it reads of a spelling. What these functions tell is what the
//! definitions say by the laws of `proofs`: `TextLaws`, `FreeLaws` and `AskedLaws`.
//!
//! Limits: an outline of fewer than 4,294,967,294 marks.
#![tactic(auto)]

mod asked;
mod asking;
mod forwarded;
mod free;
mod requests;
mod texts;

pub use asked::Asked;
pub use forwarded::Forwarded;
pub use free::{is_free, is_free_named, name_at, require_end};
pub use texts::{
    argument_end, asks_for_json, has_attributes, has_no_pair, import_end, is_import_call, is_string,
};
