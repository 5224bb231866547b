//! What a module exports, told of its outline, and the early errors of exports.
//!
//! `Exports::new` goes through the marks of an outline: names in export lists, exported declarations, `export default` and
//! `export *` each make an entry or a star. Where an exported name is imported, the entry comes from where it is imported from.
//! The first place that exports a name again, and the first that lists a name that the top doesn't declare, are found too.
//!
//! Limits: an outline of fewer than 4,294,967,294 marks.
#![tactic(auto)]

mod exports;
mod inside;
mod names;
mod noted;
mod origins;
mod passes;
mod said;
mod sight;

pub use exports::Exports;
