//! What strings of a text mean: the StringValue of a StringLiteral, with its escapes decoded, in UTF-8.
//!
//! `value` decodes any spelling, unit by unit; a high surrogate that is escaped waits for the next unit, since with a low one
//! it is one code point. `is_plain` tells cheaply that a spelling holds its own value between its quotes, as most requests do.
#![tactic(auto)]

mod decode;
mod plain;
mod units;

pub use decode::value;
pub use plain::{is_plain, within};
