//! The text that a parser reads, with the token that it looked at last, so that each token is lexed once although every
//! level of the descent asks for it.
//!
//! A `Cursor` answers the token at a place and a goal (`token`), tells what a token is (`is_mark`, `is_word`, `is_name` and
//! the lists of the grammar), and takes a token that has to stand somewhere (`mark`, `word`, `name`). Contracts see it as the
//! text; what it remembers is its own invariant.
#![tactic(auto)]

mod cursor;
mod passed;
mod tell;

pub use cursor::Cursor;
pub use passed::{Attempt, Passed};
