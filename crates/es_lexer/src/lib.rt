//! The lexical grammar of ECMA-262: the token at a place of a text, and which identifier names are reserved words.
//!
//! `next_token` takes a text, a place and the goal of that place. It passes the gap (`gap`), reads the lexeme of the
//! goal (`lexemes`, with `numbers`, `marks` and `escapes`, over `units`, `characters` and `utf8`), and answers the
//! token, or the place of a fault. It answers exactly `token_at` of `es_tree`, takes no allocator, and keeps nothing
//! between calls. `is_reserved` takes a decoded name. `character` and `unicode_escape` serve those who decode names.
//!
//! A text has fewer than 2^32 bytes. `docs/GRAMMAR.md` tells the tokens, and what is left out.
#![tactic(auto)]

mod characters;
mod escapes;
mod gap;
mod lexemes;
mod marks;
mod numbers;
mod reserved;
mod scanner;
mod units;
mod utf8;

pub use es_tree::LexFault;
pub use escapes::unicode_escape;
pub use reserved::is_reserved;
pub use scanner::next_token;
pub use utf8::character;
