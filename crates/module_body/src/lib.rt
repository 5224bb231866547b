//! The body of a module, as its bundle spells it.
//!
//! `body_of` goes through the marks of a module's outline once. It writes the tokens that are kept, with a line's end, a space or
//! nothing between each two, writes each site as the `Spelling` has it and each `Touch` by its own rule, and adds what the bundle
//! needs: semicolons that were left out, `const N =`, the names of defaults without one, the names of shorthands, and parentheses
//! around what is called or constructed. `Body` counts the plain bytes before each site.
//!
//! Way of data: `changes` says what is written anew at a token, from the sites, their spellings, the names of bindings and the
//! touches; `standing` says which tokens are kept; `before` goes from mark to mark with all that is known of the marks so far; `calls`
//! looks at the marks behind a site; `draft` takes the bytes; `writing` puts these together. `specs/Writing` has the body of an
//! outline: for each mark the chunks that are written, from the marks before and behind it.
//!
//! Limits: sites and touches are those of the module, in the order of the text (`Touch` says which touches there are). At a token
//! the next site or touch is looked at alone, so what is out of order is passed by. The time is linear in the marks.
#![tactic(auto)]

mod before;
mod calls;
mod changes;
mod draft;
mod standing;
mod touch;
mod writing;

pub use touch::{NewText, Touch};
pub use writing::body_of;
