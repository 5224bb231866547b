//! What a recursive-descent parser of ECMAScript reads, as pure functions from a text and a place to a part of the tree and
//! the place where it ends: one for each production of `es_grammar`, over the readers of what nests in it.
//!
//! No tree is made here. The parser's crates prove that each of their functions gives exactly what its reader gives.
//! `specs/` has the readers, in the grammar's order; a reader may look at a token once or twice, and reads each part behind the
//! last one. `Tying` ties them to a nest: `expression_to`, `item_to`, `default_to`, and `read_program` for a whole text.
//!
//! `reading_is_sound` and its four companions say that whatever is read stands in the text by the grammar. That each tree of a
//! text is read is not said here.
#![tactic(auto)]

mod law;
mod pieces;

pub use law::{
    defaults_are_sound, expressions_are_sound, items_are_sound, programs_are_sound,
    reading_is_sound,
};
pub use pieces::{
    BareOf, CallableOf, ConditionOf, HeadOf, InsideOf, Operands, PartsOf, Shape, Source, Tail,
    TurnOf,
};
use std::alloc::AllocError;

/// Why there is no tree.
#[derive(Clone, Copy, Debug, PartialEq, Eq)]
pub enum ParseFault {
    Syntax,
    NoMemory,
}

impl From<AllocError> for ParseFault {
    ghost use Rattle.std.specs.Prelude.{◌≡◌};
    ghost use Rattle.es_reader.specs.declared.ParseFault.TheVariants.{NoMemory};

    ghost from_gives = { λ _ fault. fault ≡ NoMemory };

    fn from(_: AllocError) -> ParseFault {
        ParseFault::NoMemory
    }
}
