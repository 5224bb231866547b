// How reading goes on from token to token.
ghost use Rattle.std.specs.Prelude.{◌≡◌};
ghost use Rattle.bare_modules.specs.Scanning.{step_of};

use crate::parts::Part;

/// How far a list of statements has come.
#[derive(Clone, Copy, Debug, PartialEq, Eq)]
pub enum Place {
    Between,
    BehindName,
    BehindOpen,
    BehindArgument,
    BehindComma,
    BehindClose,
    BehindImport,
    BehindRequest,
}

/// What is done with a token.
#[derive(Clone, Copy, Debug, PartialEq, Eq)]
pub enum Deed {
    /// It goes into the body.
    Keep,
    /// It is the request of a declaration.
    Ask,
    /// It is another token of a declaration.
    Drop,
}

/// What is done with a token at a place, and the place behind it. `None` where no statement goes on with it.
pub fn step(place: Place, part: Part) -> Option<(Deed, Place)>
    ensures { result ≡ step_of place part }
{
    match (place, part) {
        (Place::Between, Part::Name | Part::ScriptName) => Some((Deed::Keep, Place::BehindName)),
        (Place::BehindName, Part::Open) => Some((Deed::Keep, Place::BehindOpen)),
        (
            Place::BehindOpen | Place::BehindComma,
            Part::Name | Part::ScriptName | Part::Number | Part::String,
        ) => Some((Deed::Keep, Place::BehindArgument)),
        (Place::BehindArgument, Part::Comma) => Some((Deed::Keep, Place::BehindComma)),
        (Place::BehindOpen | Place::BehindArgument, Part::Close) => {
            Some((Deed::Keep, Place::BehindClose))
        }
        (Place::BehindClose, Part::Semicolon) => Some((Deed::Keep, Place::Between)),
        (Place::Between, Part::Import) => Some((Deed::Drop, Place::BehindImport)),
        (Place::BehindImport, Part::String) => Some((Deed::Ask, Place::BehindRequest)),
        (Place::BehindRequest, Part::Semicolon) => Some((Deed::Drop, Place::Between)),
        _ => None,
    }
}
