//! What places ask for.
ghost use Rattle.std.specs.Prelude.{◌≡◌, ◌<◌, ◌^◌, ◌+◌, length, slice_get, IfOk};
ghost use Rattle.es_scope.specs.Telling.{AreScopes};
ghost use Rattle.es_asks.specs.Asked as spec;

use crate::forwarded::Forwarded;
use crate::free::require_end;
use crate::requests::Manner;
use crate::texts::{argument_end, asks_for_json, is_import_call, is_string};
use es_outline::{Mark, Role};
use es_scope::{Outlined, Scopes};
use es_tree::ProgramGoal;
use std::alloc::{AllocError, Global};

/// What a place asks for: the text of the StringLiteral at a place, and how.
#[derive(Clone, Copy)]
pub(crate) struct Asking {
    pub(crate) text: u32,
    pub(crate) how: Manner,
}

/// Whether the request of a declaration stands at a place.
pub(crate) fn is_request(outlined: &Outlined<'_>, place: u32) -> bool
    ensures { result ≡ spec.is_request (slice_get outlined.now.marks place) }
{
    matches!(
        outlined.marks().get(place as usize),
        Some(Mark::Token(Role::Request, _))
    )
}

// What a declaration asks for that has its request at a place.
fn declared(
    alloc: Global,
    outlined: &Outlined<'_>,
    place: u32,
) -> Result<Option<Asking>, AllocError>
    ensures { IfOk result (λ asking. asking ≡ spec.declared outlined.now place) }
{
    if !is_string(outlined, place as usize) {
        return Ok(None);
    }
    let how = if asks_for_json(alloc, outlined, place)? {
        Manner::Json
    } else {
        Manner::Import
    };
    Ok(Some(Asking { text: place, how }))
}

// What an `import()` at a place asks for.
fn imported(outlined: &Outlined<'_>, place: u32) -> Option<Asking>
    requires short { length outlined.now.marks + 2 < 2 ^ 32 }
    requires within { place < length outlined.now.marks }
    ensures { result ≡ spec.imported outlined.now place }
{
    argument_end(outlined, place + 1)?;
    Some(Asking {
        text: place + 2,
        how: Manner::Import,
    })
}

// What a call of `require` at a place asks for.
#[tactic(auto, using(crate::proofs::AskedLaws::text_within))]
fn required(
    outlined: &Outlined<'_>,
    scopes: &Scopes,
    forwarded: &Forwarded,
    place: u32,
) -> Option<Asking>
    requires short { length outlined.now.marks + 2 < 2 ^ 32 }
    requires within { place < length outlined.now.marks }
    requires scopes { AreScopes outlined.now scopes.now }
    ensures { result ≡ spec.required outlined.now scopes.now forwarded.now place }
{
    match outlined.goal() {
        ProgramGoal::Script => {
            require_end(outlined, scopes, forwarded, place)?;
            Some(Asking {
                text: place + 3,
                how: Manner::Require,
            })
        }
        ProgramGoal::Module => None,
    }
}

/// What a place asks for.
pub(crate) fn asked_at(
    alloc: Global,
    outlined: &Outlined<'_>,
    scopes: &Scopes,
    forwarded: &Forwarded,
    place: u32,
) -> Result<Option<Asking>, AllocError>
    requires short { length outlined.now.marks + 2 < 2 ^ 32 }
    requires within { place < length outlined.now.marks }
    requires scopes { AreScopes outlined.now scopes.now }
    ensures { IfOk result (λ asking.
        asking ≡ spec.asked_at outlined.now scopes.now forwarded.now place) }
{
    if is_request(outlined, place) {
        declared(alloc, outlined, place)
    } else if is_import_call(outlined, place) {
        Ok(imported(outlined, place))
    } else {
        Ok(required(outlined, scopes, forwarded, place))
    }
}
