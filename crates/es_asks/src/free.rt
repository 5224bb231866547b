//! Free names.
ghost use Rattle.std.specs.Prelude.{◌≡◌, ◌<◌, ◌^◌, ◌+◌, length, slice_get, true};
ghost use Rattle.pk_types.specs.Numbers.{has};
ghost use Rattle.es_scope.specs.Named.{names_it};
ghost use Rattle.es_scope.specs.Source as source;
ghost use Rattle.es_scope.specs.Telling.{AreScopes};
ghost use Rattle.es_asks.specs.Free as spec;

use crate::forwarded::Forwarded;
use crate::texts::argument_end;
use es_outline::{Mark, Role};
use es_scope::{Outlined, Scopes};

// Whether a mark refers to a name of this module.
fn refers(outlined: &Outlined<'_>, forwarded: &Forwarded, place: u32) -> bool
    ensures { result
        ≡ spec.refers (slice_get outlined.now.marks place) (has forwarded.now place) }
{
    match outlined.marks().get(place as usize) {
        Some(Mark::Token(Role::Reference, _)) => true,
        Some(Mark::Token(Role::Exported, _)) => !forwarded.has(place),
        _ => false,
    }
}

/// The name at a place, of the roles that scopes have numbers for.
#[tactic(auto, using(crate::proofs::FreeLaws::number_within, crate::proofs::FreeLaws::named_so))]
pub fn name_at<'s>(outlined: &Outlined<'_>, scopes: &'s Scopes, place: u32) -> &'s [u8]
    requires scopes { AreScopes outlined.now scopes.now }
    requires named { names_it (slice_get outlined.now.marks place) ≡ true }
    ensures { result.now ≡ source.name_at outlined.now place }
{
    match scopes.number_at(place) {
        Some(number) => scopes.name_of(number),
        None => &[],
    }
}

/// Whether a name stands at a place that no scope around it declares.
pub fn is_free(outlined: &Outlined<'_>, scopes: &Scopes, forwarded: &Forwarded, place: u32) -> bool
    ensures { result ≡ spec.is_free outlined.now scopes.now forwarded.now place }
{
    refers(outlined, forwarded, place) && scopes.declared_by(place).is_none()
}

/// Whether the name at a place is free, and is this one.
#[tactic(auto, using(crate::proofs::FreeLaws::free_named))]
pub fn is_free_named(
    outlined: &Outlined<'_>,
    scopes: &Scopes,
    forwarded: &Forwarded,
    place: u32,
    name: &[u8],
) -> bool
    requires { AreScopes outlined.now scopes.now }
    ensures { result ≡ spec.is_free_named outlined.now scopes.now forwarded.now place name.now }
{
    is_free(outlined, scopes, forwarded, place) && name_at(outlined, scopes, place) == name
}

/// The place of the `)` of a call of a free `require` with a text that begins at a place.
pub fn require_end(
    outlined: &Outlined<'_>,
    scopes: &Scopes,
    forwarded: &Forwarded,
    place: u32,
) -> Option<u32>
    requires short { length outlined.now.marks + 2 < 2 ^ 32 }
    requires within { place < length outlined.now.marks }
    requires scopes { AreScopes outlined.now scopes.now }
    ensures { result ≡ spec.require_end outlined.now scopes.now forwarded.now place }
{
    let calls = matches!(outlined.marks().get(place as usize + 1), Some(Mark::Call));
    if calls && is_free_named(outlined, scopes, forwarded, place, b"require") {
        argument_end(outlined, place + 2)
    } else {
        None
    }
}
