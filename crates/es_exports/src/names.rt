//! The names by which places export.
ghost use Rattle.std.specs.Prelude.{◌≡◌, ◌<◌, ◌^◌, ◌+◌, ◌||◌, if◌then◌else◌, Some, length, IfOk, OnOk};
ghost use Rattle.es_exports.specs.Passing.{IsFirstOf};
ghost use Rattle.es_exports.specs.Saying as spec;

use crate::said::{Said, Whence};
use crate::sight::Sight;
use es_names::{is_plain, name};
use pk_text::{Interner, Text};
use pk_types::Origin;
use std::alloc::{AllocError, Global};

/// The names by which a place exports, where it does: that two places behind, its own, and `default`.
#[derive(Drop)]
pub(crate) struct Names {
    pub(crate) outer: Option<Text>,
    pub(crate) own: Option<Text>,
    pub(crate) default: Option<Text>,
}

/// The name that is said.
pub(crate) fn name_of(alloc: Global, sight: &Sight<'_, '_>, said: Said) -> Result<Text, AllocError>
    ensures { IfOk result (λ name. name ≡ spec.name_of sight.now.source said) }
{
    let Said::At(place) = said else {
        return Text::from_slice(alloc, b"default");
    };
    let spelling = sight.outlined.spelled_at(place as usize);
    if is_plain(spelling) {
        Text::from_slice(alloc, spelling)
    } else {
        Ok(Text::from_vec(name(alloc, spelling)?))
    }
}

/// The origin with its name.
pub(crate) fn origin_of(
    alloc: Global,
    sight: &Sight<'_, '_>,
    from: Whence,
) -> Result<Origin, AllocError>
    ensures { IfOk result (λ origin. origin ≡ spec.origin_of sight.now.source from) }
{
    let origin = match from {
        Whence::Own(binding) => Origin::Own(binding),
        Whence::Other(request, name) => Origin::Other(request, name_of(alloc, sight, name)?),
        Whence::Space(request) => Origin::Space(request),
    };
    Ok(origin)
}

/// Where one of the names is said by which a place exports, if it does.
pub(crate) fn said_at(sight: &Sight<'_, '_>, place: u32) -> Option<Said>
    requires { place + 2 < 2 ^ 32 }
    ensures { result ≡ spec.said_at sight.now place }
{
    if sight.says_outer(place) {
        Some(Said::At(place + 2))
    } else if sight.says_own(place) {
        Some(Said::At(place))
    } else if sight.says_default(place) {
        Some(Said::Default)
    } else {
        None
    }
}

// The name, where it is said.
fn name_if(
    alloc: Global,
    sight: &Sight<'_, '_>,
    says: bool,
    said: Said,
) -> Result<Option<Text>, AllocError>
    ensures { IfOk result (λ name. name ≡ spec.name_if sight.now.source says said) }
{
    if says {
        Ok(Some(name_of(alloc, sight, said)?))
    } else {
        Ok(None)
    }
}

// The names by which a place exports. Behind the last mark only `default` may be said.
fn names_at(alloc: Global, sight: &Sight<'_, '_>, place: u32) -> Result<Names, AllocError>
    requires { length sight.now.source.marks + 2 < 2 ^ 32 }
    ensures { IfOk result (λ names. names ≡ spec.names_at sight.now place) }
{
    let default = name_if(alloc, sight, sight.says_default(place), Said::Default)?;
    if place >= sight.len() {
        return Ok(Names {
            outer: None,
            own: None,
            default,
        });
    }
    Ok(Names {
        outer: name_if(alloc, sight, sight.says_outer(place), Said::At(place + 2))?,
        own: name_if(alloc, sight, sight.says_own(place), Said::At(place))?,
        default,
    })
}

// Whether a name was seen.
fn is_seen(seen: &Interner, name: &Option<Text>) -> bool
    ensures { result ≡ spec.is_seen seen.now name.now }
{
    match name {
        Some(name) => seen.find(name.as_slice()).is_some(),
        None => false,
    }
}

// Whether one of the names was seen.
fn is_again(seen: &Interner, names: &Names) -> bool
    ensures { result ≡ spec.is_again seen.now names.now }
{
    is_seen(seen, &names.outer) || is_seen(seen, &names.own) || is_seen(seen, &names.default)
}

// Sees a name.
fn see(seen: &mut Interner, name: &Option<Text>) -> Result<(), AllocError>
    ensures { OnOk result (seen.new ≡ spec.with_name seen.old name.now) }
{
    if let Some(name) = name {
        seen.intern(name.as_slice())?;
    }
    Ok(())
}

// Sees names.
fn see_all(seen: &mut Interner, names: &Names) -> Result<(), AllocError>
    ensures { OnOk result (seen.new ≡ spec.with_names seen.old names.now) }
{
    see(seen, &names.outer)?;
    see(seen, &names.own)?;
    see(seen, &names.default)
}

/// The first place that exports by a name by which one before it does.
pub(crate) fn first_again(alloc: Global, sight: &Sight<'_, '_>) -> Result<Option<u32>, AllocError>
    requires { length sight.now.source.marks + 2 < 2 ^ 32 }
    ensures { IfOk result (IsFirstOf (spec.is_again_at sight.now)
        (length sight.now.source.marks + 2)) }
{
    let mut seen = Interner::new(alloc);
    for place in 0..sight.len() + 2 {
        let names = names_at(alloc, sight, place)?;
        if is_again(&seen, &names) {
            return Ok(Some(place));
        }
        see_all(&mut seen, &names)?;
    }
    Ok(None)
}
