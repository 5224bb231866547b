//! Looks up the fields of an object, which is None where it has no keys.
ghost use Rattle.std.specs.Prelude.{◌≡◌, IfOk};
ghost use Rattle.pack_config.specs.Seen.{seen};
ghost use Rattle.pack_config.specs.Settings.{at, flag, number, priority, which, hashed, segment};

use crate::values::{
    count, hashed as hashed_of, priority as priority_of, segment as segment_of, which as which_of,
};
use pk_types::{Text, Which};
use serde_json::Value;
use std::alloc::{AllocError, Global};

pub(crate) fn member<'v>(object: Option<&'v Value>, key: &str) -> Option<&'v Value>
    ensures { seen result ≡ at key.now (seen object.entry) }
{
    match object {
        Some(value) => value.get(key),
        None => None,
    }
}

pub(crate) fn flag(object: Option<&Value>, key: &str, default: bool) -> bool
    ensures { result ≡ flag key.now default (seen object.entry) }
{
    match member(object, key) {
        Some(value) => value.as_bool().unwrap_or(default),
        None => default,
    }
}

pub(crate) fn number(object: Option<&Value>, key: &str, default: u32) -> u32
    ensures { result ≡ number key.now default (seen object.entry) }
{
    match member(object, key) {
        Some(value) => count(value).unwrap_or(default),
        None => default,
    }
}

pub(crate) fn priority(object: Option<&Value>, key: &str, default: i32) -> i32
    ensures { result ≡ priority key.now default (seen object.entry) }
{
    match member(object, key) {
        Some(value) => priority_of(value).unwrap_or(default),
        None => default,
    }
}

pub(crate) fn which(object: Option<&Value>, key: &str, default: Which) -> Which
    ensures { result ≡ which key.now default (seen object.entry) }
{
    match member(object, key) {
        Some(value) => which_of(value).unwrap_or(default),
        None => default,
    }
}

pub(crate) fn hashed(object: Option<&Value>, key: &str, default: bool) -> bool
    ensures { result ≡ hashed key.now default (seen object.entry) }
{
    match member(object, key) {
        Some(value) => hashed_of(value).unwrap_or(default),
        None => default,
    }
}

/// The text at the key, or the default.
pub(crate) fn segment(
    alloc: Global,
    object: Option<&Value>,
    key: &str,
    default: Option<Text>,
) -> Result<Option<Text>, AllocError>
    ensures { IfOk result (λ text. text ≡ segment key.now default (seen object.entry)) }
{
    let Some(value) = member(object, key) else {
        return Ok(default);
    };
    match segment_of(value) {
        Some(text) => Ok(Some(Text::from_slice(alloc, text.as_bytes())?)),
        None => Ok(default),
    }
}
