ghost use Rattle.std.specs.Prelude.{◌≡◌, option_map};
ghost use Rattle.std.specs.List.{list_all};
ghost use Rattle.serde_json.specs.View.{view};
ghost use Rattle.pack_config.specs.Values.{number_of, priority_of, ids_of, hashed_of, which_named, which_of, segment_of, is_segment, is_segment_byte, is_entry_name, is_letter, is_name_byte, is_between};

use pk_types::Which;
use serde_json::Value;

/// A number of 32 bits.
pub(crate) fn count(value: &Value) -> Option<u32>
    ensures { result ≡ number_of (view value.now) }
{
    match value.as_u64() {
        Some(n) if n <= u32::MAX as u64 => Some(n as u32),
        _ => None,
    }
}

pub(crate) fn is_within(least: u32, most: u32, number: Option<u32>) -> bool
    ensures { result ≡ is_between least most number }
{
    match number {
        Some(n) => least <= n && n <= most,
        None => false,
    }
}

pub(crate) fn priority(value: &Value) -> Option<i32>
    ensures { result ≡ priority_of (view value.now) }
{
    match value.as_i64() {
        Some(n) if -1000 <= n && n <= 1000 => Some(n as i32),
        _ => None,
    }
}

/// Whether the numbers of modules and chunks are taken from hashes.
pub(crate) fn hashed(value: &Value) -> Option<bool>
    ensures { result ≡ hashed_of (view value.now) }
{
    match value.as_str() {
        Some(name) => ids(name),
        None => None,
    }
}

fn ids(name: &str) -> Option<bool>
    ensures { result ≡ ids_of name.now }
{
    match name {
        "natural" => Some(false),
        "hashed" => Some(true),
        _ => None,
    }
}

pub(crate) fn which(value: &Value) -> Option<Which>
    ensures { result ≡ which_of (view value.now) }
{
    match value.as_str() {
        Some(name) => named(name),
        None => None,
    }
}

fn named(name: &str) -> Option<Which>
    ensures { result ≡ which_named name.now }
{
    match name {
        "async" => Some(Which::Async),
        "initial" => Some(Which::Initial),
        "all" => Some(Which::All),
        _ => None,
    }
}

pub(crate) fn segment(value: &Value) -> Option<&str>
    ensures { option_map (λ text. text.now) result ≡ segment_of (view value.now) }
{
    match value.as_str() {
        Some(text) if names_segment(text) => Some(text),
        _ => None,
    }
}

fn names_segment(text: &str) -> bool
    ensures { result ≡ is_segment text.now }
{
    !text.is_empty() && text != "." && text != ".." && all_stand_in_segment(text.as_bytes())
}

fn all_stand_in_segment(bytes: &[u8]) -> bool
    ensures { result ≡ list_all is_segment_byte bytes.now }
{
    bytes.iter().all(|b| stands_in_segment(*b))
}

fn stands_in_segment(byte: u8) -> bool
    ensures { result ≡ is_segment_byte byte }
{
    byte >= 32 && byte != 127 && byte != b'/' && byte != b'\\' && byte != b'"' && byte != b'*'
}

pub(crate) fn names_entry(text: &str) -> bool
    ensures { result ≡ is_entry_name text.now }
{
    let bytes = text.as_bytes();
    !bytes.is_empty() && bytes.len() <= 64 && begins_name(bytes[0]) && all_stand_in_name(bytes)
}

fn all_stand_in_name(bytes: &[u8]) -> bool
    ensures { result ≡ list_all is_name_byte bytes.now }
{
    bytes.iter().all(|b| stands_in_name(*b))
}

fn begins_name(byte: u8) -> bool
    ensures { result ≡ is_letter byte }
{
    (b'A' <= byte && byte <= b'Z') || (b'a' <= byte && byte <= b'z')
}

fn stands_in_name(byte: u8) -> bool
    ensures { result ≡ is_name_byte byte }
{
    begins_name(byte) || (b'0' <= byte && byte <= b'9') || byte == b'_' || byte == b'-'
}
