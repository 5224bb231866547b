ghost use Rattle.std.specs.Prelude.{◌≡◌, ◌≤◌, ◌<◌, length, IfOk, false};
ghost use Rattle.std.specs.Str.{bytes_eq};
ghost use Rattle.node_resolve.specs.Requests.{is_relative as relative, is_nowhere as nowhere, is_bad_import as bad_import, names_folder as folder, kind_of as kind, one_len, two_len, is_scoped as scoped, is_scope_alone as scope_alone, name_len as package_len, name_of as package_name, key_of as export_key};

use pk_types::Text;
use std::alloc::{AllocError, Global};

/// How a request is resolved.
#[derive(Clone, Copy, Debug, PartialEq, Eq)]
pub(crate) enum RequestKind {
    Relative,
    Nowhere,
    Import,
    BadImport,
    Bare,
}

fn is(text: &[u8], word: &[u8]) -> bool
    ensures { result ≡ bytes_eq text.now word.now }
{
    text == word
}

fn is_relative(request: &[u8]) -> bool
    ensures { result ≡ relative request.now }
{
    is(request, b".")
        || is(request, b"..")
        || request.starts_with(b"./")
        || request.starts_with(b"../")
}

/// Whether a relative request can't name a file.
pub(crate) fn names_folder(request: &[u8]) -> bool
    ensures { result ≡ folder request.now }
{
    is(request, b".")
        || is(request, b"..")
        || request.ends_with(b"/")
        || request.ends_with(b"/.")
        || request.ends_with(b"/..")
}

fn is_nowhere(request: &[u8]) -> bool
    ensures { result ≡ nowhere request.now }
{
    is(request, b"") || request.starts_with(b"/")
}

fn is_bad_import(request: &[u8]) -> bool
    ensures { result ≡ bad_import request.now }
{
    is(request, b"#") || request.starts_with(b"#/")
}

pub(crate) fn kind_of(request: &[u8]) -> RequestKind
    ensures { result ≡ kind request.now }
{
    if is_relative(request) {
        return RequestKind::Relative;
    }
    if is_nowhere(request) {
        return RequestKind::Nowhere;
    }
    if is_bad_import(request) {
        return RequestKind::BadImport;
    }
    if request.starts_with(b"#") {
        return RequestKind::Import;
    }
    RequestKind::Bare
}

/// How many bytes stand before the first slash.
fn part_len(text: &[u8]) -> usize
    ensures { result ≡ one_len text.now }
{
    for at in 0..text.len() {
        if text[at] == b'/' {
            return at;
        }
    }
    text.len()
}

fn two_parts_len(request: &[u8]) -> usize
    ensures bound { result ≤ length request.now }
    ensures len { one_len request.now < length request.now → result ≡ two_len request.now }
{
    let first = part_len(request);
    if first >= request.len() {
        return first;
    }
    first + 1 + part_len(&request[first + 1..])
}

/// Whether a request is a scope with no package.
pub(crate) fn is_scope_alone(request: &[u8]) -> bool
    ensures { result ≡ scope_alone request.now }
{
    request.starts_with(b"@") && part_len(request) == request.len()
}

/// How many bytes the name of the package has.
fn name_len(request: &[u8]) -> usize
    requires { scope_alone request.now ≡ false }
    ensures bound { result ≤ length request.now }
    ensures len { result ≡ package_len request.now }
{
    if request.starts_with(b"@") {
        two_parts_len(request)
    } else {
        part_len(request)
    }
}

/// The name of the package that a bare request names.
pub(crate) fn name_of(request: &[u8]) -> &[u8]
    requires { scope_alone request.now ≡ false }
    ensures { result.now ≡ package_name request.now }
{
    &request[..name_len(request)]
}

/// The key of a bare request in the exports of its package.
pub(crate) fn key_of(alloc: Global, request: &[u8]) -> Result<Text, AllocError>
    requires { scope_alone request.now ≡ false }
    ensures { IfOk result (λ key. key ≡ export_key request.now) }
{
    let mut key = Vec::with_capacity(alloc, request.len())?;
    key.push(b'.')?;
    key.extend_from_slice(&request[name_len(request)..])?;
    Ok(Text::from_vec(key))
}
