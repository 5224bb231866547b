//! Names of modules, and texts on a line.

use pk_types::NameKind;
use std::alloc::{AllocError, Global};

/// What the end of a module's name says of it.
pub(crate) fn kind_of_name(name: &str) -> NameKind {
    match name.rsplit_once('.') {
        Some((_, "mjs")) => NameKind::Module,
        Some((_, "cjs")) => NameKind::Common,
        Some((_, "json")) => NameKind::Json,
        _ => NameKind::Either,
    }
}

/// The text that a line writes: `\n` is a line feed there, and `\\` a backslash.
pub(crate) fn written(alloc: Global, line: &str) -> Result<Vec<u8>, AllocError> {
    let mut text = Vec::with_capacity(alloc, line.len())?;
    let mut escaped = false;
    for byte in line.as_bytes() {
        if escaped {
            text.push(if *byte == b'n' { b'\n' } else { *byte })?;
            escaped = false;
        } else if *byte == b'\\' {
            escaped = true;
        } else {
            text.push(*byte)?;
        }
    }
    Ok(text)
}
