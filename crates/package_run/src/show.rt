use crate::bytes::put_bytes;
use pk_types::Text;
use pkg_manifest::{Json, Manifest, ManifestFault, SideEffects};
use std::alloc::AllocError;

/// Writes a value in a short form: a number is `#`.
pub(crate) fn put_value(out: &mut Vec<u8>, value: &Json) -> Result<(), AllocError> {
    match value {
        Json::Null => out.extend_from_slice(b"null"),
        Json::Bool(true) => out.extend_from_slice(b"true"),
        Json::Bool(false) => out.extend_from_slice(b"false"),
        Json::Number => out.extend_from_slice(b"#"),
        Json::Text(text) => quote(out, text.as_slice()),
        Json::List(items) => {
            out.extend_from_slice(b"[")?;
            for item in items.as_slice() {
                put_value(out, item)?;
                out.extend_from_slice(b",")?;
            }
            out.extend_from_slice(b"]")
        }
        Json::Object(members) => {
            out.extend_from_slice(b"{")?;
            for member in members.as_slice() {
                quote(out, member.name.as_slice())?;
                out.extend_from_slice(b":")?;
                put_value(out, &member.value)?;
                out.extend_from_slice(b",")?;
            }
            out.extend_from_slice(b"}")
        }
    }
}

fn quote(out: &mut Vec<u8>, text: &[u8]) -> Result<(), AllocError> {
    out.extend_from_slice(b"\"")?;
    put_bytes(out, text)?;
    out.extend_from_slice(b"\"")
}

fn put_text(out: &mut Vec<u8>, text: &Option<Text>) -> Result<(), AllocError> {
    match text {
        Some(text) => put_bytes(out, text.as_slice())?,
        None => out.extend_from_slice(b"-")?,
    }
    out.extend_from_slice(b" ")
}

/// Writes a value, or `-` where there is none.
pub(crate) fn put_field(out: &mut Vec<u8>, value: &Option<Json>) -> Result<(), AllocError> {
    match value {
        Some(value) => put_value(out, value),
        None => out.extend_from_slice(b"-"),
    }
}

fn put_effects(out: &mut Vec<u8>, effects: &SideEffects) -> Result<(), AllocError> {
    match effects {
        SideEffects::Unstated => out.extend_from_slice(b"unstated"),
        SideEffects::Free => out.extend_from_slice(b"free"),
        SideEffects::Listed(texts) => {
            out.extend_from_slice(b"listed")?;
            for text in texts.as_slice() {
                out.extend_from_slice(b" ")?;
                put_bytes(out, text.as_slice())?;
            }
            Ok(())
        }
    }
}

/// Writes each field of a manifest.
pub(crate) fn put_manifest(out: &mut Vec<u8>, found: &Manifest) -> Result<(), AllocError> {
    put_text(out, &found.name)?;
    put_text(out, &found.main)?;
    put_text(out, &found.module)?;
    out.extend_from_slice(if found.is_module { b"es " } else { b"js " })?;
    put_field(out, &found.exports)?;
    out.extend_from_slice(b" ")?;
    put_field(out, &found.imports)?;
    out.extend_from_slice(b" ")?;
    put_effects(out, &found.side_effects)
}

pub(crate) fn put_fault(out: &mut Vec<u8>, fault: ManifestFault) -> Result<(), AllocError> {
    out.extend_from_slice(match fault {
        ManifestFault::NotJson => b"not json".as_slice(),
        ManifestFault::NotObject => b"not object".as_slice(),
        ManifestFault::NoMemory => b"no memory".as_slice(),
    })
}
