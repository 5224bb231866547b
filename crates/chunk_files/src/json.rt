// The factories of JSON modules.
ghost use Rattle.std.specs.Prelude.{◌≡◌, ◌<◌, ◌≤◌, ◌*◌, length, OnOk};
ghost use Rattle.emit_chunk.specs.Factories.{id_text};
ghost use Rattle.chunk_files.specs.Factories.{json_factory, json_text};
ghost use Rattle.chunk_files.specs.Json as spec;
ghost use Rattle.chunk_files.specs.Json.{escape_of, escaped};
ghost use Rattle.chunk_files.specs.Pens.{penned};

use crate::ids::put_id;
use crate::material::Material;
use crate::pen::Pen;
use std::alloc::AllocError;

// The text without a U+FEFF at its front.
fn without_mark(bytes: &[u8]) -> &[u8]
    ensures { result.now ≡ spec.without_mark bytes.now }
{
    if bytes.starts_with(&[239, 187, 191]) {
        &bytes[3..]
    } else {
        bytes
    }
}

// Writes a byte as it stands between single quotes.
fn put_byte(pen: &mut Pen, byte: u8) -> Result<(), AllocError>
    ensures { OnOk result (pen.new ≡ penned pen.old (escape_of byte)) }
{
    match byte {
        92 => pen.put(b"\\\\"),
        39 => pen.put(b"\\'"),
        10 => pen.put(b"\\n"),
        13 => pen.put(b"\\r"),
        _ => pen.put(&[byte]),
    }
}

// Writes bytes as they stand between single quotes.
#[tactic(auto, using(crate::proofs::Penning::penned_twice, crate::proofs::Penning::penned_nothing))]
fn put_escaped(pen: &mut Pen, bytes: &[u8]) -> Result<(), AllocError>
    ensures { OnOk result (pen.new ≡ penned pen.old (escaped bytes.now)) }
{
    for byte in bytes {
        put_byte(pen, *byte)?;
    }
    Ok(())
}

// How many bytes a byte has between single quotes.
fn escape_len(byte: u8) -> u64
    ensures len { result ≡ length (escape_of byte) }
    ensures short { result ≤ 2 }
{
    match byte {
        92 | 39 | 10 | 13 => 2,
        _ => 1,
    }
}

// How many bytes these have between single quotes.
fn escaped_len(bytes: &[u8]) -> u64
    ensures { result ≡ length (escaped bytes.now) }
{
    let mut len = 0;
    for byte in bytes {
        len += escape_len(*byte);
    }
    len
}

/// Writes the factory of a JSON module.
pub(crate) fn put_json(
    pen: &mut Pen,
    material: &Material<'_>,
    module: u32,
    label: &[u8],
) -> Result<(), AllocError>
    requires { «module» < length material.now.graph.rows }
    ensures { OnOk result (pen.new ≡ penned pen.old
        (json_factory (id_text material.now.plan «module») label.now (json_text material.now «module»))) }
{
    let text = without_mark(material.source(module));
    pen.put(b"[")?;
    put_id(pen, material, module)?;
    pen.put(b", 0, [], function (module) {\n/*j \"")?;
    pen.put(label)?;
    pen.put(b"\" ")?;
    pen.put_number(escaped_len(text))?;
    pen.put(b"*/\nmodule.exports = JSON.parse('")?;
    put_escaped(pen, text)?;
    pen.put(b"');\n}]")
}
