// The forms of a spelling.
ghost use Rattle.std.specs.Prelude.{◌≡◌, IfOk};
ghost use Rattle.std.specs.Str.{bytes_eq};
ghost use Rattle.pk_types.specs.Resolving.{default_name};
ghost use Rattle.module_spelling.specs.Spelled.{called, member_of};

use itoa::Buffer;
use pk_types::Text;
use std::alloc::{AllocError, Global};

pub fn is_default(name: &[u8]) -> bool
    ensures { result ≡ bytes_eq name.now default_name }
{
    name == b"default".as_slice()
}

// A call of the bundle's runtime with an id.
fn call(alloc: Global, head: &[u8], id: u32) -> Result<Vec<u8>, AllocError>
    ensures { IfOk result (λ text. text.items ≡ called head.now id) }
{
    let mut buffer = Buffer::new();
    let mut text = Vec::from_slice(alloc, head)?;
    text.extend_from_slice(buffer.format(id).as_bytes())?;
    text.extend_from_slice(b")")?;
    Ok(text)
}

pub fn call_text(alloc: Global, head: &[u8], id: u32) -> Result<Text, AllocError>
    ensures { IfOk result (λ text. text ≡ called head.now id) }
{
    let text = call(alloc, head, id)?;
    Ok(Text::from_vec(text))
}

/// A name of what a call of the bundle's runtime gives.
pub fn member_text(alloc: Global, head: &[u8], id: u32, name: &[u8]) -> Result<Text, AllocError>
    ensures { IfOk result (λ text. text ≡ member_of head.now id name.now) }
{
    let mut text = call(alloc, head, id)?;
    text.extend_from_slice(b".")?;
    text.extend_from_slice(name)?;
    Ok(Text::from_vec(text))
}
