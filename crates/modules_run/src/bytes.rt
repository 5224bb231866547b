ghost use Rattle.std.specs.Prelude.{◌<◌};

use std::alloc::{AllocError, Global};

fn digit(byte: u8) -> u8
    ensures { result < 16 }
{
    match byte {
        b'0'..=b'9' => byte - b'0',
        b'A'..=b'F' => byte - b'A' + 10,
        _ => 0,
    }
}

/// The bytes that a line stands for: `|` for LF, `~` and two digits, `0` to `9` and `A` to `F`, for one byte, and any
/// other byte for itself.
pub(crate) fn read_bytes(alloc: Global, line: &str) -> Result<Vec<u8>, AllocError> {
    let mut bytes = Vec::with_capacity(alloc, line.len())?;
    let mut rest = line.as_bytes();
    loop {
        match rest {
            [] => return Ok(bytes),
            [b'~', high, low, more @ ..] => {
                bytes.push(digit(*high) * 16 + digit(*low))?;
                rest = more;
            }
            [b'|', more @ ..] => {
                bytes.push(b'\n')?;
                rest = more;
            }
            [byte, more @ ..] => {
                bytes.push(*byte)?;
                rest = more;
            }
        }
    }
}

fn digit_of(value: u8) -> u8 {
    match value {
        0..=9 => value + b'0',
        10..=15 => value - 10 + b'A',
        _ => b'?',
    }
}

/// Writes the bytes in that form: those of other control characters, `|` and `~` by two digits.
pub(crate) fn put_bytes(out: &mut Vec<u8>, bytes: &[u8]) -> Result<(), AllocError> {
    for byte in bytes {
        match *byte {
            b'\n' => out.push(b'|')?,
            b' '..=b'{' | b'}' => out.push(*byte)?,
            byte => {
                out.push(b'~')?;
                out.push(digit_of(byte / 16))?;
                out.push(digit_of(byte % 16))?;
            }
        }
    }
    Ok(())
}
