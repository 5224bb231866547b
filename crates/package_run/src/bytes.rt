ghost use Rattle.std.specs.Prelude.{◌<◌};

use std::alloc::{AllocError, Global};

fn digit(byte: u8) -> u8
    ensures { result < 16 }
{
    match byte {
        b'0'..=b'9' => byte - b'0',
        b'a'..=b'f' => byte - b'a' + 10,
        _ => 0,
    }
}

/// The bytes that a word of a line stands for: `%` and two digits, `0` to `9` and `a` to `f`, stand
/// for one byte, and any other byte for itself.
pub(crate) fn read_bytes(alloc: Global, word: &str) -> Result<Vec<u8>, AllocError> {
    let mut bytes = Vec::with_capacity(alloc, word.len())?;
    let mut rest = word.as_bytes();
    loop {
        match rest {
            [] => return Ok(bytes),
            [b'%', high, low, more @ ..] => {
                bytes.push(digit(*high) * 16 + digit(*low))?;
                rest = more;
            }
            [byte, more @ ..] => {
                bytes.push(*byte)?;
                rest = more;
            }
        }
    }
}

fn digit_of(value: u8) -> u8 {
    match value {
        0..=9 => value + b'0',
        10..=15 => value - 10 + b'a',
        _ => b'?',
    }
}

/// Writes the bytes in that form: those of control characters as `%` and two digits.
pub(crate) fn put_bytes(out: &mut Vec<u8>, bytes: &[u8]) -> Result<(), AllocError> {
    for byte in bytes {
        if *byte < 32 || *byte == 127 || *byte == b'%' {
            out.push(b'%')?;
            out.push(digit_of(*byte / 16))?;
            out.push(digit_of(*byte % 16))?;
        } else {
            out.push(*byte)?;
        }
    }
    Ok(())
}
