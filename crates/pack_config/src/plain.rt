//! Reads a JSON text in which `-0` is the integer 0.
ghost use Rattle.std.specs.Prelude.{◌≡◌, ◌≢◌, None, Some, IfOk, IfErr};
ghost use Rattle.json.specs.Lex.{tokens};
ghost use Rattle.json.specs.Reads.{token_of};
ghost use Rattle.json.specs.Print.{IsPrintable};
ghost use Rattle.serde_json.specs.View.{view};
ghost use Rattle.pack_config.specs.Reading.{plain, IsPlain, value_of_text};

use crate::fault::ConfigFault;
use json::{Reader, Scratch, Token, Writer};
use serde_json::Value;
use std::alloc::{AllocError, Global};

/// The value of a text.
pub(crate) fn read_value(alloc: Global, text: &str) -> Result<Value, ConfigFault>
    ensures value { IfOk result (λ value. value_of_text text.now ≡ Some (view value)) }
    ensures refused { IfErr result (λ e. e ≢ ConfigFault.NoMemory
        → (e ≡ ConfigFault.BadJson) × (value_of_text text.now ≡ None)) }
{
    let plain = with_plain_zeros(alloc, text)?;
    let Some(plain) = plain else {
        return Err(ConfigFault::BadJson);
    };
    match Value::from_str(alloc, plain.as_str()) {
        Ok(value) => Ok(value),
        Err(refused) if refused.is_memory() => Err(ConfigFault::NoMemory),
        Err(_) => Err(ConfigFault::BadJson),
    }
}

/// A text with the same tokens, but `0` for each `-0`. None where the text is not made of tokens.
fn with_plain_zeros(alloc: Global, text: &str) -> Result<Option<String>, AllocError>
    ensures { IfOk result (λ found. IsPlain (tokens text.now) found) }
{
    let mut scratch = Scratch::new(alloc);
    let mut reader = Reader::new(text, &mut scratch)?;
    let mut writer = Writer::new(Vec::with_capacity(alloc, text.len())?);
    while let Some(token) = reader.next() {
        if let Token::Bad = token {
            return Ok(None);
        }
        writer.token(plain(token))?;
    }
    let bytes = writer.into_inner();
    match String::from_utf8(bytes) {
        Ok(text) => Ok(Some(text)),
        Err(_) => unreachable!(),
    }
}

fn plain(token: Token<'_>) -> Token<'_>
    requires { IsPrintable (token_of token) }
    ensures value { token_of result ≡ plain (token_of token.entry) }
    ensures printable { IsPrintable (token_of result) }
{
    match token {
        Token::Number("-0") => Token::Number("0"),
        _ => token,
    }
}
