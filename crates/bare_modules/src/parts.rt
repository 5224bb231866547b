// What a token is in a module's text.
ghost use Rattle.std.specs.Prelude.{◌≡◌};
ghost use Rattle.std.specs.List.{list_all};
ghost use Rattle.bare_modules.specs.Parts as spec;
ghost use Rattle.bare_modules.specs.Tokens.{is_blank};

use es_lexer::is_reserved;
use es_tree::{ProgramGoal, TokenKind};

/// What a token is in a module's text.
#[derive(Clone, Copy, Debug, PartialEq, Eq)]
pub enum Part {
    Name,
    /// A name in scripts alone: modules reserve it.
    ScriptName,
    Number,
    String,
    Open,
    Close,
    Comma,
    Semicolon,
    /// The word `import`.
    Import,
    /// What stands in none of the statements.
    Foreign,
}

fn is_blank(c: u8) -> bool
    ensures { result ≡ is_blank c }
{
    c == b'\t' || c == b'\n' || c == b'\r' || c == b' '
}

fn is_plain(c: u8) -> bool
    ensures { result ≡ spec.is_plain c }
{
    c == b'\t' || b' ' <= c && c <= b'~' && c != b'\\'
}

fn is_decimal(c: u8) -> bool
    ensures { result ≡ spec.is_decimal c }
{
    b'0' <= c && c <= b'9'
}

/// Whether nothing but blanks stands in a gap.
pub fn are_blank(gap: &[u8]) -> bool
    ensures { result ≡ list_all is_blank gap.now }
{
    gap.iter().all(|c| is_blank(*c))
}

fn are_plain(word: &[u8]) -> bool
    ensures { result ≡ list_all spec.is_plain word.now }
{
    word.iter().all(|c| is_plain(*c))
}

fn are_decimal(word: &[u8]) -> bool
    ensures { result ≡ list_all spec.is_decimal word.now }
{
    word.iter().all(|c| is_decimal(*c))
}

fn is_special(word: &[u8]) -> bool
    ensures { result ≡ spec.is_special word.now }
{
    word == b"require".as_slice() || word == b"eval".as_slice() || word.starts_with(b"__webpack_")
}

fn name_part(word: &[u8]) -> Part
    ensures { result ≡ spec.name_part word.now }
{
    if !are_plain(word) || is_special(word) {
        Part::Foreign
    } else if !is_reserved(word, ProgramGoal::Module) {
        Part::Name
    } else if !is_reserved(word, ProgramGoal::Script) {
        Part::ScriptName
    } else if word == b"import".as_slice() {
        Part::Import
    } else {
        Part::Foreign
    }
}

fn mark_part(mark: &[u8]) -> Part
    ensures { result ≡ spec.mark_part mark.now }
{
    match mark {
        b"(" => Part::Open,
        b")" => Part::Close,
        b"," => Part::Comma,
        b";" => Part::Semicolon,
        _ => Part::Foreign,
    }
}

/// What a token is, by its kind and its text.
pub fn part_of(kind: TokenKind, word: &[u8]) -> Part
    ensures { result ≡ spec.part_of kind word.now }
{
    match kind {
        TokenKind::IdName => name_part(word),
        TokenKind::Number if are_decimal(word) => Part::Number,
        TokenKind::String if are_plain(word) => Part::String,
        TokenKind::Punctuator => mark_part(word),
        _ => Part::Foreign,
    }
}
