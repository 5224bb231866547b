// The tokens of each kind.
ghost use Rattle.std.specs.Prelude.{◌≡◌, ◌≤◌, ◌<◌, length, IfOk, Err};
ghost use Rattle.es_tree.specs.declared.tokens.TokenKind.TheVariants as kinds;
ghost use Rattle.es_tree.specs.Lexical as spec;
ghost use Rattle.es_tree.specs.Marks as marks;
ghost use Rattle.es_tree.specs.Units as units;
ghost use Rattle.es_tree.specs.Utf8 as utf8;
ghost use Rattle.es_lexer.specs.Fits.{Fits, FitsOrEnds};

use crate::characters::is_digit;
use crate::escapes::begins;
use crate::marks::mark_length;
use crate::numbers::number_length;
use crate::units::{Unit, name_length, name_start, regex_unit, run};
use crate::utf8::{behind, byte};
use es_tree::{Goal, TokenKind};

/// The kind and the length of what a text begins with, or how far it can be read.
type Lexeme = Result<(TokenKind, usize), usize>;

fn stopped(text: &[u8], size: usize) -> usize
    requires { size ≤ length text.now }
    ensures { spec.stopped text.now size ≡ Err result }
{
    if byte(behind(text, size), 0) == b'\\' {
        size + 1
    } else {
        size
    }
}

#[inline(always)]
#[tactic(auto, unfolding(es_tree::specs::Lexical::identifier_length))]
fn identifier_length(text: &[u8]) -> usize
    ensures value { result ≡ spec.identifier_length text.now }
    ensures within { result ≤ length text.now }
{
    let first = name_start(text);
    if first == 0 {
        0
    } else {
        first + name_length(behind(text, first))
    }
}

fn some_of(kind: TokenKind, size: usize) -> Lexeme
    ensures { result ≡ spec.some_of kind size }
{
    if size == 0 { Err(0) } else { Ok((kind, size)) }
}

#[inline(always)]
#[tactic(auto, unfolding(es_tree::specs::Lexical::string))]
fn string(text: &[u8]) -> Lexeme
    requires quoted { 0 < utf8.byte text.now 0 }
    ensures value { result ≡ spec.string text.now }
    ensures fits { IfOk result (Fits text.now) }
{
    let quote = byte(text, 0);
    let size = 1 + run(Unit::String(quote), behind(text, 1));
    if byte(behind(text, size), 0) == quote {
        Ok((TokenKind::String, size + 1))
    } else {
        Err(stopped(text, size))
    }
}

#[tactic(auto, unfolding(es_tree::specs::Lexical::template))]
fn template(text: &[u8]) -> Lexeme
    requires begun { 0 < length text.now }
    ensures value { result ≡ spec.template text.now }
    ensures fits { IfOk result (Fits text.now) }
{
    let size = 1 + run(Unit::Template, behind(text, 1));
    let rest = behind(text, size);
    if byte(rest, 0) == b'`' {
        Ok((TokenKind::Template, size + 1))
    } else if begins(rest, b'$', b'{') {
        Ok((TokenKind::Template, size + 2))
    } else {
        Err(stopped(text, size))
    }
}

/// How many bytes of characters, escapes and classes of a regular expression a text begins with.
fn regex_length(text: &[u8]) -> usize
    ensures value { result ≡ units.run units.regex_unit text.now }
    ensures within { result ≤ length text.now }
{
    let mut at = 0;
    'units: loop {
        let size = regex_unit(behind(text, at));
        if size == 0 {
            return at;
        }
        at += size;
    }
}

#[tactic(auto, unfolding(es_tree::specs::Lexical::regex_stopped))]
fn regex_stopped(text: &[u8], size: usize) -> usize
    requires { size ≤ length text.now }
    ensures { spec.regex_stopped text.now size ≡ Err result }
{
    if byte(behind(text, size), 0) == b'[' {
        stopped(text, size + 1 + run(Unit::Class, behind(text, size + 1)))
    } else {
        stopped(text, size)
    }
}

#[tactic(auto, unfolding(es_tree::specs::Lexical::regex))]
fn regex(text: &[u8]) -> Lexeme
    requires begun { 0 < length text.now }
    ensures value { result ≡ spec.regex text.now }
    ensures fits { IfOk result (Fits text.now) }
{
    let size = 1 + regex_length(behind(text, 1));
    if byte(behind(text, size), 0) == b'/' {
        let flags = run(Unit::Flag, behind(text, size + 1));
        Ok((TokenKind::Regex, size + 1 + flags))
    } else {
        Err(regex_stopped(text, size))
    }
}

#[tactic(auto, unfolding(es_tree::specs::Lexical::private))]
fn private(text: &[u8]) -> Lexeme
    ensures value { result ≡ spec.private text.now }
    ensures fits { IfOk result (Fits text.now) }
{
    let size = identifier_length(behind(text, 1));
    if size == 0 {
        Err(1)
    } else {
        Ok((TokenKind::Private, 1 + size))
    }
}

#[tactic(auto, unfolding(es_tree::specs::Lexical::open_comment))]
fn open_comment(text: &[u8]) -> usize
    requires begun { 2 ≤ length text.now }
    ensures { spec.open_comment text.now ≡ Err result }
{
    2 + run(Unit::Comment, behind(text, 2))
}

#[inline(always)]
fn mark(text: &[u8]) -> Lexeme
    ensures value { result ≡ spec.some_of kinds.Punctuator (marks.mark_length text.now) }
    ensures fits { IfOk result (Fits text.now) }
{
    some_of(TokenKind::Punctuator, mark_length(text))
}

fn number(text: &[u8]) -> Lexeme
    ensures value { result ≡ spec.some_of kinds.Number (spec.number_length text.now) }
    ensures fits { IfOk result (Fits text.now) }
{
    some_of(TokenKind::Number, number_length(text))
}

#[tactic(auto, unfolding(es_tree::specs::Lexical::word_or_mark))]
fn word_or_mark(text: &[u8]) -> Lexeme
    ensures value { result ≡ spec.word_or_mark text.now }
    ensures fits { IfOk result (Fits text.now) }
{
    let size = identifier_length(text);
    if size == 0 {
        mark(text)
    } else {
        Ok((TokenKind::IdName, size))
    }
}

fn slash(goal: Goal, text: &[u8]) -> Lexeme
    requires begun { 0 < length text.now }
    ensures value { result ≡ spec.slash goal text.now }
    ensures fits { IfOk result (Fits text.now) }
{
    match goal {
        Goal::Operand => regex(text),
        Goal::Operator | Goal::Template => mark(text),
    }
}

fn brace(goal: Goal, text: &[u8]) -> Lexeme
    requires begun { 0 < length text.now }
    ensures value { result ≡ spec.brace goal text.now }
    ensures fits { IfOk result (Fits text.now) }
{
    match goal {
        Goal::Operand | Goal::Operator => mark(text),
        Goal::Template => template(text),
    }
}

/// The kind is told by the first characters.
#[tactic(auto, unfolding(es_tree::specs::Lexical::lexeme))]
pub fn lexeme(goal: Goal, text: &[u8]) -> Lexeme
    ensures value { result ≡ spec.lexeme goal text.now }
    ensures fits { IfOk result (FitsOrEnds text.now) }
{
    let [c, rest @ ..] = text else {
        return Ok((TokenKind::End, 0));
    };
    let c = *c;
    if c == b'/' {
        if byte(rest, 0) == b'*' {
            Err(open_comment(text))
        } else {
            slash(goal, text)
        }
    } else if c == b'}' {
        brace(goal, text)
    } else if c == b'"' || c == b'\'' {
        string(text)
    } else if c == b'`' {
        template(text)
    } else if c == b'#' {
        private(text)
    } else if is_digit(10, c) || c == b'.' && is_digit(10, byte(rest, 0)) {
        number(text)
    } else {
        word_or_mark(text)
    }
}
