// The classes of source characters, by their code points.
ghost use Rattle.std.specs.Prelude.{◌≡◌, ◌≤◌, ◌&&◌, ◌||◌, ◌==◌};
ghost use Rattle.std.specs.Char.{digit_value, is_ascii_alphabetic, is_ascii_alphanumeric};
ghost use Rattle.es_tree.specs.Characters as spec;
ghost use Rattle.unicode_ident.specs.Ident as ident;

#[tactic(auto, unfolding(es_tree::specs::Characters::is_white_space))]
fn is_white_space(c: u32) -> bool
    ensures { result ≡ spec.is_white_space c }
{
    c == 0x9
        || c == 0xB
        || c == 0xC
        || c == 0x20
        || c == 0xA0
        || c == 0x1680
        || 0x2000 <= c && c <= 0x200A
        || c == 0x202F
        || c == 0x205F
        || c == 0x3000
        || c == 0xFEFF
}

#[tactic(auto, unfolding(es_tree::specs::Characters::is_line_terminator))]
fn is_line_terminator(c: u32) -> bool
    ensures { result ≡ spec.is_line_terminator c }
{
    c == 0xA || c == 0xD || c == 0x2028 || c == 0x2029
}

#[tactic(auto, unfolding(es_tree::specs::Characters::is_line_character))]
pub fn is_line_character(c: u32) -> bool
    ensures { result ≡ spec.is_line_character c }
{
    !is_line_terminator(c)
}

#[tactic(auto, unfolding(es_tree::specs::Characters::is_gap_character))]
pub fn is_gap_character(c: u32) -> bool
    ensures { result ≡ spec.is_gap_character c }
{
    is_white_space(c) || is_line_terminator(c)
}

fn is_xid_start(c: u32) -> bool
    ensures { result ≡ (spec.is_scalar c && ident.is_xid_start c) }
{
    match char::from_u32(c) {
        Some(ch) => unicode_ident::is_xid_start(ch),
        None => false,
    }
}

fn is_xid_continue(c: u32) -> bool
    ensures { result ≡ (spec.is_scalar c && ident.is_xid_continue c) }
{
    match char::from_u32(c) {
        Some(ch) => unicode_ident::is_xid_continue(ch),
        None => false,
    }
}

#[inline]
fn is_ascii_start(c: u8) -> bool
    ensures { result ≡ (c == 0x24 || c == 0x5F || is_ascii_alphabetic c) }
{
    c == b'$' || c == b'_' || c.is_ascii_alphabetic()
}

#[inline]
fn is_ascii_part(c: u8) -> bool
    ensures { result ≡ (c == 0x24 || (is_ascii_alphanumeric c || c == 0x5F)) }
{
    c == b'$' || (c.is_ascii_alphanumeric() || c == b'_')
}

#[tactic(auto, unfolding(es_tree::specs::Characters::is_identifier_start))]
fn is_wide_start(c: u32) -> bool
    ensures { result ≡ spec.is_identifier_start c }
{
    c == 0x24 || c == 0x5F || is_xid_start(c)
}

#[tactic(auto, unfolding(es_tree::specs::Characters::is_identifier_part))]
fn is_wide_part(c: u32) -> bool
    ensures { result ≡ spec.is_identifier_part c }
{
    c == 0x24 || c == 0x200C || c == 0x200D || is_xid_continue(c)
}

#[inline]
#[tactic(auto, using(crate::proofs::Ascii::ascii_start))]
pub fn is_identifier_start(c: u32) -> bool
    ensures { result ≡ spec.is_identifier_start c }
{
    if c < 0x80 {
        is_ascii_start(c as u8)
    } else {
        is_wide_start(c)
    }
}

#[inline]
#[tactic(auto, using(crate::proofs::Ascii::ascii_part))]
pub fn is_identifier_part(c: u32) -> bool
    ensures { result ≡ spec.is_identifier_part c }
{
    if c < 0x80 {
        is_ascii_part(c as u8)
    } else {
        is_wide_part(c)
    }
}

/// The value of a digit or a letter, and 36 for any other byte.
pub fn digit_value(c: u8) -> u32
    ensures value { result ≡ digit_value c }
    ensures small { result ≤ 36 }
{
    if c < b'0' {
        36
    } else if c <= b'9' {
        c as u32 - 48
    } else if c < b'A' {
        36
    } else if c <= b'Z' {
        c as u32 - 55
    } else if c < b'a' {
        36
    } else if c <= b'z' {
        c as u32 - 87
    } else {
        36
    }
}

#[inline]
pub fn is_digit(radix: u32, c: u8) -> bool
    ensures { result ≡ spec.is_digit radix c }
{
    c >= b'0' && digit_value(c) < radix
}
