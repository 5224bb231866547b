// The character with which a text of bytes begins.
ghost use Rattle.std.specs.Prelude.{◌≡◌, ◌≤◌, ◌<◌, ◌+◌, ◌-◌, length, drop};
ghost use Rattle.es_tree.specs.Utf8 as spec;
ghost use Rattle.es_lexer.specs.Wide.{wide_character};

/// The byte at an index, or 0 behind the end.
#[inline]
pub fn byte(text: &[u8], i: usize) -> u8
    ensures value { result ≡ spec.byte text.now i }
    ensures inside { 0 < result → i < length text.now }
{
    if i < text.len() { text[i] } else { 0 }
}

/// What stands behind an index, which is nothing behind the end.
#[inline]
pub fn behind(text: &[u8], at: usize) -> &[u8]
    ensures value { result.now ≡ drop at text.now }
    ensures length { length result.now ≡ length text.now - at }
{
    if at <= text.len() {
        let (_, rest) = text.split_at(at);
        rest
    } else {
        &[]
    }
}

fn is_tail(b: u32) -> bool
    ensures { result ≡ spec.is_tail b }
{
    0x80 <= b && b < 0xC0
}

fn of_two(a: u32, b: u32) -> (u32, usize)
    ensures { result ≡ spec.of_two a b }
{
    if 0xC2 <= a && is_tail(b) {
        (a % 32 * 64 + b % 64, 2)
    } else {
        (0, 0)
    }
}

fn of_three(a: u32, b: u32, c: u32) -> (u32, usize)
    ensures { result ≡ spec.of_three a b c }
{
    let code = a % 16 * 4096 + b % 64 * 64 + c % 64;
    if is_tail(b) && is_tail(c) && 0x800 <= code && !(0xD800 <= code && code < 0xE000) {
        (code, 3)
    } else {
        (0, 0)
    }
}

fn of_four(a: u32, b: u32, c: u32, d: u32) -> (u32, usize)
    ensures { result ≡ spec.of_four a b c d }
{
    let code = a % 8 * 262144 + b % 64 * 4096 + c % 64 * 64 + d % 64;
    if is_tail(b) && is_tail(c) && is_tail(d) && 0x10000 <= code && code <= 0x10FFFF {
        (code, 4)
    } else {
        (0, 0)
    }
}

// A character that begins with a byte beyond ASCII.
fn wide_character(a: u32, rest: &[u8]) -> (u32, usize)
    ensures value { result ≡ wide_character a rest.now }
    ensures within { result.1 ≤ length rest.now + 1 }
{
    if a < 0xE0 {
        of_two(a, byte(rest, 0) as u32)
    } else if a < 0xF0 {
        of_three(a, byte(rest, 0) as u32, byte(rest, 1) as u32)
    } else if a < 0xF8 {
        of_four(
            a,
            byte(rest, 0) as u32,
            byte(rest, 1) as u32,
            byte(rest, 2) as u32,
        )
    } else {
        (0, 0)
    }
}

/// The code point and the bytes of the character with which a text begins: no bytes where there is none.
#[inline(always)]
#[tactic(auto, unfolding(es_tree::specs::Utf8::character))]
pub fn character(text: &[u8]) -> (u32, usize)
    ensures value { result ≡ spec.character text.now }
    ensures within { result.1 ≤ length text.now }
{
    let [a, rest @ ..] = text else {
        return (0, 0);
    };
    let a = *a as u32;
    if a < 0x80 {
        (a, 1)
    } else {
        wide_character(a, rest)
    }
}
