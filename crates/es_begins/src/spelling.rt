//! Spellings, and the lists of them in the grammar. The longer lists go by the first byte.
ghost use Rattle.std.specs.Prelude.{◌≡◌, [], ◌∷◌, bytes_eq, codes};
ghost use Rattle.std.specs.List.{list_any};
ghost use Rattle.es_grammar.specs.Semicolons.{assignment_marks, binary_marks};
ghost use Rattle.es_grammar.specs.Operators.{loose_marks};

/// Whether both are spelled alike.
pub fn is(spelling: &[u8], other: &[u8]) -> bool
    ensures { result ≡ bytes_eq spelling.now other.now }
{
    spelling == other
}

// An operator between two operands.
#[tactic(auto, unfolding(es_grammar::specs::Semicolons::binary_marks))]
pub(crate) fn is_binary_mark(mark: &[u8]) -> bool
    ensures { result ≡ list_any (bytes_eq mark.now) binary_marks }
{
    let [first, ..] = mark else {
        return false;
    };
    match *first {
        b'?' => is(mark, b"??"),
        b'|' => is(mark, b"||") || is(mark, b"|"),
        b'&' => is(mark, b"&&") || is(mark, b"&"),
        b'=' => is(mark, b"==") || is(mark, b"==="),
        b'!' => is(mark, b"!=") || is(mark, b"!=="),
        b'<' => is(mark, b"<") || is(mark, b"<=") || is(mark, b"<<"),
        b'>' => is(mark, b">") || is(mark, b">=") || is(mark, b">>") || is(mark, b">>>"),
        b'*' => is(mark, b"*") || is(mark, b"**"),
        b'^' => is(mark, b"^"),
        b'+' => is(mark, b"+"),
        b'-' => is(mark, b"-"),
        b'/' => is(mark, b"/"),
        b'%' => is(mark, b"%"),
        _ => false,
    }
}

// An operator that assigns, other than `=`.
#[tactic(auto, unfolding(es_grammar::specs::Semicolons::assignment_marks))]
pub(crate) fn is_assignment_mark(mark: &[u8]) -> bool
    ensures { result ≡ list_any (bytes_eq mark.now) assignment_marks }
{
    let [first, ..] = mark else {
        return false;
    };
    match *first {
        b'*' => is(mark, b"*=") || is(mark, b"**="),
        b'<' => is(mark, b"<<="),
        b'>' => is(mark, b">>=") || is(mark, b">>>="),
        b'&' => is(mark, b"&=") || is(mark, b"&&="),
        b'|' => is(mark, b"|=") || is(mark, b"||="),
        b'?' => is(mark, b"??="),
        b'/' => is(mark, b"/="),
        b'%' => is(mark, b"%="),
        b'+' => is(mark, b"+="),
        b'-' => is(mark, b"-="),
        b'^' => is(mark, b"^="),
        _ => false,
    }
}

// An operator that binds less than `in`.
#[tactic(auto, unfolding(es_grammar::specs::Operators::loose_marks))]
pub(crate) fn is_loose_mark(mark: &[u8]) -> bool
    ensures { result ≡ list_any (bytes_eq mark.now) loose_marks }
{
    let [first, ..] = mark else {
        return false;
    };
    match *first {
        b'=' => is(mark, b"==") || is(mark, b"==="),
        b'!' => is(mark, b"!=") || is(mark, b"!=="),
        b'&' => is(mark, b"&") || is(mark, b"&&"),
        b'|' => is(mark, b"|") || is(mark, b"||"),
        b'^' => is(mark, b"^"),
        b'?' => is(mark, b"??"),
        _ => false,
    }
}
