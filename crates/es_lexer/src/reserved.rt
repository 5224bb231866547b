ghost use Rattle.std.specs.Prelude.{◌≡◌, bytes_eq};
ghost use Rattle.std.specs.List.{list_any};
ghost use Rattle.es_tree.specs.ReservedWords as spec;

use es_tree::ProgramGoal;

/// Whether an identifier name, given as it is decoded, is a reserved word, and so no name, in programs of this kind.
#[tactic(auto, using(es_tree::proofs::ReservedLaws::is_reserved_in_scripts, es_tree::proofs::ReservedLaws::is_reserved_in_modules))]
pub fn is_reserved(word: &[u8], goal: ProgramGoal) -> bool
    ensures { result ≡ spec.is_reserved word.now goal }
{
    match goal {
        ProgramGoal::Script => is_word_of_scripts(word),
        ProgramGoal::Module => is_word_of_scripts(word) || is_word_of_modules(word),
    }
}

fn is(word: &[u8], other: &[u8]) -> bool
    ensures { result ≡ bytes_eq word.now other.now }
{
    word == other
}

#[tactic(auto, unfolding(es_tree::specs::ReservedWords::words_of_scripts))]
fn is_word_of_scripts(word: &[u8]) -> bool
    ensures { result ≡ list_any (bytes_eq word.now) spec.words_of_scripts }
{
    let [first, ..] = word else {
        return false;
    };
    match *first {
        b'a' => is(word, b"await"),
        b'b' => is(word, b"break"),
        b'c' => {
            is(word, b"case")
                || is(word, b"catch")
                || is(word, b"class")
                || is(word, b"const")
                || is(word, b"continue")
        }
        b'd' => is(word, b"debugger")
            || is(word, b"default")
            || is(word, b"delete")
            || is(word, b"do"),
        b'e' => is(word, b"else")
            || is(word, b"enum")
            || is(word, b"export")
            || is(word, b"extends"),
        b'f' => is(word, b"false")
            || is(word, b"finally")
            || is(word, b"for")
            || is(word, b"function"),
        b'i' => is(word, b"if")
            || is(word, b"import")
            || is(word, b"in")
            || is(word, b"instanceof"),
        b'l' => is(word, b"let"),
        b'n' => is(word, b"new") || is(word, b"null"),
        b'r' => is(word, b"return"),
        b's' => is(word, b"super") || is(word, b"switch"),
        b't' => {
            is(word, b"this")
                || is(word, b"throw")
                || is(word, b"true")
                || is(word, b"try")
                || is(word, b"typeof")
        }
        b'v' => is(word, b"var") || is(word, b"void"),
        b'w' => is(word, b"while") || is(word, b"with"),
        b'y' => is(word, b"yield"),
        _ => false,
    }
}

#[tactic(auto, unfolding(es_tree::specs::ReservedWords::words_of_modules))]
fn is_word_of_modules(word: &[u8]) -> bool
    ensures { result ≡ list_any (bytes_eq word.now) spec.words_of_modules }
{
    let [first, ..] = word else {
        return false;
    };
    match *first {
        b'i' => is(word, b"implements") || is(word, b"interface"),
        b'p' => is(word, b"package")
            || is(word, b"private")
            || is(word, b"protected")
            || is(word, b"public"),
        b's' => is(word, b"static"),
        _ => false,
    }
}
