ghost use Rattle.std.specs.Prelude.{◌≡◌, ◌<◌, ◌≤◌, ℕ, List, [], ◌∷◌, map, length, Option, Some, None, MatchOption};
ghost use Rattle.pkg_manifest.specs.Fitting.{many, fits};
ghost use Rattle.pkg_manifest.specs.Patterns.{behind_character as behind, byte_step, byte_part, segment_step, segment_part, segments, segment_fits as fits_segment, names as names_path, without_dot as undotted, slash_at_edge as edge, is_special};
ghost use Rattle.pkg_manifest.specs.Blocks.{block};
ghost use Rattle.std.specs.Str.{bytes_eq};
ghost use Rattle.std.specs.List.{list_any};
ghost use Rattle.pkg_manifest.specs.BlockViews.{byte_block as seen, segment_block as seen_segments, segments_left};

/// How far a pattern fits without a choice: to the ends of both, or up to a run of any length, with
/// what is left of the pattern and of the text.
#[derive(Clone, Copy)]
enum Block<'a> {
    Fails,
    Ends,
    Star(&'a [u8], &'a [u8]),
}

fn behind_character(text: &[u8]) -> &[u8]
    ensures { result.now ≡ behind text.now }
{
    let mut text = text;
    while let [128..=191, rest @ ..] = text {
        text = rest;
    }
    text
}

fn byte_block<'a>(pattern: &'a [u8], text: &'a [u8]) -> Block<'a>
    ensures { seen result ≡ block byte_step (map byte_part pattern.now) text.now }
{
    let mut pattern = pattern;
    let mut text = text;
    while let [part, more @ ..] = pattern {
        if *part == b'*' {
            return Block::Star(more, text);
        }
        let [byte, rest @ ..] = text else {
            return Block::Fails;
        };
        if *part == b'?' {
            text = behind_character(rest);
        } else if part == byte {
            text = rest;
        } else {
            return Block::Fails;
        }
        pattern = more;
    }
    if text.is_empty() {
        Block::Ends
    } else {
        Block::Fails
    }
}

/// Whether a segment fits a pattern, in which `*` is any run and `?` one character. It never comes
/// back behind a `*`, so it takes no more steps than one length times the other.
fn segment_fits(pattern: &[u8], text: &[u8]) -> bool
    ensures { result ≡ fits_segment pattern.now text.now }
{
    match byte_block(pattern, text) {
        Block::Fails => false,
        Block::Ends => true,
        Block::Star(pattern, text) => search_bytes(pattern, text),
    }
}

fn behind_first(text: &[u8]) -> Option<&[u8]>
    ensures { MatchOption result (text.now ≡ []) (λ rest. (c : ℕ) × (text.now ≡ c ∷ rest.now)) }
{
    match text {
        [] => None,
        [_, rest @ ..] => Some(rest),
    }
}

/// Whether the pattern fits what is left behind some run.
fn search_bytes(pattern: &[u8], text: &[u8]) -> bool
    ensures { result ≡ fits byte_step (many ∷ map byte_part pattern.now) text.now }
{
    let mut pattern = pattern;
    let mut text = text;
    loop {
        match byte_block(pattern, text) {
            Block::Star(more, rest) => {
                pattern = more;
                text = rest;
            }
            Block::Ends => return true,
            Block::Fails => match behind_first(text) {
                None => return false,
                Some(rest) => text = rest,
            },
        }
    }
}

/// The first segment, and what is behind its `/` where it has one.
fn cut(text: &[u8]) -> (&[u8], Option<&[u8]>)
    ensures { segments text.now ≡ result.0.now ∷ segments_left result.1 }
{
    let mut at = 0;
    while at < text.len() {
        if text[at] == b'/' {
            return (&text[..at], Some(&text[at + 1..]));
        }
        at += 1;
    }
    (text, None)
}

/// The same of segments as `Block` is of bytes.
#[derive(Clone, Copy)]
enum Segments<'a> {
    Fails,
    Ends,
    Star(Option<&'a [u8]>, Option<&'a [u8]>),
}

fn segment_block<'a>(pattern: Option<&'a [u8]>, path: Option<&'a [u8]>) -> Segments<'a>
    ensures { seen_segments result ≡ block segment_step (map segment_part (segments_left pattern.entry)) (segments_left path.entry) }
{
    let mut pattern = pattern;
    let mut path = path;
    while let Some(text) = pattern {
        let (part, more) = cut(text);
        if is_two_stars(part) {
            return Segments::Star(more, path);
        }
        let Some(text) = path else {
            return Segments::Fails;
        };
        let (segment, rest) = cut(text);
        if !segment_fits(part, segment) {
            return Segments::Fails;
        }
        pattern = more;
        path = rest;
    }
    match path {
        None => Segments::Ends,
        Some(_) => Segments::Fails,
    }
}

fn is_two_stars(part: &[u8]) -> bool
    ensures { result ≡ bytes_eq part.now (42 ∷ 42 ∷ []) }
{
    part == b"**".as_slice()
}

/// Whether a path fits a pattern, in which a segment `**` is any number of segments.
fn path_fits(pattern: &[u8], path: &[u8]) -> bool
    ensures { result ≡ fits segment_step (map segment_part (segments pattern.now)) (segments path.now) }
{
    match segment_block(Some(pattern), Some(path)) {
        Segments::Fails => false,
        Segments::Ends => true,
        Segments::Star(pattern, path) => search_segments(pattern, path),
    }
}

fn behind_segment(path: Option<&[u8]>) -> Option<Option<&[u8]>>
    ensures { MatchOption result (segments_left path.entry ≡ []) (λ rest. (s : List ℕ) × (segments_left path.entry ≡ s ∷ segments_left rest)) }
{
    match path {
        None => None,
        Some(text) => Some(cut(text).1),
    }
}

/// Whether the pattern fits what is left behind some number of segments.
fn search_segments(pattern: Option<&[u8]>, path: Option<&[u8]>) -> bool
    ensures { result ≡ fits segment_step (many ∷ map segment_part (segments_left pattern.entry)) (segments_left path.entry) }
{
    let mut pattern = pattern;
    let mut path = path;
    loop {
        match segment_block(pattern, path) {
            Segments::Star(more, rest) => {
                pattern = more;
                path = rest;
            }
            Segments::Ends => return true,
            Segments::Fails => match behind_segment(path) {
                None => return false,
                Some(rest) => path = rest,
            },
        }
    }
}

/// Whether a pattern names a path of a package: a leading `./` is dropped, one with no `/` stands in
/// any folder, and one that begins or ends with `/` names nothing.
pub(crate) fn names(pattern: &[u8], path: &[u8]) -> bool
    ensures { result ≡ names_path pattern.now path.now }
{
    let pattern = without_dot(pattern);
    if slash_at_edge(pattern) {
        return false;
    }
    let (_, more) = cut(pattern);
    match more {
        None => search_segments(Some(pattern), Some(path)),
        Some(_) => path_fits(pattern, path),
    }
}

fn without_dot(pattern: &[u8]) -> &[u8]
    ensures { result.now ≡ undotted pattern.now }
{
    match pattern.strip_prefix(b"./") {
        Some(rest) => rest,
        None => pattern,
    }
}

fn slash_at_edge(pattern: &[u8]) -> bool
    ensures { result ≡ edge pattern.now }
{
    pattern.starts_with(b"/") || pattern.ends_with(b"/")
}

pub(crate) fn has_special(pattern: &[u8]) -> bool
    ensures { result ≡ list_any is_special pattern.now }
{
    let mut pattern = pattern;
    while let [byte, rest @ ..] = pattern {
        if matches!(byte, b'{' | b'}' | b'[' | b']' | b'(' | b')' | b'!' | b'\\') {
            return true;
        }
        pattern = rest;
    }
    false
}
