// A path from the root, by its written text.
ghost use Rattle.std.specs.Prelude.{◌≡◌, ◌↔◌, ◌≢◌, ◌<◌, ◌≤◌, ◌^◌, ◌+◌, ◌==◌, ◌||◌, ◌&&◌, List, [], ℕ, Some, None, Err, false, nat_le, length, slice_index, IfOk, IfErr, OnOk, ◌++◌, ◌∷◌, MatchResult, MatchOption, IsTrue, string_bytes, take, if◌then◌else◌};
ghost use Rattle.std.specs.List.{All, list_all};
ghost use Rattle.std.specs.Str.{bytes_eq};
ghost use Rattle.std.specs.Cmp as compared;
ghost use Rattle.std.specs.Cmp.Lexicographic.{bytes_decides, nat_list_eq_equiv};
ghost use Rattle.std.proofs.Common.{ap};
ghost use Rattle.pk_base.specs.Paths.{is_path, is_segment, is_slash, is_forbidden, is_reserved, segment_at, begins_segment, Breaks, IsFirstBreak, segments, one_step, joined, path_or_none, folder_of, without_last};
ghost use Rattle.pk_base.specs.PathScan.{is_end, has_fault, IsFirstFault, IsRelative};
ghost use Rattle.pk_base.specs.PathFaults.{IsFaultOf};

use std::alloc::{AllocError, Global};
use std::hash::{Hash, Hasher};
use std::marker::Model;
use std::str;

/// The most bytes that a written path has.
pub const MAX_PATH_LEN: usize = 1024;

/// A path from the root folder, seen as its written text.
#[derive(Debug, Drop)]
pub struct Path {
    text: String,
}

impl Model for Path {
    ghost Value = { List ℕ };

    ghost view = { λ p. string_bytes p.text };

    ghost invariant = { λ p. IsTrue (is_path (string_bytes p.text)) };
}

/// What keeps a text from being the path of a file.
#[derive(Clone, Copy, Debug, PartialEq, Eq)]
pub enum PathFault {
    /// There are no bytes.
    Empty,

    /// There are this many bytes, which is too many.
    Long(u32),

    /// The first byte place that breaks the rules of paths.
    Bad(u32),

    /// Memory ran out.
    NoMemory,
}

impl From<AllocError> for PathFault {
    ghost use Rattle.pk_base.specs.declared.path.PathFault.TheVariants.{NoMemory};

    ghost from_gives = { λ _ fault. fault ≡ NoMemory };

    fn from(_error: AllocError) -> PathFault {
        PathFault::NoMemory
    }
}

impl PartialEq for Path {
    ghost eq = { bytes_eq };

    ghost laws = { compared.partial_equiv_from_equiv nat_list_eq_equiv };

    fn eq(&self, other: &Path) -> bool {
        self.text.as_bytes() == other.text.as_bytes()
    }
}

impl Eq for Path {
    ghost laws = { nat_list_eq_equiv };
}

impl Hash for Path {
    ghost hash_input = { λ path. path ∷ [] };

    ghost respects_eq = { λ x y h. ap (λ text. text ∷ []) ((bytes_decides x y).0 h) };

    fn hash<H: Hasher>(&self, state: &mut H) {
        state.write(self.text.as_bytes());
    }
}

impl Path {
    /// The path of no segments.
    pub fn root(alloc: Global) -> Self
        ensures { result ≡ [] }
    {
        Path {
            text: String::new(alloc),
        }
    }

    /// The path that a written text says.
    pub fn read(alloc: Global, text: &[u8]) -> Result<Path, PathFault>
        requires { length text.now < 2 ^ 32 }
        ensures ok { IfOk result (λ path. (path ≡ text.now) × (text.now ≢ []) × IsTrue (is_path text.now)) }
        ensures empty { (result ≡ Err PathFault.Empty) ↔ (text.now ≡ []) }
        ensures long { (n : ℕ) → (result ≡ Err (PathFault.Long n)) ↔ ((n ≡ length text.now) × (1024 < n)) }
        ensures bad { (p : ℕ) → (result ≡ Err (PathFault.Bad p))
            ↔ ((text.now ≢ []) × (length text.now ≤ 1024) × IsFirstBreak text.now p) }
    {
        let text = path_text(text)?;
        let text = String::from_str(alloc, text)?;
        Ok(Path { text })
    }

    /// The written text.
    pub fn text(&self) -> &str
        ensures text { result.now ≡ self.now }
        ensures path { IsTrue (is_path self.now) }
    {
        self.text.as_str()
    }

    /// The bytes of the written text.
    pub fn as_bytes(&self) -> &[u8]
        ensures text { result.now ≡ self.now }
        ensures path { IsTrue (is_path self.now) }
    {
        self.text.as_bytes()
    }

    /// Whether this is the root folder, which names no file.
    pub fn is_root(&self) -> bool
        ensures { IsTrue result ↔ (self.now ≡ []) }
    {
        self.text.is_empty()
    }

    /// The path that a relative one leads to from this folder: none above the root, nor where that is no path.
    pub fn join(&self, relative: &[u8]) -> Result<Option<Path>, AllocError>
        ensures { IfOk result (λ path. path ≡ joined self.now relative.now) }
    {
        let mut written = Vec::from_slice(*self.text.allocator(), self.text.as_bytes())?;
        for part in relative.split(|byte| *byte == b'/') {
            if !follow(&mut written, part)? {
                return Ok(None);
            }
        }
        Ok(Path::from_written(written))
    }

    // The path of this text, if it is one.
    fn from_written(written: Vec<u8>) -> Option<Path>
        ensures { result ≡ path_or_none written.items }
    {
        if !has_segments(written.as_slice()) {
            return None;
        }
        match String::from_utf8(written) {
            Ok(text) => Some(Path { text }),
            Err(_) => None,
        }
    }

    /// The folder that this lies in, which at the root is the root.
    pub fn folder(&self) -> Result<Path, AllocError>
        ensures text { IfOk result (λ folder. folder ≡ folder_of self.now) }
        ensures segments { IfOk result (λ folder. segments folder ≡ without_last (segments self.now)) }
    {
        let text = self.text.as_str();
        let end = folder_len(text.as_bytes());
        let text = String::from_str(*self.text.allocator(), &text[..end])?;
        Ok(Path { text })
    }

    /// The same path once more.
    pub fn copy(&self) -> Result<Path, AllocError>
        ensures { IfOk result (λ path. path ≡ self.now) }
    {
        let text = String::from_str(*self.text.allocator(), self.text.as_str())?;
        Ok(Path { text })
    }
}

// Whether a segment that began before `at` ends there.
fn is_end(text: &[u8], at: usize) -> bool
    requires { at ≤ length text.now }
    ensures { result ≡ is_end text.now at }
{
    at == text.len() || text[at] == b'/'
}

// Whether the segment that begins at `at` is empty, `.` or `..`.
fn is_reserved_at(text: &[u8], at: usize) -> bool
    requires { at ≤ length text.now }
    ensures { result ≡ is_reserved (segment_at text.now at) }
{
    if is_end(text, at) {
        return true;
    }
    if text[at] != b'.' {
        return false;
    }
    is_end(text, at + 1) || (text[at + 1] == b'.' && is_end(text, at + 2))
}

fn is_forbidden(byte: u8) -> bool
    ensures { result ≡ is_forbidden byte }
{
    byte < 0x20 || byte == 0x7f || byte == b'\\' || byte == b'"' || byte == b'*'
}

// Whether the text breaks the rules of paths at a place, but for what isn't UTF-8.
fn has_fault(text: &[u8], at: usize) -> bool
    requires { at ≤ length text.now }
    ensures { result ≡ has_fault text.now at }
{
    (at < text.len() && is_forbidden(text[at]))
        || ((at == 0 || text[at - 1] == b'/') && is_reserved_at(text, at))
}

// The first place at which the text breaks the rules of paths, but for what isn't UTF-8.
fn first_fault(text: &[u8]) -> Option<usize>
    ensures { MatchOption result ((q : ℕ) → q < length text.now + 1 → has_fault text.now q ≡ false) (IsFirstFault text.now) }
{
    for at in 0..text.len() + 1 {
        if has_fault(text, at) {
            return Some(at);
        }
    }
    None
}

// The text, or the first place at which it breaks the rules of paths.
fn checked(text: &[u8]) -> Result<&str, usize>
    ensures { MatchResult result (λ s. (s.now ≡ text.now) × ((q : ℕ) → ¬ (Breaks text.now q))) (IsFirstBreak text.now) }
{
    let fault = first_fault(text);
    match (str::from_utf8(text), fault) {
        (Ok(text), None) => Ok(text),
        (Ok(_), Some(at)) => Err(at),
        (Err(error), None) => Err(error.valid_up_to()),
        (Err(error), Some(at)) => Err(at.min(error.valid_up_to())),
    }
}

// Whether the text is short and each of its parts is a segment.
fn has_segments(text: &[u8]) -> bool
    ensures { result ≡ (nat_le (length text.now) 1024 && list_all is_segment (segments text.now)) }
{
    text.len() <= MAX_PATH_LEN && (text.is_empty() || first_fault(text).is_none())
}

// The text, or what keeps it from being the path of a file.
fn path_text(text: &[u8]) -> Result<&str, PathFault>
    requires { length text.now < 2 ^ 32 }
    ensures { MatchResult result (λ s. (s.now ≡ text.now) × (text.now ≢ []) × IsTrue (is_path text.now)) (IsFaultOf text.now) }
{
    if text.is_empty() {
        return Err(PathFault::Empty);
    }
    if text.len() > MAX_PATH_LEN {
        return Err(PathFault::Long(text.len() as u32));
    }
    match checked(text) {
        Ok(text) => Ok(text),
        Err(at) => Err(PathFault::Bad(at as u32)),
    }
}

// Goes from the folder that is written to where one part of a relative path leads, unless that is above the root.
fn follow(written: &mut Vec<u8>, part: &[u8]) -> Result<bool, AllocError>
    requires relative { IsRelative written.old.items }
    requires part { All (λ c. is_slash c ≡ false) part.now }
    ensures relative { OnOk result (IsRelative written.new.items) }
    ensures step { IfOk result (λ went. one_step (segments written.old.items) part.now
        ≡ (if went then Some (segments written.new.items) else None)) }
{
    match part {
        [] | [b'.'] => Ok(true),
        [b'.', b'.'] => Ok(leave(written)),
        _ => {
            enter(written, part)?;
            Ok(true)
        }
    }
}

// Puts a segment at the end.
fn enter(written: &mut Vec<u8>, part: &[u8]) -> Result<(), AllocError>
    requires relative { IsRelative written.old.items }
    requires part { All (λ c. is_slash c ≡ false) part.now }
    requires some { 0 < length part.now }
    ensures relative { OnOk result (IsRelative written.new.items) }
    ensures segments { OnOk result (segments written.new.items ≡ segments written.old.items ++ part.now ∷ []) }
{
    if !written.is_empty() {
        written.push(b'/')?;
    }
    written.extend_from_slice(part)?;
    Ok(())
}

// Cuts the last segment off, unless there is none.
fn leave(written: &mut Vec<u8>) -> bool
    requires { IsRelative written.old.items }
    ensures relative { IsRelative written.new.items }
    ensures some { IsTrue result ↔ (0 < length (segments written.old.items)) }
    ensures segments { IsTrue result → segments written.new.items ≡ without_last (segments written.old.items) }
{
    if written.is_empty() {
        return false;
    }
    let end = folder_len(written.as_slice());
    written.truncate(end);
    true
}

// How long the text before the last slash is.
fn folder_len(text: &[u8]) -> usize
    requires { IsRelative text.now }
    ensures within { result ≤ length text.now }
    ensures slash { 0 < result → slice_index text.now result ≡ 47 }
    ensures segments { segments (take result text.now) ≡ without_last (segments text.now) }
{
    let mut at = text.len();
    while at > 0 {
        at -= 1;
        if text[at] == b'/' {
            return at;
        }
    }
    0
}
