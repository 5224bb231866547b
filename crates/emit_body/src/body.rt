use pk_types::{Sequence, Text};

/// A stretch of a body: bytes that stand as the author wrote them, and then a site.
#[derive(Clone, Copy, Debug, PartialEq, Eq)]
pub struct Piece {
    /// The number of plain bytes before the site.
    pub plain: u64,
    /// The letter of its mark.
    pub kind: u8,
    /// The number of its bytes.
    pub site: u64,
}

/// The text of a module's body, with its pieces in order. What is behind the last of them is plain.
#[derive(Debug, Drop)]
pub struct Body {
    pub text: Text,
    pub pieces: Sequence<Piece>,
}
