// Why a tree is refused.
use pk_types::Text;

/// What there may be too many of.
#[derive(Clone, Copy, Debug, PartialEq, Eq)]
pub enum What {
    /// At most `pk_types::MAX_MODULES`.
    Modules,

    /// At most `pk_types::MAX_SOURCE_BYTES`.
    SourceBytes,
}

/// Why a tree is refused.
#[derive(Debug, Drop)]
pub enum BuildFault {
    /// An entry's request doesn't resolve: the entry's name, its request, and why.
    EntryUnresolved(Text, Text, Text),

    /// The file of this path has more bytes than a file may have.
    TooLarge(Text),

    /// The file of this path calls for what isn't built yet.
    NotBuilt(Text),

    /// There is more of this than there may be.
    TooMany(What),
}
