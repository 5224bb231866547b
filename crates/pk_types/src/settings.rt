use pk_text::{Sequence, Text};

/// What `pack.json` says, with the defaults in place of what it leaves out.
#[derive(Debug, Drop)]
pub struct Config {
    /// Entry names and their requests, in byte order of the names.
    pub entries: Sequence<(Text, Text)>,
    pub concatenate: bool,
    pub side_effects: bool,
    pub hashed: bool,
    pub split: Option<SplitConfig>,
}

/// How modules are split off into chunks of their own.
#[derive(Debug, Drop)]
pub struct SplitConfig {
    /// From which chunks modules are split, where a cache group says nothing of its own.
    pub chunks: Which,
    /// At least so many bytes are split, where a cache group says nothing of its own.
    pub min_size: u32,
    /// From so many bytes on the limits of requests don't count.
    pub enforce: u32,
    /// What is split stands in at least so many chunks, where a cache group says nothing of its own.
    pub min_chunks: u32,
    /// How many chunks a group of an `import()` may load.
    pub max_async: u32,
    /// How many chunks a group of an entry may load, its entry chunk among them.
    pub max_initial: u32,
    /// In byte order of their names, without those that are given as false.
    pub groups: Sequence<CacheGroup>,
}

/// A group of modules that may share a chunk.
#[derive(Debug, Drop)]
pub struct CacheGroup {
    pub name: Text,
    /// A segment that a module's path must hold. Without one every module belongs.
    pub test: Option<Text>,
    pub chunks: Which,
    pub min_size: u32,
    pub min_chunks: u32,
    pub priority: i32,
    pub reuse: bool,
}

/// Which chunks modules are split from.
#[derive(Clone, Copy, Debug, PartialEq, Eq)]
pub enum Which {
    /// All but entry chunks.
    Async,

    /// Entry chunks.
    Initial,

    /// Every chunk.
    All,
}
