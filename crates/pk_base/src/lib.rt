//! What the bundler sees of the outside: paths, trees, files to read, a store to write, a source and a sink.
//!
//! A run is handed one object of each of the traits `Files`, `Store`, `Source` and `Sink`. What an object means at a
//! moment is a record (`specs/Meanings.antt`), and each call says what it does to it. `MemFiles`, `MemStore`, `MemSource`
//! and `MemSink` tell all that they hold, and fail at the calls whose numbers they are given. `FolderFiles`, `FolderStore`,
//! `StdSource` and `StdSink` are the real ones: they tell nothing, and count their faults.
//!
//! What calls over files keep is said by one record, `KeepsFiles` (`specs/Keeping.antt`), whose lemmas put a chain of
//! calls together (`proofs/Keeping.antt`).
//!
//! A `Path` is UTF-8 of at most `MAX_PATH_LEN` bytes.
#![tactic(auto)]

mod failures;
mod kept;
mod mem_files;
mod mem_store;
mod mem_streams;
mod outside;
mod path;
mod real;
mod steps;
mod tree;

pub use failures::FailsByNumber;
pub use mem_files::MemFiles;
pub use mem_store::MemStore;
pub use mem_streams::{MemSink, MemSource};
pub use outside::{Call, Failed, Files, Read, ReadFail, Sink, Source, Store};
pub use path::{MAX_PATH_LEN, Path, PathFault};
pub use pk_text::{Interner, Key, Sequence, Text};
pub use real::{FolderFiles, FolderStore, StdSink, StdSource};
pub use steps::Steps;
pub use tree::Tree;
