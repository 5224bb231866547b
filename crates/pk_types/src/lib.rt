//! The plain records that the layers of the bundler hand on, and what is said of them.
//!
//! A build goes from `Config`, what `pack.json` says, over `Facts`, what is known of a module's text, and `Graph`, the
//! modules that the entries lead to, to `Plan`, how the graph is cut, ordered and named in a bundle, with a `Spelling` of
//! each module. `Event`, `Step`, `Reply` and `Status` are what a running bundle is told and answers. Modules, groups and
//! chunks are numbers: places in the list of these.
//!
//! Nothing here computes. `specs` has the conditions on these records by which the layers are judged: when a graph fits
//! together, what a name resolves to, which edges are active, which groups, chunks and sets of modules are right. No
//! record is bounded by its type; the limits of a build are the constants `MAX_..`.
#![tactic(auto)]

mod events;
mod facts;
mod form;
mod found;
mod graph;
mod limits;
mod plan;
mod settings;
mod spelling;

pub use events::{Event, Reply, Status, Step};
pub use facts::{
    BindKind, Binding, ExportEntry, Facts, ImportEntry, Kind, Name, NameKind, Origin, Ref, Request,
    Site, SiteKind,
};
pub use form::Form;
pub use found::Found;
pub use graph::{Graph, Row};
pub use limits::{
    MAX_CALLS, MAX_CHUNKS, MAX_FILE_LEN, MAX_GROUPS, MAX_MODULES, MAX_OUTPUT_BYTES,
    MAX_SOURCE_BYTES,
};
pub use pk_text::{Key, Sequence, Text};
pub use plan::{Active, Chunks, Groups, Hoists, Ids, Item, Plan, Used};
pub use settings::{CacheGroup, Config, SplitConfig, Which};
pub use spelling::Spelling;
