//! The modules of a tree, or its first fault.
//!
//! `find_modules` follows the requests of the modules from the entry on, module after module. `sights` asks for each path
//! once and keeps what was seen there; `manifest` says where a module's manifest may stand, `target` where its requests
//! lead; `module` looks at one module, and `walk` adds it to the graph. What a tree calls for is in `specs/Builds.antt`.
//!
//! Each call says what it keeps by one clause, `Looks` (`specs/Asking.antt`), over the frame record of `pk_base`. The
//! limits are `MAX_FILE_LEN`, `MAX_SOURCE_BYTES` and `MAX_MODULES` of `pk_types`.
#![tactic(auto)]

mod facts;
mod faults;
mod find;
mod manifest;
mod module;
mod places;
mod sights;
mod target;
mod walk;

pub use faults::{BuildFault, What};
pub use find::find_modules;
pub use walk::FoundModules;
