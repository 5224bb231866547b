//! The command `build`, over any files, store, source and sink.
//!
//! `run` takes the words behind the program's name and the objects of the outside, and answers a status. A round finds the
//! modules, plans, writes the files into memory, puts them and answers the lines, which are then printed. The headline, what
//! a build leaves of a tree, is the one page `specs/Headline.antt`; `specs/Run.antt` says what holds for each status.
#![tactic(auto)]

mod faults;
mod print;
mod rounds;
mod status;
mod top;

pub use status::Status;
pub use top::{Command, run};
