//! The first name of a graph that is asked of a module which doesn't have it, or has it twice.
//!
//! [`first_fault`] is the main call. The modules are gone through by number, and of each its imports and its exports from
//! other modules (`question` has what each of them asks). Each question is judged by ECMA-262's ResolveExport (`judging`),
//! and of a module's faults the first by place is kept (`order`). The first module that has one ends the search (`search`).
//! An `ExportFault` says where it stands and which import or export asks, so that who prints it finds the name there.
//!
//! Limits: none beside memory. A question takes as long as the way on which its name is found is: a long chain of
//! modules that pass names on by stars is gone through again for each import from its front.
#![tactic(auto)]

mod fault;
mod judging;
mod order;
mod question;
mod search;

pub use fault::{Asker, ExportFault, FaultKind};
pub use question::{Question, of_export, of_import};
pub use search::first_fault;
