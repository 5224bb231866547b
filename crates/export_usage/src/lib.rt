//! Which names of the modules of a graph are used.
//!
//! `usage` takes a graph and answers for each module its used names and whether its namespace is used, and the active
//! edges for these names. What is known are facts: a module is reached, a name of it is used, its namespace is used, all
//! that it exports is used. They stand in one list, each once, with names by number (`facts`). The entries are the first.
//! The list is gone through once; what follows from a fact is put behind the last (`follow`, `spread`): so each site and
//! each way on which a name is passed on is followed once. At the end the names are read off by module and put into
//! byte order (`reading`), and `prune_graph` finds the active edges.
//!
//! Limits: those of the graph, which fits. The only fault is want of memory.
#![tactic(auto)]

mod facts;
mod follow;
mod reading;
mod spread;

pub use reading::usage;
