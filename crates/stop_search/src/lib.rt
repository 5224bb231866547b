//! Where a name that is used ends.
//!
//! A bundle leaves out modules without side effects that only pass names on. What uses a name through such modules
//! evaluates the modules at which the name ends in their place: its stops. `stops` answers them in the order in which they
//! are evaluated. `found_through` answers through which stars a name is found.
//!
//! The search goes from pair to pair of a module and a name, each once, with a stack on the heap. What the name stands for
//! is asked once, and again only where a module without the name has several stars, for each of these: a name that is
//! passed on by name, or by the only star of a module, stands for the same thing behind it. So the search takes the time
//! of one question for the name, but for such modules that stand behind one another, which are gone through once for each
//! of them.
#![tactic(auto)]

mod asked;
mod search;
mod stars;
mod way;

pub use search::stops;
pub use stars::found_through;
