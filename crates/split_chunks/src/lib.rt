//! Into which chunks the modules of groups are put, and which chunks each group loads.
//!
//! `split` is the main call. It finds what each group must bring itself (`placed`), which stands in the group's own chunk
//! at first (`state`), and then makes picks until no candidate qualifies (`picks`). Before each pick the chunks of each
//! module are listed (`homes`), and for each cache group the modules that it may move are gathered by the set of their
//! chunks, by a map (`gather`): these are the candidates. The best one that qualifies (`order`, `limits`) moves, and the
//! chunks and what the groups load are made anew (`apply`). Last the chunks that are left are numbered (`chunks`).
//!
//! Splitting fails where more than `MAX_CHUNKS` chunks are left beside the entry chunks, counted after the last pick. A
//! pick takes the time of what all chunks hold, once for each cache group, and of what the groups load, for each
//! candidate that would be the best but for the limits of requests. There are at most as many picks as modules.
#![tactic(auto)]

mod apply;
mod choice;
mod chunks;
mod fault;
mod flags;
mod gather;
mod homes;
mod limits;
mod numbers;
mod order;
mod picks;
mod placed;
mod scene;
mod splitting;
mod state;

pub use fault::SplitFault;
pub use splitting::split;
