//! What the definitions of use and of chunk groups come to: laws, and small graphs that were worked out by hand.
//!
//! Nothing here runs. Each law is the contract of a function that does nothing, over the definitions of `pk_types`:
//! `uses` has those of what is reached and used and of active edges, `groups` those of groups and of what is available
//! in them. `docs/GROUPS.md` lists them. It stands apart so that `pk_types` is checked no longer for it.
#![tactic(auto)]

mod groups;
mod uses;

pub use groups::{
    available_by_parents, closures_are_closed, each_group_ends_a_walk, fewer_by_more,
    greatest_by_parents, groups_are_determined, groups_bring_reached, groups_have_rows,
    groups_stand_alone, no_group_before, parts_of_closure, required_module, shared_by_both_parents,
    shared_by_entry, shared_by_one_parent, shared_by_two_entries, what_groups_bring_is_determined,
};
pub use uses::{
    edges_are_determined, edges_lead_to_reached, found_names_have_stops, indirect_exports_find,
    kept_barrel, kept_declarations_are_edges, owners_of_used_names_are_reached, plain_barrel,
    search_finds_stops, skipped_barrel, small_graphs_fit, starred_barrel, use_is_determined,
    use_is_least, used_stops_are_reached,
};
