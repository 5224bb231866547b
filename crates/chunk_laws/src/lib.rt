//! Laws of the definitions on chunks, scopes, ids and names, and small graphs that were worked out by hand.
//!
//! Nothing here runs. Each law is the contract of a function that does nothing, over the definitions of `pk_types`: of
//! splitting (`SplitStates` to `ChunkClauses`), of scopes (`HoistSets`, `HoistItems`, `HoistPaths`), of ids
//! (`ModuleIds`, `HashedIds`) and of names (`GivenNames`). It stands apart so that `pk_types` is checked no longer for
//! it; most of the proofs are there.
#![tactic(auto)]

mod chunk_laws;

pub use chunk_laws::{
    a_chunk_that_fits_is_used_again, a_circle_shares_a_scope, a_root_has_one_greatest_set,
    a_set_is_reached_from_its_root, a_shared_module_gets_a_chunk, candidates_are_in_range,
    chunks_hold_what_is_loaded, each_candidate_has_a_split_chunk, each_member_runs,
    each_module_stands_in_the_items_once, each_pick_moves_other_modules,
    each_set_is_reached_from_its_root, entry_chunks_give_modules_away,
    given_names_are_not_captured, given_names_are_the_only_ones, given_names_capture_nothing,
    given_names_differ, hashed_ids_differ, limits_of_requests_hold,
    members_run_and_others_are_evaluated, names_give_way, names_in_a_set_differ, natural_ids_count,
    natural_ids_differ, nothing_qualifies_after_the_last_pick,
    numbers_given_in_order_are_the_only_ones, numbers_given_in_order_differ,
    packages_are_picked_first, placed_modules_fit_together,
    sets_of_a_graph_are_reached_from_their_roots, small_modules_stay,
    split_chunks_meet_the_clauses, split_chunks_of_a_graph_meet_the_clauses,
    taken_numbers_give_way_upwards, the_root_runs_last, there_is_one_way_to_hoist,
    there_is_one_way_to_split, two_sets_are_one_together, what_is_evaluated_is_a_root,
};
