ghost use Rattle.std.specs.Prelude.{◌≡◌, ◌≢◌, ◌↔◌, ℕ, ◌<◌, ◌≤◌, true, List, [], ◌∷◌, ◌++◌};
ghost use Rattle.std.specs.Prelude.{length, map, nat_eq, AllPairs, flat_map, slice_get, slice_index, slice_index_or, Option, Some, Bool};
ghost use Rattle.std.specs.List.{Contains, IsDistinct};
ghost use Rattle.pk_types.specs.declared.graph.Graph.{Graph};
ghost use Rattle.pk_types.specs.declared.plan.Active.{Active};
ghost use Rattle.pk_types.specs.declared.plan.Chunks.{Chunks};
ghost use Rattle.pk_types.specs.declared.plan.Groups.{Groups};
ghost use Rattle.pk_types.specs.declared.plan.Hoists.{Hoists};
ghost use Rattle.pk_types.specs.declared.plan.Ids.{Ids};
ghost use Rattle.pk_types.specs.declared.plan.Item.{Item};
ghost use Rattle.pk_types.specs.declared.plan.Item.TheVariants.{Segment, Evaluate};
ghost use Rattle.pk_types.specs.declared.settings.SplitConfig.{SplitConfig};
ghost use Rattle.pk_types.specs.SplitStates.{SplitState, chunk_at};
ghost use Rattle.pk_types.specs.SplitCandidates.{Candidate, IsCandidate};
ghost use Rattle.pk_types.specs.SplitPicks.{IsSplitChunk, Qualifies};
ghost use Rattle.pk_types.specs.Splitting.{ArePicks, IsSplit};
ghost use Rattle.pk_types.specs.ChunkClauses.{FitTogether, MeetClauses};
ghost use Rattle.pk_types.specs.ActiveEdges.{IsActive};
ghost use Rattle.pk_types.specs.ChunkGroups.{AreAll, IsGroups, IsInClosure};
ghost use Rattle.pk_types.specs.Availability.{IsPlaced};
ghost use Rattle.pk_types.specs.HoistSets.{Scene, IsHoistSet, IsGreatestSet, IsRequester, IsInChunk, AreHoistSets, set_of};
ghost use Rattle.pk_types.specs.HoistPaths.{IsTarget, IsInGroup, IsReachedInside};
ghost use Rattle.pk_types.specs.HoistItems.{AreItems, AreHoists, module_of};
ghost use Rattle.pk_types.specs.ModuleIds.{AreNaturalIds, is_in_chunks, id_count, five_digits, AreGivenInOrder};
ghost use Rattle.pk_types.specs.HashedIds.{AreHashedIds};
ghost use Rattle.pk_types.specs.GivenNames.{avoided_names, GivesInOrder, GivesNames, AreGivenNames};
ghost use Rattle.pk_types.specs.Fitting.{Fits};
ghost use Rattle.pk_types.specs.WorkedGraphs.{default_split, shared_graph, shared_placed, shared_chunks, shared_ids, one_request, unsplit_chunks};
ghost use Rattle.pk_types.specs.WorkedGraphs.{parents_graph, parents_placed, parents_chunks, agreeing_graph, agreeing_placed, agreeing_chunks};
ghost use Rattle.pk_types.specs.WorkedGraphs.{folder_graph, folder_placed, folder_chunks, reused_graph, reused_placed, reused_chunks};
ghost use Rattle.pk_types.specs.WorkedGraphs.{entries_graph, entries_split, entries_placed, entries_chunks};
ghost use Rattle.pk_types.specs.WorkedGraphs.{circle_scene, circle_hoists, names_graph, given_names};

/// A root has one greatest set.
pub fn a_root_has_one_greatest_set()
    ensures { (scene : Scene) (taken : List ℕ) (root : ℕ) (members others : List ℕ)
        → IsGreatestSet scene taken root members → IsGreatestSet scene taken root others
        → (member : ℕ) → Contains members member ↔ Contains others member }
{}

/// The union of two sets that a root may have is one too, so there is a greatest one.
pub fn two_sets_are_one_together()
    ensures { (scene : Scene) (taken : List ℕ) (root : ℕ) (members others : List ℕ)
        → IsHoistSet scene taken root members → IsHoistSet scene taken root others → IsHoistSet scene taken root (members ++ others) }
{}

/// A member that is in the closure of an entry or an import target is reached from the root inside the set.
pub fn a_set_is_reached_from_its_root()
    ensures { (scene : Scene) → IsActive scene.graph scene.used scene.active
        → (taken : List ℕ) (root : ℕ) (members : List ℕ) → IsHoistSet scene taken root members
        → (target member : ℕ) → IsTarget scene.graph scene.active target → IsInClosure scene.graph scene.active.edges target member
        → Contains members member → IsReachedInside scene.active members root member }
{}

/// Where each module in a chunk is in the closure of an entry or an import target, each set is reached from its root inside the set.
pub fn each_set_is_reached_from_its_root()
    ensures { (scene : Scene) (concatenate : Bool) (roots : List ℕ) → AreHoistSets scene concatenate roots
        → IsActive scene.graph scene.used scene.active
        → ((chunk member : ℕ) → IsInChunk scene.chunks chunk member → IsInGroup scene.graph scene.active member)
        → (root member : ℕ) → Contains roots root → Contains (set_of roots root) member
        → IsReachedInside scene.active (set_of roots root) root member }
{}

/// What a reached module of another set asks for is a root.
pub fn what_is_evaluated_is_a_root()
    ensures { (scene : Scene) (concatenate : Bool) (roots : List ℕ) → AreHoistSets scene concatenate roots
        → (from target : ℕ) → from < length roots → target < length roots → IsRequester scene.active from target
        → slice_index roots from ≢ slice_index roots target → slice_index roots target ≡ target }
{}

/// The root runs last.
pub fn the_root_runs_last()
    ensures { (active : Active) (members : List ℕ) (root : ℕ) (items : List Item) → AreItems active members root items
        → (first : List Item) × (items ≡ first ++ Segment root ∷ []) }
{}

/// No module stands in the items of a root twice.
pub fn each_module_stands_in_the_items_once()
    ensures { (active : Active) (members : List ℕ) (root : ℕ) (items : List Item) → AreItems active members root items
        → IsDistinct nat_eq (map module_of items) }
{}

/// A segment is that of a member, and what is evaluated is no member.
pub fn members_run_and_others_are_evaluated()
    ensures { (active : Active) (members : List ℕ) (root : ℕ) (items : List Item) → AreItems active members root items → Contains members root
        → ((number : ℕ) → Contains items (Segment number) → Contains members number)
        × ((number : ℕ) → Contains items (Evaluate number) → ¬ Contains members number) }
{}

/// Each member that is in the closure of an entry or an import target runs.
pub fn each_member_runs()
    ensures { (scene : Scene) → IsActive scene.graph scene.used scene.active
        → (taken : List ℕ) (root : ℕ) (members : List ℕ) (items : List Item) → IsHoistSet scene taken root members
        → AreItems scene.active members root items → (target member : ℕ) → IsTarget scene.graph scene.active target
        → IsInClosure scene.graph scene.active.edges target member → Contains members member → Contains items (Segment member) }
{}

/// Natural ids tell the modules in chunks apart.
pub fn natural_ids_differ()
    ensures { (graph : Graph) (chunks : Chunks) (ids : Ids) → AreNaturalIds graph chunks ids → (member other : ℕ)
        → member < length graph.rows → other < length graph.rows → is_in_chunks chunks member ≡ true → is_in_chunks chunks other ≡ true
        → slice_index ids.modules member ≡ slice_index ids.modules other → member ≡ other }
{}

/// Numbers that are given in order, as hashed ids are, differ, and have five hexadecimal digits.
pub fn numbers_given_in_order_differ()
    ensures { (starts numbers : List ℕ) → AreGivenInOrder starts numbers → (place : ℕ) → place < length starts
        → (slice_index numbers place < id_count)
        × ((other : ℕ) → place < other → other < length starts → slice_index numbers place ≢ slice_index numbers other) }
{}

/// No two names that are given in order are one.
pub fn given_names_differ()
    ensures { (avoided names given : List (List ℕ)) → GivesInOrder avoided names given → (place other : ℕ) → place < other → other < length names
        → slice_index_or given place [] ≢ slice_index_or given other [] }
{}

/// No name that is given in order is one to avoid.
pub fn given_names_capture_nothing()
    ensures { (avoided names given : List (List ℕ)) → GivesInOrder avoided names given → (place : ℕ) → place < length names
        → ¬ Contains avoided (slice_index_or given place []) }
{}

/// After the last pick nothing qualifies.
pub fn nothing_qualifies_after_the_last_pick()
    ensures { (graph : Graph) (config : SplitConfig) (first last : SplitState) (picks : List Candidate) → ArePicks graph config first picks last
        → (candidate : Candidate) → ¬ Qualifies graph config last candidate }
{}

/// The chunks and modules of a candidate are there, and each of the chunks holds each of the modules.
pub fn candidates_are_in_range()
    ensures { (graph : Graph) (config : SplitConfig) (state : SplitState) (candidate : Candidate) → IsCandidate graph config state candidate
        → ((chunk : ℕ) → Contains candidate.chunks chunk → chunk < length state.modules)
        × ((member : ℕ) → Contains candidate.modules member → member < length graph.rows)
        × ((chunk member : ℕ) → Contains candidate.chunks chunk → Contains candidate.modules member → Contains (chunk_at state chunk) member) }
{}

/// Each group has a list, each entry an entry chunk, and the numbers in lists are those of chunks. Each group finds what is
/// placed in it in its chunks, which hold nothing outside its closure. The modules of a chunk stand by number. A module in
/// the entry chunk of one entry stands in that of every entry whose closure holds it. Each chunk that is no entry chunk is
/// in the list of a group and holds a module.
pub fn split_chunks_meet_the_clauses()
    ensures { (graph : Graph) (config : Option SplitConfig) (entries : ℕ) (closures placed : List (List ℕ)) (chunks : Chunks)
        → FitTogether entries closures placed → IsSplit graph config entries placed chunks → MeetClauses entries closures placed chunks }
{}

/// A module of two groups gets a chunk of its own, which both load.
pub fn a_shared_module_gets_a_chunk()
    ensures { IsSplit shared_graph (Some (default_split 0)) 1 shared_placed shared_chunks }
{}

/// Modules of fewer bytes than `minSize` stay where they are placed.
pub fn small_modules_stay()
    ensures { IsSplit parents_graph (Some (default_split 20000)) 1 parents_placed parents_chunks
        × IsSplit agreeing_graph (Some (default_split 20000)) 1 agreeing_placed agreeing_chunks }
{}

/// A large module of a package is picked by the cache group of packages, though the other one could take it too.
pub fn packages_are_picked_first()
    ensures { IsSplit folder_graph (Some (default_split 20000)) 1 folder_placed folder_chunks }
{}

/// Modules that import one another in a circle share the scope of the entry, and run from the innermost outwards.
pub fn a_circle_shares_a_scope()
    ensures { AreHoists circle_scene true circle_hoists }
{}

/// Two bindings of one name give way to a name that nobody declares.
pub fn names_give_way()
    ensures { AreGivenNames names_graph (0 ∷ 0 ∷ 0 ∷ []) given_names }
{}

/// Natural ids count the modules and the chunks.
pub fn natural_ids_count()
    ensures { AreNaturalIds shared_graph shared_chunks shared_ids }
{}

/// There is one way to split: the list of chunks is the only one.
pub fn there_is_one_way_to_split()
    ensures { (graph : Graph) (config : Option SplitConfig) (entries : ℕ) (placed : List (List ℕ)) (chunks other : Chunks)
        → IsSplit graph config entries placed chunks → IsSplit graph config entries placed other → chunks ≡ other }
{}

/// There is one way to hoist: sets and items are the only ones.
pub fn there_is_one_way_to_hoist()
    ensures { (scene : Scene) (concatenate : Bool) (hoists others : Hoists) → AreHoists scene concatenate hoists → AreHoists scene concatenate others
        → hoists ≡ others }
{}

/// Numbers that are given in order, as hashed ids are, are the only ones.
pub fn numbers_given_in_order_are_the_only_ones()
    ensures { (starts numbers others : List ℕ) → AreGivenInOrder starts numbers → AreGivenInOrder starts others → numbers ≡ others }
{}

/// The names that are given in a set are the only ones.
pub fn given_names_are_the_only_ones()
    ensures { (avoided names given others : List (List ℕ)) → GivesInOrder avoided names given → GivesInOrder avoided names others → given ≡ others }
{}

/// Hashed ids tell the modules in chunks apart, whatever the hash is.
pub fn hashed_ids_differ()
    ensures { (hash : List ℕ → List ℕ) (graph : Graph) (chunks : Chunks) (ids : Ids) → AreHashedIds hash graph chunks ids → (member other : ℕ)
        → member < length graph.rows → other < length graph.rows → is_in_chunks chunks member ≡ true → is_in_chunks chunks other ≡ true
        → slice_index ids.modules member ≡ slice_index ids.modules other → member ≡ other }
{}

/// Each pick moves a module, and no two picks move the same one.
pub fn each_pick_moves_other_modules()
    ensures { (graph : Graph) (config : SplitConfig) (first last : SplitState) (picks : List Candidate) → ArePicks graph config first picks last
        → ((pick : Candidate) → Contains picks pick → (member : ℕ) × Contains pick.modules member)
        × AllPairs (λ pick later. (member : ℕ) → Contains pick.modules member → ¬ Contains later.modules member) picks }
{}

/// A chunk that holds just the moved modules is used again.
pub fn a_chunk_that_fits_is_used_again()
    ensures { IsSplit reused_graph (Some (default_split 0)) 1 reused_placed reused_chunks }
{}

/// A number that is taken gives way to the next free one, and 0 follows the greatest.
pub fn taken_numbers_give_way_upwards()
    ensures { AreGivenInOrder (5 ∷ 5 ∷ 1048575 ∷ 1048575 ∷ []) (5 ∷ 6 ∷ 1048575 ∷ 0 ∷ []) × (five_digits (171 ∷ 205 ∷ 239 ∷ []) ≡ 703710) }
{}

/// No two bindings of a set have one name, whether it has one member or more.
pub fn names_in_a_set_differ()
    ensures { (graph : Graph) → Fits graph → (members : List ℕ) (given : List (List (List ℕ))) → 0 < length members → GivesNames graph members given
        → AllPairs (λ name other. name ≢ other) (flat_map (λ names. names) given) }
{}

/// In a set of several members no given name is free in a member, or declared in an inner scope of one.
pub fn given_names_are_not_captured()
    ensures { (graph : Graph) (members : List ℕ) (given : List (List (List ℕ))) → GivesNames graph members given → 1 < length members
        → (name : List ℕ) → Contains (flat_map (λ names. names) given) name → (member : ℕ) → Contains members member
        → ¬ Contains (avoided_names graph member) name }
{}

/// Lists of exactly the modules that each group brings itself fit together with the closures.
pub fn placed_modules_fit_together()
    ensures { (groups : Groups) (placed : List (List ℕ)) → groups.entries ≤ length groups.targets → length placed ≡ length groups.targets
        → ((group : ℕ) (modules : List ℕ) → slice_get placed group ≡ Some modules → AreAll (IsPlaced groups group) modules)
        → FitTogether groups.entries groups.closures placed }
{}

/// Chunks that meet the clauses hold what is in the closure of an entry or an import target.
pub fn chunks_hold_what_is_loaded()
    ensures { (graph : Graph) (active : Active) (groups : Groups) (placed : List (List ℕ)) (chunks : Chunks) → IsGroups graph active groups
        → MeetClauses groups.entries groups.closures placed chunks → (chunk member : ℕ) → IsInChunk chunks chunk member → IsInGroup graph active member }
{}

/// Each candidate has a chunk that its modules move into.
pub fn each_candidate_has_a_split_chunk()
    ensures { (state : SplitState) (candidate : Candidate) → (split : ℕ) × IsSplitChunk state candidate split }
{}

/// Where groups may load no further chunk, a small module that two groups share stays in both.
pub fn limits_of_requests_hold()
    ensures { IsSplit shared_graph (Some one_request) 1 shared_placed unsplit_chunks }
{}

/// Two entry chunks lose the module that they share to a chunk that both groups load.
pub fn entry_chunks_give_modules_away()
    ensures { IsSplit entries_graph (Some entries_split) 2 entries_placed entries_chunks }
{}

/// Where exactly the modules that each group of a graph brings itself are split into chunks, these meet the clauses.
pub fn split_chunks_of_a_graph_meet_the_clauses()
    ensures { (graph : Graph) (active : Active) (groups : Groups) → IsGroups graph active groups
        → (placed : List (List ℕ)) → length placed ≡ length groups.targets
        → ((group : ℕ) (modules : List ℕ) → slice_get placed group ≡ Some modules → AreAll (IsPlaced groups group) modules)
        → (config : Option SplitConfig) (chunks : Chunks) → IsSplit graph config groups.entries placed chunks
        → MeetClauses groups.entries groups.closures placed chunks }
{}

/// And each set of modules that share a scope is then reached from its root inside the set.
pub fn sets_of_a_graph_are_reached_from_their_roots()
    ensures { (scene : Scene) → IsActive scene.graph scene.used scene.active
        → (groups : Groups) → IsGroups scene.graph scene.active groups → (placed : List (List ℕ)) → length placed ≡ length groups.targets
        → ((group : ℕ) (modules : List ℕ) → slice_get placed group ≡ Some modules → AreAll (IsPlaced groups group) modules)
        → (config : Option SplitConfig) → IsSplit scene.graph config groups.entries placed scene.chunks
        → (concatenate : Bool) (roots : List ℕ) → AreHoistSets scene concatenate roots
        → (root member : ℕ) → Contains roots root → Contains (set_of roots root) member
        → IsReachedInside scene.active (set_of roots root) root member }
{}
