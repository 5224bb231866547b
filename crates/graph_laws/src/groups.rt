ghost use Rattle.std.specs.Prelude.{◌≡◌, ◌≤◌, ◌<◌, ◌⊎◌, ◌↔◌, ℕ, Bool, true, List, [], ◌∷◌, length, Some, slice_get};
ghost use Rattle.std.specs.List.{Contains};
ghost use Rattle.pk_types.specs.declared.graph.Graph.{Graph};
ghost use Rattle.pk_types.specs.declared.plan.Active.{Active};
ghost use Rattle.pk_types.specs.declared.plan.Groups.{Groups};
ghost use Rattle.pk_types.specs.declared.plan.Used.{Used};
ghost use Rattle.pk_types.specs.Use.{HasUse};
ghost use Rattle.pk_types.specs.ActiveEdges.{IsActive};
ghost use Rattle.pk_types.specs.ChunkGroups.{IsGroups};
ghost use Rattle.pk_types.specs.Requests.{CallsRequire};
ghost use Rattle.pk_types.specs.Places.{IsShort};
ghost use Rattle.pk_types.specs.Availability.{Holds, Leads, IsWalk, IsAvailable, IsPlaced, ArePlaced, GroupsFit, HasModulesBelow};
ghost use Rattle.graph_laws.specs.SharedLater.{shared_graph, shared_used, shared_active};
ghost use Rattle.graph_laws.specs.TwoEntries.{entries_graph, entries_used, entries_active};
ghost use Rattle.graph_laws.specs.EntryItself.{itself_graph, itself_used, itself_active};
ghost use Rattle.graph_laws.specs.RequiredModule.{require_graph, require_used, require_active, require_groups};
ghost use Rattle.graph_laws.specs.SmallGroups.{BringsExactly, one_parent, both_parents, entry_itself, two_entries};

/// Nothing is available in the group of an entry, so that it brings all of its modules.
pub fn no_group_before()
    ensures none { (groups : Groups) (group number : ℕ) → group < groups.entries → ¬ IsAvailable groups group number }
    ensures all { (groups : Groups) (group number : ℕ) → group < groups.entries → Holds groups number group → IsPlaced groups group number }
{}

/// What is available in a group that is none of an entry is what each group that leads there has, or has available.
pub fn available_by_parents()
    ensures enough { (groups : Groups) (group number : ℕ) → groups.entries ≤ group
        → ((parent : ℕ) → Leads groups parent group → Holds groups number parent ⊎ IsAvailable groups parent number) → IsAvailable groups group number }
    ensures needed { (groups : Groups) (parent group number : ℕ) → Leads groups parent group → ¬ Holds groups number parent
        → IsAvailable groups group number → IsAvailable groups parent number }
{}

/// Rows that say of no entry's group that a module is there, and of any other group only where each group that leads
/// there has the module or is said to have it there, say it only where the module is available. So availability is the
/// greatest answer of that equation.
pub fn greatest_by_parents()
    ensures { (groups : Groups) (rows : ℕ → ℕ → Bool) → ((group number : ℕ) → rows group number ≡ true → groups.entries ≤ group)
        → ((parent group number : ℕ) → Leads groups parent group → rows group number ≡ true → Holds groups number parent ⊎ (rows parent number ≡ true))
        → (group number : ℕ) → rows group number ≡ true → IsAvailable groups group number }
{}

/// Where there are more entries, or more groups lead to one another, no further module is available.
pub fn fewer_by_more()
    ensures { (groups more : Groups) → groups.entries ≤ more.entries → more.closures ≡ groups.closures
        → ((group next : ℕ) → Leads groups group next → Leads more group next)
        → (group number : ℕ) → IsAvailable more group number → IsAvailable groups group number }
{}

/// Where it can be told what is available, what a group brings and what is available there make up its modules.
pub fn parts_of_closure()
    ensures { (groups : Groups) (group number : ℕ) (told : Bool) → (told ≡ true) ↔ IsAvailable groups group number
        → Holds groups number group ↔ (IsPlaced groups group number ⊎ (Holds groups number group × IsAvailable groups group number)) }
{}

/// Each group of a graph ends a walk.
pub fn each_group_ends_a_walk()
    ensures { (graph : Graph) (used : Used) (active : Active) (groups : Groups) → IsActive graph used active → IsGroups graph active groups
        → (group : ℕ) → group < length groups.targets → (before : List ℕ) × IsWalk groups before group }
{}

/// The groups of a graph, where they are few, are groups that can stand by themselves.
pub fn groups_stand_alone()
    ensures { (graph : Graph) (active : Active) (groups : Groups) → IsGroups graph active groups → IsShort groups.targets → GroupsFit groups }
{}

/// A group has its target, and with a module what active edges and `require` lead to from it.
pub fn closures_are_closed()
    ensures itself { (graph : Graph) (active : Active) (groups : Groups) → IsGroups graph active groups
        → (group target : ℕ) → slice_get groups.targets group ≡ Some target → Holds groups target group }
    ensures along { (graph : Graph) (active : Active) (groups : Groups) → IsGroups graph active groups → (group number next : ℕ) (targets : List ℕ)
        → Holds groups number group → slice_get active.edges number ≡ Some targets → Contains targets next → Holds groups next group }
    ensures required { (graph : Graph) (active : Active) (groups : Groups) → IsGroups graph active groups → (group number next : ℕ)
        → Holds groups number group → CallsRequire graph number next → Holds groups next group }
{}

/// The modules of a group are reached, and each reached module is brought by some group. So the modules that groups
/// bring are exactly the reached ones.
pub fn groups_bring_reached()
    ensures held { (graph : Graph) (used : Used) (active : Active) (groups : Groups) → IsActive graph used active → IsGroups graph active groups
        → (group number : ℕ) → Holds groups number group → slice_get active.reached number ≡ Some true }
    ensures placed { (graph : Graph) (used : Used) (active : Active) (groups : Groups) → IsActive graph used active → IsGroups graph active groups
        → (number : ℕ) → slice_get active.reached number ≡ Some true → (group : ℕ) × IsPlaced groups group number }
{}

/// A graph has its groups in one way.
pub fn groups_are_determined()
    ensures { (graph : Graph) (active : Active) (groups others : Groups) → IsGroups graph active groups → IsGroups graph active others
        → groups ≡ others }
{}

/// What groups bring stands in one list of rows alone.
pub fn what_groups_bring_is_determined()
    ensures { (groups : Groups) (placed others : List (List ℕ)) → ArePlaced groups placed → ArePlaced groups others → placed ≡ others }
{}

/// The modules of the groups of a graph are among its rows.
pub fn groups_have_rows()
    ensures { (graph : Graph) (used : Used) (active : Active) (groups : Groups) → IsActive graph used active → IsGroups graph active groups
        → HasModulesBelow groups (length graph.rows) }
{}

/// A module that one of two parents lacks is brought again.
pub fn shared_by_one_parent()
    ensures used { HasUse shared_graph shared_used }
    ensures edges { IsActive shared_graph shared_used shared_active }
    ensures groups { IsGroups shared_graph shared_active one_parent }
    ensures entry { BringsExactly one_parent 0 (0 ∷ []) }
    ensures first { BringsExactly one_parent 1 (1 ∷ 3 ∷ []) }
    ensures second { BringsExactly one_parent 2 (2 ∷ []) }
    ensures last { BringsExactly one_parent 3 (3 ∷ 4 ∷ []) }
{}

/// A module that both parents have is not.
pub fn shared_by_both_parents()
    ensures entry { BringsExactly both_parents 0 (0 ∷ []) }
    ensures first { BringsExactly both_parents 1 (1 ∷ 3 ∷ []) }
    ensures second { BringsExactly both_parents 2 (2 ∷ 3 ∷ []) }
    ensures last { BringsExactly both_parents 3 (4 ∷ []) }
{}

/// A module that the entry evaluates is there when it is imported again.
pub fn shared_by_entry()
    ensures used { HasUse itself_graph itself_used }
    ensures edges { IsActive itself_graph itself_used itself_active }
    ensures groups { IsGroups itself_graph itself_active entry_itself }
    ensures entry { BringsExactly entry_itself 0 (0 ∷ 1 ∷ []) }
    ensures later { BringsExactly entry_itself 1 [] }
{}

/// Two entries share the group of what both import.
pub fn shared_by_two_entries()
    ensures used { HasUse entries_graph entries_used }
    ensures edges { IsActive entries_graph entries_used entries_active }
    ensures groups { IsGroups entries_graph entries_active two_entries }
    ensures first { BringsExactly two_entries 0 (0 ∷ []) }
    ensures second { BringsExactly two_entries 1 (1 ∷ []) }
    ensures later { BringsExactly two_entries 2 (2 ∷ []) }
{}

/// A module of CommonJS requires one of ECMAScript, and imports another one when it runs. All names of both are used, and
/// no namespace is used as a value. What is required is no edge, but stands in the group of the entry, with what it evaluates
/// before itself: that is a stop, since it is none of ECMAScript.
pub fn required_module()
    ensures used { HasUse require_graph require_used }
    ensures edges { IsActive require_graph require_used require_active }
    ensures groups { IsGroups require_graph require_active require_groups }
    ensures entry { BringsExactly require_groups 0 (0 ∷ 1 ∷ 3 ∷ []) }
    ensures later { BringsExactly require_groups 1 (2 ∷ []) }
{}
