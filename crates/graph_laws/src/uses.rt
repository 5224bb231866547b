ghost use Rattle.std.specs.Prelude.{◌≡◌, ◌↔◌, ℕ, Bool, List, [], ◌∷◌, true, false, Some, None, slice_get};
ghost use Rattle.std.specs.List.{Contains};
ghost use Rattle.pk_types.specs.declared.graph.Graph.{Graph};
ghost use Rattle.pk_types.specs.declared.plan.Active.{Active};
ghost use Rattle.pk_types.specs.declared.plan.Used.{Used};
ghost use Rattle.pk_types.specs.Fitting.{Fits};
ghost use Rattle.pk_types.specs.Requests.{flag_of, Declares};
ghost use Rattle.pk_types.specs.declared.facts.Kind.TheVariants.{Es};
ghost use Rattle.pk_types.specs.declared.facts.Origin.TheVariants.{Other};
ghost use Rattle.pk_types.specs.declared.found.Found.{Found};
ghost use Rattle.pk_types.specs.declared.graph.Row.{Row};
ghost use Rattle.pk_types.specs.Resolving.{origin_of};
ghost use Rattle.pk_types.specs.Reexports.{FindsOne, IsFoundThrough, NamespaceNames};
ghost use Rattle.pk_types.specs.Stops.{IsStopOf};
ghost use Rattle.pk_types.specs.StopSearch.{HasStops};
ghost use Rattle.pk_types.specs.Use.{IsReached, IsUsed, IsUsedThrough, IsWholeThrough, IsWhole, HasUse};
ghost use Rattle.pk_types.specs.ActiveEdges.{IsActive};
ghost use Rattle.pk_types.specs.ChunkGroups.{IsGroups};
ghost use Rattle.graph_laws.specs.ClosedUse.{AreClosed};
ghost use Rattle.graph_laws.specs.Owners.{owner_of};
ghost use Rattle.graph_laws.specs.SmallUse.{barrel_graph, barrel_used, barrel_active};
ghost use Rattle.graph_laws.specs.RequiredModule.{require_graph};
ghost use Rattle.graph_laws.specs.SharedLater.{shared_graph};
ghost use Rattle.graph_laws.specs.TwoEntries.{entries_graph};
ghost use Rattle.graph_laws.specs.EntryItself.{itself_graph};
ghost use Rattle.graph_laws.specs.StarBarrel.{star_graph, star_used, star_active, star_groups};
ghost use Rattle.graph_laws.specs.OpenBarrel.{open_graph, open_active, plain_graph, plain_active};

/// What is reached and used lies within all sets of which the rules are true.
pub fn use_is_least()
    ensures reached { (graph : Graph) (reached : ℕ → Bool) (used : ℕ → List ℕ → Bool) (through : ℕ → ℕ → List ℕ → Bool) (whole : ℕ → ℕ → Bool)
        → AreClosed graph reached used through whole → (number : ℕ) → IsReached graph number → reached number ≡ true }
    ensures used { (graph : Graph) (reached : ℕ → Bool) (used : ℕ → List ℕ → Bool) (through : ℕ → ℕ → List ℕ → Bool) (whole : ℕ → ℕ → Bool)
        → AreClosed graph reached used through whole → (number : ℕ) (name : List ℕ) → IsUsed graph number name → used number name ≡ true }
    ensures through { (graph : Graph) (reached : ℕ → Bool) (used : ℕ → List ℕ → Bool) (through : ℕ → ℕ → List ℕ → Bool) (whole : ℕ → ℕ → Bool)
        → AreClosed graph reached used through whole → (number request : ℕ) (name : List ℕ) → IsUsedThrough graph number request name
        → through number request name ≡ true }
    ensures space { (graph : Graph) (reached : ℕ → Bool) (used : ℕ → List ℕ → Bool) (through : ℕ → ℕ → List ℕ → Bool) (whole : ℕ → ℕ → Bool)
        → AreClosed graph reached used through whole → (number request : ℕ) → IsWholeThrough graph number request → whole number request ≡ true }
{}

/// A graph has its use in one way.
pub fn use_is_determined()
    ensures { (graph : Graph) (used others : Used) → HasUse graph used → HasUse graph others → used ≡ others }
{}

/// The search for the stops of a name finds exactly its stops.
pub fn search_finds_stops()
    ensures { (graph : Graph) (number : ℕ) (name stops : List ℕ) → HasStops graph number name stops
        → (stop : ℕ) → Contains stops stop ↔ IsStopOf graph number name stop }
{}

/// A name has its stops in one order, and a graph with its use has its active edges in one way.
pub fn edges_are_determined()
    ensures stops { (graph : Graph) (number : ℕ) (name stops others : List ℕ) → HasStops graph number name stops
        → HasStops graph number name others → stops ≡ others }
    ensures active { (graph : Graph) (used : Used) (active other : Active) → IsActive graph used active → IsActive graph used other → active ≡ other }
{}

/// Active edges, `require` and `import()` lead to exactly the modules that are reached. That a stop is also taken where
/// the namespace is used adds none.
pub fn edges_lead_to_reached()
    ensures { (graph : Graph) (used : Used) (active : Active) → Fits graph → HasUse graph used → IsActive graph used active
        → (number : ℕ) → (slice_get active.reached number ≡ Some true) ↔ IsReached graph number }
{}

/// A declaration of a reached module whose target may have side effects, or whose namespace is used, is an edge, also
/// where no name of the target is used.
pub fn kept_declarations_are_edges()
    ensures unflagged { (graph : Graph) (used : Used) (active : Active) → HasUse graph used → IsActive graph used active
        → (number request target : ℕ) (edges : List ℕ) → slice_get active.reached number ≡ Some true → Declares graph number request target
        → flag_of graph target ≡ Some false → slice_get active.edges number ≡ Some edges → Contains edges target }
    ensures space { (graph : Graph) (used : Used) (active : Active) → HasUse graph used → IsActive graph used active
        → (number request target : ℕ) (edges : List ℕ) → slice_get active.reached number ≡ Some true → Declares graph number request target
        → IsWholeThrough graph number request → slice_get active.edges number ≡ Some edges → Contains edges target }
{}

/// The stops of a used name are reached, and so is a module whose namespace is used.
pub fn used_stops_are_reached()
    ensures stops { (graph : Graph) → Fits graph
        → (number : ℕ) (name : List ℕ) → IsUsed graph number name → (stop : ℕ) → IsStopOf graph number name stop → IsReached graph stop }
    ensures spaces { (graph : Graph) → Fits graph → (target : ℕ) → IsWhole graph target → IsReached graph target }
{}

/// A name that leads to one thing has a stop. Where its module is one of ECMAScript and has no export of the name, it is
/// found through a star.
pub fn found_names_have_stops()
    ensures stop { (graph : Graph) (number : ℕ) (name : List ℕ) (found : Found) → FindsOne graph number name found
        → (stop : ℕ) × IsStopOf graph number name stop }
    ensures star { (graph : Graph) (number : ℕ) (name : List ℕ) (row : Row) (found : Found) → slice_get graph.rows number ≡ Some row
        → row.facts.kind ≡ Es → origin_of row.facts name ≡ None → FindsOne graph number name found
        → (star : ℕ) × IsFoundThrough graph number row name star }
{}

/// The module that a used name leads to is reached, also where the name is passed on by modules that are skipped. So each
/// name of a namespace that is used leads to one that is reached.
pub fn owners_of_used_names_are_reached()
    ensures name { (graph : Graph) → Fits graph → (number owner : ℕ) (name : List ℕ) (found : Found) → IsUsed graph number name
        → FindsOne graph number name found → owner_of found ≡ Some owner → IsReached graph owner }
    ensures space { (graph : Graph) → Fits graph → (target : ℕ) (names : List (List ℕ)) (name : List ℕ) → IsWhole graph target
        → NamespaceNames graph target names → Contains names name
        → (found : Found) × FindsOne graph target name found × ((owner : ℕ) → owner_of found ≡ Some owner → IsReached graph owner) }
{}

/// An indirect export leads to what the name that it names leads to, where that is one thing.
pub fn indirect_exports_find()
    ensures { (graph : Graph) (number request target : ℕ) (exported name : List ℕ) (row : Row) (found : Found) → slice_get graph.rows number ≡ Some row
        → row.facts.kind ≡ Es → origin_of row.facts exported ≡ Some (Other request name) → slice_get row.targets request ≡ Some target
        → FindsOne graph target name found → FindsOne graph number exported found }
{}

/// Of three names that a module without side effects passes on, one is used: its owner is reached, and the module that
/// passes it on is skipped.
pub fn skipped_barrel()
    ensures used { HasUse barrel_graph barrel_used }
    ensures edges { IsActive barrel_graph barrel_used barrel_active }
    ensures owner { IsReached barrel_graph 3 }
    ensures skipped { ¬ IsReached barrel_graph 1 }
{}

/// Where the module that passes the names on may have side effects, it is an edge of its user. Of the owners of the
/// names, which have none, the one whose name is used is an edge of it, and alone is reached. The same names are used.
pub fn kept_barrel()
    ensures used { HasUse open_graph barrel_used }
    ensures edges { IsActive open_graph barrel_used open_active }
{}

/// Where no module is said to have no side effects, each declaration is an edge, though one name alone is used.
pub fn plain_barrel()
    ensures used { HasUse plain_graph barrel_used }
    ensures edges { IsActive plain_graph barrel_used plain_active }
{}

/// A module without side effects passes one used name on by a star, and exports a namespace that is used. The edges of its
/// user go to the owner of the name and to the module whose namespace it is, the names in byte order, and then to the
/// module whose namespace the user imports. Each name of the two modules that are used as a namespace is used. The module
/// that passes names on is not reached, and neither is what its other star leads to, though that may have side effects.
pub fn starred_barrel()
    ensures used { HasUse star_graph star_used }
    ensures edges { IsActive star_graph star_used star_active }
    ensures groups { IsGroups star_graph star_active star_groups }
    ensures skipped { ¬ IsReached star_graph 1 }
    ensures behind { ¬ IsReached star_graph 5 }
{}

/// The graphs that were worked out by hand fit.
pub fn small_graphs_fit()
    ensures skipped { Fits barrel_graph }
    ensures kept { Fits open_graph }
    ensures plain { Fits plain_graph }
    ensures starred { Fits star_graph }
    ensures required { Fits require_graph }
    ensures shared { Fits shared_graph }
    ensures entries { Fits entries_graph }
    ensures itself { Fits itself_graph }
{}
