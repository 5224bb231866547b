ghost use Rattle.std.specs.Prelude.{◌≡◌, ◌≢◌, ℕ, List, None, Some, true, false, slice_get};
ghost use Rattle.std.specs.List.{All, Contains};
ghost use Rattle.pk_types.specs.declared.graph.Graph.{Graph};
ghost use Rattle.pk_types.specs.declared.plan.Active.{Active};
ghost use Rattle.pk_types.specs.declared.plan.Plan.{Plan};
ghost use Rattle.pk_types.specs.declared.plan.Used.{Used};
ghost use Rattle.pk_types.specs.Fitting.{Fits};
ghost use Rattle.pk_types.specs.Requests.{flag_of};
ghost use Rattle.pk_types.specs.Use.{HasUse};
ghost use Rattle.pk_types.specs.ActiveEdges.{IsActive};
ghost use Rattle.pk_types.specs.ChunkGroups.{IsGroups};
ghost use Rattle.pk_types.specs.Availability.{ArePlaced};
ghost use Rattle.pk_types.specs.Splitting.{IsSplit};
ghost use Rattle.pk_types.specs.HoistItems.{AreHoists};
ghost use Rattle.pk_types.specs.GivenNames.{AreGivenNames};
ghost use Rattle.pk_types.specs.ModuleIds.{AreNaturalIds};
ghost use Rattle.emit_chunk.specs.Bare.{IsBare};
ghost use Rattle.plan_core.specs.Plans.{IsPlan};
ghost use Rattle.plan_laws.specs.GeneralPlans.{IsGeneralPlan};

/// What is planned so far is what the general definitions say: the plan of a bare graph has its use, its active edges,
/// its groups and what each brings, the chunks where none is split, the scopes where none is shared, the names of these
/// scopes, and natural ids. The edges are so where the graph fits and no
/// module is said to have no side effects.
pub fn plans_of_bare_graphs_are_plans()
    ensures used { (graph : Graph) (plan : Plan) → IsBare graph → IsPlan graph plan → HasUse graph plan.used }
    ensures edges { (graph : Graph) (plan : Plan) → Fits graph → IsBare graph → All (λ row. row.flagged ≡ false) graph.rows → IsPlan graph plan
        → IsActive graph plan.used plan.active }
    ensures groups { (graph : Graph) (plan : Plan) → IsBare graph → IsPlan graph plan → IsGroups graph plan.active plan.groups }
    ensures placed { (graph : Graph) (plan : Plan) → IsPlan graph plan → ArePlaced plan.groups plan.groups.closures }
    ensures chunks { (graph : Graph) (plan : Plan) → IsPlan graph plan → (placed : List (List ℕ)) → ArePlaced plan.groups placed
        → IsSplit graph None plan.groups.entries placed plan.chunks }
    ensures scopes { (graph : Graph) (plan : Plan) → IsPlan graph plan
        → AreHoists (record { graph = graph; active = plan.active; used = plan.used; chunks = plan.chunks }) false plan.hoists }
    ensures names { (graph : Graph) (plan : Plan) → IsBare graph → IsPlan graph plan → AreGivenNames graph plan.hoists.root plan.names }
    ensures ids { (graph : Graph) (plan : Plan) → IsPlan graph plan → AreNaturalIds graph plan.chunks plan.ids }
{}

/// The plan of a bare graph that fits, and of no module of which it is said that it has no side effects, is the plan by
/// the general definitions, and there is no other one.
pub fn bare_graphs_have_one_plan()
    ensures is { (graph : Graph) → Fits graph → IsBare graph → All (λ row. row.flagged ≡ false) graph.rows → (plan : Plan) → IsPlan graph plan
        → IsGeneralPlan graph plan }
    ensures only { (graph : Graph) → Fits graph → IsBare graph → All (λ row. row.flagged ≡ false) graph.rows → (plan : Plan) → IsPlan graph plan
        → (other : Plan) → IsGeneralPlan graph other → other ≡ plan }
{}

/// By the general definitions no edge of a bare graph leads to a module that is said to have no side effects, since none
/// of its names is used. A plan as it is computed so far keeps such edges, so that the clause
/// `edges` of `plans_of_bare_graphs_are_plans` asks for no such module.
pub fn edges_avoid_flagged_modules()
    ensures { (graph : Graph) → IsBare graph → (used : Used) (active : Active) → HasUse graph used → IsActive graph used active
        → (number target : ℕ) (targets : List ℕ) → slice_get active.edges number ≡ Some targets → Contains targets target
        → flag_of graph target ≢ Some true }
{}
