ghost use Rattle.std.specs.Prelude.{◌≡◌, ℕ, List, false};
ghost use Rattle.std.specs.List.{All};
ghost use Rattle.pk_base.specs.FileTree.{FileTree};
ghost use Rattle.pk_types.specs.declared.graph.Graph.{Graph};
ghost use Rattle.pk_types.specs.declared.plan.Plan.{Plan};
ghost use Rattle.pk_types.specs.Fitting.{Fits};
ghost use Rattle.emit_body.specs.declared.body.Body.{Body};
ghost use Rattle.emit_chunk.specs.Bare.{IsBare};
ghost use Rattle.plan_core.specs.Plans.{IsPlan};
ghost use Rattle.plan_laws.specs.GeneralPlans.{IsGeneralPlan};
ghost use Rattle.watch_core.specs.Builds.{HasModules};

/// The modules of a tree make a bare graph that fits, and of no module it is said that it has no side effects.
pub fn modules_of_trees_are_bare()
    ensures fits { (t : FileTree) (graph : Graph) (bodies : List Body) (asks : List (List ℕ))
        → HasModules t graph bodies asks → Fits graph }
    ensures bare { (t : FileTree) (graph : Graph) (bodies : List Body) (asks : List (List ℕ))
        → HasModules t graph bodies asks → IsBare graph }
    ensures flags { (t : FileTree) (graph : Graph) (bodies : List Body) (asks : List (List ℕ))
        → HasModules t graph bodies asks
        → All (λ row. row.flagged ≡ false) graph.rows }
{}

/// The plan of a tree's modules, as it is computed so far, is the plan by the general definitions, and there is no other
/// one.
pub fn plans_of_trees_are_plans()
    ensures is { (t : FileTree) (graph : Graph) (bodies : List Body) (asks : List (List ℕ))
        → HasModules t graph bodies asks
        → (plan : Plan) → IsPlan graph plan → IsGeneralPlan graph plan }
    ensures only { (t : FileTree) (graph : Graph) (bodies : List Body) (asks : List (List ℕ))
        → HasModules t graph bodies asks
        → (plan : Plan) → IsPlan graph plan → (other : Plan) → IsGeneralPlan graph other
        → other ≡ plan }
{}
