ghost use Rattle.std.specs.Prelude.{◌≡◌};
ghost use Rattle.pk_types.specs.declared.graph.Graph.{Graph};
ghost use Rattle.pk_types.specs.declared.plan.Plan.{Plan};
ghost use Rattle.plan_core.specs.Plans.{IsPlan};

/// A graph has one plan at most.
pub fn a_graph_has_one_plan()
    ensures { (graph : Graph) (plan other : Plan) → IsPlan graph plan → IsPlan graph other → plan ≡ other }
{}
