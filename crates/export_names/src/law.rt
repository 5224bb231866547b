ghost use Rattle.std.specs.Prelude.{◌≡◌, ℕ, List};
ghost use Rattle.pk_types.specs.declared.found.Found.{Found};
ghost use Rattle.pk_types.specs.declared.graph.Graph.{Graph};
ghost use Rattle.pk_types.specs.Resolving.{Resolves};

/// A name of a module stands for one thing at most.
pub fn resolves_to_one()
    ensures { (graph : Graph) (number : ℕ) (name : List ℕ) (found other : Found) → Resolves graph number name found → Resolves graph number name other → found ≡ other }
{}
