ghost use Rattle.std.specs.Prelude.{◌≡◌, ℕ, List, Result};
ghost use Rattle.pk_base.specs.FileTree.{FileTree};
ghost use Rattle.watch_core.specs.Builds.{Finds};
ghost use Rattle.watch_core.specs.declared.faults.BuildFault.{BuildFault as Fault};
ghost use Rattle.watch_core.specs.declared.walk.FoundModules.{FoundModules as Modules};

/// A tree has one answer at most, its modules or its first fault, and is asked for one list of paths on the way.
pub fn finds_one_answer()
    ensures { (tree : FileTree) (asks others : List (List ℕ)) (one other : Result Modules Fault)
        → Finds tree asks one → Finds tree others other → (one ≡ other) × (asks ≡ others) }
{}
