ghost use Rattle.std.specs.Prelude.{◌≡◌, ℕ, List};
ghost use Rattle.std.specs.List.{All};
ghost use Rattle.pk_base.specs.FileTree.{FileTree};
ghost use Rattle.pk_types.specs.declared.form.Form.{Form as Asking};
ghost use Rattle.node_resolve.specs.Candidates.{Verdict, Scope};
ghost use Rattle.node_resolve.specs.Present.{AgreesOn};
ghost use Rattle.node_resolve.specs.Resolution.{Resolves, IsScope};

/// A request has one answer at most in a tree, with one list of asked paths, and each tree that agrees with it on the asked
/// paths has the same.
pub fn agreeing_trees_resolve_alike()
    ensures one { (t : FileTree) (folder request : List ℕ) (form : Asking) (a b : Verdict)
        (asked other : List (List ℕ)) → Resolves t folder request form a asked
        → Resolves t folder request form b other → (a ≡ b) × (asked ≡ other) }
    ensures same { (t u : FileTree) (folder request : List ℕ) (form : Asking) (a : Verdict)
        (asked : List (List ℕ)) → AgreesOn t u asked → Resolves t folder request form a asked
        → Resolves u folder request form a asked }
    ensures one_scope { (t : FileTree) (folder : List ℕ) (a b : Scope)
        (asked other : List (List ℕ)) → IsScope t folder a asked → IsScope t folder b other
        → (a ≡ b) × (asked ≡ other) }
    ensures same_scope { (t u : FileTree) (folder : List ℕ) (a : Scope)
        (asked : List (List ℕ)) → AgreesOn t u asked → IsScope t folder a asked
        → IsScope u folder a asked }
{}
