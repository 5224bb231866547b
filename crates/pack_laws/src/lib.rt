//! What the definitions of a round come to: a tree has one outcome.
//!
//! Nothing here runs. `a_tree_has_one_outcome` states the law as its contract: with the headline of `pack_cli`
//! (`specs/Headline.antt`) it says that what a build leaves is a function of the tree.
#![tactic(auto)]

ghost use Rattle.std.specs.Prelude.{◌≡◌, ℕ, List};
ghost use Rattle.pk_base.specs.FileTree.{FileTree};
ghost use Rattle.pack_cli.specs.Output.{Bundle, HasBundle};
ghost use Rattle.pack_cli.specs.Headline.{Builds, Outcome};

/// A tree has one outcome of `build` at most: one status, the same lines, the same files and the same asks. So it has one
/// bundle at most.
pub fn a_tree_has_one_outcome()
    ensures outcome { (tree : FileTree) (outcome other : Outcome) → Builds tree outcome
        → Builds tree other → outcome ≡ other }
    ensures bundle { (tree : FileTree) (bundle other : Bundle) (asks others : List (List ℕ))
        → HasBundle tree bundle asks → HasBundle tree other others → (bundle ≡ other)
        × (asks ≡ others) }
{}
