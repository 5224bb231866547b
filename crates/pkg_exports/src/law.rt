ghost use Rattle.std.specs.Prelude.{◌≡◌, ℕ, List, Some, Result, false};
ghost use Rattle.std.specs.List.{slice_get};
ghost use Rattle.pk_types.specs.declared.form.Form.{Form as Asking};
ghost use Rattle.pkg_manifest.specs.declared.value.Json.{Json as Value};
ghost use Rattle.pkg_manifest.specs.declared.value.Member.{Member as Entry};
ghost use Rattle.pkg_exports.specs.declared.answer.Table.{Table as Map};
ghost use Rattle.pkg_exports.specs.declared.answer.Target.{Target as Found};
ghost use Rattle.pkg_exports.specs.declared.answer.TargetFault.{TargetFault as Fault};
ghost use Rattle.pkg_exports.specs.Texts.{has};
ghost use Rattle.pkg_exports.specs.Keys.{Decides};
ghost use Rattle.pkg_exports.specs.Answers.{Answers};

/// A key has one answer at most in a map.
pub fn has_one_answer()
    ensures { (form : Asking) (table : Map) (map : Value) (key : List ℕ) (a b : Result Found Fault) → Answers form table map key a → Answers form table map key b → a ≡ b }
{}

/// Where a key without `*` is itself a name of the map, that name decides.
pub fn equal_name_decides()
    ensures { (entries : List (Entry Value)) (key part : List ℕ) (i : ℕ) (n m : Entry Value) → has 42 key ≡ false → slice_get entries i ≡ Some n → n.name ≡ key → Decides entries key m part → m.name ≡ key }
{}
