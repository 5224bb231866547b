ghost use Rattle.std.specs.Prelude.{◌≡◌, ℕ, List};
ghost use Rattle.pkg_manifest.specs.declared.value.Json.{Json};
ghost use Rattle.pkg_manifest.specs.Grammar.{StandsFor};

/// Bytes stand for one value at most.
pub fn stands_for_one_value()
    ensures { (bytes : List ℕ) (j k : Json) → StandsFor bytes j → StandsFor bytes k → j ≡ k }
{}
