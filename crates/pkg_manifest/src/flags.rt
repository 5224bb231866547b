ghost use Rattle.std.specs.Prelude.{◌≡◌, not, ◌||◌};
ghost use Rattle.std.specs.List.{list_any};
ghost use Rattle.pkg_manifest.specs.Patterns.{names as names_path, is_special};
ghost use Rattle.pkg_manifest.specs.Flags.{is_flagged};

use crate::package::{Manifest, SideEffects};
use crate::pattern::{has_special, names};
use pk_types::Text;

impl Manifest {
    /// Whether the file of the package at that path is without side effects.
    pub fn flagged(&self, inner: &[u8]) -> bool
        ensures { result ≡ is_flagged self.now.side_effects inner.now }
    {
        match &self.side_effects {
            SideEffects::Unstated => false,
            SideEffects::Free => true,
            SideEffects::Listed(patterns) => none_names(patterns.as_slice(), inner),
        }
    }
}

fn none_names(patterns: &[Text], path: &[u8]) -> bool
    ensures { result ≡ not (list_any (λ p. list_any is_special p || names_path p path.now) patterns.now) }
{
    let mut patterns = patterns;
    while let [pattern, rest @ ..] = patterns {
        let pattern = pattern.as_slice();
        if has_special(pattern) || names(pattern, path) {
            return false;
        }
        patterns = rest;
    }
    true
}
