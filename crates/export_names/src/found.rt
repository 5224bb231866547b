ghost use Rattle.std.specs.Prelude.{◌≡◌};
ghost use Rattle.pk_types.specs.Joined.{is_same, joined};

use pk_types::Found;

/// Whether two stars lead to the same, so that a name stands for one thing through both.
pub fn is_same(left: &Found, right: &Found) -> bool
    ensures { result ≡ is_same left.now right.now }
{
    match (left, right) {
        (Found::Binding(module, binding), Found::Binding(other, bound)) => {
            *module == *other && *binding == *bound
        }
        (Found::Namespace(module), Found::Namespace(other)) => *module == *other,
        (Found::Foreign(module, name), Found::Foreign(other, named)) => {
            *module == *other && *name == *named
        }
        (Found::Nothing, Found::Nothing) | (Found::Ambiguous, Found::Ambiguous) => true,
        _ => false,
    }
}

// What several stars lead to, once one more star leads to `found`.
pub fn join(so_far: Found, found: Found) -> Found
    ensures { result ≡ joined so_far found }
{
    if let Found::Nothing = so_far {
        found
    } else if let Found::Nothing = found {
        so_far
    } else if is_same(&so_far, &found) {
        so_far
    } else {
        Found::Ambiguous
    }
}
