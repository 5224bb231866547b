//! Strings that hold their own value.
ghost use Rattle.std.specs.Prelude.{◌≡◌, IsTrue};
ghost use Rattle.es_tree.specs.Names.{string_value};
ghost use Rattle.es_strings.specs.Decoding.{inner};

/// Whether what stands between the quotes of a spelling is ASCII without an escape, so that it is the string's value.
#[tactic(auto, using(crate::proofs::Passing::holds_itself))]
pub fn is_plain(spelling: &[u8]) -> bool
    ensures { IsTrue result → string_value spelling.now ≡ inner spelling.now }
{
    let mut rest = within(spelling);
    while let Some((first, behind)) = rest.split_first() {
        if *first >= 0x80 || *first == b'\\' {
            return false;
        }
        rest = behind;
    }
    true
}

/// What stands between the quotes.
pub fn within(spelling: &[u8]) -> &[u8]
    ensures { result.now ≡ inner spelling.now }
{
    match spelling {
        [_, inner @ .., _] => inner,
        _ => &[],
    }
}
