//! Which tokens of an outline are kept.
ghost use Rattle.std.specs.Prelude.{◌≡◌};
ghost use Rattle.module_body.specs.Standing as spec;

use es_outline::{Mark, Part};

/// What becomes of a token at a place.
#[derive(Clone, Copy, Debug, PartialEq, Eq)]
pub enum Standing {
    /// It is kept.
    Kept,
    /// It is dropped with the declaration that it stands in.
    Dropped,
    /// It is `export` before a declaration, which is dropped.
    Export,
    /// It is `export` before `default`, and is dropped.
    ExportDefault,
    /// It is `default`, and is dropped.
    Default,
    /// It is kept, and what it begins is exported as the default.
    Defaulted,
}

// What becomes of a token with which a part begins.
fn begun(part: Part) -> Standing
    ensures { result ≡ spec.begun part }
{
    match part {
        Part::ImportDeclaration | Part::ExportStar | Part::ExportList => Standing::Dropped,
        Part::ExportedDeclaration => Standing::Export,
        Part::ExportDefault => Standing::ExportDefault,
        _ => Standing::Kept,
    }
}

// What becomes of the token behind another one.
fn gone_on(standing: Standing) -> Standing
    ensures { result ≡ spec.gone_on standing }
{
    match standing {
        Standing::Export => Standing::Kept,
        Standing::ExportDefault => Standing::Default,
        Standing::Default => Standing::Defaulted,
        other => other,
    }
}

/// What becomes of a token behind a mark, where this would become of it before.
pub(crate) fn stands_behind(mark: Mark, standing: Standing) -> Standing
    ensures { result ≡ spec.stands_behind mark standing }
{
    match mark {
        Mark::Begin(part) => begun(part),
        Mark::End(_) => Standing::Kept,
        Mark::Token(_, _) => gone_on(standing),
        _ => standing,
    }
}

/// Whether a token is kept.
pub(crate) fn is_kept(standing: Standing) -> bool
    ensures { result ≡ spec.is_kept standing }
{
    matches!(standing, Standing::Kept | Standing::Defaulted)
}
