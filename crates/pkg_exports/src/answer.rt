use pk_types::Text;
use std::alloc::AllocError;

/// The map of a manifest in which a key is looked for.
#[derive(Clone, Copy, Debug, PartialEq, Eq)]
pub enum Table {
    Exports,
    Imports,
}

/// What a key stands for.
#[derive(Debug, Drop)]
pub enum Target {
    /// The path of a file in the package. It begins with `./`.
    File(Text),
    /// A bare request, to be resolved from the package.
    Bare(Text),
}

/// Why a key stands for nothing.
#[derive(Clone, Copy, Debug, PartialEq, Eq)]
pub enum TargetFault {
    NotExported,
    BadTarget,
    /// Some keys of `exports` begin with `.`, and some do not.
    BadMap,
    NoMemory,
}

impl From<AllocError> for TargetFault {
    ghost use Rattle.pkg_exports.specs.declared.answer.TargetFault.TheVariants.{NoMemory};
    ghost use Rattle.std.specs.Prelude.{◌≡◌};

    ghost from_gives = { λ _ fault. fault ≡ NoMemory };

    fn from(_refused: AllocError) -> TargetFault {
        TargetFault::NoMemory
    }
}
