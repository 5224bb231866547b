use json::Invalid;
use std::alloc::AllocError;

/// Why a manifest was not read.
#[derive(Clone, Copy, Debug, PartialEq, Eq)]
pub enum ManifestFault {
    NotJson,
    NotObject,
    NoMemory,
}

impl From<AllocError> for ManifestFault {
    ghost use Rattle.pkg_manifest.specs.declared.fault.ManifestFault.TheVariants.{NoMemory};
    ghost use Rattle.std.specs.Prelude.{◌≡◌};

    ghost from_gives = { λ _ fault. fault ≡ NoMemory };

    fn from(_refused: AllocError) -> ManifestFault {
        ManifestFault::NoMemory
    }
}

impl From<Invalid> for ManifestFault {
    ghost use Rattle.pkg_manifest.specs.declared.fault.ManifestFault.TheVariants.{NotJson};
    ghost use Rattle.std.specs.Prelude.{◌≡◌};

    ghost from_gives = { λ _ fault. fault ≡ NotJson };

    fn from(_invalid: Invalid) -> ManifestFault {
        ManifestFault::NotJson
    }
}
