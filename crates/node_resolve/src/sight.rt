ghost use Rattle.std.specs.Prelude.{◌≤◌, Option, Some, IfOk, List, ℕ, length};
ghost use Rattle.pk_types.specs.declared.limits.TheConstants.{MAX_FILE_LEN};
ghost use Rattle.node_resolve.specs.Manifests.{AreBytes, IsSight};

use crate::look::Bytes;
use pk_base::Path;
use pk_types::Text;
use pkg_manifest::{Manifest, ManifestFault, manifest};
use std::alloc::{AllocError, Global};

/// What stands at the path of a manifest.
#[derive(Drop)]
pub(crate) enum Sight {
    Absent,
    Bad,
    Says(Manifest),
}

/// A folder with its manifest, which stands at the path.
#[derive(Drop)]
pub(crate) struct Package {
    pub(crate) folder: Path,
    pub(crate) path: Path,
    pub(crate) manifest: Manifest,
}

/// What these bytes say.
fn sight_of(alloc: Global, text: &Text) -> Result<Sight, AllocError>
    ensures { IfOk result (λ sight. length text.now ≤ MAX_FILE_LEN
        → IsSight (Some text.now) sight) }
{
    match manifest(alloc, text.as_slice()) {
        Ok(said) => Ok(Sight::Says(said)),
        Err(ManifestFault::NotJson) => Ok(Sight::Bad),
        Err(ManifestFault::NotObject) => Ok(Sight::Bad),
        Err(ManifestFault::NoMemory) => Err(AllocError),
    }
}

/// What the bytes that were found say.
pub(crate) fn sight_in(alloc: Global, bytes: &Bytes) -> Result<Sight, AllocError>
    ensures { IfOk result (λ sight. (held : Option (List ℕ)) → AreBytes held bytes.now
        → IsSight held sight) }
{
    match bytes {
        Bytes::Absent => Ok(Sight::Absent),
        Bytes::Longer => Ok(Sight::Bad),
        Bytes::Here(text) => sight_of(alloc, text),
    }
}
