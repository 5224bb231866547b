ghost use Rattle.std.specs.Prelude.{◌≡◌, ◌++◌, ◌∷◌, [], IfOk, OnOk};
ghost use Rattle.node_resolve.specs.Folders as spec;

use pk_base::Path;
use std::alloc::{AllocError, Global};

/// Whether the folder is named `node_modules`.
pub(crate) fn holds_packages(folder: &Path) -> bool
    ensures { result ≡ spec.holds_packages folder.now }
{
    let folder = folder.as_bytes();
    folder == b"node_modules".as_slice() || folder.ends_with(b"/node_modules")
}

fn put(folders: &mut Vec<Path>, folder: Path) -> Result<(), AllocError>
    ensures { OnOk result (folders.new.items ≡ folders.old.items ++ folder ∷ []) }
{
    folders.push(folder)?;
    Ok(())
}

/// A folder and all above it, from it outwards.
pub(crate) fn outward(alloc: Global, folder: &Path) -> Result<Vec<Path>, AllocError>
    ensures { IfOk result (λ folders. folders.items ≡ spec.outward folder.now) }
{
    let mut folders = Vec::new(alloc);
    let mut here = folder.copy()?;
    'folders: loop {
        put(&mut folders, here.copy()?)?;
        if here.is_root() {
            return Ok(folders);
        }
        here = here.folder()?;
    }
}
