//! What the nearest manifest says of a module.
ghost use Rattle.std.specs.Prelude.{◌≡◌, IfOk, OnErr, IsErr};
ghost use Rattle.module_at_path.specs.Files as spec;
ghost use Rattle.module_at_path.specs.Faults as faults;

use crate::fault::FileFault;
use pk_base::Path;
use pkg_manifest::Manifest;
use std::alloc::AllocError;

/// The nearest manifest of a module with the folder that it stands in, if there is one, or the path of a bad one in its place.
pub type Scope = Result<Option<(Path, Manifest)>, Path>;

/// Whether the nearest manifest says that files named `.js` are modules of ECMAScript.
pub(crate) fn says_module(scope: &Scope) -> bool
    ensures { result ≡ spec.says_module scope.now }
{
    match scope {
        Ok(Some((_, manifest))) => manifest.is_module,
        _ => false,
    }
}

/// The fault of a bad manifest.
pub(crate) fn scope_fault(scope: &Scope) -> Result<Option<FileFault>, AllocError>
    ensures fault { IfOk result (λ fault. fault ≡ faults.scope_fault scope.now) }
    ensures err { OnErr result (IsErr scope.now) }
{
    match scope {
        Ok(_) => Ok(None),
        Err(bad) => Ok(Some(FileFault::BadScope(bad.copy()?))),
    }
}

/// The path of a file as its package's folder sees it.
fn path_in<'a>(folder: &Path, path: &'a Path) -> &'a [u8]
    ensures { result.now ≡ spec.path_in folder.now path.now }
{
    let bytes = path.as_bytes();
    if folder.is_root() {
        return bytes;
    }
    match bytes.get(folder.as_bytes().len() + 1..) {
        Some(inner) => inner,
        None => b"",
    }
}

/// Whether the nearest manifest says that the module at the path has no side effects. A setting may overrule it.
pub fn is_flagged(scope: &Scope, path: &Path) -> bool
    ensures { result ≡ spec.is_flagged scope.now path.now }
{
    match scope {
        Ok(Some((folder, manifest))) => manifest.flagged(path_in(folder, path)),
        _ => false,
    }
}
