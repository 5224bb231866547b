// Where the nearest manifest of a module may stand.
ghost use Rattle.std.specs.Prelude.{◌≡◌, ◌++◌, IfOk, OnOk};
ghost use Rattle.pk_base.specs.Paths.{joined};
ghost use Rattle.watch_core.specs.Manifests as spec;

use pk_base::Path;
use std::alloc::{AllocError, Global};

fn holds_packages(folder: &Path) -> bool
    ensures { result ≡ spec.holds_packages folder.now }
{
    let folder = folder.as_bytes();
    folder == b"node_modules".as_slice() || folder.ends_with(b"/node_modules")
}

// The manifest that a folder may hold.
#[tactic(auto, unfolding(crate::specs::Manifests::manifest_name))]
fn manifest_in(folder: &Path) -> Result<Option<Path>, AllocError>
    ensures { IfOk result (λ manifest. manifest ≡ joined folder.now spec.manifest_name) }
{
    folder.join(b"package.json")
}

// Puts the manifest that a folder may hold behind some paths.
fn put_manifest(paths: &mut Vec<Path>, folder: &Path) -> Result<(), AllocError>
    ensures { OnOk result (paths.new.items ≡ paths.old.items ++ spec.manifest_in folder.now) }
{
    match manifest_in(folder)? {
        Some(manifest) => paths.push(manifest)?,
        None => {}
    }
    Ok(())
}

/// Where the nearest manifest of the module at a path may stand, from its folder outwards.
pub fn manifest_paths(alloc: Global, path: &Path) -> Result<Vec<Path>, AllocError>
    ensures { IfOk result (λ paths. paths.items ≡ spec.manifest_paths path.now) }
{
    let mut paths = Vec::new(alloc);
    let mut folder = path.folder()?;
    'folders: loop {
        if holds_packages(&folder) {
            return Ok(paths);
        }
        put_manifest(&mut paths, &folder)?;
        if folder.is_root() {
            return Ok(paths);
        }
        folder = folder.folder()?;
    }
}
