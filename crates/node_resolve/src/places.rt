ghost use Rattle.std.specs.Prelude.{◌≡◌, ◌++◌, ◌∷◌, ◌<◌, ◌^◌, [], IfOk, OnOk, length};
ghost use Rattle.std.specs.Option.{option_to_list};
ghost use Rattle.pk_base.specs.Paths.{path_or_none};
ghost use Rattle.node_resolve.specs.Places as spec;

use crate::sight::Package;
use pk_base::{Path, PathFault};
use pk_types::Text;
use std::alloc::{AllocError, Global};

/// Puts a path behind others, if it is there.
fn put(paths: &mut Vec<Path>, path: Option<Path>) -> Result<(), AllocError>
    ensures { OnOk result (paths.new.items ≡ paths.old.items ++ option_to_list path) }
{
    match path {
        Some(path) => paths.push(path)?,
        None => {}
    }
    Ok(())
}

fn path_of(alloc: Global, text: &[u8]) -> Result<Option<Path>, AllocError>
    requires some { 0 < length text.now }
    requires short { length text.now < 2 ^ 32 }
    ensures { IfOk result (λ path. path ≡ path_or_none text.now) }
{
    match Path::read(alloc, text) {
        Ok(path) => Ok(Some(path)),
        Err(PathFault::NoMemory) => Err(AllocError),
        Err(PathFault::Empty) => Ok(None),
        Err(PathFault::Long(_)) => Ok(None),
        Err(PathFault::Bad(_)) => Ok(None),
    }
}

/// The path with an ending, if that is a path.
fn with_ending(alloc: Global, path: &Path, ending: &[u8]) -> Result<Option<Path>, AllocError>
    requires { (0 < length ending.now) × (length ending.now < 16) }
    ensures { IfOk result (λ longer. longer ≡ path_or_none (path.now ++ ending.now)) }
{
    let mut text = Vec::from_slice(alloc, path.as_bytes())?;
    text.extend_from_slice(ending)?;
    path_of(alloc, text.as_slice())
}

/// Puts the paths of a path as a file behind others.
fn put_file_paths(alloc: Global, paths: &mut Vec<Path>, path: &Path) -> Result<(), AllocError>
    ensures { OnOk result (paths.new.items ≡ paths.old.items ++ spec.file_paths path.now) }
{
    if path.is_root() {
        return Ok(());
    }
    put(paths, Some(path.copy()?))?;
    put(paths, with_ending(alloc, path, b".js")?)?;
    put(paths, with_ending(alloc, path, b".json")?)
}

/// Puts the paths of a folder's index behind others.
fn put_index_paths(paths: &mut Vec<Path>, folder: &Path) -> Result<(), AllocError>
    ensures { OnOk result (paths.new.items ≡ paths.old.items ++ spec.index_paths folder.now) }
{
    put(paths, folder.join(b"index.js")?)?;
    put(paths, folder.join(b"index.json")?)
}

fn put_file_or_index_paths(
    alloc: Global,
    paths: &mut Vec<Path>,
    path: Option<Path>,
) -> Result<(), AllocError>
    ensures { OnOk result (paths.new.items ≡ paths.old.items ++ spec.file_or_index_paths path) }
{
    match path {
        Some(path) => {
            put_file_paths(alloc, paths, &path)?;
            put_index_paths(paths, &path)
        }
        None => Ok(()),
    }
}

/// Puts the paths that a field of a manifest names behind others.
fn put_field_paths(
    alloc: Global,
    paths: &mut Vec<Path>,
    folder: &Path,
    field: &Option<Text>,
) -> Result<(), AllocError>
    ensures { OnOk result (paths.new.items ≡ paths.old.items
        ++ spec.field_paths folder.now field.now) }
{
    match field {
        Some(text) => {
            if text.is_empty() {
                return Ok(());
            }
            put_file_or_index_paths(alloc, paths, folder.join(text.as_slice())?)
        }
        None => Ok(()),
    }
}

/// Puts the paths that a manifest names behind others.
fn put_package_paths(
    alloc: Global,
    paths: &mut Vec<Path>,
    folder: &Path,
    owner: &Package,
) -> Result<(), AllocError>
    ensures { OnOk result (paths.new.items ≡ (paths.old.items
        ++ spec.field_paths folder.now owner.now.manifest.«module»)
        ++ spec.field_paths folder.now owner.now.manifest.main) }
{
    put_field_paths(alloc, paths, folder, &owner.manifest.module)?;
    put_field_paths(alloc, paths, folder, &owner.manifest.main)
}

/// The paths of a path as a file.
pub(crate) fn file_paths(alloc: Global, path: &Path) -> Result<Vec<Path>, AllocError>
    ensures { IfOk result (λ paths. paths.items ≡ spec.file_paths path.now) }
{
    let mut paths = Vec::new(alloc);
    put_file_paths(alloc, &mut paths, path)?;
    Ok(paths)
}

/// The paths of a path as a folder.
pub(crate) fn folder_paths(
    alloc: Global,
    folder: &Path,
    owner: &Option<Package>,
) -> Result<Vec<Path>, AllocError>
    ensures { IfOk result (λ paths. paths.items ≡ spec.folder_paths folder.now owner.now) }
{
    let mut paths = Vec::new(alloc);
    match owner {
        Some(owner) => put_package_paths(alloc, &mut paths, folder, owner)?,
        None => {}
    }
    put_index_paths(&mut paths, folder)?;
    Ok(paths)
}
