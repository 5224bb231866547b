//! What the name of a file says.
ghost use Rattle.std.specs.Prelude.{◌≡◌};
ghost use Rattle.module_at_path.specs.Files as spec;

use pk_base::Path;
use pk_types::NameKind;

/// The kind that the name of a file says, if it says any. At `.js` it depends on the nearest manifest.
pub(crate) fn name_kind(path: &Path, is_module: bool) -> Option<NameKind>
    ensures { result ≡ spec.name_kind is_module path.now }
{
    let name = path.as_bytes();
    if name.ends_with(b".js") {
        return Some(if is_module {
            NameKind::Module
        } else {
            NameKind::Either
        });
    }
    if name.ends_with(b".mjs") {
        return Some(NameKind::Module);
    }
    if name.ends_with(b".cjs") {
        return Some(NameKind::Common);
    }
    if name.ends_with(b".json") {
        return Some(NameKind::Json);
    }
    None
}
