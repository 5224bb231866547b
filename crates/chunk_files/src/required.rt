// What a CommonJS module requires.
ghost use Rattle.std.specs.Prelude.{◌≡◌, IfOk};
ghost use Rattle.std.specs.List.{All};
ghost use Rattle.pk_types.specs.Places.{ArePlacesIn};
ghost use Rattle.pk_types.specs.Sites.{called_requests};
ghost use Rattle.chunk_files.specs.Factories.{required_of};

use indexmap::IndexSet;
use pk_types::{Row, SiteKind};
use std::alloc::{AllocError, Global};

/// The modules that a module requires, by the place of the first `require` of each.
pub(crate) fn required(alloc: Global, row: &Row) -> Result<Vec<u32>, AllocError>
    requires { All (λ site. ArePlacesIn row.now.targets (called_requests site.kind)) row.now.facts.sites }
    ensures { IfOk result (λ modules. modules.items ≡ required_of row.now) }
{
    let mut modules = IndexSet::new(alloc);
    for site in row.facts.sites.as_slice() {
        if let SiteKind::Require(request) = site.kind {
            modules.insert(row.targets.as_slice()[request as usize])?;
        }
    }
    Vec::from_slice(alloc, modules.as_slice())
}
