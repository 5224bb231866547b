// The modules that are met.
ghost use Rattle.std.specs.Prelude.{◌≡◌, ℕ, [], ◌∷◌, Some, None, IfSome, IfNone, OnOk};
ghost use Rattle.std.specs.List.{All, Contains};
ghost use Rattle.pk_types.specs.Places.{ArePlacesIn};
ghost use Rattle.pk_types.specs.Sites.{called_requests};
ghost use Rattle.prune_graph.specs.Meeting.{Meets, IsCalled};

use crate::edges::add_all;
use indexmap::IndexSet;
use pk_types::{Row, SiteKind};
use std::alloc::AllocError;

/// Meets modules.
pub fn meet(known: &mut IndexSet<u32>, modules: &[u32]) -> Result<(), AllocError>
    ensures { OnOk result (Meets known.old.keys (Contains modules.now) known.new.keys) }
{
    add_all(known, modules)?;
    Ok(())
}

// The request that a site calls for.
fn called_request(kind: &SiteKind) -> Option<u32>
    ensures some { IfSome result (λ request. called_requests kind.now ≡ request ∷ []) }
    ensures none { IfNone result (called_requests kind.now ≡ []) }
{
    match kind {
        SiteKind::Require(request) => Some(*request),
        SiteKind::Import(request) => Some(*request),
        _ => None,
    }
}

/// Meets the modules that a module calls for.
pub fn meet_called(known: &mut IndexSet<u32>, row: &Row) -> Result<(), AllocError>
    requires { All (λ site. ArePlacesIn row.now.targets (called_requests site.kind)) row.now.facts.sites }
    ensures { OnOk result (Meets known.old.keys (IsCalled row.now) known.new.keys) }
{
    for site in row.facts.sites.as_slice() {
        match called_request(&site.kind) {
            Some(request) => {
                known.insert(row.targets.as_slice()[request as usize])?;
            }
            None => {}
        }
    }
    Ok(())
}
