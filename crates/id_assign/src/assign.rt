ghost use Rattle.std.specs.Prelude.{◌≡◌, IfOk};
ghost use Rattle.sha2.specs.Sha256.{sha256};
ghost use Rattle.pk_types.specs.HashedIds.{HasIds};
ghost use Rattle.id_assign.specs.Conditions.{MayHaveIds};

use crate::hashed::hashed_ids;
use crate::natural::natural_ids;
use crate::placed::placed;
use pk_types::{Chunks, Config, Graph, Ids};
use std::alloc::{AllocError, Global};

/// The ids of modules and of the chunks that are no entry chunks, natural or hashed, as the settings ask. A module in no
/// chunk has 0.
pub fn ids(
    alloc: Global,
    graph: &Graph,
    chunks: &Chunks,
    config: &Config,
) -> Result<Ids, AllocError>
    requires { MayHaveIds graph.now chunks.now }
    ensures { IfOk result (λ ids. HasIds sha256 graph.now chunks.now config.now.hashed ids) }
{
    let placed = placed(alloc, chunks, graph.rows.len())?;
    if config.hashed {
        hashed_ids(alloc, graph, chunks, placed.as_slice())
    } else {
        natural_ids(alloc, chunks, placed.as_slice())
    }
}
