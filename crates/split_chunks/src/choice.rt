// A candidate as it is looked at.
ghost use Rattle.std.specs.Prelude.{◌≡◌, ◌<◌, ◌^◌, ◌*◌, ◌-◌, ℕ, List, length, IfOk};
ghost use Rattle.std.specs.List.{All};
ghost use Rattle.pk_types.specs.SplitCandidates.{bytes_of};
ghost use Rattle.pk_types.specs.SplitPicks.{gain};
ghost use Rattle.split_chunks.specs.Choices.{candidate_of, HasBytes};

use pk_types::{CacheGroup, Graph};

/// A cache group, chunks that it allows, and the modules that it may move and that stand in just these of them.
#[derive(Clone, Copy)]
pub struct Choice<'a> {
    pub cache: &'a CacheGroup,
    pub chunks: &'a [u32],
    pub modules: &'a [u32],

    /// The sizes of the modules together.
    pub bytes: u64,
}

/// The sizes of the modules together.
pub fn bytes_of(graph: &Graph, modules: &[u32]) -> u64
    requires within { All (λ member. member < length graph.now.rows) modules.now }
    requires few { length modules.now < 2 ^ 32 }
    ensures { result ≡ bytes_of graph.now modules.now }
{
    let mut bytes = 0;
    for member in modules {
        bytes += u64::from(graph.rows.as_slice()[*member as usize].size);
    }
    bytes
}

/// The bytes, once for each chunk but one.
pub fn gain_of(choice: &Choice) -> u128
    ensures { result ≡ choice.now.bytes * (length choice.now.chunks.now - 1) }
{
    u128::from(choice.bytes) * (choice.chunks.len().saturating_sub(1) as u128)
}
