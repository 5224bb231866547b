ghost use Rattle.std.specs.Prelude.{◌≡◌, ◌<◌, ℕ, List, [], length, slice_index, slice_index_or};

use pk_types::Sequence;

/// Edges between numbered nodes.
pub trait Edges {
    ghost edges: { Self → List (List ℕ) };

    /// How many edges lead from a node.
    fn degree(&self, node: u32) -> usize
        requires { node < length (edges self.now) }
        ensures { result ≡ length (slice_index_or (edges self.now) node []) };

    /// The node that one of them leads to.
    fn target(&self, node: u32, place: usize) -> u32
        requires node { «node» < length (edges self.now) }
        requires place { «place» < length (slice_index_or (edges self.now) «node» []) }
        ensures { result ≡ slice_index (slice_index_or (edges self.now) «node» []) «place» };
}

impl Edges for &[Sequence<u32>] {
    ghost edges = { λ lists. lists.now };

    fn degree(&self, node: u32) -> usize {
        self[node as usize].len()
    }

    fn target(&self, node: u32, place: usize) -> u32 {
        self[node as usize].as_slice()[place]
    }
}
