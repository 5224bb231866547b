// Which of two candidates is picked before the other.
ghost use Rattle.std.specs.Prelude.{◌≡◌, ◌⊎◌, ◌<◌, ◌<ℤ◌, ◌≤ℤ◌, ℕ, List, true, false, length};
ghost use Rattle.std.specs.List.{All};
ghost use Rattle.pk_types.specs.SplitCandidates.{path_of};
ghost use Rattle.pk_types.specs.SplitPicks.{IsAhead, HasLesserPath, IsBefore};
ghost use Rattle.split_chunks.specs.Choices.{candidate_of, HasBytes, IsLeast, SharePath, AreTied};

use crate::choice::{Choice, gain_of};
use crate::scene::path;
use pk_types::Graph;
use std::cmp::Ordering;

// Whether the cache group of the one candidate has the greater priority.
fn is_above(choice: &Choice, other: &Choice) -> bool
    ensures above { result ≡ true → other.now.cache.now.priority <ℤ choice.now.cache.now.priority }
    ensures not_above { result ≡ false → choice.now.cache.now.priority ≤ℤ other.now.cache.now.priority }
{
    choice.cache.priority > other.cache.priority
}

// Whether the one text comes before the other in byte order.
fn comes_before(text: &[u8], other: &[u8]) -> bool
    ensures before { result ≡ true → IsBefore text.now other.now }
    ensures not_before { result ≡ false → ¬ IsBefore text.now other.now }
{
    match text.cmp(other) {
        Ordering::Less => true,
        Ordering::Equal => false,
        Ordering::Greater => false,
    }
}

// The module with the least path.
fn least(graph: &Graph, modules: &[u32]) -> u32
    requires within { All (λ member. member < length graph.now.rows) modules.now }
    requires some { 0 < length modules.now }
    ensures { IsLeast graph.now modules.now result }
{
    let mut least = modules[0];
    for member in modules {
        if comes_before(path(graph, *member), path(graph, least)) {
            least = *member;
        }
    }
    least
}

// Whether the least path of the one comes before that of the other.
fn has_lesser_path(graph: &Graph, choice: &Choice, other: &Choice) -> bool
    requires within { All (λ member. member < length graph.now.rows) choice.now.modules.now }
    requires some { 0 < length choice.now.modules.now }
    requires other_within { All (λ member. member < length graph.now.rows) other.now.modules.now }
    requires other_some { 0 < length other.now.modules.now }
    ensures lesser { result ≡ true → HasLesserPath graph.now (candidate_of choice.now) (candidate_of other.now) }
    ensures not_lesser { result ≡ false → HasLesserPath graph.now (candidate_of other.now) (candidate_of choice.now)
        ⊎ SharePath graph.now choice.now.modules.now other.now.modules.now }
{
    let first = least(graph, choice.modules);
    let second = least(graph, other.modules);
    comes_before(path(graph, first), path(graph, second))
}

/// Whether the one candidate is picked before the other. If not, the other is picked before it, or they are one.
pub fn is_ahead(graph: &Graph, choice: &Choice, other: &Choice) -> bool
    requires within { All (λ member. member < length graph.now.rows) choice.now.modules.now }
    requires some { 0 < length choice.now.modules.now }
    requires other_within { All (λ member. member < length graph.now.rows) other.now.modules.now }
    requires other_some { 0 < length other.now.modules.now }
    requires bytes { HasBytes graph.now choice.now }
    requires other_bytes { HasBytes graph.now other.now }
    ensures ahead { result ≡ true → IsAhead graph.now (candidate_of choice.now) (candidate_of other.now) }
    ensures behind { result ≡ false → IsAhead graph.now (candidate_of other.now) (candidate_of choice.now)
        ⊎ AreTied graph.now (candidate_of choice.now) (candidate_of other.now) }
{
    if is_above(choice, other) {
        return true;
    }
    if is_above(other, choice) {
        return false;
    }
    let gain = gain_of(choice);
    let other_gain = gain_of(other);
    if gain != other_gain {
        return gain > other_gain;
    }
    match choice
        .cache
        .name
        .as_slice()
        .cmp(other.cache.name.as_slice())
    {
        Ordering::Less => true,
        Ordering::Equal => has_lesser_path(graph, choice, other),
        Ordering::Greater => false,
    }
}
