ghost use Rattle.std.specs.Prelude.{◌≡◌, ◌<◌, ℕ, Bool, List, [], true, false, length, map, slice_index_or};
ghost use Rattle.std.specs.List.{All};
ghost use Rattle.avail_sets.specs.Words.{flag_in, words_for, flags_of};
ghost use Rattle.avail_sets.specs.Rows.{AreWordsOf};

use crate::row::Row;
use std::marker::Model;

/// For each group which modules are available in it.
#[derive(Drop)]
pub struct AvailRows {
    rows: Vec<Row>,
    modules: u32,
}

impl Model for AvailRows {
    ghost use Rattle.std.specs.Prelude.{List, Bool, map};
    ghost use Rattle.avail_sets.specs.Words.{flags_of};
    ghost use Rattle.avail_sets.specs.Kept.{AreKept};

    ghost Value = { List (List Bool) };

    ghost view = { λ avail. map (flags_of avail.modules) avail.rows.items };

    ghost invariant = { λ avail. AreKept avail.modules avail.rows.items };
}

impl AvailRows {
    ghost use Rattle.avail_sets.specs.Kept.{AreKept};

    pub(crate) fn new(rows: Vec<Row>, modules: u32) -> AvailRows
        requires { AreKept «modules» rows.items }
        ensures { result ≡ map (flags_of «modules») rows.items }
    {
        AvailRows { rows, modules }
    }

    /// The number of groups.
    pub fn len(&self) -> usize
        ensures { result ≡ length self.now }
    {
        self.rows.len()
    }

    /// The row of a group as words: of each the lowest bit is the first module, and bits past the last module are clear.
    pub fn row(&self, group: u32) -> &[u64]
        requires { group < length self.now }
        ensures { AreWordsOf (slice_index_or self.now group []) result.now }
    {
        self.rows[group as usize].words()
    }

    /// Whether a module is available in a group.
    pub fn is_available(&self, group: u32, module: u32) -> bool
        requires group { «group» < length self.now }
        requires module { «module» < length (slice_index_or self.now «group» []) }
        ensures { result ≡ slice_index_or (slice_index_or self.now «group» []) «module» false }
    {
        self.rows[group as usize].has(module)
    }
}
