ghost use Rattle.std.specs.Prelude.{◌≡◌};
ghost use Rattle.serde_json.specs.View.{view};
ghost use Rattle.pack_config.specs.Rows.{kind_of, top_rows, split_rows, group_rows, fits};

use crate::values::{count, hashed, is_within, priority, segment, which};
use serde_json::Value;

/// What the value of a key must be.
#[derive(Clone, Copy)]
pub(crate) enum Kind {
    /// True or false.
    Flag,
    /// How modules and chunks are numbered.
    Ids,
    /// Which chunks modules are split from.
    Chunks,
    /// A number of this range.
    Count(u32, u32),
    /// A number from -1,000 to 1,000.
    Priority,
    /// A segment of a path.
    Segment,
}

const ANY: Kind = Kind::Count(0, u32::MAX);

const FEW: Kind = Kind::Count(1, 4096);

pub(crate) fn top_kind(key: &str) -> Option<Kind>
    ensures { result ≡ kind_of top_rows key.now }
{
    match key {
        "concatenateModules" | "sideEffects" => Some(Kind::Flag),
        "ids" => Some(Kind::Ids),
        _ => None,
    }
}

pub(crate) fn split_kind(key: &str) -> Option<Kind>
    ensures { result ≡ kind_of split_rows key.now }
{
    match key {
        "chunks" => Some(Kind::Chunks),
        "minSize" | "enforceSizeThreshold" => Some(ANY),
        "minChunks" | "maxAsyncRequests" | "maxInitialRequests" => Some(FEW),
        _ => None,
    }
}

pub(crate) fn group_kind(key: &str) -> Option<Kind>
    ensures { result ≡ kind_of group_rows key.now }
{
    match key {
        "test" => Some(Kind::Segment),
        "chunks" => Some(Kind::Chunks),
        "minSize" => Some(ANY),
        "minChunks" => Some(FEW),
        "priority" => Some(Kind::Priority),
        "reuseExistingChunk" => Some(Kind::Flag),
        _ => None,
    }
}

impl Kind {
    pub(crate) fn fits(self, value: &Value) -> bool
        ensures { result ≡ fits self (view value.now) }
    {
        match self {
            Kind::Flag => value.as_bool().is_some(),
            Kind::Ids => hashed(value).is_some(),
            Kind::Chunks => which(value).is_some(),
            Kind::Count(least, most) => is_within(least, most, count(value)),
            Kind::Priority => priority(value).is_some(),
            Kind::Segment => segment(value).is_some(),
        }
    }
}
