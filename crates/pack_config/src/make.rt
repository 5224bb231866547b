//! Makes the settings of an object that has no fault.
ghost use Rattle.std.specs.Prelude.{◌≡◌, ◌++◌, ◌∷◌, [], IfOk, IfSome, OnOk, codes};
ghost use Rattle.pk_types.specs.CacheGroups.{AreNamedApart, HasGroupsNamedApart};
ghost use Rattle.serde_json.specs.View.{members_view};
ghost use Rattle.pack_config.specs.Seen.{seen};
ghost use Rattle.pack_config.specs.Settings.{split_of, split_unless_false, named_entries, entries_of, config_of};

use crate::check::is_false;
use crate::fields::{flag, hashed, member, number, which};
use crate::groups::{Shared, groups};
use pk_types::{Config, Sequence, SplitConfig, Text, Which};
use serde_json::{Map, Value};
use std::alloc::{AllocError, Global};

/// The settings of an object. None stands for an object with no keys.
pub(crate) fn settings(alloc: Global, object: Option<&Value>) -> Result<Config, AllocError>
    ensures made { IfOk result (λ made. made ≡ config_of (seen object.entry)) }
    ensures apart { IfOk result HasGroupsNamedApart }
{
    Ok(Config {
        entries: entries(alloc, member(object, "entry"))?,
        concatenate: flag(object, "concatenateModules", true),
        side_effects: flag(object, "sideEffects", true),
        hashed: hashed(object, "ids", false),
        split: split_unless_false(alloc, member(object, "splitChunks"))?,
    })
}

fn entries(alloc: Global, value: Option<&Value>) -> Result<Sequence<(Text, Text)>, AllocError>
    ensures { IfOk result (λ made. made ≡ entries_of (seen value.entry)) }
{
    let Some(value) = value else {
        return main_entry(alloc, "./src/index.js");
    };
    if let Some(request) = value.as_str() {
        return main_entry(alloc, request);
    }
    match value.as_object() {
        Some(members) => named_entries(alloc, members),
        None => main_entry(alloc, "./src/index.js"),
    }
}

fn main_entry(alloc: Global, request: &str) -> Result<Sequence<(Text, Text)>, AllocError>
    ensures { IfOk result (λ made. made ≡ (codes "main", request.now) ∷ []) }
{
    let mut entries = Vec::new(alloc);
    push_entry(alloc, &mut entries, "main", request)?;
    Ok(Sequence::from_vec(entries))
}

fn named_entries(
    alloc: Global,
    members: &Map<String, Value>,
) -> Result<Sequence<(Text, Text)>, AllocError>
    ensures { IfOk result (λ made. made ≡ named_entries (members_view members.now.entries)) }
{
    let mut entries = Vec::with_capacity(alloc, members.len())?;
    for (name, value) in members.iter() {
        push_entry(
            alloc,
            &mut entries,
            name.as_str(),
            value.as_str().unwrap_or(""),
        )?;
    }
    Ok(Sequence::from_vec(entries))
}

fn push_entry(
    alloc: Global,
    entries: &mut Vec<(Text, Text)>,
    name: &str,
    request: &str,
) -> Result<(), AllocError>
    ensures { OnOk result (entries.new.items ≡ entries.old.items ++ (name.now, request.now) ∷ []) }
{
    let name = Text::from_slice(alloc, name.as_bytes())?;
    let request = Text::from_slice(alloc, request.as_bytes())?;
    entries.push((name, request))?;
    Ok(())
}

fn split_unless_false(
    alloc: Global,
    value: Option<&Value>,
) -> Result<Option<SplitConfig>, AllocError>
    ensures made { IfOk result (λ made. made ≡ split_unless_false (seen value.entry)) }
    ensures apart { IfOk result (λ made. IfSome made (λ split. AreNamedApart split.groups)) }
{
    match value {
        Some(given) if is_false(given) => Ok(None),
        _ => Ok(Some(split(alloc, value)?)),
    }
}

fn split(alloc: Global, object: Option<&Value>) -> Result<SplitConfig, AllocError>
    ensures made { IfOk result (λ made. made ≡ split_of (seen object.entry)) }
    ensures apart { IfOk result (λ made. AreNamedApart made.groups) }
{
    let shared = Shared {
        chunks: which(object, "chunks", Which::Async),
        min_size: number(object, "minSize", 20_000),
        min_chunks: number(object, "minChunks", 1),
    };
    Ok(SplitConfig {
        chunks: shared.chunks,
        min_size: shared.min_size,
        enforce: number(object, "enforceSizeThreshold", 50_000),
        min_chunks: shared.min_chunks,
        max_async: number(object, "maxAsyncRequests", 30),
        max_initial: number(object, "maxInitialRequests", 30),
        groups: groups(alloc, shared, member(object, "cacheGroups"))?,
    })
}
