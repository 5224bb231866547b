//! Makes the cache groups.
ghost use Rattle.std.specs.Prelude.{◌≡◌, ◌++◌, ◌∷◌, [], Some, None, true, false, IfOk, OnOk, codes, option_to_list, if◌then◌else◌};
ghost use Rattle.std.specs.Ordering.{nat_cmp};
ghost use Rattle.std.specs.Cmp.Lexicographic.{slice_cmp};
ghost use Rattle.pk_types.specs.CacheGroups.{AreNamedApart};
ghost use Rattle.serde_json.specs.View.{view, members_view};
ghost use Rattle.pack_config.specs.Seen.{seen};
ghost use Rattle.pack_config.specs.Settings.{group_default, replaced, group_of, if_kept, kept_groups, with_name, groups_of};
ghost use Rattle.pack_config.specs.Merging.{stays_due, put_before, both_due};

use crate::check::is_false;
use crate::fields::{flag, number, priority, segment, which};
use pk_types::{CacheGroup, Sequence, Text, Which};
use serde_json::{Map, Value};
use std::alloc::{AllocError, Global};
use std::cmp::Ordering;

/// What a group has of the settings above it where it says nothing itself.
#[derive(Clone, Copy)]
pub(crate) struct Shared {
    pub(crate) chunks: Which,
    pub(crate) min_size: u32,
    pub(crate) min_chunks: u32,
}

const VENDORS: &str = "defaultVendors";

const DEFAULT: &str = "default";

/// The groups in byte order of their names.
pub(crate) fn groups(
    alloc: Global,
    shared: Shared,
    value: Option<&Value>,
) -> Result<Sequence<CacheGroup>, AllocError>
    ensures made { IfOk result (λ made. made ≡ groups_of shared (seen value.entry)) }
    ensures apart { IfOk result AreNamedApart }
{
    let Some(value) = value else {
        return built_in_groups(alloc, shared);
    };
    match value.as_object() {
        Some(members) => given_groups(alloc, shared, members),
        None => built_in_groups(alloc, shared),
    }
}

fn built_in_groups(alloc: Global, shared: Shared) -> Result<Sequence<CacheGroup>, AllocError>
    ensures made { IfOk result (λ made. made ≡ groups_of shared None) }
    ensures apart { IfOk result AreNamedApart }
{
    let mut groups = Vec::new(alloc);
    push_built_in(alloc, &mut groups, shared, DEFAULT)?;
    push_built_in(alloc, &mut groups, shared, VENDORS)?;
    Ok(Sequence::from_vec(groups))
}

fn given_groups(
    alloc: Global,
    shared: Shared,
    members: &Map<String, Value>,
) -> Result<Sequence<CacheGroup>, AllocError>
    ensures made { IfOk result (λ made.
        made ≡ kept_groups shared (both_due true true (members_view members.now.entries))) }
    ensures apart { IfOk result AreNamedApart }
{
    let mut groups = Vec::new(alloc);
    let mut default_due = true;
    let mut vendors_due = true;
    for (name, value) in members.iter() {
        let name = name.as_str();
        default_due = pass(alloc, &mut groups, shared, default_due, DEFAULT, name)?;
        vendors_due = pass(alloc, &mut groups, shared, vendors_due, VENDORS, name)?;
        push_kept(alloc, &mut groups, shared, name, value)?;
    }
    push_due(alloc, &mut groups, shared, default_due, DEFAULT)?;
    push_due(alloc, &mut groups, shared, vendors_due, VENDORS)?;
    Ok(Sequence::from_vec(groups))
}

/// Whether the built-in group is due behind this name. Where it stands before the name it is put.
fn pass(
    alloc: Global,
    groups: &mut Vec<CacheGroup>,
    shared: Shared,
    due: bool,
    built_in: &str,
    name: &str,
) -> Result<bool, AllocError>
    ensures due { IfOk result (λ still.
        still ≡ stays_due due (slice_cmp nat_cmp built_in.now name.now)) }
    ensures put { OnOk result (groups.new.items ≡ groups.old.items
        ++ put_before due (slice_cmp nat_cmp built_in.now name.now)
        (group_of shared built_in.now None)) }
{
    if !due {
        return Ok(false);
    }
    match built_in.cmp(name) {
        Ordering::Less => {
            push_built_in(alloc, groups, shared, built_in)?;
            Ok(false)
        }
        Ordering::Equal => Ok(false),
        Ordering::Greater => Ok(true),
    }
}

fn push_kept(
    alloc: Global,
    groups: &mut Vec<CacheGroup>,
    shared: Shared,
    name: &str,
    value: &Value,
) -> Result<(), AllocError>
    ensures { OnOk result (groups.new.items
        ≡ groups.old.items ++ option_to_list (if_kept shared name.now (view value.now))) }
{
    if !is_false(value) {
        let group = group(alloc, shared, name, Some(value))?;
        groups.push(group)?;
    }
    Ok(())
}

fn push_due(
    alloc: Global,
    groups: &mut Vec<CacheGroup>,
    shared: Shared,
    due: bool,
    name: &str,
) -> Result<(), AllocError>
    ensures { OnOk result (groups.new.items ≡ groups.old.items
        ++ (if due then group_of shared name.now None ∷ [] else [])) }
{
    if due {
        push_built_in(alloc, groups, shared, name)?;
    }
    Ok(())
}

fn push_built_in(
    alloc: Global,
    groups: &mut Vec<CacheGroup>,
    shared: Shared,
    name: &str,
) -> Result<(), AllocError>
    ensures { OnOk result
        (groups.new.items ≡ groups.old.items ++ group_of shared name.now None ∷ []) }
{
    let group = group(alloc, shared, name, None)?;
    groups.push(group)?;
    Ok(())
}

#[tactic(auto, unfolding(crate::specs::Settings::group_of))]
fn group(
    alloc: Global,
    shared: Shared,
    name: &str,
    object: Option<&Value>,
) -> Result<CacheGroup, AllocError>
    ensures { IfOk result (λ made. made ≡ group_of shared name.now (seen object.entry)) }
{
    let default = group_default(alloc, shared, name)?;
    replaced(alloc, default, object)
}

fn group_default(alloc: Global, shared: Shared, name: &str) -> Result<CacheGroup, AllocError>
    ensures { IfOk result (λ made. made ≡ group_default shared name.now) }
{
    let is_vendors = name == VENDORS;
    let is_default = name == DEFAULT;
    let (test, priority) = if is_vendors {
        (Some(Text::from_slice(alloc, b"node_modules")?), -10)
    } else if is_default {
        (None, -20)
    } else {
        (None, 0)
    };
    Ok(CacheGroup {
        name: Text::from_slice(alloc, name.as_bytes())?,
        test,
        chunks: shared.chunks,
        min_size: shared.min_size,
        min_chunks: if is_default { 2 } else { shared.min_chunks },
        priority,
        reuse: is_vendors || is_default,
    })
}

/// The group with the fields that the object gives.
fn replaced(
    alloc: Global,
    group: CacheGroup,
    object: Option<&Value>,
) -> Result<CacheGroup, AllocError>
    ensures { IfOk result (λ made. made ≡ replaced group (seen object.entry)) }
{
    let CacheGroup {
        name,
        test,
        chunks,
        min_size,
        min_chunks,
        priority: rank,
        reuse,
    } = group;
    Ok(CacheGroup {
        name,
        test: segment(alloc, object, "test", test)?,
        chunks: which(object, "chunks", chunks),
        min_size: number(object, "minSize", min_size),
        min_chunks: number(object, "minChunks", min_chunks),
        priority: priority(object, "priority", rank),
        reuse: flag(object, "reuseExistingChunk", reuse),
    })
}
