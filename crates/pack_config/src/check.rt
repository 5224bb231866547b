//! Looks for the first fault of the settings.
ghost use Rattle.std.specs.Prelude.{◌≡◌, ◌≢◌, ◌++◌, [], None, Some, OnOk, IfErr, IfOk, codes, string_bytes};
ghost use Rattle.serde_json.specs.View.{view, members_view};
ghost use Rattle.serde_json.specs.Find.{as_object};
ghost use Rattle.pack_config.specs.Rows.{top_rows, split_rows, group_rows};
ghost use Rattle.pack_config.specs.Faults.{first_fault, above_group, is_empty, in_object, of_kind, row_fault, is_false, group_fault, split_member_fault, split_fault, entry_member_fault, entries_fault, entry_fault, top_fault};

use crate::fault::{ConfigFault, bad_value, unknown};
use crate::kind::{Kind, group_kind, split_kind, top_kind};
use crate::values::names_entry;
use serde_json::{Map, Value};
use std::alloc::{AllocError, Global};

type Checked = Result<(), ConfigFault>;

type Object = Map<String, Value>;

pub(crate) fn check_top(alloc: Global, members: &Object) -> Checked
    ensures good { OnOk result (first_fault top_fault (members_view members.now.entries) ≡ None) }
    ensures bad { IfErr result (λ e. e ≢ ConfigFault.NoMemory
        → first_fault top_fault (members_view members.now.entries) ≡ Some e) }
{
    for (key, value) in members.iter() {
        check_setting(alloc, key.as_str(), value)?;
    }
    Ok(())
}

fn check_setting(alloc: Global, key: &str, value: &Value) -> Checked
    ensures good { OnOk result (top_fault key.now (view value.now) ≡ None) }
    ensures bad { IfErr result (λ e. e ≢ ConfigFault.NoMemory
        → top_fault key.now (view value.now) ≡ Some e) }
{
    match key {
        "entry" => check_entry(alloc, value),
        "splitChunks" => check_split(alloc, value),
        _ => check_kind(alloc, "", key, top_kind(key), value),
    }
}

fn check_kind(alloc: Global, above: &str, key: &str, kind: Option<Kind>, value: &Value) -> Checked
    ensures good { OnOk result (of_kind (above.now ++ key.now) kind (view value.now) ≡ None) }
    ensures bad { IfErr result (λ e. e ≢ ConfigFault.NoMemory
        → of_kind (above.now ++ key.now) kind (view value.now) ≡ Some e) }
{
    match kind {
        None => Err(unknown(alloc, above, key)),
        Some(kind) => if kind.fits(value) {
            Ok(())
        } else {
            Err(bad_value(alloc, above, key))
        },
    }
}

fn check_entry(alloc: Global, value: &Value) -> Checked
    ensures good { OnOk result (entry_fault (view value.now) ≡ None) }
    ensures bad { IfErr result (λ e. e ≢ ConfigFault.NoMemory
        → entry_fault (view value.now) ≡ Some e) }
{
    if value.is_string() {
        return Ok(());
    }
    match value.as_object() {
        Some(entries) => check_entries(alloc, entries),
        None => Err(bad_value(alloc, "", "entry")),
    }
}

fn check_entries(alloc: Global, entries: &Object) -> Checked
    ensures good { OnOk result (entries_fault (Some (members_view entries.now.entries)) ≡ None) }
    ensures bad { IfErr result (λ e. e ≢ ConfigFault.NoMemory
        → entries_fault (Some (members_view entries.now.entries)) ≡ Some e) }
{
    if has_none(entries) {
        return Err(ConfigFault::NoEntry);
    }
    for (name, request) in entries.iter() {
        check_request(alloc, name.as_str(), request)?;
    }
    Ok(())
}

fn has_none(members: &Object) -> bool
    ensures { result ≡ is_empty (members_view members.now.entries) }
{
    members.is_empty()
}

fn check_request(alloc: Global, name: &str, request: &Value) -> Checked
    ensures good { OnOk result (entry_member_fault name.now (view request.now) ≡ None) }
    ensures bad { IfErr result (λ e. e ≢ ConfigFault.NoMemory
        → entry_member_fault name.now (view request.now) ≡ Some e) }
{
    if !names_entry(name) {
        Err(unknown(alloc, "entry.", name))
    } else if request.is_string() {
        Ok(())
    } else {
        Err(bad_value(alloc, "entry.", name))
    }
}

fn check_split(alloc: Global, value: &Value) -> Checked
    ensures good { OnOk result (split_fault (view value.now) ≡ None) }
    ensures bad { IfErr result (λ e. e ≢ ConfigFault.NoMemory
        → split_fault (view value.now) ≡ Some e) }
{
    if is_false(value) {
        return Ok(());
    }
    match value.as_object() {
        Some(members) => check_split_members(alloc, members),
        None => Err(bad_value(alloc, "", "splitChunks")),
    }
}

pub(crate) fn is_false(value: &Value) -> bool
    ensures { result ≡ is_false (view value.now) }
{
    match value.as_bool() {
        Some(truth) => !truth,
        None => false,
    }
}

fn check_split_members(alloc: Global, members: &Object) -> Checked
    ensures good { OnOk result
        (first_fault split_member_fault (members_view members.now.entries) ≡ None) }
    ensures bad { IfErr result (λ e. e ≢ ConfigFault.NoMemory
        → first_fault split_member_fault (members_view members.now.entries) ≡ Some e) }
{
    for (key, value) in members.iter() {
        check_split_member(alloc, key.as_str(), value)?;
    }
    Ok(())
}

fn check_split_member(alloc: Global, key: &str, value: &Value) -> Checked
    ensures good { OnOk result (split_member_fault key.now (view value.now) ≡ None) }
    ensures bad { IfErr result (λ e. e ≢ ConfigFault.NoMemory
        → split_member_fault key.now (view value.now) ≡ Some e) }
{
    if key != "cacheGroups" {
        return check_kind(alloc, "splitChunks.", key, split_kind(key), value);
    }
    match value.as_object() {
        Some(groups) => check_groups(alloc, groups),
        None => Err(bad_value(alloc, "splitChunks.", "cacheGroups")),
    }
}

fn check_groups(alloc: Global, groups: &Object) -> Checked
    ensures good { OnOk result (first_fault group_fault (members_view groups.now.entries) ≡ None) }
    ensures bad { IfErr result (λ e. e ≢ ConfigFault.NoMemory
        → first_fault group_fault (members_view groups.now.entries) ≡ Some e) }
{
    for (name, value) in groups.iter() {
        check_group(alloc, name.as_str(), value)?;
    }
    Ok(())
}

#[tactic(auto, unfolding(crate::specs::Faults::group_fault))]
fn check_group(alloc: Global, name: &str, value: &Value) -> Checked
    ensures good { OnOk result (group_fault name.now (view value.now) ≡ None) }
    ensures bad { IfErr result (λ e. e ≢ ConfigFault.NoMemory
        → group_fault name.now (view value.now) ≡ Some e) }
{
    if is_false(value) {
        return Ok(());
    }
    let Some(members) = value.as_object() else {
        return Err(bad_value(alloc, "splitChunks.cacheGroups.", name));
    };
    let above = above_group(alloc, name)?;
    check_group_members(alloc, above.as_str(), members)
}

/// What stands before the keys of a group.
fn above_group(alloc: Global, name: &str) -> Result<String, AllocError>
    ensures { IfOk result (λ text. string_bytes text ≡ above_group name.now) }
{
    let mut above = String::from_str(alloc, "splitChunks.cacheGroups.")?;
    above.push_str(name)?;
    above.push_str(".")?;
    Ok(above)
}

fn check_group_members(alloc: Global, above: &str, members: &Object) -> Checked
    ensures good { OnOk result
        (first_fault (row_fault group_rows above.now) (members_view members.now.entries) ≡ None) }
    ensures bad { IfErr result (λ e. e ≢ ConfigFault.NoMemory
        → first_fault (row_fault group_rows above.now) (members_view members.now.entries)
        ≡ Some e) }
{
    for (key, value) in members.iter() {
        check_kind(alloc, above, key.as_str(), group_kind(key.as_str()), value)?;
    }
    Ok(())
}
