ghost use Rattle.std.specs.Prelude.{◌≡◌, ◌≢◌, ◌<◌, ◌++◌, [], ◌∷◌, length, map as each, Some, None, Err, IfOk, OnOk};
ghost use Rattle.std.specs.Str.{bytes_eq};
ghost use Rattle.indexmap.specs.IndexMap.{insert_entry};
ghost use Rattle.json.specs.Json.{value, items, members};
ghost use Rattle.pkg_manifest.specs.declared.value.Json.{Json as Value};
ghost use Rattle.pkg_manifest.specs.Members.{entry_member};
ghost use Rattle.pkg_manifest.specs.Grammar.{StandsFor, without_mark};
ghost use Rattle.pkg_manifest.specs.Reading.{value_read, items_read, members_read};

use crate::fault::ManifestFault;
use crate::value::{Json, Member};
use indexmap::IndexMap;
use json::{Reader, Scratch, Token};
use pk_types::{Sequence, Text};
use std::alloc::{AllocError, Global};

/// How many arrays and objects may stand within one another.
const MAX_NEST: usize = 127;

/// The value of a whole text, behind the U+FEFF that may begin it.
pub(crate) fn document(alloc: Global, bytes: &[u8]) -> Result<Json, ManifestFault>
    ensures value { IfOk result (λ j. StandsFor bytes.now j) }
    ensures only { IfOk result (λ j. (k : Value) → StandsFor bytes.now k → k ≡ j) }
    ensures not_json { result ≡ Err ManifestFault.NotJson → (j : Value) → ¬ StandsFor bytes.now j }
    ensures no_object { result ≢ Err ManifestFault.NotObject }
{
    let Ok(text) = std::str::from_utf8(behind_mark(bytes)) else {
        return Err(ManifestFault::NotJson);
    };
    let mut scratch = Scratch::new(alloc);
    let mut reader = Reader::new(text, &mut scratch)?;
    let value = read_value(alloc, &mut reader, MAX_NEST)?;
    if reader.next().is_some() {
        return Err(ManifestFault::NotJson);
    }
    Ok(value)
}

fn behind_mark(bytes: &[u8]) -> &[u8]
    ensures { result.now ≡ without_mark bytes.now }
{
    match bytes.strip_prefix(b"\xef\xbb\xbf") {
        Some(rest) => rest,
        None => bytes,
    }
}

#[cycle(read)]
fn read_value(alloc: Global, reader: &mut Reader<'_>, depth: usize) -> Result<Json, ManifestFault>
    ensures value { IfOk result (λ j. value_read depth reader.old ≡ Some (j, reader.new)) }
    ensures shorter { OnOk result (length reader.new < length reader.old) }
    ensures not_json { result ≡ Err ManifestFault.NotJson → value depth reader.old ≡ None }
    ensures no_object { result ≢ Err ManifestFault.NotObject }
{
    let token = reader.next().ok_or(ManifestFault::NotJson)?;
    match token {
        Token::Null => Ok(Json::Null),
        Token::Bool(truth) => Ok(Json::Bool(truth)),
        Token::Number(_) => Ok(Json::Number),
        Token::String(text) => Ok(Json::Text(Text::from_slice(alloc, text.as_bytes())?)),
        Token::EndObject | Token::EndArray | Token::Key(_) | Token::Bad => {
            Err(ManifestFault::NotJson)
        }
        Token::BeginArray => {
            if depth == 0 {
                return Err(ManifestFault::NotJson);
            }
            Ok(Json::List(read_items(alloc, reader, depth - 1)?))
        }
        Token::BeginObject => {
            if depth == 0 {
                return Err(ManifestFault::NotJson);
            }
            Ok(Json::Object(read_members(alloc, reader, depth - 1)?))
        }
    }
}

#[cycle(read)]
fn read_items(
    alloc: Global,
    reader: &mut Reader<'_>,
    depth: usize,
) -> Result<Sequence<Json>, ManifestFault>
    ensures value { IfOk result (λ js. items_read depth reader.old ≡ Some (js, reader.new)) }
    ensures shorter { OnOk result (length reader.new < length reader.old) }
    ensures not_json { result ≡ Err ManifestFault.NotJson
        → items (value depth) (length reader.old) reader.old ≡ None }
    ensures no_object { result ≢ Err ManifestFault.NotObject }
{
    let mut found = Vec::new(alloc);
    while !reader.take_end_array() {
        let item = read_value(alloc, reader, depth)?;
        push(&mut found, item)?;
    }
    Ok(Sequence::from_vec(found))
}

#[cycle(read)]
fn read_members(
    alloc: Global,
    reader: &mut Reader<'_>,
    depth: usize,
) -> Result<Sequence<Member<Json>>, ManifestFault>
    ensures value { IfOk result (λ ms. members_read depth reader.old ≡ Some (ms, reader.new)) }
    ensures shorter { OnOk result (length reader.new < length reader.old) }
    ensures not_json { result ≡ Err ManifestFault.NotJson
        → members (value depth) (length reader.old) reader.old ≡ None }
    ensures no_object { result ≢ Err ManifestFault.NotObject }
{
    let mut found = IndexMap::new(alloc);
    while let Some(name) = reader.next_key()? {
        let value = read_value(alloc, reader, depth)?;
        let key = Text::from_slice(alloc, name.as_bytes())?;
        insert(&mut found, key, value)?;
    }
    Ok(into_members(alloc, found)?)
}

fn push<T: Drop>(items: &mut Vec<T>, item: T) -> Result<(), AllocError>
    ensures { OnOk result (items.new.items ≡ items.old.items ++ item ∷ []) }
{
    items.push(item)?;
    Ok(())
}

/// A name that is there keeps its place.
fn insert(map: &mut IndexMap<Text, Json>, name: Text, value: Json) -> Result<(), AllocError>
    ensures { OnOk result (map.new.entries ≡ insert_entry bytes_eq map.old.entries name value) }
{
    map.insert(name, value)?;
    Ok(())
}

fn into_members(
    alloc: Global,
    map: IndexMap<Text, Json>,
) -> Result<Sequence<Member<Json>>, AllocError>
    ensures { IfOk result (λ ms. ms ≡ each entry_member map.entries) }
{
    let mut members = Vec::with_capacity(alloc, map.len())?;
    for (name, value) in map {
        push(&mut members, Member { name, value })?;
    }
    Ok(Sequence::from_vec(members))
}
