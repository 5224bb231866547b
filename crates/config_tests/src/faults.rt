use crate::show::{Part, compare, shown};
use std::test::Fail;

const NO_JSON: &str = r#"[ => not JSON
 => not JSON
[] => not JSON
null => not JSON
1 => not JSON
"entry" => not JSON
{} {} => not JSON
{,} => not JSON
{"ids":"hashed",} => not JSON
{'ids':1} => not JSON
{"ids":"\ud800"} => not JSON
{"splitChunks":{"minSize":01}} => not JSON
{"splitChunks":{"minSize":--0}} => not JSON
{"splitChunks":{"minSize":-00}} => not JSON
{"splitChunks":{"minSize":1-0}} => not JSON
{"splitChunks":{"minSize":1e999}} => not JSON
"#;

const KEYS: &str = r#"{"mode":"none"} => unknown key mode
{"":1} => unknown key 
{"Entry":1} => unknown key Entry
{"minSize":1} => unknown key minSize
{"cacheGroups":{}} => unknown key cacheGroups
{"a.b":1} => unknown key a.b
{"splitChunks":{"maxSize":1}} => unknown key splitChunks.maxSize
{"splitChunks":{"test":1}} => unknown key splitChunks.test
{"splitChunks":{"cacheGroups":{"g":{"name":1}}}} => unknown key splitChunks.cacheGroups.g.name
{"splitChunks":{"cacheGroups":{"":{"x":1}}}} => unknown key splitChunks.cacheGroups..x
{"entry":{"a b":"x"}} => unknown key entry.a b
{"entry":{"":"x"}} => unknown key entry.
{"entry":{"1a":"x"}} => unknown key entry.1a
{"entry":{"_a":"x"}} => unknown key entry._a
{"entry":{"é":"x"}} => unknown key entry.é
{"entry":{"a.b":1}} => unknown key entry.a.b
{"entry":{"a012345678901234567890123456789012345678901234567890123456789012":"x","a0123456789012345678901234567890123456789012345678901234567890123":"x"}} => unknown key entry.a0123456789012345678901234567890123456789012345678901234567890123
"#;

const KINDS: &str = r#"{"entry":{}} => no entry
{"entry":3} => bad value entry
{"entry":null} => bad value entry
{"entry":["a"]} => bad value entry
{"entry":{"a":1}} => bad value entry.a
{"entry":{"a":{}}} => bad value entry.a
{"concatenateModules":1} => bad value concatenateModules
{"concatenateModules":null} => bad value concatenateModules
{"sideEffects":"true"} => bad value sideEffects
{"ids":"size"} => bad value ids
{"ids":true} => bad value ids
{"splitChunks":true} => bad value splitChunks
{"splitChunks":null} => bad value splitChunks
{"splitChunks":[]} => bad value splitChunks
{"splitChunks":{"chunks":"none"}} => bad value splitChunks.chunks
{"splitChunks":{"cacheGroups":false}} => bad value splitChunks.cacheGroups
{"splitChunks":{"cacheGroups":{"g":true}}} => bad value splitChunks.cacheGroups.g
{"splitChunks":{"cacheGroups":{"g":null}}} => bad value splitChunks.cacheGroups.g
"#;

const ORDER: &str = r#"{"zzz":1,"entry":{}} => no entry
{"entry":3,"concatenateModules":1} => bad value concatenateModules
{"entry":{},"Zzz":1} => unknown key Zzz
{"entry":{},"entry":"a","ids":1} => bad value ids
{"ids":"hashed","ids":1} => bad value ids
{"entry":{"b":1,"a":2}} => bad value entry.a
{"entry":{"b":1,"-":2}} => unknown key entry.-
{"splitChunks":{"minSize":-1,"chunks":1}} => bad value splitChunks.chunks
{"splitChunks":{"cacheGroups":1,"chunks":1}} => bad value splitChunks.cacheGroups
{"splitChunks":{"cacheGroups":{"b":1,"a":{"z":1}}}} => unknown key splitChunks.cacheGroups.a.z
{"splitChunks":{"zzz":1},"sideEffects":1} => bad value sideEffects
{"splitChunks":{"zzz":1},"tt":1} => unknown key splitChunks.zzz
"#;

#[test]
fn no_json(rt: HostRuntime) -> Result<(), Fail> {
    compare(&rt, rt.alloc(), Part::All, NO_JSON, 16)?;
    let marked = shown(rt.alloc(), Some(b"\xef\xbb\xbf{}"), Part::All)?;
    assert_eq!(rt; marked.as_slice(), b"not JSON".as_slice());
    let not_utf8 = shown(rt.alloc(), Some(b"{\"ids\":\"\xff\"}"), Part::All)?;
    assert_eq!(rt; not_utf8.as_slice(), b"not JSON".as_slice());
    Ok(())
}

#[test]
fn deep(rt: HostRuntime) -> Result<(), Fail> {
    for (depth, want) in [
        (126, b"bad value entry".as_slice()),
        (127, b"not JSON".as_slice()),
    ] {
        let mut text = Vec::from_slice(rt.alloc(), b"{\"entry\":")?;
        for _ in 0..depth {
            text.extend_from_slice(b"[")?;
        }
        for _ in 0..depth {
            text.extend_from_slice(b"]")?;
        }
        text.extend_from_slice(b"}")?;
        let found = shown(rt.alloc(), Some(text.as_slice()), Part::All)?;
        assert_eq!(rt; found.as_slice(), want, "{depth}");
    }
    Ok(())
}

#[test]
fn keys(rt: HostRuntime) -> Result<(), Fail> {
    compare(&rt, rt.alloc(), Part::All, KEYS, 17)?;
    let found = shown(rt.alloc(), Some(b"{\"a\\u0001\":1}"), Part::All)?;
    assert_eq!(rt; found.as_slice(), b"unknown key a\x01".as_slice());
    Ok(())
}

#[test]
fn kinds(rt: HostRuntime) -> Result<(), Fail> {
    compare(&rt, rt.alloc(), Part::All, KINDS, 18)
}

#[test]
fn order(rt: HostRuntime) -> Result<(), Fail> {
    compare(&rt, rt.alloc(), Part::All, ORDER, 12)
}
