use crate::show::{Part, compare, shown};
use std::test::Fail;

const DEFAULTS: &str =
    "main=./src/index.js concatenate sideEffects async 20000 50000 1 30 30 | default async 20000 2 -20 reuse | defaultVendors in node_modules async 20000 1 -10 reuse";

const SAME: &str =
    r#"{} => main=./src/index.js concatenate sideEffects async 20000 50000 1 30 30 | default async 20000 2 -20 reuse | defaultVendors in node_modules async 20000 1 -10 reuse
 { } => main=./src/index.js concatenate sideEffects async 20000 50000 1 30 30 | default async 20000 2 -20 reuse | defaultVendors in node_modules async 20000 1 -10 reuse
{"splitChunks":{}} => main=./src/index.js concatenate sideEffects async 20000 50000 1 30 30 | default async 20000 2 -20 reuse | defaultVendors in node_modules async 20000 1 -10 reuse
{"splitChunks":{"cacheGroups":{}}} => main=./src/index.js concatenate sideEffects async 20000 50000 1 30 30 | default async 20000 2 -20 reuse | defaultVendors in node_modules async 20000 1 -10 reuse
{"splitChunks":{"cacheGroups":{"default":{}}}} => main=./src/index.js concatenate sideEffects async 20000 50000 1 30 30 | default async 20000 2 -20 reuse | defaultVendors in node_modules async 20000 1 -10 reuse
{"splitChunks":{"cacheGroups":{"defaultVendors":{}}}} => main=./src/index.js concatenate sideEffects async 20000 50000 1 30 30 | default async 20000 2 -20 reuse | defaultVendors in node_modules async 20000 1 -10 reuse
{"entry":"./src/index.js","concatenateModules":true,"sideEffects":true,"ids":"natural"} => main=./src/index.js concatenate sideEffects async 20000 50000 1 30 30 | default async 20000 2 -20 reuse | defaultVendors in node_modules async 20000 1 -10 reuse
"#;

const ENTRIES: &str = r#"{"entry":"./a"} => main=./a
{"entry":""} => main=
{"entry":{"b":"./b","a":"./a"}} => a=./a b=./b
{"entry":{"b":"1","B":"2","b-":"3","b_0":"4"}} => B=2 b=1 b-=3 b_0=4
{"entry":{"a":1,"a":"x"}} => a=x
{"entry":{"a012345678901234567890123456789012345678901234567890123456789012":"x"}} => a012345678901234567890123456789012345678901234567890123456789012=x
{"entry":{"a":"\u00e9"}} => a=é
"#;

const FLAGS: &str = r#"{"concatenateModules":false} => sideEffects
{"sideEffects":false} => concatenate
{"ids":"hashed"} => concatenate sideEffects hashed
{"ids":"natural"} => concatenate sideEffects
"#;

const SPLIT: &str = r#"{"splitChunks":false} => no split
{"splitChunks":{"chunks":"async"}} => async 20000 50000 1 30 30
{"splitChunks":{"chunks":"initial"}} => initial 20000 50000 1 30 30
{"splitChunks":{"chunks":"all"}} => all 20000 50000 1 30 30
{"splitChunks":{"minSize":-0,"enforceSizeThreshold":0}} => async 0 0 1 30 30
{"splitChunks":{"minSize":4294967295,"enforceSizeThreshold":4294967295}} => async 4294967295 4294967295 1 30 30
{"splitChunks":{"minChunks":1,"maxAsyncRequests":1,"maxInitialRequests":1}} => async 20000 50000 1 1 1
{"splitChunks":{"minChunks":4096,"maxAsyncRequests":4096,"maxInitialRequests":4096}} => async 20000 50000 4096 4096 4096
"#;

const GROUPS: &str =
    r#"{"splitChunks":{"cacheGroups":{"default":false}}} => | defaultVendors in node_modules async 20000 1 -10 reuse
{"splitChunks":{"cacheGroups":{"defaultVendors":false}}} => | default async 20000 2 -20 reuse
{"splitChunks":{"cacheGroups":{"defaultVendors":false,"x":false,"default":false}}} => 
{"splitChunks":{"chunks":"all","minSize":7,"minChunks":3}} => | default all 7 2 -20 reuse | defaultVendors in node_modules all 7 3 -10 reuse
{"splitChunks":{"minSize":7,"cacheGroups":{"z":{},"a":{"test":"lib"},"defaultA":{"priority":-1000}}}} => | a in lib async 7 1 0 | default async 7 2 -20 reuse | defaultA async 7 1 -1000 | defaultVendors in node_modules async 7 1 -10 reuse | z async 7 1 0
{"splitChunks":{"cacheGroups":{"default":{"minChunks":5},"defaultVendors":{"priority":-0}}}} => | default async 20000 5 -20 reuse | defaultVendors in node_modules async 20000 1 0 reuse
{"splitChunks":{"cacheGroups":{"default":{"test":"a","reuseExistingChunk":false},"defaultVendors":{"test":"b","chunks":"all","minSize":0}}}} => | default in a async 20000 2 -20 | defaultVendors in b all 0 1 -10 reuse
{"splitChunks":{"cacheGroups":{"default":false,"defaultVendors":false,"g":{"priority":1000,"reuseExistingChunk":true,"minChunks":4096,"chunks":"initial","minSize":4294967295,"test":"..."}}}} => | g in ... initial 4294967295 4096 1000 reuse
"#;

const RANGES: &str = r#"{"splitChunks":{"minSize":-1}} => bad value splitChunks.minSize
{"splitChunks":{"minSize":4294967296}} => bad value splitChunks.minSize
{"splitChunks":{"minSize":1.0}} => bad value splitChunks.minSize
{"splitChunks":{"minSize":1e2}} => bad value splitChunks.minSize
{"splitChunks":{"minSize":-0.0}} => bad value splitChunks.minSize
{"splitChunks":{"minSize":-0e0}} => bad value splitChunks.minSize
{"splitChunks":{"minSize":100000000000000000000000000000}} => bad value splitChunks.minSize
{"splitChunks":{"minSize":"1"}} => bad value splitChunks.minSize
{"splitChunks":{"minSize":18446744073709551616}} => bad value splitChunks.minSize
{"splitChunks":{"minSize":1E0}} => bad value splitChunks.minSize
{"splitChunks":{"minSize":0.5}} => bad value splitChunks.minSize
{"splitChunks":{"minSize":-1e-999}} => bad value splitChunks.minSize
{"splitChunks":{"minSize":true}} => bad value splitChunks.minSize
{"splitChunks":{"minSize":null}} => bad value splitChunks.minSize
{"splitChunks":{"minSize":[1]}} => bad value splitChunks.minSize
{"splitChunks":{"minSize":{}}} => bad value splitChunks.minSize
{"splitChunks":{"enforceSizeThreshold":-1}} => bad value splitChunks.enforceSizeThreshold
{"splitChunks":{"enforceSizeThreshold":4294967296}} => bad value splitChunks.enforceSizeThreshold
{"splitChunks":{"enforceSizeThreshold":1.0}} => bad value splitChunks.enforceSizeThreshold
{"splitChunks":{"enforceSizeThreshold":1e2}} => bad value splitChunks.enforceSizeThreshold
{"splitChunks":{"enforceSizeThreshold":-0.0}} => bad value splitChunks.enforceSizeThreshold
{"splitChunks":{"enforceSizeThreshold":-0e0}} => bad value splitChunks.enforceSizeThreshold
{"splitChunks":{"enforceSizeThreshold":100000000000000000000000000000}} => bad value splitChunks.enforceSizeThreshold
{"splitChunks":{"enforceSizeThreshold":"1"}} => bad value splitChunks.enforceSizeThreshold
{"splitChunks":{"minChunks":-1}} => bad value splitChunks.minChunks
{"splitChunks":{"minChunks":4294967296}} => bad value splitChunks.minChunks
{"splitChunks":{"minChunks":1.0}} => bad value splitChunks.minChunks
{"splitChunks":{"minChunks":1e2}} => bad value splitChunks.minChunks
{"splitChunks":{"minChunks":-0.0}} => bad value splitChunks.minChunks
{"splitChunks":{"minChunks":-0e0}} => bad value splitChunks.minChunks
{"splitChunks":{"minChunks":100000000000000000000000000000}} => bad value splitChunks.minChunks
{"splitChunks":{"minChunks":"1"}} => bad value splitChunks.minChunks
{"splitChunks":{"minChunks":0}} => bad value splitChunks.minChunks
{"splitChunks":{"minChunks":-0}} => bad value splitChunks.minChunks
{"splitChunks":{"minChunks":4097}} => bad value splitChunks.minChunks
{"splitChunks":{"maxAsyncRequests":-1}} => bad value splitChunks.maxAsyncRequests
{"splitChunks":{"maxAsyncRequests":4294967296}} => bad value splitChunks.maxAsyncRequests
{"splitChunks":{"maxAsyncRequests":1.0}} => bad value splitChunks.maxAsyncRequests
{"splitChunks":{"maxAsyncRequests":1e2}} => bad value splitChunks.maxAsyncRequests
{"splitChunks":{"maxAsyncRequests":-0.0}} => bad value splitChunks.maxAsyncRequests
{"splitChunks":{"maxAsyncRequests":-0e0}} => bad value splitChunks.maxAsyncRequests
{"splitChunks":{"maxAsyncRequests":100000000000000000000000000000}} => bad value splitChunks.maxAsyncRequests
{"splitChunks":{"maxAsyncRequests":"1"}} => bad value splitChunks.maxAsyncRequests
{"splitChunks":{"maxAsyncRequests":0}} => bad value splitChunks.maxAsyncRequests
{"splitChunks":{"maxAsyncRequests":-0}} => bad value splitChunks.maxAsyncRequests
{"splitChunks":{"maxAsyncRequests":4097}} => bad value splitChunks.maxAsyncRequests
{"splitChunks":{"maxInitialRequests":-1}} => bad value splitChunks.maxInitialRequests
{"splitChunks":{"maxInitialRequests":4294967296}} => bad value splitChunks.maxInitialRequests
{"splitChunks":{"maxInitialRequests":1.0}} => bad value splitChunks.maxInitialRequests
{"splitChunks":{"maxInitialRequests":1e2}} => bad value splitChunks.maxInitialRequests
{"splitChunks":{"maxInitialRequests":-0.0}} => bad value splitChunks.maxInitialRequests
{"splitChunks":{"maxInitialRequests":-0e0}} => bad value splitChunks.maxInitialRequests
{"splitChunks":{"maxInitialRequests":100000000000000000000000000000}} => bad value splitChunks.maxInitialRequests
{"splitChunks":{"maxInitialRequests":"1"}} => bad value splitChunks.maxInitialRequests
{"splitChunks":{"maxInitialRequests":0}} => bad value splitChunks.maxInitialRequests
{"splitChunks":{"maxInitialRequests":-0}} => bad value splitChunks.maxInitialRequests
{"splitChunks":{"maxInitialRequests":4097}} => bad value splitChunks.maxInitialRequests
"#;

const MEMBERS: &str =
    r#"{"splitChunks":{"cacheGroups":{"g":{"priority":-1001}}}} => bad value splitChunks.cacheGroups.g.priority
{"splitChunks":{"cacheGroups":{"g":{"priority":1001}}}} => bad value splitChunks.cacheGroups.g.priority
{"splitChunks":{"cacheGroups":{"g":{"priority":1e2}}}} => bad value splitChunks.cacheGroups.g.priority
{"splitChunks":{"cacheGroups":{"g":{"priority":-0.0}}}} => bad value splitChunks.cacheGroups.g.priority
{"splitChunks":{"cacheGroups":{"g":{"priority":-9223372036854775809}}}} => bad value splitChunks.cacheGroups.g.priority
{"splitChunks":{"cacheGroups":{"g":{"priority":9223372036854775808}}}} => bad value splitChunks.cacheGroups.g.priority
{"splitChunks":{"cacheGroups":{"g":{"priority":"0"}}}} => bad value splitChunks.cacheGroups.g.priority
{"splitChunks":{"cacheGroups":{"g":{"minSize":-1}}}} => bad value splitChunks.cacheGroups.g.minSize
{"splitChunks":{"cacheGroups":{"g":{"minSize":4294967296}}}} => bad value splitChunks.cacheGroups.g.minSize
{"splitChunks":{"cacheGroups":{"g":{"minChunks":0}}}} => bad value splitChunks.cacheGroups.g.minChunks
{"splitChunks":{"cacheGroups":{"g":{"minChunks":4097}}}} => bad value splitChunks.cacheGroups.g.minChunks
{"splitChunks":{"cacheGroups":{"g":{"chunks":"Async"}}}} => bad value splitChunks.cacheGroups.g.chunks
{"splitChunks":{"cacheGroups":{"g":{"reuseExistingChunk":0}}}} => bad value splitChunks.cacheGroups.g.reuseExistingChunk
{"splitChunks":{"cacheGroups":{"g":{"test":""}}}} => bad value splitChunks.cacheGroups.g.test
{"splitChunks":{"cacheGroups":{"g":{"test":"."}}}} => bad value splitChunks.cacheGroups.g.test
{"splitChunks":{"cacheGroups":{"g":{"test":".."}}}} => bad value splitChunks.cacheGroups.g.test
{"splitChunks":{"cacheGroups":{"g":{"test":"a/b"}}}} => bad value splitChunks.cacheGroups.g.test
{"splitChunks":{"cacheGroups":{"g":{"test":"a\\b"}}}} => bad value splitChunks.cacheGroups.g.test
{"splitChunks":{"cacheGroups":{"g":{"test":"a\"b"}}}} => bad value splitChunks.cacheGroups.g.test
{"splitChunks":{"cacheGroups":{"g":{"test":"a*"}}}} => bad value splitChunks.cacheGroups.g.test
{"splitChunks":{"cacheGroups":{"g":{"test":"a\u001f"}}}} => bad value splitChunks.cacheGroups.g.test
{"splitChunks":{"cacheGroups":{"g":{"test":"a\u007f"}}}} => bad value splitChunks.cacheGroups.g.test
{"splitChunks":{"cacheGroups":{"g":{"test":"\u0000"}}}} => bad value splitChunks.cacheGroups.g.test
{"splitChunks":{"cacheGroups":{"g":{"test":null}}}} => bad value splitChunks.cacheGroups.g.test
"#;

#[test]
fn defaults(rt: HostRuntime) -> Result<(), Fail> {
    let absent = shown(rt.alloc(), None, Part::All)?;
    assert_eq!(rt; absent.as_slice(), DEFAULTS.as_bytes());
    compare(&rt, rt.alloc(), Part::All, SAME, 7)
}

#[test]
fn settings(rt: HostRuntime) -> Result<(), Fail> {
    compare(&rt, rt.alloc(), Part::Entries, ENTRIES, 7)?;
    compare(&rt, rt.alloc(), Part::Flags, FLAGS, 4)?;
    compare(&rt, rt.alloc(), Part::Split, SPLIT, 8)?;
    compare(&rt, rt.alloc(), Part::Groups, GROUPS, 8)
}

#[test]
fn ranges(rt: HostRuntime) -> Result<(), Fail> {
    compare(&rt, rt.alloc(), Part::All, RANGES, 57)?;
    compare(&rt, rt.alloc(), Part::All, MEMBERS, 24)
}
