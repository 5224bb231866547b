// `build` of one file of simple calls. Each test compares what a run leaves, as one text.
use crate::{World, transcript};
use std::alloc::Global;
use std::test::Fail;

// A transcript is the one that is wanted.
fn is_same(text: &[u8], want: &[u8]) -> Result<(), Fail> {
    (text == want).then_some(()).ok_or("another transcript")?;
    Ok(())
}

// What a build of a tree of one file, `src/index.js`, leaves: of the bundle what stands behind the runtime text.
fn builds_as(alloc: Global, text: &[u8], want: &[u8]) -> Result<(), Fail> {
    let world = World::new(alloc, &[("src/index.js", text)], &[], &[], &[])?;
    is_same(transcript(alloc, world, &["build"])?.as_slice(), want)
}

#[test]
fn an_empty_file_is_built(rt: HostRuntime) -> Result<(), Fail> {
    builds_as(
        rt.alloc(),
        b"",
        b"0\nfile 2889 main.js\nbuilt 1 modules 1 groups 1 files\nasked pack.json\nasked src/index.js\nasked src/package.json\nasked package.json\nput main.js\n__webpack_start__({ g: [[0]], c: [] }, [\n[0, 0, [], function (module, exports, __webpack_r) {\n/*m \"src/index.js\" 0*/\n\n}]\n]);\n",
    )
}

#[test]
fn a_body_keeps_tokens_alone(rt: HostRuntime) -> Result<(), Fail> {
    builds_as(
        rt.alloc(),
        b" f ( \t1,'a b' ) ;\r\n\r\n $_(x,\"'\",0);g();\n",
        b"0\nfile 2922 main.js\nbuilt 1 modules 1 groups 1 files\nasked pack.json\nasked src/index.js\nasked src/package.json\nasked package.json\nput main.js\n__webpack_start__({ g: [[0]], c: [] }, [\n[0, 0, [], function (module, exports, __webpack_r) {\n/*m \"src/index.js\" 32*/\nf ( 1,'a b' ) ;\n$_(x,\"'\",0);g();\n}]\n]);\n",
    )
}

// Texts that are no lists of calls, a NUL between two.
const OTHER_TEXTS: &[u8] =
    b"f()\0f(;\0f(,);\0f(1,);\0f(1 2);\0f(g());\0f()();\0;\0f;\01();\0f(1.5);\0f(01);\0f(1a);\0f('a);\0f('a\\n');\0f(\"a\n\");\0// f();\0f(/* */);\0#!node\nf();\0f(`a`);\0f(\xc3\xa9);\0f('\xff');\0\xef\xbb\xbff();\0require(1);\0f(require);\0eval(1);\0__webpack_x();\0if(1);\0let(1);\0f(this);\0\x0bf();\0f('\xc3\xa9');\0\\u0066();\0f(0x1);\0f(1n);\0f(.5);\0f(1_0);\0f();//";

#[test]
fn other_texts_are_not_built(rt: HostRuntime) -> Result<(), Fail> {
    for text in OTHER_TEXTS.split(|byte| *byte == 0) {
        builds_as(
            rt.alloc(),
            text,
            b"1\nrefused src/index.js: not built yet\nasked pack.json\nasked src/index.js\nasked src/package.json\nasked package.json\n",
        )?;
    }
    Ok(())
}

#[test]
fn names_near_the_refused_ones_are_built(rt: HostRuntime) -> Result<(), Fail> {
    let alloc = rt.alloc();
    let text = b"required(1);evals(eva);__webpack(1);iff(static);async(of, get, \"require\");";
    let world = World::new(alloc, &[("src/index.js", text)], &[], &[], &[])?;
    assert!(rt; transcript(alloc, world, &["build"])?.starts_with(b"0\n"));
    Ok(())
}

// `f();` and spaces, of this many bytes, is built or refused.
fn padded_builds_as(alloc: Global, size: usize, want: &[u8]) -> Result<(), Fail> {
    let mut text = vec![in alloc; b' '; size]?;
    for (place, byte) in text.iter_mut().zip(b"f();") {
        *place = *byte;
    }
    builds_as(alloc, text.as_slice(), want)
}

#[test]
fn the_largest_file_is_built(rt: HostRuntime) -> Result<(), Fail> {
    padded_builds_as(
        rt.alloc(),
        4_194_304,
        b"0\nfile 2893 main.js\nbuilt 1 modules 1 groups 1 files\nasked pack.json\nasked src/index.js\nasked src/package.json\nasked package.json\nput main.js\n__webpack_start__({ g: [[0]], c: [] }, [\n[0, 0, [], function (module, exports, __webpack_r) {\n/*m \"src/index.js\" 4*/\nf();\n}]\n]);\n",
    )
}

#[test]
fn a_larger_file_is_refused(rt: HostRuntime) -> Result<(), Fail> {
    padded_builds_as(
        rt.alloc(),
        4_194_305,
        b"1\nrefused src/index.js: too large\nasked pack.json\nasked src/index.js\n",
    )
}

// What a tree of these files leaves, each of them empty.
fn tree_builds_as(alloc: Global, first: &str, second: &str, want: &[u8]) -> Result<(), Fail> {
    let world = World::new(alloc, &[(first, b""), (second, b"")], &[], &[], &[])?;
    is_same(transcript(alloc, world, &["build"])?.as_slice(), want)
}

#[test]
fn an_empty_tree_is_refused_after_seven_asks(rt: HostRuntime) -> Result<(), Fail> {
    tree_builds_as(
        rt.alloc(),
        "",
        "",
        b"1\nrefused entry main: cannot resolve ./src/index.js: no file\nasked pack.json\nasked src/index.js\nasked src/index.js.js\nasked src/index.js.json\nasked src/index.js/package.json\nasked src/index.js/index.js\nasked src/index.js/index.json\n",
    )
}

#[test]
fn settings_are_not_built(rt: HostRuntime) -> Result<(), Fail> {
    tree_builds_as(
        rt.alloc(),
        "pack.json",
        "src/index.js",
        b"1\nrefused pack.json: not built yet\nasked pack.json\n",
    )
}

#[test]
fn other_candidates_are_not_built(rt: HostRuntime) -> Result<(), Fail> {
    tree_builds_as(
        rt.alloc(),
        "src/index.js.js",
        "src/index.js.json",
        b"1\nrefused src/index.js.js: not built yet\nasked pack.json\nasked src/index.js\nasked src/index.js.js\n",
    )?;
    tree_builds_as(
        rt.alloc(),
        "src/index.js/index.js",
        "package.json",
        b"1\nrefused src/index.js/index.js: not built yet\nasked pack.json\nasked src/index.js\nasked src/index.js.js\nasked src/index.js.json\nasked src/index.js/package.json\nasked src/index.js/index.js\n",
    )
}

#[test]
fn manifests_are_not_built(rt: HostRuntime) -> Result<(), Fail> {
    tree_builds_as(
        rt.alloc(),
        "src/package.json",
        "src/index.js",
        b"1\nrefused src/package.json: not built yet\nasked pack.json\nasked src/index.js\nasked src/package.json\n",
    )?;
    tree_builds_as(
        rt.alloc(),
        "package.json",
        "src/index.js",
        b"1\nrefused package.json: not built yet\nasked pack.json\nasked src/index.js\nasked src/package.json\nasked package.json\n",
    )
}

// What words that are no command leave.
fn is_usage(alloc: Global, words: &[&str]) -> Result<(), Fail> {
    let world = World::new(alloc, &[("src/index.js", b"")], &[], &[], &[])?;
    is_same(
        transcript(alloc, world, words)?.as_slice(),
        b"2\nusage: pack build or watch or replay ENTRY or trace ENTRY or gen N\n",
    )
}

#[test]
fn other_words_are_no_command(rt: HostRuntime) -> Result<(), Fail> {
    is_usage(rt.alloc(), &[])?;
    is_usage(rt.alloc(), &["build", "x"])?;
    is_usage(rt.alloc(), &["Build"])?;
    is_usage(rt.alloc(), &["watch"])
}

// What a build leaves whose calls of these numbers fail.
fn fails_as(
    alloc: Global,
    reads: &[u64],
    puts: &[u64],
    lines: &[u64],
    want: &[u8],
) -> Result<(), Fail> {
    let world = World::new(alloc, &[("src/index.js", b"f();")], reads, puts, lines)?;
    let text = transcript(alloc, world, &["build"])?;
    is_same(text.get(..want.len()).unwrap_or(b""), want)
}

#[test]
fn faults_of_the_outside_are_said(rt: HostRuntime) -> Result<(), Fail> {
    fails_as(
        rt.alloc(),
        &[0],
        &[],
        &[],
        b"3\nfault read\nasked pack.json\n",
    )?;
    fails_as(
        rt.alloc(),
        &[3],
        &[],
        &[],
        b"3\nfault read\nasked pack.json\nasked src/index.js\nasked src/package.json\nasked package.json\n",
    )?;
    fails_as(
        rt.alloc(),
        &[],
        &[0],
        &[],
        b"4\nfault write\nasked pack.json\nasked src/index.js\nasked src/package.json\nasked package.json\nput main.js\n",
    )?;
    fails_as(
        rt.alloc(),
        &[],
        &[],
        &[0],
        b"5\nasked pack.json\nasked src/index.js\nasked src/package.json\nasked package.json\nput main.js\n",
    )
}
