// The objects in memory: each call once, the failing calls, the turns and the limits. A script of calls is one text, and so
// is what they answer.
use crate::count_on_a_blank;
use pk_base::{
    Call, Failed, FailsByNumber, Files, Interner, MemFiles, MemSink, MemSource, MemStore, Path,
    Read, ReadFail, Sequence, Sink, Source, Store, Text, Tree,
};
use std::alloc::{AllocError, Global};
use std::test::Fail;

fn path(alloc: Global, text: &[u8]) -> Result<Path, AllocError> {
    match Path::root(alloc).join(text)? {
        Some(path) => Ok(path),
        None => Ok(Path::root(alloc)),
    }
}

// A tree of paths and their texts, by turns.
fn tree(alloc: Global, files: &str) -> Result<Tree, AllocError> {
    let mut items = Vec::new(alloc);
    let mut words = files.as_bytes().split(|byte| *byte == b' ');
    while let (Some(at), Some(text)) = (words.next(), words.next()) {
        items.push((path(alloc, at)?, Text::from_slice(alloc, text)?))?;
    }
    Ok(Tree {
        files: Sequence::from_vec(items),
    })
}

// Three trees, of which two are to come.
fn three_trees(alloc: Global) -> Result<Vec<Tree>, AllocError> {
    let mut trees = Vec::new(alloc);
    trees.push(tree(alloc, "a.js one src/b.js two src.js side")?)?;
    trees.push(tree(alloc, "a.js ONE src/c/d.js deep src.js SIDE")?)?;
    trees.push(tree(alloc, "new.js new a.js last")?)?;
    Ok(trees)
}

fn numbers(alloc: Global, items: &[u64]) -> Result<Vec<u64>, AllocError> {
    Vec::from_slice(alloc, items)
}

// Reads a file up to a limit, and writes what comes: its text, or the word for another answer.
fn read(
    alloc: Global,
    files: &mut MemFiles,
    at: &[u8],
    limit: u32,
    out: &mut Vec<u8>,
) -> Result<(), AllocError> {
    match files.read(&path(alloc, at)?, limit) {
        Ok(Read::Absent) => out.extend_from_slice(b" absent"),
        Ok(Read::Longer) => out.extend_from_slice(b" longer"),
        Ok(Read::Bytes(bytes)) => {
            out.push(b' ')?;
            out.extend_from_slice(bytes.as_slice())
        }
        Err(ReadFail::Failed) => out.extend_from_slice(b" failed"),
        Err(ReadFail::NoMemory) => Err(AllocError),
    }
}

// Plays words on files: `turn:` and what is listed up to a comma, or a path that is read up to a limit.
fn play(
    alloc: Global,
    files: &mut MemFiles,
    script: &str,
    limit: u32,
) -> Result<Vec<u8>, AllocError> {
    let mut out = Vec::new(alloc);
    for word in script.as_bytes().split(|byte| *byte == b' ') {
        match word.strip_prefix(b"turn:") {
            Some(list) => {
                let mut listed = Vec::new(alloc);
                for item in list.split(|byte| *byte == b',') {
                    listed.push(path(alloc, item)?)?;
                }
                files.turn(&listed);
            }
            None => read(alloc, files, word, limit, &mut out)?,
        }
    }
    Ok(out)
}

#[test]
fn reads_up_to_the_limit(rt: HostRuntime) -> Result<(), Fail> {
    let alloc = rt.alloc();
    let mut files = MemFiles::new(alloc, three_trees(alloc)?, numbers(alloc, &[])?)?;
    let answers = play(alloc, &mut files, "a.js src.js src new.js .", 3)?;
    assert!(rt; answers.as_slice() == b" one longer absent absent absent".as_slice());
    let answers = play(alloc, &mut files, "a.js src/b.js", u32::MAX)?;
    assert!(rt; answers.as_slice() == b" one two".as_slice());
    assert_eq!(rt; files.asks().len(), 7);
    assert!(rt; files.asks()[6].as_slice() == b"src/b.js".as_slice());
    let mut none = MemFiles::new(alloc, Vec::new(alloc), numbers(alloc, &[])?)?;
    let answers = play(alloc, &mut none, "turn:. a.js", 9)?;
    assert!(rt; answers.as_slice() == b" absent".as_slice());
    Ok(())
}

#[test]
fn turns_what_the_list_covers(rt: HostRuntime) -> Result<(), Fail> {
    let alloc = rt.alloc();
    let mut files = MemFiles::new(alloc, three_trees(alloc)?, numbers(alloc, &[])?)?;
    let script =
        "turn:src,nothing a.js src/b.js src/c/d.js src.js turn:new.js,a.js a.js new.js src/c/d.js src.js turn:. a.js new.js";
    let answers = play(alloc, &mut files, script, 9)?;
    assert!(rt;
        answers.as_slice() == b" one absent deep side last new deep side last new".as_slice()
    );
    let mut all = MemFiles::new(alloc, three_trees(alloc)?, numbers(alloc, &[])?)?;
    let answers = play(alloc, &mut all, "turn:. src/b.js src.js", 9)?;
    assert!(rt; answers.as_slice() == b" absent SIDE".as_slice());
    Ok(())
}

#[test]
fn reads_fail_by_number(rt: HostRuntime) -> Result<(), Fail> {
    let alloc = rt.alloc();
    let mut files = MemFiles::new(alloc, three_trees(alloc)?, numbers(alloc, &[3, 1])?)?;
    let answers = play(alloc, &mut files, "a.js a.js turn:none a.js a.js a.js", 9)?;
    assert!(rt; answers.as_slice() == b" one failed one failed one".as_slice());
    assert!(rt; !files.is_next_due());
    Ok(())
}

// Puts a text under a name, where it is one, or removes the name, and tells whether that succeeds and what is held then.
fn change(
    store: &mut MemStore,
    name: &[u8],
    text: Option<&[u8]>,
    out: &mut Vec<u8>,
) -> Result<(), AllocError> {
    let done = match text {
        Some(text) => store.put(name, text),
        None => store.remove(name),
    };
    out.extend_from_slice(if done.is_ok() { b" done " } else { b" fail " })?;
    match store.get(name) {
        Some(bytes) => out.extend_from_slice(bytes.as_slice()),
        None => out.extend_from_slice(b"-"),
    }
}

// The calls of a store, as they were made.
fn calls_of(alloc: Global, store: &MemStore) -> Result<Vec<u8>, AllocError> {
    let mut out = Vec::new(alloc);
    for call in store.calls() {
        let name = match call {
            Call::Put(name) => {
                out.extend_from_slice(b" put ")?;
                name
            }
            Call::Remove(name) => {
                out.extend_from_slice(b" remove ")?;
                name
            }
        };
        out.extend_from_slice(name.as_slice())?;
    }
    Ok(out)
}

#[test]
fn a_store_keeps_its_calls(rt: HostRuntime) -> Result<(), Fail> {
    let alloc = rt.alloc();
    let mut store = MemStore::new(alloc, numbers(alloc, &[2, 4])?)?;
    let mut out = Vec::new(alloc);
    let script = b"a=x b=y a=z b=w b b none";
    for step in script.split(|byte| *byte == b' ') {
        let mut words = step.split(|byte| *byte == b'=');
        let name = words.next().ok_or("no name")?;
        change(&mut store, name, words.next(), &mut out)?;
    }
    assert!(rt; out.as_slice() == b" done x done y fail x done w fail w done - done -".as_slice());
    assert!(rt;
        calls_of(alloc, &store)?.as_slice()
            == b" put a put b put a put b remove b remove b remove none".as_slice()
    );
    assert_eq!(rt; store.names().count(), 1);
    Ok(())
}

#[test]
fn a_source_ends_with_zero(rt: HostRuntime) -> Result<(), Fail> {
    let alloc = rt.alloc();
    let mut source = MemSource::new(Vec::from_slice(alloc, b"abcde")?, numbers(alloc, &[1])?)?;
    let mut into = [0u8; 3];
    assert!(rt; source.take(&mut into) == Ok(3) && into.as_slice() == b"abc".as_slice());
    assert!(rt; source.take(&mut into) == Err(Failed));
    assert!(rt; source.remaining() == b"de".as_slice());
    assert!(rt; source.take(&mut into) == Ok(2) && &into[..2] == b"de".as_slice());
    assert!(rt; source.take(&mut into) == Ok(0));
    Ok(())
}

#[test]
fn a_sink_holds_what_was_put(rt: HostRuntime) -> Result<(), Fail> {
    let alloc = rt.alloc();
    let mut sink = MemSink::new(alloc, numbers(alloc, &[1])?)?;
    assert!(rt; sink.put(b"ab") == Ok(()) && sink.is_next_due());
    assert!(rt; sink.put(b"cd") == Err(Failed));
    assert!(rt; sink.put(b"ef") == Ok(()));
    assert!(rt; sink.bytes() == b"abef".as_slice());
    Ok(())
}

#[test]
fn bytes_and_sequences_are_small_types(rt: HostRuntime) -> Result<(), Fail> {
    let bytes = Text::from_slice(rt.alloc(), b"ab")?;
    let same = Text::from_vec(Vec::from_slice(rt.alloc(), b"ab")?);
    assert!(rt; bytes == same && bytes.len() == 2 && !bytes.is_empty());
    assert_eq!(rt; bytes.into_vec().len(), 2);
    let items = Sequence::from_vec(numbers(rt.alloc(), &[7, 8])?);
    assert_eq!(rt; items.len(), 2);
    assert!(rt; items.as_slice() == [7, 8].as_slice());
    assert_eq!(rt; items.into_vec().len(), 2);
    Ok(())
}

#[test]
fn texts_are_numbered(rt: HostRuntime) -> Result<(), Fail> {
    let mut names = Interner::new(rt.alloc());
    let mut out = Vec::new(rt.alloc());
    for text in b"a b a".split(|byte| *byte == b' ') {
        out.push(names.intern(text)?)?;
    }
    assert!(rt; out.as_slice() == [0, 1, 0].as_slice());
    assert!(rt; names.find(b"b") == Some(1) && names.find(b"c").is_none());
    if names.len() == 2 {
        assert!(rt; names.text_of(1) == b"b".as_slice());
    }
    Ok(())
}

#[test]
fn the_root_and_a_count(rt: HostRuntime) {
    assert!(rt; Path::root(rt.alloc()).text() == "");
    count_on_a_blank(3);
}
