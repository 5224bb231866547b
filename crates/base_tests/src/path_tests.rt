// Paths that are read, joined and left. A table is one text: its rows end with \xfe, and its fields with \xfd.
use pk_base::{Path, PathFault};
use std::alloc::{AllocError, Global};
use std::test::Fail;

const LONGEST: usize = 1024;

// What reading a text tells, in words.
fn told(alloc: Global, text: &[u8]) -> Result<String, AllocError> {
    if text.len() > 1 << 20 {
        return String::from_str(alloc, "too much for a test");
    }
    match Path::read(alloc, text) {
        Ok(path) if path.as_bytes() == text => String::from_str(alloc, "path"),
        Ok(_) => String::from_str(alloc, "another path"),
        Err(PathFault::Empty) => String::from_str(alloc, "empty"),
        Err(PathFault::Long(length)) => format!(in alloc; "long {length}"),
        Err(PathFault::Bad(place)) => format!(in alloc; "bad {place}"),
        Err(PathFault::NoMemory) => Err(AllocError),
    }
}

const READINGS: &[u8] = b"\
path\xfda\xfe\
path\xfdsrc/main.js\xfe\
path\xfda/b/c/d/e\xfe\
path\xfd...\xfe\
path\xfd.a\xfe\
path\xfd..a\xfe\
path\xfda.\xfe\
path\xfda..\xfe\
path\xfd.../....\xfe\
path\xfda b\xfe\
path\xfd \xfe\
path\xfd~\xfe\
path\xfda'b\xfe\
path\xfda<b>|?:c\xfe\
path\xfd\xc3\xa9\xfe\
path\xfd\xc2\x80\xfe\
path\xfd\xc2\x85\xfe\
path\xfd\xe2\x80\xa8\xfe\
path\xfd\xe6\x97\xa5\xe6\x9c\xac/\xe8\xaa\x9e.js\xfe\
path\xfd\xf0\x9f\x98\x80\xfe\
bad 0\xfd/\xfe\
bad 0\xfd/a\xfe\
bad 0\xfd//\xfe\
bad 0\xfd.\xfe\
bad 0\xfd..\xfe\
bad 0\xfd./a\xfe\
bad 0\xfd../a\xfe\
bad 2\xfda/\xfe\
bad 2\xfda//b\xfe\
bad 2\xfda/./b\xfe\
bad 2\xfda/../b\xfe\
bad 2\xfda/.\xfe\
bad 2\xfda/..\xfe\
bad 6\xfdab/cd//\xfe\
bad 3\xfd\xc3\xa9/\xfe\
bad 1\xfda\\b\xfe\
bad 1\xfda\0\xfe\
bad 0\xfd\x1f\xfe\
bad 1\xfda\nb\xfe\
bad 1\xfda\x7f\xfe\
bad 1\xfda*\xfe\
bad 1\xfda\"b\xfe\
bad 4\xfdab/c*/..\xfe\
bad 0\xfd./*\xfe\
bad 0\xfd*/.\xfe\
bad 1\xfd.*\xfe\
bad 2\xfd\xc3\xa9\t\xfe\
bad 2\xfda/\xff\xfe\
bad 0\xfd\x80a\xfe\
bad 2\xfdab\xc3\xfe\
bad 1\xfda\xed\xa0\x80\xfe\
bad 1\xfda\xc0\xaf\xfe\
bad 1\xfda\xff/*\xfe\
bad 1\xfda*/\xff\xfe\
bad 2\xfda//\xff\xfe\
empty\xfd";

#[test]
fn reads_paths(rt: HostRuntime) -> Result<(), Fail> {
    for row in READINGS.split(|byte| *byte == 0xfe) {
        let mut fields = row.split(|byte| *byte == 0xfd);
        let want = fields.next().ok_or("no answer")?;
        let text = fields.next().ok_or("no text")?;
        (told(rt.alloc(), text)?.as_bytes() == want)
            .then_some(())
            .ok_or("another answer")?;
    }
    Ok(())
}

#[test]
fn looks_at_the_length_first(rt: HostRuntime) -> Result<(), Fail> {
    let longest = vec![in rt.alloc(); b'a'; LONGEST]?;
    assert!(rt; told(rt.alloc(), longest.as_slice())?.as_str() == "path");
    let long = vec![in rt.alloc(); b'*'; LONGEST + 1]?;
    assert!(rt; told(rt.alloc(), long.as_slice())?.as_str() == "long 1025");
    Ok(())
}

// The written path to which a relative text leads from a folder, or nothing.
fn joined(alloc: Global, folder: &[u8], relative: &[u8]) -> Result<Option<Path>, AllocError> {
    match Path::root(alloc).join(folder)? {
        Some(folder) => folder.join(relative),
        None => Ok(None),
    }
}

// From a folder, by a relative text, to a path, or to none where the third field is missing.
const JOINS: &[u8] = b"\
src\xfd./x.js\xfdsrc/x.js\xfe\
src\xfdx.js\xfdsrc/x.js\xfe\
src\xfd../a\xfda\xfe\
src\xfd..\xfd\xfe\
src\xfd../\xfd\xfe\
src\xfd\xfdsrc\xfe\
src\xfd.\xfdsrc\xfe\
src\xfd/\xfdsrc\xfe\
src\xfd/x\xfdsrc/x\xfe\
\xfd\xfd\xfe\
\xfda\xfda\xfe\
\xfd./a/..\xfd\xfe\
\xfda/../b\xfdb\xfe\
a\xfdb//c/./d\xfda/b/c/d\xfe\
a/b/c\xfd../../d\xfda/d\xfe\
a/b\xfd../../c/../d\xfdd\xfe\
a\xfdb*/../c\xfda/c\xfe\
a\xfd\\\"\x7f/../c\xfda/c\xfe\
a\xfd.../..b\xfda/.../..b\xfe\
\xc3\xa9\xfd\xe6\x97\xa5/../\xe8\xaa\x9e\xfd\xc3\xa9/\xe8\xaa\x9e\xfe\
a\xfd\xff/../c\xfda/c\xfe\
\xfd..\xfe\
\xfd../a\xfe\
src\xfd../..\xfe\
src\xfd../../src/a\xfe\
a\xfdb*\xfe\
a\xfdb\\c\xfe\
a\xfdb\0\xfe\
a\xfdb\"/c\xfe\
\xfd\x7f\xfe\
a\xfd\xff\xfe\
a\xfd\xc3/\xa9";

#[test]
fn joins_paths(rt: HostRuntime) -> Result<(), Fail> {
    for row in JOINS.split(|byte| *byte == 0xfe) {
        let mut fields = row.split(|byte| *byte == 0xfd);
        let folder = fields.next().ok_or("no folder")?;
        let relative = fields.next().ok_or("no relative path")?;
        let as_wanted = match (joined(rt.alloc(), folder, relative)?, fields.next()) {
            (Some(path), Some(want)) => path.as_bytes() == want,
            (None, None) => true,
            _ => false,
        };
        as_wanted.then_some(()).ok_or("another path")?;
    }
    Ok(())
}

#[test]
fn joins_long_texts(rt: HostRuntime) -> Result<(), Fail> {
    let mut long = vec![in rt.alloc(); b'b'; LONGEST - 2]?;
    let longest = joined(rt.alloc(), b"a", long.as_slice())?.ok_or("no path")?;
    assert_eq!(rt; longest.as_bytes().len(), LONGEST);
    long.push(b'b')?;
    assert!(rt; joined(rt.alloc(), b"a", long.as_slice())?.is_none());
    long.extend_from_slice(b"/../c")?;
    let short = joined(rt.alloc(), b"a", long.as_slice())?.ok_or("no path")?;
    assert_eq!(rt; short.text(), "a/c");
    Ok(())
}

#[test]
fn knows_the_folder(rt: HostRuntime) -> Result<(), Fail> {
    let path = joined(rt.alloc(), b"a/b", b"c.js")?.ok_or("no path")?;
    let folder = path.folder()?;
    assert_eq!(rt; folder.text(), "a/b");
    let top = folder.folder()?;
    assert_eq!(rt; top.text(), "a");
    let root = top.folder()?;
    assert!(rt; root.is_root() && !top.is_root() && root.folder()?.is_root());
    assert!(rt; path.copy()? == path && path != folder);
    Ok(())
}
