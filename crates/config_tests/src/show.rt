use pack_config::{ConfigFault, config};
use pk_types::{CacheGroup, Config, SplitConfig, Text, Which};
use std::alloc::{AllocError, Global};
use std::process::Abort;
use std::test::Fail;

/// The part of the settings that a test looks at.
#[derive(Clone, Copy)]
pub(crate) enum Part {
    All,
    Entries,
    Flags,
    Split,
    Groups,
}

/// Each line of the cases is a file, an arrow and that part of what the file says.
pub(crate) fn compare(
    rt: &impl Abort,
    alloc: Global,
    part: Part,
    cases: &str,
    count: u32,
) -> Result<(), Fail> {
    let mut left = count;
    for line in cases.lines() {
        if let Some((text, want)) = line.split_once(" => ") {
            let found = shown(alloc, Some(text.as_bytes()), part)?;
            assert_eq!(rt; found.as_slice(), want.as_bytes(), "{line}");
            left = left.saturating_sub(1);
        }
    }
    assert_eq!(rt; left, 0);
    Ok(())
}

/// That part of what a file says, in a short form.
pub(crate) fn shown(
    alloc: Global,
    bytes: Option<&[u8]>,
    part: Part,
) -> Result<Vec<u8>, AllocError> {
    let mut out = Vec::new(alloc);
    match config(alloc, bytes) {
        Ok(found) => {
            put_part(alloc, &mut out, &found, part)?;
            if out.last().copied() == Some(b' ') {
                out.pop();
            }
        }
        Err(ConfigFault::BadJson) => out.extend_from_slice(b"not JSON")?,
        Err(ConfigFault::Unknown(key)) => put_fault(&mut out, b"unknown key ", &key)?,
        Err(ConfigFault::BadValue(key)) => put_fault(&mut out, b"bad value ", &key)?,
        Err(ConfigFault::NoEntry) => out.extend_from_slice(b"no entry")?,
        Err(ConfigFault::NoMemory) => out.extend_from_slice(b"no memory")?,
    }
    Ok(out)
}

fn put_part(
    alloc: Global,
    out: &mut Vec<u8>,
    found: &Config,
    part: Part,
) -> Result<(), AllocError> {
    if let Part::All | Part::Entries = part {
        put_entries(out, found)?;
    }
    if let Part::All | Part::Flags = part {
        put_flags(out, found)?;
    }
    match &found.split {
        Some(split) => put_split_part(alloc, out, split, part),
        None => out.extend_from_slice(b"no split"),
    }
}

fn put_split_part(
    alloc: Global,
    out: &mut Vec<u8>,
    split: &SplitConfig,
    part: Part,
) -> Result<(), AllocError> {
    if let Part::All | Part::Split = part {
        put_split(alloc, out, split)?;
    }
    if let Part::All | Part::Groups = part {
        put_groups(alloc, out, split)?;
    }
    Ok(())
}

fn put_fault(out: &mut Vec<u8>, what: &[u8], key: &Text) -> Result<(), AllocError> {
    out.extend_from_slice(what)?;
    out.extend_from_slice(key.as_slice())
}

fn put_entries(out: &mut Vec<u8>, found: &Config) -> Result<(), AllocError> {
    for (name, request) in found.entries.as_slice() {
        out.extend_from_slice(name.as_slice())?;
        out.extend_from_slice(b"=")?;
        out.extend_from_slice(request.as_slice())?;
        out.extend_from_slice(b" ")?;
    }
    Ok(())
}

fn put_flags(out: &mut Vec<u8>, found: &Config) -> Result<(), AllocError> {
    put_flag(out, b"concatenate ", found.concatenate)?;
    put_flag(out, b"sideEffects ", found.side_effects)?;
    put_flag(out, b"hashed ", found.hashed)
}

fn put_flag(out: &mut Vec<u8>, name: &[u8], set: bool) -> Result<(), AllocError> {
    if set {
        out.extend_from_slice(name)?;
    }
    Ok(())
}

fn put_which(out: &mut Vec<u8>, which: Which) -> Result<(), AllocError> {
    out.extend_from_slice(match which {
        Which::Async => b"async ".as_slice(),
        Which::Initial => b"initial ".as_slice(),
        Which::All => b"all ".as_slice(),
    })
}

fn put_split(alloc: Global, out: &mut Vec<u8>, split: &SplitConfig) -> Result<(), AllocError> {
    put_which(out, split.chunks)?;
    for number in [
        split.min_size,
        split.enforce,
        split.min_chunks,
        split.max_async,
        split.max_initial,
    ] {
        put_number(alloc, out, number)?;
    }
    Ok(())
}

fn put_number(alloc: Global, out: &mut Vec<u8>, number: u32) -> Result<(), AllocError> {
    let text = format!(in alloc; "{number} ")?;
    out.extend_from_slice(text.as_bytes())
}

fn put_groups(alloc: Global, out: &mut Vec<u8>, split: &SplitConfig) -> Result<(), AllocError> {
    for group in split.groups.as_slice() {
        put_group(alloc, out, group)?;
    }
    Ok(())
}

fn put_group(alloc: Global, out: &mut Vec<u8>, group: &CacheGroup) -> Result<(), AllocError> {
    out.extend_from_slice(b"| ")?;
    out.extend_from_slice(group.name.as_slice())?;
    out.extend_from_slice(b" ")?;
    if let Some(test) = &group.test {
        out.extend_from_slice(b"in ")?;
        out.extend_from_slice(test.as_slice())?;
        out.extend_from_slice(b" ")?;
    }
    put_which(out, group.chunks)?;
    put_number(alloc, out, group.min_size)?;
    put_number(alloc, out, group.min_chunks)?;
    let rank = group.priority;
    let text = format!(in alloc; "{rank} ")?;
    out.extend_from_slice(text.as_bytes())?;
    put_flag(out, b"reuse ", group.reuse)
}
