// A world in memory in which a command runs.
ghost use Rattle.std.specs.Prelude.{◌≡◌, ◌<◌};

use pack_cli::{Status, run};
use pk_base::{Call, MemFiles, MemSink, MemSource, MemStore, Path, Sequence, Steps, Text, Tree};
use std::alloc::{AllocError, Global};
use std::marker::Brand;
use std::sync::ledger::{Blank, Ledger};

/// Files, a store and a sink in memory.
#[derive(Drop)]
pub struct World {
    files: MemFiles,
    out: MemStore,
    sink: MemSink,
}

// The files of a tree. One whose text is no path is left out.
fn tree(alloc: Global, files: &[(&str, &[u8])]) -> Result<Tree, AllocError> {
    let mut items = Vec::new(alloc);
    for (at, bytes) in files {
        if let Some(path) = Path::root(alloc).join(at.as_bytes())? {
            items.push((path, Text::from_slice(alloc, *bytes)?))?;
        }
    }
    Ok(Tree {
        files: Sequence::from_vec(items),
    })
}

impl World {
    /// A world with these files, whose calls of these numbers fail: of the files, the store and the sink.
    pub fn new(
        alloc: Global,
        files: &[(&str, &[u8])],
        reads: &[u64],
        puts: &[u64],
        lines: &[u64],
    ) -> Result<World, AllocError> {
        let mut trees = Vec::new(alloc);
        trees.push(tree(alloc, files)?)?;
        Ok(World {
            files: MemFiles::new(alloc, trees, Vec::from_slice(alloc, reads)?)?,
            out: MemStore::new(alloc, Vec::from_slice(alloc, puts)?)?,
            sink: MemSink::new(alloc, Vec::from_slice(alloc, lines)?)?,
        })
    }
}

fn run_counted<L: Ledger>(
    alloc: Global,
    blank: Blank,
    world: &mut World,
    words: &[&str],
) -> Result<Status, AllocError>
    requires name { blank.name ≡ L.name }
    requires parts { blank.parts ≡ L.parts }
    requires some { 0 < blank.parts }
{
    let mut texts = Vec::new(alloc);
    for word in words {
        texts.push(String::from_str(alloc, *word)?)?;
    }
    let mut input = MemSource::new(Vec::new(alloc), Vec::new(alloc))?;
    let mut steps = Steps::<L>::start(blank);
    Ok(run(
        alloc,
        &texts,
        &mut world.files,
        &mut world.out,
        &mut input,
        &mut world.sink,
        &mut steps,
    ))
}

// What an answer and the objects tell afterwards: the exit status, the lines, the asks, the calls of the store, and what
// stands in `main.js` behind the runtime text, which has 2,764 bytes.
fn told(alloc: Global, world: &World, status: Status) -> Result<Vec<u8>, AllocError> {
    let mut text = Vec::new(alloc);
    text.extend_from_slice(status.number().to_string(alloc)?.as_bytes())?;
    text.push(b'\n')?;
    text.extend_from_slice(world.sink.bytes())?;
    for path in world.files.asks() {
        text.extend_from_slice(b"asked ")?;
        text.extend_from_slice(path.as_slice())?;
        text.push(b'\n')?;
    }
    for call in world.out.calls() {
        let (word, name) = match call {
            Call::Put(name) => (b"put ".as_slice(), name),
            Call::Remove(name) => (b"remove ".as_slice(), name),
        };
        text.extend_from_slice(word)?;
        text.extend_from_slice(name.as_slice())?;
        text.push(b'\n')?;
    }
    if let Some(file) = world.out.get(b"main.js") {
        if let Some(behind) = file.as_slice().get(2764..) {
            text.extend_from_slice(behind)?;
        }
    }
    Ok(text)
}

/// Runs the command that the words are, and answers all that it leaves as one text.
pub fn transcript(alloc: Global, world: World, words: &[&str]) -> Result<Vec<u8>, AllocError> {
    let mut world = world;
    let status = run_counted::<Brand>(alloc, Blank::new(1), &mut world, words)?;
    told(alloc, &world, status)
}
