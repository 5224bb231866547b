// The real folder and the standard streams. They tell nothing of what they hold, and count their faults.
ghost use Rattle.std.specs.Prelude.{◌≡◌, [], None, false, IfOk};
ghost use Rattle.std.specs.Io.{ReadsAtMost};
ghost use Rattle.pk_base.specs.Starts.{untold_files, untold_store, untold_source, untold_sink};

use crate::kept::{keep_ask, keep_put, keep_remove};
use crate::{Call, Failed, Files, Path, Read, ReadFail, Sink, Source, Store, Text};
use std::alloc::{AllocError, Global};
use std::fs::OpenFile;
use std::io::{ErrorKind, Read as ReadBytes};
use std::{fs, io, str};

/// The files beneath the current folder.
#[derive(Drop)]
pub struct FolderFiles<R: std::rt::Files + Drop> {
    rt: R,
    alloc: Global,
    asks: Vec<Text>,
    faults: u64,
}

// No file is beneath a file, or under a name that is too long for the system.
fn is_nowhere(error: &io::Error) -> bool {
    matches!(
        error.kind(),
        ErrorKind::NotFound | ErrorKind::NotADirectory | ErrorKind::InvalidFilename
    )
}

// How many bytes the regular file at a path has. What is no regular file is as if it weren't there: a folder, and also what
// an opening could wait at, as a pipe or a device, so it is not opened.
fn file_len<R: std::rt::Files>(rt: &R, path: &str) -> io::Result<Option<u64>> {
    match fs::metadata(rt, path) {
        Ok(metadata) if metadata.is_file() => Ok(Some(metadata.len())),
        Ok(_) => Ok(None),
        Err(error) if is_nowhere(&error) => Ok(None),
        Err(error) => Err(error),
    }
}

// What stands at a path, up to a limit. No file is at the root.
fn read_file<R: std::rt::Files>(rt: &R, alloc: Global, path: &str, limit: u32) -> io::Result<Read> {
    if path.is_empty() {
        return Ok(Read::Absent);
    }
    let Some(len) = file_len(rt, path)? else {
        return Ok(Read::Absent);
    };
    let mut file = match fs::open(rt, path) {
        Ok(file) => file,
        Err(error) if is_nowhere(&error) => return Ok(Read::Absent),
        Err(error) => return Err(error),
    };
    let room = len.min(u64::from(limit)) as usize + 1;
    let mut bytes = Vec::with_capacity(alloc, room)?;
    (&mut file)
        .take(u64::from(limit) + 1)
        .read_to_end(&mut bytes)?;
    if bytes.len() > limit as usize {
        return Ok(Read::Longer);
    }
    Ok(Read::Bytes(Text::from_vec(bytes)))
}

impl<R: std::rt::Files + Drop> FolderFiles<R> {
    /// The folder is the current one. Nothing is asked yet.
    pub fn new(rt: R, alloc: Global) -> Result<Self, AllocError>
        ensures { IfOk result (λ m. ⟦<FolderFiles<R> as Files>⟧.means m ≡ untold_files) }
    {
        Ok(FolderFiles {
            rt,
            alloc,
            asks: Vec::new(alloc),
            faults: 0,
        })
    }

    /// The written paths that were asked for, in order.
    pub fn asks(&self) -> &[Text]
        ensures { result.now ≡ (⟦<FolderFiles<R> as Files>⟧.means self.now).asks }
    {
        self.asks.as_slice()
    }
}

impl<R: std::rt::Files + Drop> Files for FolderFiles<R> {
    ghost means = { λ m. record { told = false; tree = λ path. None; coming = []; asks = m.asks.items; faults = m.faults } };

    fn read(&mut self, path: &Path, limit: u32) -> Result<Read, ReadFail> {
        keep_ask(self.alloc, &mut self.asks, path)?;
        match read_file(&self.rt, self.alloc, path.text(), limit) {
            Ok(found) => Ok(found),
            Err(error) if error.kind() == ErrorKind::OutOfMemory => Err(ReadFail::NoMemory),
            Err(_) => {
                self.faults = self.faults.saturating_add(1);
                Err(ReadFail::Failed)
            }
        }
    }

    fn turn(&mut self, _listed: &Vec<Path>) {}
}

/// The folder `dist` beneath the current folder, which is made if it is absent.
#[derive(Drop)]
pub struct FolderStore<R: std::rt::Files + Drop> {
    rt: R,
    alloc: Global,
    calls: Vec<Call>,
    faults: u64,
}

fn write_file<R: std::rt::Files>(
    rt: &R,
    alloc: Global,
    name: &[u8],
    bytes: &[u8],
) -> io::Result<()> {
    let Ok(name) = str::from_utf8(name) else {
        return Err(io::Error::from(ErrorKind::InvalidInput));
    };
    fs::create_dir_all(rt, "dist")?;
    let path = format!(in alloc; "dist/{name}")?;
    fs::write(rt, path.as_str(), bytes)
}

// Removes a file, if it is there.
fn remove_file<R: std::rt::Files>(rt: &R, alloc: Global, name: &[u8]) -> io::Result<()> {
    let Ok(name) = str::from_utf8(name) else {
        return Err(io::Error::from(ErrorKind::InvalidInput));
    };
    let path = format!(in alloc; "dist/{name}")?;
    match fs::remove_file(rt, path.as_str()) {
        Ok(()) => Ok(()),
        Err(error) => match error.kind() {
            ErrorKind::NotFound => Ok(()),
            _ => Err(error),
        },
    }
}

impl<R: std::rt::Files + Drop> FolderStore<R> {
    /// The folder is `dist` beneath the current one. Nothing is put yet.
    pub fn new(rt: R, alloc: Global) -> Result<Self, AllocError>
        ensures { IfOk result (λ m. ⟦<FolderStore<R> as Store>⟧.means m ≡ untold_store) }
    {
        Ok(FolderStore {
            rt,
            alloc,
            calls: Vec::new(alloc),
            faults: 0,
        })
    }

    /// The calls of `put` and `remove`, in order.
    pub fn calls(&self) -> &[Call]
        ensures { result.now ≡ (⟦<FolderStore<R> as Store>⟧.means self.now).calls }
    {
        self.calls.as_slice()
    }
}

impl<R: std::rt::Files + Drop> Store for FolderStore<R> {
    ghost means = { λ m. record { told = false; files = λ name. None; calls = m.calls.items; faults = m.faults } };

    fn put(&mut self, name: &[u8], bytes: &[u8]) -> Result<(), Failed> {
        if keep_put(self.alloc, &mut self.calls, name).is_err()
            || write_file(&self.rt, self.alloc, name, bytes).is_err()
        {
            self.faults = self.faults.saturating_add(1);
            return Err(Failed);
        }
        Ok(())
    }

    fn remove(&mut self, name: &[u8]) -> Result<(), Failed> {
        if keep_remove(self.alloc, &mut self.calls, name).is_err()
            || remove_file(&self.rt, self.alloc, name).is_err()
        {
            self.faults = self.faults.saturating_add(1);
            return Err(Failed);
        }
        Ok(())
    }
}

// A read that was interrupted is made again.
fn read_some<T: ReadBytes>(reader: &mut T, into: &mut [u8]) -> io::Result<usize>
    ensures { ReadsAtMost result into.new }
{
    for _ in 0..u64::MAX {
        match reader.read(into) {
            Err(error) if error.kind() == ErrorKind::Interrupted => {}
            done => return done,
        }
    }
    Err(io::Error::from(ErrorKind::Interrupted))
}

/// The standard input.
#[derive(Drop)]
pub struct StdSource<R: Input + Drop> {
    reader: R::Reader,
    faults: u64,
}

impl<R: Input + Drop> StdSource<R> {
    /// The standard input, of which nothing is taken yet.
    pub fn new(rt: &R) -> Result<Self, AllocError>
        ensures { IfOk result (λ m. ⟦<StdSource<R> as Source>⟧.means m ≡ untold_source) }
    {
        Ok(StdSource {
            reader: rt.reader(),
            faults: 0,
        })
    }
}

impl<R: Input + Drop> Source for StdSource<R> {
    ghost means = { λ m. record { told = false; left = []; faults = m.faults } };

    fn take(&mut self, into: &mut [u8]) -> Result<usize, Failed> {
        match read_some(&mut self.reader, into) {
            Ok(n) => Ok(n),
            Err(_) => {
                self.faults = self.faults.saturating_add(1);
                Err(Failed)
            }
        }
    }
}

/// The standard output.
#[derive(Drop)]
pub struct StdSink<R: Print + Drop> {
    rt: R,
    faults: u64,
}

impl<R: Print + Drop> StdSink<R> {
    /// The standard output.
    pub fn new(rt: R) -> Result<Self, AllocError>
        ensures { IfOk result (λ m. ⟦<StdSink<R> as Sink>⟧.means m ≡ untold_sink) }
    {
        Ok(StdSink { rt, faults: 0 })
    }
}

impl<R: Print + Drop> Sink for StdSink<R> {
    ghost means = { λ m. record { told = false; held = []; faults = m.faults } };

    fn put(&mut self, bytes: &[u8]) -> Result<(), Failed> {
        match self.rt.write_all(bytes) {
            Ok(()) => Ok(()),
            Err(_) => {
                self.faults = self.faults.saturating_add(1);
                Err(Failed)
            }
        }
    }
}
