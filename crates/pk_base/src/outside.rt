// Files to read, a store to write, a source of bytes and a sink for them, each by what it means.
ghost use Rattle.std.specs.Prelude.{◌≡◌, ◌<◌, ◌≤◌, ◌++◌, ◌∷◌, [], List, ℕ, Option, None, Some, length, take, drop, IfOk, OnOk, OnErr, is_err, IsTrue, Bool};
ghost use Rattle.std.specs.Io.{ReadsAtMost};
ghost use Rattle.pk_base.specs.Meanings.{FilesMeaning, StoreMeaning, SourceMeaning, SinkMeaning};
ghost use Rattle.pk_base.specs.Causes.{Counts, is_failed};
ghost use Rattle.pk_base.specs.declared.outside.Call.{Call};
ghost use Rattle.pk_base.specs.declared.outside.Call.TheVariants.{Put, Remove};
ghost use Rattle.pk_base.specs.declared.outside.ReadFail.TheVariants.{NoMemory};
ghost use Rattle.pk_base.specs.FileTree.{FileTree};
ghost use Rattle.pk_base.specs.Outside.{turned, read_of, Asked, set_at, Tried, ChangesOnly, AddsPrefix};

use crate::{Path, Text};
use std::alloc::AllocError;

/// What a read found.
#[derive(Drop)]
pub enum Read {
    Absent,
    Bytes(Text),
    Longer,
}

/// Why a read answered nothing.
#[derive(Clone, Copy, Debug, PartialEq, Eq)]
pub enum ReadFail {
    Failed,
    NoMemory,
}

impl From<AllocError> for ReadFail {
    ghost from_gives = { λ _ fail. fail ≡ NoMemory };

    fn from(_error: AllocError) -> ReadFail {
        ReadFail::NoMemory
    }
}

/// A call of a store, by the name that it was given.
#[derive(Drop)]
pub enum Call {
    Put(Text),
    Remove(Text),
}

/// A fault of a store, a source or a sink.
#[derive(Clone, Copy, Debug, PartialEq, Eq)]
pub struct Failed;

/// Files to read.
pub trait Files {
    /// What it means.
    ghost means: { Self → FilesMeaning };

    fn read(&mut self, path: &Path, limit: u32) -> Result<Read, ReadFail>
        ensures answer { IfOk result (λ r. IsTrue ((means self.old).told) → r ≡ read_of ((means self.old).tree path.now) limit) }
        ensures told { (means self.new).told ≡ (means self.old).told }
        ensures tree { (means self.new).tree ≡ (means self.old).tree }
        ensures coming { (means self.new).coming ≡ (means self.old).coming }
        ensures asked { Asked ((means self.old).asks) ((means self.new).asks) path.now result }
        ensures cause { Counts (is_failed result) ((means self.old).faults) ((means self.new).faults) };

    /// What stands at the listed paths and beneath them becomes what stands there in the next tree.
    fn turn(&mut self, listed: &Vec<Path>)
        ensures told { (means self.new).told ≡ (means self.old).told }
        ensures turned { IsTrue ((means self.old).told) → (means self.new).tree ≡ turned listed.now.items ((means self.old).coming) ((means self.old).tree) }
        ensures later { IsTrue ((means self.old).told) → (means self.new).coming ≡ drop 1 ((means self.old).coming) }
        ensures asks { (means self.new).asks ≡ (means self.old).asks }
        ensures faults { (means self.new).faults ≡ (means self.old).faults };
}

/// A store of files by name.
pub trait Store {
    /// What it means.
    ghost means: { Self → StoreMeaning };

    fn put(&mut self, name: &[u8], bytes: &[u8]) -> Result<(), Failed>
        ensures told { (means self.new).told ≡ (means self.old).told }
        ensures put { OnOk result (IsTrue ((means self.old).told) → (means self.new).files ≡ set_at name.now (Some bytes.now) ((means self.old).files)) }
        ensures lost { OnErr result (IsTrue ((means self.old).told) → ChangesOnly ((means self.old).files) ((means self.new).files) name.now) }
        ensures called { OnOk result ((means self.new).calls ≡ (means self.old).calls ++ Put name.now ∷ []) }
        ensures called_lost { OnErr result (Tried ((means self.old).calls) ((means self.new).calls) (Put name.now)) }
        ensures cause { Counts (is_err result) ((means self.old).faults) ((means self.new).faults) };

    fn remove(&mut self, name: &[u8]) -> Result<(), Failed>
        ensures told { (means self.new).told ≡ (means self.old).told }
        ensures gone { OnOk result (IsTrue ((means self.old).told) → (means self.new).files ≡ set_at name.now None ((means self.old).files)) }
        ensures lost { OnErr result (IsTrue ((means self.old).told) → ChangesOnly ((means self.old).files) ((means self.new).files) name.now) }
        ensures called { OnOk result ((means self.new).calls ≡ (means self.old).calls ++ Remove name.now ∷ []) }
        ensures called_lost { OnErr result (Tried ((means self.old).calls) ((means self.new).calls) (Remove name.now)) }
        ensures cause { Counts (is_err result) ((means self.old).faults) ((means self.new).faults) };
}

/// A source of bytes.
pub trait Source {
    /// What it means.
    ghost means: { Self → SourceMeaning };

    fn take(&mut self, into: &mut [u8]) -> Result<usize, Failed>
        requires { 0 < length into.old }
        ensures bound { ReadsAtMost result into.new }
        ensures told { (means self.new).told ≡ (means self.old).told }
        ensures taken { IfOk result (λ n. IsTrue ((means self.old).told) → (means self.old).left ≡ take n into.new ++ (means self.new).left) }
        ensures end { IfOk result (λ n. IsTrue ((means self.old).told) → n ≡ 0 → (means self.old).left ≡ []) }
        ensures ended { IfOk result (λ n. IsTrue ((means self.old).told) → (means self.old).left ≡ [] → n ≡ 0) }
        ensures err { OnErr result (IsTrue ((means self.old).told) → (means self.new).left ≡ (means self.old).left) }
        ensures cause { Counts (is_err result) ((means self.old).faults) ((means self.new).faults) };
}

/// A sink for bytes.
pub trait Sink {
    /// What it means.
    ghost means: { Self → SinkMeaning };

    fn put(&mut self, bytes: &[u8]) -> Result<(), Failed>
        ensures told { (means self.new).told ≡ (means self.old).told }
        ensures put { OnOk result (IsTrue ((means self.old).told) → (means self.new).held ≡ (means self.old).held ++ bytes.now) }
        ensures lost { OnErr result (IsTrue ((means self.old).told) → AddsPrefix ((means self.old).held) ((means self.new).held) bytes.now) }
        ensures cause { Counts (is_err result) ((means self.old).faults) ((means self.new).faults) };
}
