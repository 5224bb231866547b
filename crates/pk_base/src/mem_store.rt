// A store in memory, which fails at the calls whose numbers it is given.
ghost use Rattle.std.specs.Prelude.{◌≡◌, ◌++◌, ◌∷◌, [], Some, None, true, false, option_copied, IfOk, OnOk, OnErr, IsTrue, is_err};
ghost use Rattle.std.specs.Str.{bytes_eq};
ghost use Rattle.std.specs.Map.{lookup};
ghost use Rattle.pk_base.specs.Causes.{Counts};
ghost use Rattle.pk_base.specs.declared.outside.Call.TheVariants.{Put, Remove};
ghost use Rattle.pk_base.specs.Outside.{set_at, Tried, ChangesOnly};
ghost use Rattle.pk_base.specs.Schedules.{failing_at, is_due, with_call};
ghost use Rattle.indexmap.specs.IndexMap.{keys};
ghost use Rattle.pk_base.specs.Memory.{named};
ghost use Rattle.pk_base.specs.Starts.{empty_store};

use crate::failures::{FailsByNumber, Failures};
use crate::kept::{keep_put, keep_remove};
use crate::{Call, Failed, Key, Store, Text};
use indexmap::IndexMap;
use std::alloc::{AllocError, Global};

/// A store in memory.
#[derive(Drop)]
pub struct MemStore {
    alloc: Global,
    files: IndexMap<Text, Text>,
    calls: Vec<Call>,
    failures: Failures,
}

// Copies bytes to a name.
fn hold(
    alloc: Global,
    files: &mut IndexMap<Text, Text>,
    name: &[u8],
    bytes: &[u8],
) -> Result<(), AllocError>
    ensures ok { OnOk result (named files.new.entries ≡ set_at name.now (Some bytes.now) (named files.old.entries)) }
    ensures err { OnErr result (files.new.entries ≡ files.old.entries) }
{
    let name = Text::from_slice(alloc, name)?;
    let bytes = Text::from_slice(alloc, bytes)?;
    files.insert(name, bytes)?;
    Ok(())
}

// Takes a name away, if it is there.
fn forget(files: &mut IndexMap<Text, Text>, name: &[u8])
    ensures { named files.new.entries ≡ set_at name.now None (named files.old.entries) }
{
    let _ = files.swap_remove(Key(name));
}

impl MemStore {
    /// The calls of `put` and `remove`, counted together from 0, whose numbers stand in `fails` fail.
    pub fn new(alloc: Global, fails: Vec<u64>) -> Result<Self, AllocError>
        ensures means { IfOk result (λ m. ⟦<MemStore as Store>⟧.means m ≡ empty_store) }
        ensures schedule { IfOk result (λ m. ⟦<MemStore as FailsByNumber>⟧.schedule m ≡ failing_at fails.items) }
    {
        Ok(MemStore {
            alloc,
            files: IndexMap::new(alloc),
            calls: Vec::new(alloc),
            failures: Failures::at(fails),
        })
    }

    /// The bytes under a name, if it holds something.
    pub fn get(&self, name: &[u8]) -> Option<&Text>
        ensures { option_copied result ≡ (⟦<MemStore as Store>⟧.means self.now).files name.now }
    {
        self.files.get(Key(name))
    }

    /// The calls of `put` and `remove`, in order.
    pub fn calls(&self) -> &[Call]
        ensures { result.now ≡ (⟦<MemStore as Store>⟧.means self.now).calls }
    {
        self.calls.as_slice()
    }

    /// The names that hold something, in no order that is promised.
    pub fn names(&self) -> indexmap::map::Keys<'_, Text, Text>
        ensures { result ≡ keys self.now.files }
    {
        self.files.keys()
    }
}

impl FailsByNumber for MemStore {
    ghost schedule = { λ m. ⟦<Failures as FailsByNumber>⟧.schedule m.failures };

    fn is_next_due(&self) -> bool {
        self.failures.is_next_due()
    }
}

#[tactic(auto, using(crate::proofs::Held::keeps))]
impl Store for MemStore {
    ghost means = { λ m. record { told = true; files = named m.files.entries; calls = m.calls.items; faults = m.failures.count } };

    fn put(&mut self, name: &[u8], bytes: &[u8]) -> Result<(), Failed>
        ensures told { (⟦<MemStore as Store>⟧.means self.new).told ≡ (⟦<MemStore as Store>⟧.means self.old).told }
        ensures put { OnOk result (IsTrue ((⟦<MemStore as Store>⟧.means self.old).told) → (⟦<MemStore as Store>⟧.means self.new).files ≡ set_at name.now (Some bytes.now) ((⟦<MemStore as Store>⟧.means self.old).files)) }
        ensures lost { OnErr result (IsTrue ((⟦<MemStore as Store>⟧.means self.old).told) → ChangesOnly ((⟦<MemStore as Store>⟧.means self.old).files) ((⟦<MemStore as Store>⟧.means self.new).files) name.now) }
        ensures called { OnOk result ((⟦<MemStore as Store>⟧.means self.new).calls ≡ (⟦<MemStore as Store>⟧.means self.old).calls ++ Put name.now ∷ []) }
        ensures called_lost { OnErr result (Tried ((⟦<MemStore as Store>⟧.means self.old).calls) ((⟦<MemStore as Store>⟧.means self.new).calls) (Put name.now)) }
        ensures cause { Counts (is_err result) ((⟦<MemStore as Store>⟧.means self.old).faults) ((⟦<MemStore as Store>⟧.means self.new).faults) }
        ensures passes { OnOk result (is_due (⟦<MemStore as FailsByNumber>⟧.schedule self.old) ≡ false) }
        ensures schedule { ⟦<MemStore as FailsByNumber>⟧.schedule self.new ≡ with_call (⟦<MemStore as FailsByNumber>⟧.schedule self.old) }
    {
        let fails = self.failures.count_call();
        if keep_put(self.alloc, &mut self.calls, name).is_err()
            || fails
            || hold(self.alloc, &mut self.files, name, bytes).is_err()
        {
            return Err(self.failures.fault());
        }
        Ok(())
    }

    fn remove(&mut self, name: &[u8]) -> Result<(), Failed>
        ensures told { (⟦<MemStore as Store>⟧.means self.new).told ≡ (⟦<MemStore as Store>⟧.means self.old).told }
        ensures gone { OnOk result (IsTrue ((⟦<MemStore as Store>⟧.means self.old).told) → (⟦<MemStore as Store>⟧.means self.new).files ≡ set_at name.now None ((⟦<MemStore as Store>⟧.means self.old).files)) }
        ensures lost { OnErr result (IsTrue ((⟦<MemStore as Store>⟧.means self.old).told) → ChangesOnly ((⟦<MemStore as Store>⟧.means self.old).files) ((⟦<MemStore as Store>⟧.means self.new).files) name.now) }
        ensures called { OnOk result ((⟦<MemStore as Store>⟧.means self.new).calls ≡ (⟦<MemStore as Store>⟧.means self.old).calls ++ Remove name.now ∷ []) }
        ensures called_lost { OnErr result (Tried ((⟦<MemStore as Store>⟧.means self.old).calls) ((⟦<MemStore as Store>⟧.means self.new).calls) (Remove name.now)) }
        ensures cause { Counts (is_err result) ((⟦<MemStore as Store>⟧.means self.old).faults) ((⟦<MemStore as Store>⟧.means self.new).faults) }
        ensures passes { OnOk result (is_due (⟦<MemStore as FailsByNumber>⟧.schedule self.old) ≡ false) }
        ensures schedule { ⟦<MemStore as FailsByNumber>⟧.schedule self.new ≡ with_call (⟦<MemStore as FailsByNumber>⟧.schedule self.old) }
    {
        let fails = self.failures.count_call();
        if keep_remove(self.alloc, &mut self.calls, name).is_err() || fails {
            return Err(self.failures.fault());
        }
        forget(&mut self.files, name);
        Ok(())
    }
}
