// A source and a sink in memory. Each fails at the calls whose numbers it is given.
ghost use Rattle.std.specs.Prelude.{◌≡◌, ◌≤◌, ◌<◌, ◌++◌, [], take, drop, length, vec_len, true, false, IfOk, OnOk, OnErr, IsTrue, is_err};
ghost use Rattle.std.specs.Io.{ReadsAtMost};
ghost use Rattle.pk_base.specs.Causes.{Counts};
ghost use Rattle.pk_base.specs.Outside.{AddsPrefix};
ghost use Rattle.pk_base.specs.Schedules.{failing_at, is_due, with_call};
ghost use Rattle.pk_base.specs.Starts.{full_source, empty_sink};

use crate::failures::{FailsByNumber, Failures};
use crate::{Failed, Sink, Source};
use std::alloc::{AllocError, Global};

/// A source in memory.
#[derive(Drop)]
pub struct MemSource {
    bytes: Vec<u8>,
    at: usize,
    failures: Failures,
    ghost within: { at ≤ vec_len bytes },
}

impl MemSource {
    /// The calls of `take`, counted from 0, whose numbers stand in `fails` fail.
    pub fn new(bytes: Vec<u8>, fails: Vec<u64>) -> Result<Self, AllocError>
        ensures means { IfOk result (λ m. ⟦<MemSource as Source>⟧.means m ≡ full_source bytes.items) }
        ensures schedule { IfOk result (λ m. ⟦<MemSource as FailsByNumber>⟧.schedule m ≡ failing_at fails.items) }
    {
        Ok(MemSource {
            bytes,
            at: 0,
            failures: Failures::at(fails),
        })
    }

    /// What is left.
    pub fn remaining(&self) -> &[u8]
        ensures { result.now ≡ (⟦<MemSource as Source>⟧.means self.now).left }
    {
        &self.bytes[self.at..]
    }
}

impl FailsByNumber for MemSource {
    ghost schedule = { λ m. ⟦<Failures as FailsByNumber>⟧.schedule m.failures };

    fn is_next_due(&self) -> bool {
        self.failures.is_next_due()
    }
}

impl Source for MemSource {
    ghost means = { λ m. record { told = true; left = drop m.at m.bytes.items; faults = m.failures.count } };

    fn take(&mut self, into: &mut [u8]) -> Result<usize, Failed>
        requires { 0 < length into.old }
        ensures bound { ReadsAtMost result into.new }
        ensures told { (⟦<MemSource as Source>⟧.means self.new).told ≡ (⟦<MemSource as Source>⟧.means self.old).told }
        ensures taken { IfOk result (λ n. IsTrue ((⟦<MemSource as Source>⟧.means self.old).told) → (⟦<MemSource as Source>⟧.means self.old).left ≡ take n into.new ++ (⟦<MemSource as Source>⟧.means self.new).left) }
        ensures end { IfOk result (λ n. IsTrue ((⟦<MemSource as Source>⟧.means self.old).told) → n ≡ 0 → (⟦<MemSource as Source>⟧.means self.old).left ≡ []) }
        ensures ended { IfOk result (λ n. IsTrue ((⟦<MemSource as Source>⟧.means self.old).told) → (⟦<MemSource as Source>⟧.means self.old).left ≡ [] → n ≡ 0) }
        ensures err { OnErr result (IsTrue ((⟦<MemSource as Source>⟧.means self.old).told) → (⟦<MemSource as Source>⟧.means self.new).left ≡ (⟦<MemSource as Source>⟧.means self.old).left) }
        ensures cause { Counts (is_err result) ((⟦<MemSource as Source>⟧.means self.old).faults) ((⟦<MemSource as Source>⟧.means self.new).faults) }
        ensures fails { is_err result ≡ is_due (⟦<MemSource as FailsByNumber>⟧.schedule self.old) }
        ensures schedule { ⟦<MemSource as FailsByNumber>⟧.schedule self.new ≡ with_call (⟦<MemSource as FailsByNumber>⟧.schedule self.old) }
    {
        if self.failures.count_call() {
            return Err(self.failures.fault());
        }
        let rest = &self.bytes[self.at..];
        let n = rest.len().min(into.len());
        into[..n].copy_from_slice(&rest[..n]);
        self.at += n;
        Ok(n)
    }
}

/// A sink in memory.
#[derive(Drop)]
pub struct MemSink {
    bytes: Vec<u8>,
    failures: Failures,
}

impl MemSink {
    /// The calls of `put`, counted from 0, whose numbers stand in `fails` fail.
    pub fn new(alloc: Global, fails: Vec<u64>) -> Result<Self, AllocError>
        ensures means { IfOk result (λ m. ⟦<MemSink as Sink>⟧.means m ≡ empty_sink) }
        ensures schedule { IfOk result (λ m. ⟦<MemSink as FailsByNumber>⟧.schedule m ≡ failing_at fails.items) }
    {
        Ok(MemSink {
            bytes: Vec::new(alloc),
            failures: Failures::at(fails),
        })
    }

    /// What is held.
    pub fn bytes(&self) -> &[u8]
        ensures { result.now ≡ (⟦<MemSink as Sink>⟧.means self.now).held }
    {
        self.bytes.as_slice()
    }
}

impl FailsByNumber for MemSink {
    ghost schedule = { λ m. ⟦<Failures as FailsByNumber>⟧.schedule m.failures };

    fn is_next_due(&self) -> bool {
        self.failures.is_next_due()
    }
}

#[tactic(auto, using(crate::proofs::Held::adds_none))]
impl Sink for MemSink {
    ghost means = { λ m. record { told = true; held = m.bytes.items; faults = m.failures.count } };

    fn put(&mut self, bytes: &[u8]) -> Result<(), Failed>
        ensures told { (⟦<MemSink as Sink>⟧.means self.new).told ≡ (⟦<MemSink as Sink>⟧.means self.old).told }
        ensures put { OnOk result (IsTrue ((⟦<MemSink as Sink>⟧.means self.old).told) → (⟦<MemSink as Sink>⟧.means self.new).held ≡ (⟦<MemSink as Sink>⟧.means self.old).held ++ bytes.now) }
        ensures lost { OnErr result (IsTrue ((⟦<MemSink as Sink>⟧.means self.old).told) → AddsPrefix ((⟦<MemSink as Sink>⟧.means self.old).held) ((⟦<MemSink as Sink>⟧.means self.new).held) bytes.now) }
        ensures cause { Counts (is_err result) ((⟦<MemSink as Sink>⟧.means self.old).faults) ((⟦<MemSink as Sink>⟧.means self.new).faults) }
        ensures passes { OnOk result (is_due (⟦<MemSink as FailsByNumber>⟧.schedule self.old) ≡ false) }
        ensures schedule { ⟦<MemSink as FailsByNumber>⟧.schedule self.new ≡ with_call (⟦<MemSink as FailsByNumber>⟧.schedule self.old) }
    {
        if self.failures.count_call() || self.bytes.extend_from_slice(bytes).is_err() {
            return Err(self.failures.fault());
        }
        Ok(())
    }
}
