// Sources over bytes in memory.
ghost use Rattle.std.specs.Prelude.{◌≡◌, ◌↔◌, ◌<◌, ◌≤◌, ◌++◌, [], Some, Ok, length, take, drop, min, vec_len, IsErr, IfOk, OnErr};
ghost use Rattle.msp_io.specs.Faults.{one_more, in_64_bits-fits};
ghost use Rattle.msp_io.specs.Lawful.{source_laws};
ghost use Rattle.msp_io.specs.Memory.{SourceState, SureState, FailsNext, source_view, sure_view};
ghost use Rattle.msp_io.specs.Sources.{Gives, GivesAll, GivesAndFails, MeetsEnd};

use crate::{Failed, Source};
use std::marker::Model;

// Copies from the front of `from` to the front of `into`: as many bytes as both have, and at most `step`.
fn copy_front(from: &[u8], step: u32, into: &mut [u8]) -> usize
    ensures count { result ≡ min (min step (length into.old)) (length from.now) }
    ensures copied { into.new ≡ take result from.now ++ drop result into.old }
    ensures taken { from.now ≡ take result into.new ++ drop result from.now }
{
    let count = (step as usize).min(into.len()).min(from.len());
    into[..count].copy_from_slice(&from[..count]);
    count
}

/// A source over bytes in memory that never fails.
#[derive(Drop)]
pub struct SureSource {
    bytes: Vec<u8>,
    at: usize,
    step: u32,
}

impl Model for SureSource {
    ghost Value = { SureState };

    ghost view = { λ s. record { bytes = drop s.at s.bytes.items; step = s.step } };

    ghost invariant = { λ s. (s.at ≤ vec_len s.bytes) × (0 < s.step) };
}

impl SureSource {
    /// A source of `bytes` that gives at most `step` bytes per call.
    pub fn new(bytes: Vec<u8>, step: u32) -> SureSource
        requires { 0 < step }
        ensures { result ≡ record { bytes = bytes.items; step = step } }
    {
        SureSource { bytes, at: 0, step }
    }
}

impl Source for SureSource {
    ghost seen = { sure_view };

    ghost gave = { λ s t bytes. Gives (sure_view s) (sure_view t) bytes };

    ghost finished = { λ s t bytes. GivesAll (sure_view s) (sure_view t) bytes };

    ghost broke = { λ s t bytes. GivesAndFails (sure_view s) (sure_view t) bytes };

    ghost fits = { λ _. in_64_bits-fits 0 };

    ghost lawful = { source_laws sure_view (λ _. tt) };

    fn read(&mut self, into: &mut [u8]) -> Result<usize, Failed>
        ensures exact { result ≡ Ok (min (min self.old.step (length into.old)) (length self.old.bytes)) }
        ensures given { IfOk result (λ n. into.new ≡ take n self.old.bytes ++ drop n into.old) }
        ensures rest { IfOk result (λ n. self.new ≡ record self.old { bytes = drop n self.old.bytes }) }

        // What every source ensures.
        ensures taken { IfOk result (λ n. self.old.bytes ≡ take n into.new ++ self.new.bytes) }
        ensures end { IfOk result (λ n. 0 < length into.old → ((n ≡ 0) ↔ (self.old.bytes ≡ []))) }
    {
        let count = copy_front(&self.bytes[self.at..], self.step, into);
        self.at += count;
        Ok(count)
    }
}

/// A source over bytes in memory that gives a few at a time and fails at chosen calls.
#[derive(Drop)]
pub struct MemorySource {
    source: SureSource,
    fails: Vec<u64>,
    calls: u64,
    faults: u64,
}

impl Model for MemorySource {
    ghost Value = { SourceState };

    ghost view = { λ s. record {
      bytes = s.source.bytes;
      step = s.source.step;
      fails = s.fails.items;
      calls = s.calls;
      faults = s.faults;
    } };
}

impl MemorySource {
    /// A source of `bytes` that gives at most `step` bytes per call. Calls are numbered from 1, and a call whose
    /// number is in `fails` fails. The number stays at 2^64 - 1 once it is there.
    pub fn new(bytes: Vec<u8>, step: u32, fails: Vec<u64>) -> MemorySource
        requires { 0 < step }
        ensures { result ≡ record { bytes = bytes.items; step = step; fails = fails.items; calls = 0; faults = 0 } }
    {
        MemorySource {
            source: SureSource::new(bytes, step),
            fails,
            calls: 0,
            faults: 0,
        }
    }
}

impl Source for MemorySource {
    ghost seen = { source_view };

    ghost gave = { λ s t bytes. Gives (source_view s) (source_view t) bytes };

    ghost finished = { λ s t bytes. GivesAll (source_view s) (source_view t) bytes };

    ghost broke = { λ s t bytes. GivesAndFails (source_view s) (source_view t) bytes };

    ghost fits = { λ s. in_64_bits-fits s.faults };

    ghost lawful = { source_laws source_view (λ _. tt) };

    fn read(&mut self, into: &mut [u8]) -> Result<usize, Failed>
        // Exactly the calls in `fails` fail, and change nothing but the numbers.
        ensures fails { IsErr result ↔ FailsNext self.old.fails self.old.calls }
        ensures failing { OnErr result (self.new ≡ record self.old {
          calls = one_more self.old.calls;
          faults = one_more self.old.faults;
        }) }
        ensures untouched { OnErr result (into.new ≡ into.old) }

        // The other calls give as many bytes as step, slice and source allow.
        ensures exact { IfOk result (λ n. n ≡ min (min self.old.step (length into.old)) (length self.old.bytes)) }
        ensures given { IfOk result (λ n. into.new ≡ take n self.old.bytes ++ drop n into.old) }
        ensures rest { IfOk result (λ n. self.new ≡ record self.old {
          bytes = drop n self.old.bytes;
          calls = one_more self.old.calls;
        }) }

        // What every source ensures.
        ensures taken { IfOk result (λ n. self.old.bytes ≡ take n into.new ++ self.new.bytes) }
        ensures end { IfOk result (λ n. 0 < length into.old → ((n ≡ 0) ↔ (self.old.bytes ≡ []))) }
    {
        self.calls = self.calls.saturating_add(1);
        if self.fails.contains(&self.calls) {
            self.faults = self.faults.saturating_add(1);
            return Err(Failed);
        }
        self.source.read(into)
    }
}
