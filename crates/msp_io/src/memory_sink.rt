// Sinks in memory.
ghost use Rattle.std.specs.Prelude.{◌≡◌, ◌↔◌, ◌<◌, ◌≤◌, ◌++◌, ◌-◌, [], Some, None, Ok, length, take, min, vec_len, vec_capacity, IsOk, IsErr, IfOk, OnErr};
ghost use Rattle.msp_io.specs.Faults.{one_more, in_64_bits-fits};
ghost use Rattle.msp_io.specs.Lawful.{sink_laws};
ghost use Rattle.msp_io.specs.Memory.{SinkState, Refuses, sink_view, sure_sink_view};
ghost use Rattle.msp_io.specs.Sinks.{Takes, TakesAndFails};

use crate::{Failed, Sink};
use std::alloc::Global;
use std::marker::Model;

/// There was no memory left.
#[derive(Clone, Copy, Debug, PartialEq, Eq)]
pub struct NoMemory;

/// A sink that holds its bytes in memory, takes a few at a time, and fails at chosen calls and where it is full.
#[derive(Drop)]
pub struct MemorySink {
    held: Vec<u8>,
    room: u32,
    step: u32,
    fails: Vec<u64>,
    calls: u64,
    faults: u64,
}

impl Model for MemorySink {
    ghost Value = { SinkState };

    ghost view = { λ s. record {
      held = s.held.items;
      room = s.room;
      step = s.step;
      fails = s.fails.items;
      calls = s.calls;
      faults = s.faults;
    } };

    ghost invariant = { λ s. (vec_len s.held ≤ s.room) × (s.room ≤ vec_capacity s.held) × (0 < s.step) };
}

impl MemorySink {
    /// A sink for `room` bytes, whose memory is taken here, that takes at most `step` bytes per call. Calls are
    /// numbered from 1, and a call whose number is in `fails` fails. The number stays at 2^64 - 1 once it is there.
    ///
    /// # Errors
    ///
    /// `NoMemory` comes where there is no memory for `room` bytes, and never where `room` is 0.
    pub fn new(alloc: Global, room: u32, step: u32, fails: Vec<u64>) -> Result<MemorySink, NoMemory>
        requires { 0 < step }
        ensures ok { IfOk result (λ sink. sink ≡ record {
          held = [];
          room = room;
          step = step;
          fails = fails.items;
          calls = 0;
          faults = 0;
        }) }
        // Where there is no room, no memory is taken.
        ensures no_room { room ≡ 0 → IsOk result }
    {
        let Ok(held) = Vec::with_capacity(alloc, room as usize) else {
            return Err(NoMemory);
        };
        Ok(MemorySink {
            held,
            room,
            step,
            fails,
            calls: 0,
            faults: 0,
        })
    }

    /// The bytes taken so far.
    pub fn bytes(&self) -> &[u8]
        ensures { result.now ≡ self.now.held }
    {
        &self.held
    }
}

impl Sink for MemorySink {
    ghost seen = { sink_view };

    ghost took = { λ s t bytes. Takes (sink_view s) (sink_view t) bytes };

    ghost broke = { λ s t bytes. TakesAndFails (sink_view s) (sink_view t) bytes };

    ghost fits = { λ s. in_64_bits-fits s.faults };

    ghost lawful = { sink_laws sink_view (λ _. tt) };

    fn write(&mut self, bytes: &[u8]) -> Result<usize, Failed>
        // Exactly the calls in `fails` and those without room fail, and change nothing but the numbers.
        ensures fails { IsErr result ↔ Refuses self.old bytes.now }
        ensures failing { OnErr result (self.new ≡ record self.old {
          calls = one_more self.old.calls;
          faults = one_more self.old.faults;
        }) }

        // The other calls take as many bytes as step, slice and room allow.
        ensures exact { IfOk result (λ n. n ≡
            min (min self.old.step (length bytes.now)) (self.old.room - length self.old.held)) }
        ensures grown { IfOk result (λ n. self.new ≡ record self.old {
          held = self.old.held ++ take n bytes.now;
          calls = one_more self.old.calls;
        }) }

        // What every sink ensures.
        ensures moves { IfOk result (λ n. 0 < length bytes.now → 0 < n) }
    {
        self.calls = self.calls.saturating_add(1);
        let room = self.room as usize - self.held.len();
        if self.fails.contains(&self.calls) || (room == 0 && !bytes.is_empty()) {
            self.faults = self.faults.saturating_add(1);
            return Err(Failed);
        }
        let count = (self.step as usize).min(bytes.len()).min(room);
        self.held.extend_from_slice(&bytes[..count]).unwrap();
        Ok(count)
    }
}

/// A sink that takes and drops all bytes, and never fails.
#[derive(Clone, Copy)]
pub struct SureSink;

impl SureSink {
    /// A sink that holds nothing.
    pub fn new() -> SureSink {
        SureSink
    }
}

impl Sink for SureSink {
    ghost seen = { λ _. sure_sink_view };

    ghost took = { λ _ _ bytes. Takes sure_sink_view sure_sink_view bytes };

    ghost broke = { λ _ _ bytes. TakesAndFails sure_sink_view sure_sink_view bytes };

    ghost fits = { λ _. in_64_bits-fits 0 };

    ghost lawful = { sink_laws (λ _. sure_sink_view) (λ _. tt) };

    fn write(&mut self, bytes: &[u8]) -> Result<usize, Failed>
        ensures { result ≡ Ok (length bytes.now) }
    {
        Ok(bytes.len())
    }
}
