// Adapters of std's readers and writers: the trusted edge, where an outside error becomes a count.
ghost use Rattle.std.specs.Prelude.{◌≡◌, ◌<◌, ◌^◌, false};

use crate::{Failed, Sink, Source};
use std::io::{Read, Write};

/// A source over a reader of std. It tells what the reader tells, how many bytes it gave, how many reads met the end and how many failed,
/// and whether the last read did.
#[derive(Drop)]
pub struct StdSource<R> {
    inner: R,
    at_end: bool,
    failed: bool,
    ends: u64,
    given: u64,
    faults: u64,
    ghost counts: { given < 2 ^ 64 },
    ghost fits: { faults < 2 ^ 64 },
}

impl<R> StdSource<R> {
    ghost use Rattle.msp_io.specs.StdAdapters.{source_inner, source_at_end, source_failed, source_ends, source_given, source_faults};

    /// A source over `inner`.
    pub fn new(inner: R) -> StdSource<R>
        ensures inner { source_inner result ≡ inner }
        ensures start { source_at_end result ≡ false }
        ensures whole { source_failed result ≡ false }
        ensures ends { source_ends result ≡ 0 }
        ensures given { source_given result ≡ 0 }
        ensures faults { source_faults result ≡ 0 }
    {
        StdSource {
            inner,
            at_end: false,
            failed: false,
            ends: 0,
            given: 0,
            faults: 0,
        }
    }
}

impl<R: Read> Source for StdSource<R> {
    ghost use Rattle.std.specs.Prelude.{◌≡◌, ◌↔◌, ◌<◌, ◌≤◌, true, false, [], length, take, IfOk, OnOk, OnErr};
    ghost use Rattle.msp_io.specs.Faults.{one_more, so_many_more};
    ghost use Rattle.msp_io.specs.Lawful.{std_source_laws};
    ghost use Rattle.msp_io.specs.Sources.{MeetsEnd, TellsEnd};
    ghost use Rattle.msp_io.specs.StdAdapters.{source_inner, source_at_end, source_failed, source_ends, source_given, source_faults, source_view, SourceGave, SourceFinished, SourceBroke};

    ghost seen = { source_view R.remaining };

    ghost gave = { SourceGave R.remaining };

    ghost finished = { SourceFinished R.remaining };

    ghost broke = { SourceBroke R.remaining };

    ghost fits = { λ s. s.fits };

    ghost lawful = { std_source_laws R.remaining (λ s. s.counts) };

    fn read(&mut self, into: &mut [u8]) -> Result<usize, Failed>
        // The counter of faults is raised at each error, and only there, the others by what was given and at the end.
        ensures failing { OnErr result (source_faults self.new ≡ one_more (source_faults self.old)) }
        ensures succeeding { OnOk result (source_faults self.new ≡ source_faults self.old) }
        ensures counted { IfOk result (λ n. source_given self.new ≡ so_many_more (source_given self.old) n) }
        ensures uncounted { OnErr result (source_given self.new ≡ source_given self.old) }
        ensures ending { IfOk result (λ n. MeetsEnd (length into.old) n → source_ends self.new ≡ one_more (source_ends self.old)) }
        ensures going { IfOk result (λ n. ¬ MeetsEnd (length into.old) n → source_ends self.new ≡ source_ends self.old) }
        ensures no_end { OnErr result (source_ends self.new ≡ source_ends self.old) }

        // A read with room that gives nothing meets the end. An error leaves open whether it is there.
        ensures at_end { IfOk result (λ n. (source_at_end self.new ≡ true) ↔ MeetsEnd (length into.old) n) }
        ensures no_news { OnErr result (source_at_end self.new ≡ source_at_end self.old) }

        // The last read failed, or did not.
        ensures last_failed { OnErr result (source_failed self.new ≡ true) }
        ensures last_succeeded { OnOk result (source_failed self.new ≡ false) }

        // What every source ensures.
        ensures count { IfOk result (λ n. n ≤ length into.old) }
        ensures taken { IfOk result (λ n. ¬ MeetsEnd (length into.old) n → SourceGave R.remaining self.old self.new (take n into.new)) }
        ensures end { IfOk result (λ n. 0 < length into.old →
            TellsEnd (R.remaining (source_inner self.old)) (R.remaining (source_inner self.new)) n) }
        ensures last { IfOk result (λ n. MeetsEnd (length into.old) n → SourceFinished R.remaining self.old self.new []) }
        ensures broken { OnErr result (SourceBroke R.remaining self.old self.new []) }
    {
        match self.inner.read(into) {
            Ok(count) => {
                self.at_end = count == 0 && !into.is_empty();
                if self.at_end {
                    self.ends = self.ends.saturating_add(1);
                }
                self.failed = false;
                self.given = self.given.saturating_add(count as u64);
                Ok(count)
            }
            Err(_) => {
                self.failed = true;
                self.faults = self.faults.saturating_add(1);
                Err(Failed)
            }
        }
    }
}

/// A sink over a writer of std. It tells what the writer tells, how many bytes it took, how many writes failed, and whether the last one
/// did, and does not flush it.
#[derive(Drop)]
pub struct StdSink<W> {
    inner: W,
    failed: bool,
    taken: u64,
    faults: u64,
    ghost counts: { taken < 2 ^ 64 },
    ghost fits: { faults < 2 ^ 64 },
}

impl<W> StdSink<W> {
    ghost use Rattle.msp_io.specs.StdAdapters.{sink_inner, sink_failed, sink_taken, sink_faults};

    /// A sink over `inner`.
    pub fn new(inner: W) -> StdSink<W>
        ensures inner { sink_inner result ≡ inner }
        ensures whole { sink_failed result ≡ false }
        ensures taken { sink_taken result ≡ 0 }
        ensures faults { sink_faults result ≡ 0 }
    {
        StdSink {
            inner,
            failed: false,
            taken: 0,
            faults: 0,
        }
    }
}

impl<W: Write> Sink for StdSink<W> {
    ghost use Rattle.std.specs.Prelude.{◌≡◌, ◌<◌, ◌≤◌, true, false, [], length, take, IfOk, OnOk, OnErr};
    ghost use Rattle.msp_io.specs.Faults.{one_more, so_many_more};
    ghost use Rattle.msp_io.specs.Lawful.{std_sink_laws};
    ghost use Rattle.msp_io.specs.StdAdapters.{sink_failed, sink_taken, sink_faults, sink_view, SinkTook, SinkBroke};

    ghost seen = { sink_view W.contents };

    ghost took = { SinkTook W.contents };

    ghost broke = { SinkBroke W.contents };

    ghost fits = { λ s. s.fits };

    ghost lawful = { std_sink_laws W.contents (λ s. s.counts) };

    // A writer that takes nothing of a slice that is not empty has failed too.
    fn write(&mut self, bytes: &[u8]) -> Result<usize, Failed>
        // The counter of faults is raised at each error, and only there, the other by what was taken.
        ensures failing { OnErr result (sink_faults self.new ≡ one_more (sink_faults self.old)) }
        ensures succeeding { OnOk result (sink_faults self.new ≡ sink_faults self.old) }
        ensures counted { IfOk result (λ n. sink_taken self.new ≡ so_many_more (sink_taken self.old) n) }
        ensures uncounted { OnErr result (sink_taken self.new ≡ sink_taken self.old) }

        // The last write failed, or did not.
        ensures last_failed { OnErr result (sink_failed self.new ≡ true) }
        ensures last_succeeded { OnOk result (sink_failed self.new ≡ false) }

        // What every sink ensures.
        ensures count { IfOk result (λ n. n ≤ length bytes.now) }
        ensures moves { IfOk result (λ n. 0 < length bytes.now → 0 < n) }
        ensures taken { IfOk result (λ n. SinkTook W.contents self.old self.new (take n bytes.now)) }
        ensures broken { OnErr result (SinkBroke W.contents self.old self.new []) }
    {
        match self.inner.write(bytes) {
            Ok(count) if count > 0 || bytes.is_empty() => {
                self.failed = false;
                self.taken = self.taken.saturating_add(count as u64);
                Ok(count)
            }
            _ => {
                self.failed = true;
                self.faults = self.faults.saturating_add(1);
                Err(Failed)
            }
        }
    }
}
