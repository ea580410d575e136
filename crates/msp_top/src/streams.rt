// `run` over std's reader and writers.
ghost use Rattle.msp_io.specs.StdAdapters.{source_given, source_view, sink_taken, sink_view};
ghost use Rattle.msp_top.specs.Run.{spelled, Leaves};
ghost use Rattle.msp_top.specs.Streams.{passed, told, IsCounted};

use crate::serve::run;
use msp_io::{StdSink, StdSource};
use std::alloc::Global;
use std::io::{Read, Write};

/// `run` over a reader and writers of std, as the program calls it on the standard streams. It leaves what `run` leaves. Where they tell
/// their bytes, as those of std over memory do, what passed are these bytes. Standard streams tell none, and the adapters count them: a
/// right report has as many bytes as `out` took, a note as many as `notes` took, and no more is read than an input may have, or one byte
/// more at status 4.
pub fn run_on_streams<R: Read, W: Write, E: Write>(
    alloc: Global,
    words: &Vec<String>,
    source: &mut StdSource<R>,
    out: &mut StdSink<W>,
    notes: &mut StdSink<E>,
) -> u8
    // What `run` promises, clause for clause.
    ensures as_run { Leaves (spelled words.now) (passed R.remaining W.contents source.old source.new out.old out.new) (told E.contents notes.old notes.new)
        (source_view R.remaining) source.old source.new (sink_view W.contents) out.old out.new notes.old notes.new result }

    // What the counts say.
    ensures counted { IsCounted (spelled words.now) (passed R.remaining W.contents source.old source.new out.old out.new)
        (source_given source.old) (source_given source.new) (sink_taken out.old) (sink_taken out.new) result }
{
    run(alloc, words, source, out, notes)
}
