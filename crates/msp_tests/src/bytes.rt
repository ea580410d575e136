// Each call once where it succeeds, and one fault in mid-stream of each kind.
use msp_io::{
    MemorySink, MemorySource, Sink, Source, StdSink, StdSource, SureSink, SureSource, Taken,
    read_all, write_all,
};
use std::alloc::Global;
use std::io;
use std::io::{Read, Write};
use std::process::Abort;

const TEXT: &[u8] = b"name 1||sumC\njob 1 3\nend\n";

// A reader and a writer that always fail.
#[derive(Drop)]
struct Broken;

impl Read for Broken {
    fn read(&mut self, _: &mut [u8]) -> io::Result<usize> {
        Err(io::Error::from(io::ErrorKind::BrokenPipe))
    }
}

impl Write for Broken {
    fn write(&mut self, _: &[u8]) -> io::Result<usize> {
        Err(io::Error::from(io::ErrorKind::BrokenPipe))
    }

    fn flush(&mut self) -> io::Result<()> {
        Ok(())
    }
}

/// A source of the text that does not fail.
fn sure(rt: &impl Abort, alloc: Global) -> SureSource {
    SureSource::new(TEXT.to_vec(alloc).expect(rt, "memory"), 10)
}

/// Whether these bytes are read, and nothing more.
fn gives<S: Source>(alloc: Global, source: &mut S, limit: u32, bytes: &[u8]) -> bool {
    match read_all(alloc, source, u64::from(limit)) {
        Ok(all) => all.as_slice() == bytes,
        Err(_) => false,
    }
}

/// Why reading stops.
fn stops<S: Source>(alloc: Global, source: &mut S, limit: u32) -> Option<Taken> {
    read_all(alloc, source, u64::from(limit)).err()
}

#[test]
fn whole_reads(rt: HostRuntime) {
    let alloc = rt.alloc();
    assert!(rt; gives(alloc, &mut sure(&rt, alloc), 25, TEXT));
    assert!(rt; gives(alloc, &mut StdSource::new(TEXT), 1000, TEXT));
    assert!(rt; stops(alloc, &mut sure(&rt, alloc), 24) == Some(Taken::TooLong));
}

#[test]
fn the_second_read_fails(rt: HostRuntime) {
    let alloc = rt.alloc();
    let text = TEXT.to_vec(alloc).expect(&rt, "memory");
    let mut source = MemorySource::new(text, 10, [2].to_vec(alloc).expect(&rt, "memory"));
    assert!(rt; stops(alloc, &mut source, 1000) == Some(Taken::ReadFault));
    assert!(rt; gives(alloc, &mut source, 1000, b"mC\njob 1 3\nend\n"));
    assert!(rt; stops(alloc, &mut StdSource::new(Broken), 1000) == Some(Taken::ReadFault));
}

/// Whether the whole text is written.
fn takes<K: Sink>(sink: &mut K) -> bool {
    write_all(sink, TEXT).is_ok()
}

/// A sink of so many bytes, of which the call of the number fails.
fn sink(rt: &impl Abort, alloc: Global, room: u32, fails: u64) -> MemorySink {
    let fails = [fails].to_vec(alloc).expect(rt, "memory");
    MemorySink::new(alloc, room, 10, fails).expect(rt, "memory")
}

#[test]
fn whole_writes(rt: HostRuntime) {
    let alloc = rt.alloc();
    let mut whole = sink(&rt, alloc, 25, 0);
    assert!(rt; takes(&mut whole) && whole.bytes() == TEXT);
    assert!(rt; takes(&mut SureSink::new()));
    let mut out = Vec::new(alloc);
    assert!(rt; takes(&mut StdSink::new(&mut out)));
    assert!(rt; out.as_slice() == TEXT);
}

#[test]
fn a_write_fails(rt: HostRuntime) {
    let alloc = rt.alloc();
    let mut second = sink(&rt, alloc, 100, 2);
    assert!(rt; !takes(&mut second) && second.bytes() == b"name 1||su".as_slice());
    let mut short = sink(&rt, alloc, 12, 0);
    assert!(rt; !takes(&mut short) && short.bytes() == b"name 1||sumC".as_slice());
    let mut room = [0; 12];
    assert!(rt; !takes(&mut StdSink::new(room.as_mut_slice())));
    assert!(rt; !takes(&mut StdSink::new(Broken)));
}
