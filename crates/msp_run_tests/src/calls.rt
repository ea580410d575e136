// How a call is made over devices in memory; the six easy classes among all; and the greatest instance, and inputs that are too long by one.
use msp_io::{MemorySink, MemorySource};
use msp_top::run;
use std::alloc::Global;
use std::process::Abort;

/// What a call is run on: the words, the input, how many bytes a device takes or gives at once, and the calls of the source and of the
/// sinks that fail.
#[derive(Clone, Copy)]
pub struct Call<'a> {
    pub words: &'a [&'a str],
    pub text: &'a [u8],
    pub step: u32,
    pub read_fails: u64,
    pub write_fails: u64,
    pub note_fails: u64,
    pub room: u32,
}

/// What a call gave.
#[derive(Drop)]
pub struct Seen {
    pub status: u8,
    pub out: Vec<u8>,
    pub notes: Vec<u8>,
}

fn solving(text: &[u8]) -> Call<'_> {
    Call {
        words: &["solve"],
        text,
        step: 10,
        read_fails: 0,
        write_fails: 0,
        note_fails: 0,
        room: 1_048_576,
    }
}

pub fn calling<'a>(words: &'a [&'a str], text: &'a [u8]) -> Call<'a> {
    Call {
        words,
        ..solving(text)
    }
}

/// The words of a command line.
pub fn spelled(rt: &impl Abort, alloc: Global, words: &[&str]) -> Vec<String> {
    let mut spelled = Vec::new(alloc);
    for word in words {
        let word = String::from_str(alloc, word).expect(rt, "memory");
        spelled.push(word).expect(rt, "memory");
    }
    spelled
}

/// A source of the text, of which the call of the number fails.
fn source(rt: &impl Abort, alloc: Global, text: &[u8], step: u32, fails: u64) -> MemorySource {
    let text = text.to_vec(alloc).expect(rt, "memory");
    MemorySource::new(
        text,
        step.max(1),
        [fails].to_vec(alloc).expect(rt, "memory"),
    )
}

/// A sink of so many bytes, of which the call of the number fails.
fn sink(rt: &impl Abort, alloc: Global, room: u32, step: u32, fails: u64) -> MemorySink {
    let fails = [fails].to_vec(alloc).expect(rt, "memory");
    MemorySink::new(alloc, room, step.max(1), fails).expect(rt, "memory")
}

/// Runs a call. A number of 0 is the number of no call.
pub fn outcome(rt: &impl Abort, alloc: Global, call: &Call<'_>) -> Seen {
    let words = spelled(rt, alloc, call.words);
    let mut source = source(rt, alloc, call.text, call.step, call.read_fails);
    let mut out = sink(rt, alloc, call.room, call.step, call.write_fails);
    let mut notes = sink(rt, alloc, 1000, call.step, call.note_fails);
    let status = run(alloc, &words, &mut source, &mut out, &mut notes);
    Seen {
        status,
        out: out.bytes().to_vec(alloc).expect(rt, "memory"),
        notes: notes.bytes().to_vec(alloc).expect(rt, "memory"),
    }
}

/// Whether a call gives this status, report and notes.
pub fn gives(
    rt: &impl Abort,
    alloc: Global,
    call: &Call<'_>,
    status: u8,
    out: &[u8],
    notes: &[u8],
) -> bool {
    let seen = outcome(rt, alloc, call);
    seen.status == status && seen.out.as_slice() == out && seen.notes.as_slice() == notes
}

/// The lines of the text that end so.
fn lines_with_end(rt: &impl Abort, alloc: Global, text: &[u8], end: &[u8]) -> Vec<u8> {
    let mut found = Vec::new(alloc);
    for line in text.split(|b| *b == b'\n') {
        if line.ends_with(end) {
            found.extend_from_slice(line).expect(rt, "memory");
            found.push(b'\n').expect(rt, "memory");
        }
    }
    found
}

#[test]
fn lists_the_easy_classes(rt: HostRuntime) {
    let results = b"class,verdict,source\n1||Cmax,easy,\n";
    let seen = outcome(&rt, rt.alloc(), &calling(&["label"], results));
    let easy = lines_with_end(&rt, rt.alloc(), &seen.out, b" easy");
    assert!(rt; seen.status == 0);
    assert!(rt;
        easy.as_slice()
            == b"1||Cmax easy\n1|p=1|Cmax easy\n1|p=p|Cmax easy\n1|pmtn|Cmax easy\n1|pmtn,p=1|Cmax easy\n1|pmtn,p=p|Cmax easy\n".as_slice()
    );
}

/// The text of so many jobs with the greatest numbers.
fn greatest(rt: &impl Abort, alloc: Global, count: u32) -> Vec<u8> {
    let mut text = b"msp 1\nclass 1||sumwC\n"
        .to_vec(alloc)
        .expect(rt, "memory");
    for k in 0..count {
        let line = format!(in alloc; "job j{k} p=1000000000 w=1000000000\n").expect(rt, "memory");
        text.extend_from_slice(line.as_bytes()).expect(rt, "memory");
    }
    text.extend_from_slice(b"end\n").expect(rt, "memory");
    text
}

#[test]
fn the_greatest_numbers_fit(rt: HostRuntime) {
    let text = greatest(&rt, rt.alloc(), 400);
    let seen = outcome(&rt, rt.alloc(), &solving(&text));
    assert!(rt; seen.status == 0);
    assert!(rt;
        seen.out.starts_with(
            b"start 1||sumwC\nsolver smith\nschedule\ncost 80200000000000000000000\nunit 1\npiece j0 1 1 0 1000000000\n"
        )
    );
}

#[test]
fn one_job_too_many(rt: HostRuntime) {
    let text = greatest(&rt, rt.alloc(), 401);
    let fault = b"msp: line 403: limit of jobs\n";
    assert!(rt; gives(&rt, rt.alloc(), &solving(&text), 4, b"", fault));
}

#[test]
fn one_byte_too_many(rt: HostRuntime) {
    let mut text = Vec::new(rt.alloc());
    text.resize(4_194_305, b'x').expect(&rt, "memory");
    let call = Call {
        step: 1 << 20,
        ..solving(&text)
    };
    let fault = b"msp: more than 4194304 bytes\n";
    assert!(rt; gives(&rt, rt.alloc(), &call, 4, b"", fault));
}
