// Devices that fail at one of their calls, texts that are cut at each byte, and an entry too many.
ghost use Rattle.std.specs.Prelude.{◌≢◌};

use crate::calls::{Call, Seen, calling, gives, outcome, spelled};
use msp_io::{SureSink, SureSource};
use msp_top::run;
use std::alloc::Global;
use std::process::Abort;

/// An instance that is solved.
const TEXT: &[u8] = b"msp 1\nclass 1||sumwC\njob a p=3 w=1\njob b p=1 w=2\njob c p=2 w=2\nend\n";

/// An instance of a class with certificates; the same with a schedule behind it, and with a certificate.
const CERTIFIED: &[u8] =
    b"msp 1\nclass P|pmtn|Cmax\nmachines 2\njob a p=3\njob b p=3\njob c p=3\nend\n";

const CHECKED: &[u8] =
    b"msp 1\nclass P|pmtn|Cmax\nmachines 2\njob a p=3\njob b p=3\njob c p=3\nend\nschedule\ncost 9/2\nunit 2\npiece a 1 1 0 6\npiece b 1 2 0 3\npiece c 1 2 3 9\npiece b 1 1 6 9\nend\n";

const ACCEPTED: &[u8] =
    b"msp 1\nclass P|pmtn|Cmax\nmachines 2\njob a p=3\njob b p=3\njob c p=3\nend\ncertificate\nbound 9/2\nkind group\njob a\njob b\njob c\nend\n";

/// The words of a call, its input, and whether it reads.
type Faulty = (&'static [&'static str], &'static [u8], bool);

/// A call of each command that makes and solves, checks, judges or only writes.
const CALLS: &[Faulty] = &[
    (&["solve"], TEXT, true),
    (&["certify"], CERTIFIED, true),
    (&["check"], CHECKED, true),
    (&["accept"], ACCEPTED, true),
    (&["trial", "1||sumwC", "3", "1"], b"", false),
    (&["rows"], b"", false),
];

const RESULTS: &[u8] =
    b"class,strength,source\n1||sumwU,hard,Karp 1972\n1||sumwU,pseudo,Lawler and Moore 1969\n";

/// The same for commands that read results.
const QUESTIONS: &[Faulty] = &[
    (&["label", "1||sumwU", "1||Lmax"], RESULTS, true),
    (&["why", "1||Lmax"], RESULTS, true),
];

/// The same for the command that looks at all classes.
const FRONTIER: &[Faulty] = &[(&["frontier"], RESULTS, true)];

fn is_same(seen: &Seen, whole: &Seen) -> bool {
    seen.status == whole.status
        && seen.out.as_slice() == whole.out.as_slice()
        && seen.notes.as_slice() == whole.notes.as_slice()
}

/// How many calls it takes to move so many bytes.
fn calls_for(bytes: usize, step: u32) -> u64 {
    (bytes as u64).div_ceil(u64::from(step.max(1)))
}

/// Whether the answer is right where the call of the source of this number fails. The last call finds the end of the input.
fn answers_a_read_fault(
    rt: &impl Abort,
    alloc: Global,
    call: &Call<'_>,
    reads: bool,
    whole: &Seen,
    number: u64,
) -> bool {
    let faulty = Call {
        read_fails: number,
        ..*call
    };
    let seen = outcome(rt, alloc, &faulty);
    if reads && number <= calls_for(call.text.len(), call.step).saturating_add(1) {
        seen.status == 7 && seen.out.is_empty()
    } else {
        is_same(&seen, whole)
    }
}

/// Whether it is the front of the whole that was written before the call of the number.
fn is_front(seen: &Seen, whole: &Seen, step: u32, number: u64) -> bool {
    let written = number.saturating_sub(1).wrapping_mul(u64::from(step));
    seen.out.len() as u64 == written && whole.out.as_slice().starts_with(&seen.out)
}

/// Whether the answer is right where the call of the sink of this number fails: what was written before stands there.
fn answers_a_write_fault(
    rt: &impl Abort,
    alloc: Global,
    call: &Call<'_>,
    whole: &Seen,
    number: u64,
) -> bool {
    let faulty = Call {
        write_fails: number,
        ..*call
    };
    let seen = outcome(rt, alloc, &faulty);
    if number <= calls_for(whole.out.len(), call.step) {
        seen.status == 8 && is_front(&seen, whole, call.step, number)
    } else {
        is_same(&seen, whole)
    }
}

/// Each failing call, up to the fortieth, is answered as it should be.
fn answer_each_fault(rt: &impl Abort, alloc: Global, call: &Call<'_>, reads: bool) {
    let whole = outcome(rt, alloc, call);
    for number in 1..=40 {
        assert!(rt; answers_a_read_fault(rt, alloc, call, reads, &whole, number));
        assert!(rt; answers_a_write_fault(rt, alloc, call, &whole, number));
    }
}

/// Each call answers each fault as it should, with steps of one byte and of seven.
fn answer_faults(rt: &impl Abort, alloc: Global, calls: &[Faulty]) {
    for (words, text, reads) in calls {
        let call = calling(words, text);
        answer_each_fault(rt, alloc, &Call { step: 1, ..call }, *reads);
        answer_each_fault(rt, alloc, &Call { step: 7, ..call }, *reads);
    }
}

#[test]
fn failing_devices(rt: HostRuntime) {
    answer_faults(&rt, rt.alloc(), CALLS);
}

#[test]
fn failing_devices_and_results(rt: HostRuntime) {
    answer_faults(&rt, rt.alloc(), QUESTIONS);
}

#[test]
fn failing_devices_and_frontier(rt: HostRuntime) {
    answer_faults(&rt, rt.alloc(), FRONTIER);
}

/// A call over devices that do not fail.
fn surely(
    alloc: Global,
    words: &Vec<String>,
    source: &mut SureSource,
    out: &mut SureSink,
    notes: &mut SureSink,
) -> u8
    ensures read { result ≢ 7 }
    ensures written { result ≢ 8 }
{
    run(alloc, words, source, out, notes)
}

/// The status of a call over devices that do not fail.
fn sure_status(rt: &impl Abort, alloc: Global, words: &[&str], text: &[u8]) -> u8 {
    let words = spelled(rt, alloc, words);
    let mut source = SureSource::new(text.to_vec(alloc).expect(rt, "memory"), 7);
    let mut out = SureSink::new();
    let mut notes = SureSink::new();
    surely(alloc, &words, &mut source, &mut out, &mut notes)
}

/// Each call has status 0.
fn answer_surely(rt: &impl Abort, alloc: Global, calls: &[Faulty]) {
    for (words, text, _) in calls {
        assert!(rt; sure_status(rt, alloc, words, text) == 0);
    }
}

#[test]
fn sure_devices(rt: HostRuntime) {
    answer_surely(&rt, rt.alloc(), CALLS);
    answer_surely(&rt, rt.alloc(), QUESTIONS);
    answer_surely(&rt, rt.alloc(), FRONTIER);
}

/// Inputs of which no front is one.
const WHOLE: &[(&[&str], &[u8])] = &[
    (&["solve"], TEXT),
    (
        &["solve"],
        b"msp 1\nclass 1||Lmax\njob a p=2 d=4\njob b p=3 d=-2\nend\n",
    ),
    (&["solve"], CERTIFIED),
    (&["certify"], CERTIFIED),
    (&["check"], CHECKED),
    (&["accept"], ACCEPTED),
    (
        &["solve"],
        b"msp 1\nclass Q||sumC\nmachines 2\nspeeds 3 2\njob a p=5\njob b p=4\nend\n",
    ),
    (
        &["solve"],
        b"msp 1\nclass J2|n<=2|Cmax\njob a\nroute 1 2\njob b\nroute 2 3\njob c\nroute 1 2 2 2\njob d\nroute 2 1 1 4\nend\n",
    ),
    (
        &["solve"],
        b"msp 1\nclass 1|prec|fmax\njob a p=2\ncurve 1 0\njob b p=3\ncurve 0 0 5 10\njob c p=1\ncurve 2 -4\narc a b\nend\n",
    ),
];

/// Whether the text is answered with status 0.
fn is_answered(rt: &impl Abort, alloc: Global, words: &[&str], text: &[u8]) -> bool {
    outcome(rt, alloc, &calling(words, text)).status == 0
}

/// The whole text, and no front of it, is answered with status 0.
fn answer_only_whole(rt: &impl Abort, alloc: Global, words: &[&str], text: &[u8]) {
    for cut in 0..text.len() {
        assert!(rt; !is_answered(rt, alloc, words, &text[..cut]));
    }
    assert!(rt; is_answered(rt, alloc, words, text));
}

#[test]
fn cut_at_each_byte(rt: HostRuntime) {
    for (words, text) in WHOLE {
        answer_only_whole(&rt, rt.alloc(), words, text);
    }
}

/// So many entries.
fn entries(rt: &impl Abort, alloc: Global, count: u32) -> Vec<u8> {
    let mut text = b"class,verdict,source\n".to_vec(alloc).expect(rt, "memory");
    for _ in 0..count {
        text.extend_from_slice(b"1||Cmax,easy,x\n")
            .expect(rt, "memory");
    }
    text
}

#[test]
fn one_entry_too_many(rt: HostRuntime) {
    let most = entries(&rt, rt.alloc(), 20_000);
    let call = calling(&["label", "1||Cmax"], &most);
    assert!(rt; gives(&rt, rt.alloc(), &call, 0, b"1||Cmax easy\nend\n", b""));
    let text = entries(&rt, rt.alloc(), 20_001);
    let call = calling(&["label"], &text);
    assert!(rt; gives(&rt, rt.alloc(), &call, 4, b"", b"msp: limit of records\n"));
}
