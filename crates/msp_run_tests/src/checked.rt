// `check` of as many pieces as there may be, and of one more.
use crate::calls::{calling, gives};
use std::alloc::Global;
use std::process::Abort;

/// One job with so many equal pieces.
fn equal_pieces(rt: &impl Abort, alloc: Global, count: u32) -> Vec<u8> {
    let head = b"msp 1\nclass 1||sumwC\njob a p=1 w=1\nend\nschedule\ncost 1\nunit 1\n";
    let mut text = head.to_vec(alloc).expect(rt, "memory");
    for _ in 0..count {
        text.extend_from_slice(b"piece a 1 1 0 1\n")
            .expect(rt, "memory");
    }
    text.extend_from_slice(b"end\n").expect(rt, "memory");
    text
}

/// Whether `check` of the text gives this status, report and notes.
fn checks(
    rt: &impl Abort,
    alloc: Global,
    text: &[u8],
    status: u8,
    out: &[u8],
    notes: &[u8],
) -> bool {
    gives(rt, alloc, &calling(&["check"], text), status, out, notes)
}

#[test]
fn many_equal_pieces(rt: HostRuntime) {
    let text = equal_pieces(&rt, rt.alloc(), 500_000);
    let report = b"class 1||sumwC\njobs 1\npieces 500000\nfeasible no\nbreak machine 1 2\nend\n";
    assert!(rt; checks(&rt, rt.alloc(), &text, 1, report, b""));
}

#[test]
fn one_piece_too_many(rt: HostRuntime) {
    let text = equal_pieces(&rt, rt.alloc(), 500_001);
    let fault = b"msp: line 500008: limit of pieces\n";
    assert!(rt; checks(&rt, rt.alloc(), &text, 4, b"", fault));
}

/// One job that is cut into so many pieces, one after another.
fn pieces_back_to_back(rt: &impl Abort, alloc: Global, count: u32) -> String {
    let mut text = format!(in alloc;
        "msp 1\nclass 1|pmtn|Cmax\njob a p={count}\nend\nschedule\ncost {count}\nunit 1\n"
    ).expect(rt, "memory");
    for k in 0..count {
        let line = format!(in alloc; "piece a 1 1 {k} {}\n", u64::from(k) + 1).expect(rt, "memory");
        text.push_str(&line).expect(rt, "memory");
    }
    text.push_str("end\n").expect(rt, "memory");
    text
}

#[test]
fn many_pieces_back_to_back(rt: HostRuntime) {
    let text = pieces_back_to_back(&rt, rt.alloc(), 500_000);
    let report =
        b"class 1|pmtn|Cmax\njobs 1\npieces 500000\nfeasible yes\ncost 500000\nstated 500000\nagree yes\nend\n";
    assert!(rt; checks(&rt, rt.alloc(), text.as_bytes(), 0, report, b""));
}
