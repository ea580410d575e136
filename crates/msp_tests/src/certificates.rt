// Certificates that are read and printed again, and the most lines of one.
ghost use Rattle.std.specs.Prelude.{◌≡◌, length};

use crate::texts::{is_lowest, is_text};
use msp_class::NoMemory;
use msp_file::{Filed, print_certificate, read_certificate, read_instance};
use std::alloc::Global;
use std::process::Abort;

const CUT: &[u8] = b"msp 1\nclass P|pmtn|Cmax\nmachines 2\njob a p=3\njob b p=3\njob c p=3\nend\n";

const OPEN: &[u8] = b"msp 1\nclass O||Cmax\nmachines 2\njob a\ntimes 3 5\njob b\ntimes 4 1\nend\n";

const ROUTES: &[u8] =
    b"msp 1\nclass J||Cmax\nmachines 2\njob a\nroute 1 2 2 3 1 1\njob b\nroute 2 4\nend\n";

const TREE: &[u8] =
    b"msp 1\nclass P|intree,p=1|Cmax\nmachines 2\njob a\njob b\njob c\njob d\narc a d\narc b d\narc c d\nend\n";

const ORDERED: &[u8] =
    b"msp 1\nclass P2|prec,p=1|Cmax\njob a\njob b\njob c\njob d\narc a b\narc a c\narc b d\narc c d\nend\n";

const COSTS: &[u8] =
    b"msp 1\nclass 1|pmtn,prec,r|fmax\njob a p=4 r=0\ncurve 1 0\njob b p=1 r=1\ncurve 3 0\nend\n";

const UNRELATED: &[u8] =
    b"msp 1\nclass R||sumC\nmachines 2\njob a\ntimes 1 9\njob b\ntimes 2 3\njob c\ntimes 3 5\nend\n";

/// Instances and certificate texts for them: one of each kind, an empty list and a job that stands twice, and numbers at the limits.
const PRINTED: &[(&[u8], &[u8])] = &[
    (
        CUT,
        b"certificate\nbound 9/2\nkind group\njob a\njob b\njob c\nend\n",
    ),
    (
        OPEN,
        b"certificate\nbound 7\nkind machine\nmachine 1\nend\n",
    ),
    (ROUTES, b"certificate\nbound 6\nkind line\njob a\nend\n"),
    (
        TREE,
        b"certificate\nbound 3\nkind levels\ntail 1\nlevel a 1\nlevel b 1\nlevel c 1\nlevel d 0\nend\n",
    ),
    (
        ORDERED,
        b"certificate\nbound 3\nkind segments\nsegment\njob a\nsegment\njob b\njob c\nsegment\njob d\nend\n",
    ),
    (
        COSTS,
        b"certificate\nbound 6\nkind block\nhead a 0\nhead b 1\njob b\nend\n",
    ),
    (
        UNRELATED,
        b"certificate\nbound 8\nkind prices\nrow a 2\nrow b 3\nrow c 4\ncolumn 1 1 -1\nend\n",
    ),
    (
        ORDERED,
        b"certificate\nbound -3\nkind segments\nsegment\nsegment\njob a\njob a\nend\n",
    ),
    (
        UNRELATED,
        b"certificate\nbound -1000000000000000000000000/9999999999999\nkind prices\nrow a -1000000000000000\nrow b 0\nrow c 1000000000000000\ncolumn 1 1 -1000000000000000\ncolumn 1 3 -1\ncolumn 2 1 -2\nend\n",
    ),
];

/// The certificate text behind the instance, read and printed again.
fn certificate_again(alloc: Global, filed: &Filed, text: &[u8]) -> Option<Vec<u8>>
    requires { length filed.now.names ≡ length filed.now.instance.jobs }
{
    if text.len() >= 300 {
        return None;
    }
    let Filed { instance, names } = filed;
    let certificate = read_certificate(alloc, names, instance, text, 1).ok()?;
    if !is_lowest(certificate.bound) {
        return None;
    }
    print_certificate(alloc, names, instance, &certificate).ok()
}

/// The same, behind the text of the instance.
fn printed_again(alloc: Global, instance: &[u8], text: &[u8]) -> Option<Vec<u8>> {
    if instance.len() >= 300 {
        return None;
    }
    let filed = read_instance(alloc, instance).ok()?;
    certificate_again(alloc, &filed, text)
}

#[test]
fn certificates_are_printed_again(rt: HostRuntime) {
    for (instance, text) in PRINTED {
        assert!(rt; is_text(printed_again(rt.alloc(), instance, text), text));
    }
}

/// A certificate of the group of so many jobs, all the same.
fn repeated_job(alloc: Global, lines: usize) -> Result<Vec<u8>, NoMemory> {
    let mut text = Vec::new(alloc);
    text.extend_from_slice(b"certificate\nbound 1\nkind group\n")?;
    for _ in 0..lines {
        text.extend_from_slice(b"job a\n")?;
    }
    text.extend_from_slice(b"end\n")?;
    Ok(text)
}

/// Whether a certificate of so many lines is refused for this fault, or is read where there is none.
fn answers(rt: &impl Abort, alloc: Global, lines: usize, fault: &[u8]) -> bool {
    let Filed { instance, names } = read_instance(alloc, CUT).ok().expect(rt, "an instance");
    let text = repeated_job(alloc, lines).expect(rt, "memory");
    assert!(rt; text.len() < 200_000);
    match read_certificate(alloc, &names, &instance, &text, 8) {
        Ok(_) => fault.is_empty(),
        Err(why) => why.text().bytes() == fault,
    }
}

#[test]
fn lines_of_a_kind(rt: HostRuntime) {
    assert!(rt; answers(&rt, rt.alloc(), 20_000, b""));
    assert!(rt; answers(&rt, rt.alloc(), 20_001, b"line 20011: limit of lines"));
}
