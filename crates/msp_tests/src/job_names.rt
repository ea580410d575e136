// Names, and lists of them.
use msp_class::List;
use msp_text::{JobName, Names};
use std::alloc::Global;
use std::process::Abort;

fn names_of(rt: &impl Abort, alloc: Global, words: &[&[u8]]) -> Option<Names> {
    let mut list = List::new(alloc);
    for word in words {
        let name = JobName::new(word).expect(rt, "a name");
        list.put(name).expect(rt, "memory");
    }
    Names::gather(alloc, &list).expect(rt, "memory")
}

/// Byte strings, and whether they are names.
const WORDS: &[(&[u8], bool)] = &[
    (b"", false),
    (b"Az_0-9.", true),
    (b"a b", false),
    (b"a/b", false),
    (b"12345678901234567890123456789012", true),
    (b"123456789012345678901234567890123", false),
];

fn try_words(rt: &impl Abort) {
    for (bytes, is_name) in WORDS {
        assert!(rt; JobName::new(bytes).is_some() == *is_name, "{bytes:?}");
    }
}

/// Whether the name stands at the place, and nowhere else.
fn stands_at(names: &Names, at: usize, bytes: &[u8]) -> bool {
    match names.get(at) {
        Some(name) => name.bytes() == bytes && names.place(&name) == Some(at),
        None => false,
    }
}

/// Whether they are the names a, b and c.
fn are_a_b_c(names: &Names) -> bool {
    names.len() == 3
        && names.get(3).is_none()
        && stands_at(names, 0, b"a")
        && stands_at(names, 1, b"b")
        && stands_at(names, 2, b"c")
}

#[test]
fn names_of_jobs(rt: HostRuntime) {
    let alloc = rt.alloc();
    try_words(&rt);
    let three = names_of(&rt, alloc, &[b"a", b"b", b"c"]).expect(&rt, "three names");
    assert!(rt; are_a_b_c(&three));
    assert!(rt; names_of(&rt, alloc, &[b"a", b"b", b"a"]).is_none());
    assert!(rt; names_of(&rt, alloc, &[b"a", b"a"]).is_none());
}
