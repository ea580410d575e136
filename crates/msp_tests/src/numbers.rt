// Numbers and pieces, on examples.
use msp_text::{Part, put, put_all, put_integer, put_number, read_number};

#[test]
fn puts_pieces(rt: HostRuntime) {
    let mut out = Vec::new(rt.alloc());
    assert!(rt; put(&mut out, b"cost ").is_ok() && put_integer(&mut out, -14).is_ok());
    assert!(rt; put(&mut out, b"/").is_ok() && put_number(&mut out, 30).is_ok());
    let unit = [Part::Text(b" unit "), Part::Integer(-1), Part::Number(2)];
    assert!(rt; put_all(&mut out, &unit).is_ok());
    assert!(rt; out.as_slice() == b"cost -14/30 unit -12".as_slice());
}

/// What the bytes spell: whether there is a minus, and the size.
fn spelled(bytes: &[u8]) -> Option<(bool, u128)> {
    match read_number(bytes) {
        Some(number) => Some((number.negative, number.size)),
        None => None,
    }
}

const SPELLINGS: &[(&[u8], Option<(bool, u128)>)] = &[
    (b"0", Some((false, 0))),
    (b"30", Some((false, 30))),
    (b"-7", Some((true, 7))),
    (
        b"1000000000000000000000000000000000000000",
        Some((false, u128::MAX)),
    ),
    (b"", None),
    (b"-", None),
    (b"-0", None),
    (b"+1", None),
    (b"01", None),
    (b"1x", None),
];

#[test]
fn reads_numbers(rt: HostRuntime) {
    for (bytes, number) in SPELLINGS {
        assert!(rt; spelled(bytes) == *number);
    }
}
