// What differs between what a case says and what its call gave.
use crate::call::{Call, Seen};
use crate::head::Head;
use crate::layout::{Part, is_text_of, parts_of, put_indented};
use msp_class::NoMemory;
use std::alloc::Global;

/// A second call, whose input is that of the first with a part of its report behind it.
struct Second {
    command: &'static str,
    /// How the part of the report begins.
    begin: &'static [u8],
    /// How the second report ends, with status 0.
    end: &'static [u8],
}

const CHECK: Second = Second {
    command: "check",
    begin: b"schedule\n",
    end: b"agree yes\nend\n",
};

const ACCEPT: Second = Second {
    command: "accept",
    begin: b"certificate\n",
    end: b"accepted yes\nend\n",
};

/// What differs in a case, as a text; nothing, if all is as it says.
pub fn differences<'a>(alloc: Global, case: &'a [&'a str]) -> Result<Vec<u8>, NoMemory> {
    let parts = parts_of(alloc, case)?;
    let call = Call::of(alloc, &parts)?;
    let seen = call.run(alloc)?;
    judge_parts(alloc, &parts, &call, &seen)
}

/// Judges each part. A report and notes of which the case does not speak are empty, but it has to say the status.
fn judge_parts(
    alloc: Global,
    parts: &[Part<'_>],
    call: &Call,
    seen: &Seen,
) -> Result<Vec<u8>, NoMemory> {
    let mut told = Vec::new(alloc);
    for part in parts {
        judge(alloc, &mut told, part, call, seen)?;
    }
    for head in ["status", "report", "notes"] {
        if !parts.iter().any(|part| part.head.starts_with(head)) {
            judge(alloc, &mut told, &Part { head, lines: &[] }, call, seen)?;
        }
    }
    Ok(told)
}

/// Tells where a part is not what was seen.
fn judge(
    alloc: Global,
    told: &mut Vec<u8>,
    part: &Part<'_>,
    call: &Call,
    seen: &Seen,
) -> Result<(), NoMemory> {
    match Head::of(part.head) {
        Head::Status(status) => judge_status(alloc, told, part, status, seen.status),
        Head::Report => judge_text(alloc, told, part, &seen.report),
        Head::Notes => judge_text(alloc, told, part, &seen.notes),
        Head::SchedulePasses => judge_second(alloc, told, part, &CHECK, call, seen),
        Head::CertificateIsAccepted => judge_second(alloc, told, part, &ACCEPT, call, seen),
        Head::Unknown => tell(told, part, b"no part of a case"),
        _ => Ok(()),
    }
}

/// Tells a status that is not the part's.
fn judge_status(
    alloc: Global,
    told: &mut Vec<u8>,
    part: &Part<'_>,
    wanted: u32,
    status: u8,
) -> Result<(), NoMemory> {
    if u32::from(status) == wanted {
        return Ok(());
    }
    tell(told, part, format!(in alloc; "status {status}")?.as_bytes())
}

/// Tells a text that is not the part's.
fn judge_text(
    alloc: Global,
    told: &mut Vec<u8>,
    part: &Part<'_>,
    text: &[u8],
) -> Result<(), NoMemory> {
    if is_text_of(alloc, part, text)? {
        return Ok(());
    }
    tell(told, part, text)
}

/// What a second call gives.
fn second_answer(
    alloc: Global,
    second: &Second,
    call: &Call,
    seen: &Seen,
) -> Result<Seen, NoMemory> {
    let mut input = call.input.to_vec(alloc)?;
    input.extend_from_slice(from(&seen.report, second.begin))?;
    Call::new(alloc, second.command, input)?.run(alloc)
}

/// Tells what a second call gave, if it did not end as it should.
fn judge_second(
    alloc: Global,
    told: &mut Vec<u8>,
    part: &Part<'_>,
    second: &Second,
    call: &Call,
    seen: &Seen,
) -> Result<(), NoMemory> {
    let answer = second_answer(alloc, second, call, seen)?;
    if answer.status == 0 && answer.report.ends_with(second.end) {
        return Ok(());
    }
    tell(told, part, &answer.report)
}

/// The text from where on it begins so.
fn from<'a>(text: &'a [u8], begin: &[u8]) -> &'a [u8] {
    for at in 0..text.len() {
        if text[at..].starts_with(begin) {
            return &text[at..];
        }
    }
    &[]
}

/// Tells a part, and what came in its place.
fn tell(told: &mut Vec<u8>, part: &Part<'_>, came: &[u8]) -> Result<(), NoMemory> {
    told.extend_from_slice(b"wanted: ")?;
    told.extend_from_slice(part.head.as_bytes())?;
    told.push(b'\n')?;
    for line in part.lines {
        told.extend_from_slice(line.as_bytes())?;
        told.push(b'\n')?;
    }
    told.extend_from_slice(b"came:\n")?;
    put_indented(told, came)
}
