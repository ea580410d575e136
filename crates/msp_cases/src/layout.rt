// How a file of cases is laid out: a case begins with a line `case NAME`, a part of it with any line that is not indented, and the text of
// a part is indented by four blanks. Lines that are empty or begin with `#` say nothing.
use crate::head::number;
use msp_class::NoMemory;
use std::alloc::Global;

/// What the lines of texts are indented by.
const INDENT: &str = "    ";

/// A part of a case: the line that says what it is, and the lines of its text.
#[derive(Clone, Copy)]
pub struct Part<'a> {
    pub head: &'a str,
    pub lines: &'a [&'a str],
}

/// The lines that say something.
pub fn lines_of(alloc: Global, text: &str) -> Result<Vec<&str>, NoMemory> {
    let lines = text
        .lines()
        .filter(|line| !line.is_empty() && !line.starts_with('#'));
    Ok(lines.collect(alloc)?)
}

/// The cases, each by its lines.
pub fn cases_of<'a>(alloc: Global, lines: &'a [&'a str]) -> Result<Vec<&'a [&'a str]>, NoMemory> {
    Ok(
        lines
            .chunk_by(|_, line| !line.starts_with("case "))
            .collect(alloc)?,
    )
}

/// The parts of a case. Its first line is the first of them.
pub fn parts_of<'a>(alloc: Global, case: &'a [&'a str]) -> Result<Vec<Part<'a>>, NoMemory> {
    let mut parts = Vec::new(alloc);
    for lines in case.chunk_by(|_, line| line.starts_with(INDENT)) {
        if let Some((head, lines)) = lines.split_first() {
            parts.push(Part { head, lines })?;
        }
    }
    Ok(parts)
}

/// The text of a part.
pub fn text_of(alloc: Global, part: &Part<'_>) -> Result<Vec<u8>, NoMemory> {
    let mut text = Vec::new(alloc);
    for line in part.lines {
        put_line(&mut text, line)?;
    }
    Ok(text)
}

/// Whether a text is that of the part, in which `... N lines` stands for so many lines, and `...` for all that follows.
pub fn is_text_of(alloc: Global, part: &Part<'_>, text: &[u8]) -> Result<bool, NoMemory> {
    let mut rest = text;
    for line in part.lines {
        if line.strip_prefix(INDENT) == Some("...") {
            return Ok(true);
        }
        match behind_line(alloc, line, rest)? {
            Some(left) => rest = left,
            None => return Ok(false),
        }
    }
    Ok(rest.is_empty())
}

/// What stands in the text behind the line, or the lines that it stands for, if it begins so.
fn behind_line<'a>(
    alloc: Global,
    line: &str,
    text: &'a [u8],
) -> Result<Option<&'a [u8]>, NoMemory> {
    if let Some(count) = number(line, "    ... ", " lines") {
        return Ok(behind_lines(text, count));
    }
    let mut wanted = Vec::new(alloc);
    put_line(&mut wanted, line)?;
    Ok(text.strip_prefix(wanted.as_slice()))
}

/// What stands behind so many lines.
fn behind_lines(text: &[u8], count: u32) -> Option<&[u8]> {
    let mut rest = text;
    for _ in 0..count {
        let end = rest.iter().position(|byte| *byte == b'\n')?;
        rest = rest.get(end.saturating_add(1)..)?;
    }
    Some(rest)
}

/// Puts a line behind a text. A backslash stands before two digits to the base of 16, which are a byte, or takes away the line's end.
fn put_line(text: &mut Vec<u8>, line: &str) -> Result<(), NoMemory> {
    let mut is_ended = true;
    for (at, piece) in line
        .strip_prefix(INDENT)
        .unwrap_or(line)
        .split('\\')
        .enumerate()
    {
        if at == 0 {
            text.extend_from_slice(piece.as_bytes())?;
        } else {
            is_ended = put_escaped(text, piece)?;
        }
    }
    if is_ended {
        text.push(b'\n')?;
    }
    Ok(())
}

/// Puts what stands behind a backslash. Whether anything does.
fn put_escaped(text: &mut Vec<u8>, piece: &str) -> Result<bool, NoMemory> {
    let Some((digits, rest)) = piece.split_at_checked(2) else {
        return Ok(false);
    };
    text.push(u8::from_str_radix(digits, 16).unwrap_or(b'?'))?;
    text.extend_from_slice(rest.as_bytes())?;
    Ok(true)
}

/// Puts a text as it would stand in a file of cases, but for bytes behind backslashes.
pub fn put_indented(told: &mut Vec<u8>, text: &[u8]) -> Result<(), NoMemory> {
    for line in text.split_inclusive(|byte| *byte == b'\n') {
        told.extend_from_slice(INDENT.as_bytes())?;
        told.extend_from_slice(line)?;
        if !line.ends_with(b"\n") {
            told.extend_from_slice(b"\\\n")?;
        }
    }
    Ok(())
}
