// What the first line of a part says.

/// What a part is.
#[derive(Clone, Copy)]
pub enum Head<'a> {
    /// `case NAME`
    Case,
    /// `$ msp WORDS`
    Words(&'a str),
    Input,
    /// `step N`: how many bytes a device moves at once.
    Step(u32),
    /// `room N`: for how many bytes the output has room.
    Room(u32),
    /// `read N fails`: the read of this number.
    ReadFails(u32),
    /// `write N fails`: the write of this number of the report.
    WriteFails(u32),
    /// `note N fails`: the write of this number of the notes.
    NoteFails(u32),
    /// `status N`
    Status(u32),
    Report,
    Notes,
    /// `schedule passes check`: that of the report, behind the input.
    SchedulePasses,
    /// `certificate is accepted`: that of the report, behind the input.
    CertificateIsAccepted,
    /// Anything else.
    Unknown,
}

impl Head<'_> {
    /// What a part is that begins with the line.
    pub fn of(line: &str) -> Head<'_> {
        if let Some(words) = line.strip_prefix("$ msp") {
            return Head::Words(words);
        }
        if let Some(head) = of_number(line) {
            return head;
        }
        of_word(line)
    }
}

/// The number between the two.
pub fn number(line: &str, before: &str, behind: &str) -> Option<u32> {
    line.strip_prefix(before)?
        .strip_suffix(behind)?
        .parse()
        .ok()
}

/// A part whose line has a number.
fn of_number(line: &str) -> Option<Head<'_>> {
    if let Some(status) = number(line, "status ", "") {
        return Some(Head::Status(status));
    }
    if let Some(step) = number(line, "step ", "") {
        return Some(Head::Step(step));
    }
    if let Some(room) = number(line, "room ", "") {
        return Some(Head::Room(room));
    }
    if let Some(call) = number(line, "read ", " fails") {
        return Some(Head::ReadFails(call));
    }
    if let Some(call) = number(line, "write ", " fails") {
        return Some(Head::WriteFails(call));
    }
    if let Some(call) = number(line, "note ", " fails") {
        return Some(Head::NoteFails(call));
    }
    None
}

/// A part whose line is always the same, but for the name of a case.
fn of_word(line: &str) -> Head<'_> {
    if line == "input" {
        Head::Input
    } else if line == "report" {
        Head::Report
    } else if line == "notes" {
        Head::Notes
    } else if line == "schedule passes check" {
        Head::SchedulePasses
    } else if line == "certificate is accepted" {
        Head::CertificateIsAccepted
    } else if line.starts_with("case ") {
        Head::Case
    } else {
        Head::Unknown
    }
}
