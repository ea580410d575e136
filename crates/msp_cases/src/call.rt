// The call that a case makes, over devices in memory.
use crate::head::Head;
use crate::layout::{Part, text_of};
use msp_class::NoMemory;
use msp_io::{MemorySink, MemorySource};
use msp_top::run;
use std::alloc::Global;

/// How many bytes a device moves at once, and for how many the output has room, where a case does not say it.
const STEP: u32 = 10;

const ROOM: u32 = 1_048_576;
/// For how many bytes the notes have room.
const NOTES_ROOM: u32 = 1000;

/// A call: its words, its input and its devices. Calls of devices are numbered from 1, and that of the number fails.
#[derive(Drop)]
pub struct Call {
    pub words: Vec<String>,
    pub input: Vec<u8>,
    pub step: u32,
    pub room: u32,
    pub read_fails: u32,
    pub write_fails: u32,
    pub note_fails: u32,
}

/// What a call gave.
#[derive(Drop)]
pub struct Seen {
    pub status: u8,
    pub report: Vec<u8>,
    pub notes: Vec<u8>,
}

/// The words of a command line, where `''` is an empty one.
fn words_of(alloc: Global, line: &str) -> Result<Vec<String>, NoMemory> {
    let mut words = Vec::new(alloc);
    for word in line.split_whitespace() {
        let word = if word == "''" { "" } else { word };
        words.push(String::from_str(alloc, word)?)?;
    }
    Ok(words)
}

impl Call {
    /// A call of a command that reads the text.
    pub fn new(alloc: Global, command: &str, input: Vec<u8>) -> Result<Call, NoMemory> {
        let words = words_of(alloc, command)?;
        Ok(Call {
            words,
            input,
            step: STEP,
            room: ROOM,
            read_fails: 0,
            write_fails: 0,
            note_fails: 0,
        })
    }

    /// The call of which the parts of a case speak.
    pub fn of(alloc: Global, parts: &[Part<'_>]) -> Result<Call, NoMemory> {
        let mut call = Call::new(alloc, "", Vec::new(alloc))?;
        for part in parts {
            call.take(alloc, part)?;
        }
        Ok(call)
    }

    /// Takes what a part says of the call.
    fn take(&mut self, alloc: Global, part: &Part<'_>) -> Result<(), NoMemory> {
        match Head::of(part.head) {
            Head::Words(words) => self.words = words_of(alloc, words)?,
            Head::Input => self.input = text_of(alloc, part)?,
            Head::Step(step) => self.step = step,
            Head::Room(room) => self.room = room,
            Head::ReadFails(number) => self.read_fails = number,
            Head::WriteFails(number) => self.write_fails = number,
            Head::NoteFails(number) => self.note_fails = number,
            _ => {}
        }
        Ok(())
    }

    /// A sink that holds what is written.
    fn sink(&self, alloc: Global, room: u32, fails: u32) -> Result<MemorySink, NoMemory> {
        let fails = [u64::from(fails)].to_vec(alloc)?;
        MemorySink::new(alloc, room, self.step.max(1), fails).map_err(|_| NoMemory)
    }

    /// The source of the input.
    fn source(&self, alloc: Global) -> Result<MemorySource, NoMemory> {
        let input = self.input.to_vec(alloc)?;
        let fails = [u64::from(self.read_fails)].to_vec(alloc)?;
        Ok(MemorySource::new(input, self.step.max(1), fails))
    }

    /// Makes the call.
    pub fn run(&self, alloc: Global) -> Result<Seen, NoMemory> {
        let mut source = self.source(alloc)?;
        let mut report = self.sink(alloc, self.room, self.write_fails)?;
        let mut notes = self.sink(alloc, NOTES_ROOM, self.note_fails)?;
        let status = run(alloc, &self.words, &mut source, &mut report, &mut notes);
        copied(alloc, status, report.bytes(), notes.bytes())
    }
}

/// The status, with copies of the report and of the notes.
fn copied(alloc: Global, status: u8, report: &[u8], notes: &[u8]) -> Result<Seen, NoMemory> {
    let report = report.to_vec(alloc)?;
    let notes = notes.to_vec(alloc)?;
    Ok(Seen {
        status,
        report,
        notes,
    })
}
