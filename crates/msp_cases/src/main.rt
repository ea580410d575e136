//! The cases in `data/*.cases`, each tried by a call of `run` of `msp_top` over devices in memory.
//!
//! It prints what differs, and of each file how many cases differ. The exit status is 0 where none does, 1 where one does, and 2 where a
//! file cannot be read or there is no memory.
#![tactic(auto)]

mod call;
mod head;
mod judge;
mod layout;

use judge::differences;
use layout::{cases_of, lines_of};
use msp_class::NoMemory;
use msp_io::{StdSink, write_all};
use std::alloc::Global;
use std::fs;
use std::process::ExitCode;

/// The files of cases, in the folder in which the program runs.
const FILES: [&str; 11] = [
    "calls",
    "names",
    "instances",
    "solvers",
    "checked",
    "trials",
    "certified",
    "accepted",
    "certificates",
    "results",
    "damaged",
];

/// What is said of a file, and how many of its cases differ.
#[derive(Drop)]
struct Told {
    text: Vec<u8>,
    differ: usize,
}

impl Told {
    /// Adds what differs in a case.
    fn add(&mut self, case: &[&str], differences: &[u8]) -> Result<(), NoMemory> {
        if differences.is_empty() {
            return Ok(());
        }
        self.differ = self.differ.saturating_add(1);
        self.text
            .extend_from_slice(case.first().unwrap_or(&"").as_bytes())?;
        self.text.push(b'\n')?;
        self.text.extend_from_slice(differences)?;
        Ok(())
    }

    /// Adds the line that counts the cases.
    fn end(&mut self, alloc: Global, file: &str, cases: usize) -> Result<(), NoMemory> {
        let line = match self.differ {
            0 => format!(in alloc; "{file}: {cases} cases, none differs\n")?,
            differ => format!(in alloc; "{file}: {cases} cases, {differ} of them differ\n")?,
        };
        self.text.extend_from_slice(line.as_bytes())?;
        Ok(())
    }
}

/// Tries each case.
fn try_each(alloc: Global, told: &mut Told, cases: &[&[&str]]) -> Result<(), NoMemory> {
    for case in cases {
        told.add(case, &differences(alloc, case)?)?;
    }
    Ok(())
}

/// Tries the cases of the lines of a file.
fn try_lines(alloc: Global, told: &mut Told, file: &str, lines: &[&str]) -> Result<(), NoMemory> {
    let cases = cases_of(alloc, lines)?;
    try_each(alloc, told, &cases)?;
    told.end(alloc, file, cases.len())
}

/// Tries the cases of a file.
fn try_cases(alloc: Global, told: &mut Told, file: &str, text: &str) -> Result<(), NoMemory> {
    let lines = lines_of(alloc, text)?;
    try_lines(alloc, told, file, &lines)
}

/// The text of a file of cases.
fn text_of_file(rt: &HostRuntime, file: &str) -> Option<String> {
    let name = format!(in rt.alloc(); "{file}.cases").ok()?;
    fs::read_to_string(rt, name).ok()
}

/// Prints what is said of a file. Whether no case differs.
fn print(rt: &HostRuntime, told: &Told) -> Option<bool> {
    write_all(&mut StdSink::new(rt.stdout()), &told.text).ok()?;
    Some(told.differ == 0)
}

/// Tries a file, and prints what is said of it. Whether no case differs.
fn try_file(rt: &HostRuntime, file: &str) -> Option<bool> {
    let text = text_of_file(rt, file)?;
    let mut told = Told {
        text: Vec::new(rt.alloc()),
        differ: 0,
    };
    try_cases(rt.alloc(), &mut told, file, text.as_str()).ok()?;
    print(rt, &told)
}

fn main(rt: HostRuntime) -> ExitCode {
    let mut status = 0;
    for file in FILES {
        match try_file(&rt, file) {
            Some(true) => {}
            Some(false) => status = 1,
            None => return ExitCode::from(2),
        }
    }
    ExitCode::from(status)
}
