//! The program `msp`: a few lines over `msp_top`. It gathers the words of the command line, calls `run` on the standard streams, by
//! `run_on_streams`, and ends with its answer.
#![tactic(auto)]

use msp_io::{StdSink, StdSource, write_all};
use msp_top::{NO_MEMORY, USAGE, run_on_streams};
use std::env;
use std::io::{self, ErrorKind};
use std::process::ExitCode;

fn words_of(rt: &HostRuntime) -> io::Result<Vec<String>> {
    Ok(env::args(rt)?.skip(1).collect(rt.alloc())?)
}

fn main(rt: HostRuntime) -> ExitCode {
    let mut source = StdSource::new(rt.stdin());
    let mut out = StdSink::new(rt.stdout());
    let mut notes = StdSink::new(rt.stderr());
    match words_of(&rt) {
        Ok(words) => ExitCode::from(run_on_streams(
            rt.alloc(),
            &words,
            &mut source,
            &mut out,
            &mut notes,
        )),
        Err(error) if error.kind() == ErrorKind::OutOfMemory => {
            let _ = write_all(&mut notes, b"msp: out of memory\n");
            ExitCode::from(NO_MEMORY)
        }
        Err(_) => {
            let _ = write_all(&mut notes, b"msp: usage: words fit no command\n");
            ExitCode::from(USAGE)
        }
    }
}
