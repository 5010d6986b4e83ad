//! `xemu run [OPTIONS] PROGRAM [WORDS]` runs a static x86-64 Linux program and ends with its status.
#![tactic(auto)]

use host_edge::{FileHost, FileSink, FileSource};
use std::alloc::Global;
use std::process::ExitCode;
use std::{env, io};
use xemu_top::emulate;

/// The status of a command line that isn't accepted: here, one with a word that isn't text.
const NO_TEXT: u8 = 64;

/// The status where memory is wanting.
const NO_MEMORY: u8 = 71;

/// The words behind the program's own name.
fn words(rt: &HostRuntime) -> io::Result<Vec<String>> {
    let mut words = Vec::new(rt.alloc());
    for word in env::args(rt)?.skip(1) {
        words.push(word)?;
    }
    Ok(words)
}

/// The status where the words can't be had.
fn status_of(error: &io::Error) -> u8 {
    match error.kind() {
        io::ErrorKind::InvalidData => NO_TEXT,
        _ => NO_MEMORY,
    }
}

fn main(rt: HostRuntime) -> ExitCode {
    let words = match words(&rt) {
        Ok(words) => words,
        Err(error) => return ExitCode::from(status_of(&error)),
    };
    let mut host = FileHost::new(rt);
    let mut input = FileSource::new(rt.stdin());
    let mut out = FileSink::new(rt.stdout());
    let mut err = FileSink::new(rt.stderr());
    let ended = emulate(
        rt.alloc(),
        &words,
        &mut host,
        &mut input,
        &mut out,
        &mut err,
    );
    ExitCode::from(ended.status)
}
