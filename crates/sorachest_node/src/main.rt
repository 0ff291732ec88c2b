//! `sorachest_node`: the database of a node, on the flash that its board has.
//!
//! It is `antelope` without what a system of files needs: no lock, no image that is made, no memory for its
//! pages. The words are the same, and so are the replies and the statuses; SCRIPT and INPUT are `-`. It calls the
//! system by its names for files (`open`, `statx`, `pread`, `pwrite`, `read`, `write`), which on a board are those of a
//! driver: `port/` has one, and says what it owes.
#![tactic(auto)]

use afl_sim::{FileFlash, StdSink, StdSource};
use program_run::{Failure, carry_out, names, words};
use std::env::Env;
use std::fs::{File, Files, OpenOptions};
use std::io::{Read, Write};
use std::process::ExitCode;

fn main(rt: HostRuntime) -> ExitCode {
    ExitCode::from(match start(&rt, rt.stdin(), rt.stdout()) {
        Ok(status) => status,
        Err(failure) => failure.status(),
    })
}

// Does on the flash what the words ask for.
fn start<R, I, O>(rt: &R, stdin: I, stdout: O) -> Result<u8, Failure>
where
    R: Env + Files<File = File> + AllocGlobal,
    I: Read + Drop,
    O: Write + Drop,
{
    let words = words(rt)?;
    let words = words.as_slice();
    let Some(names) = names(words) else {
        return Ok(1);
    };
    // A board has no files to read from.
    if names.input != "-" {
        return Err(Failure::Open);
    }
    let flash = open_flash(rt, names.image)?;
    let mut source = StdSource::new(stdin);
    let mut out = StdSink::new(stdout);
    let (status, _flash) = carry_out(words, &mut source, &mut out, flash);
    Ok(status)
}

fn open_flash<R: Files<File = File>>(rt: &R, path: &str) -> Result<FileFlash<File>, Failure> {
    let Ok(file) = OpenOptions::new().read(true).write(true).open(rt, path) else {
        return Err(Failure::Open);
    };
    let Ok(known) = file.metadata() else {
        return Err(Failure::Open);
    };
    FileFlash::new(file, known.len()).ok_or(Failure::Length)
}
