//! `antelope`: a relational database on an image of a flash.
//!
//! The program writes nothing but what `antelope_run::top` and `run_repair::repair` write, and nothing on standard error;
//! README.md lists the statuses that it ends with. What is on the disk then:
//!
//! - 0, 3: the image as the run left it.
//! - 2, 5, 8: the image after the commands that were carried out. At 5 that is also the one whose
//!   reply could not be written whole.
//! - 4: an image of which nothing is known.
//! - 6, 10: the image as it was found.
//! - 7: the image as it was found; where there was none, there is none.
//! - 1, 9: what was there; no file was opened.
//!
//! At 0, 2 to 5 and 8 an image that was not there was made.
//!
//! A page of the image that was read once is not read from the file again: the run keeps it in memory,
//! as much as the image is long. What it changes goes into the file at once. Where that memory is not
//! available, the run reads from the file each time, and ends with no other status.
//!
//! Where `ANTELOPE_SYNC` is set in the environment and not empty, each write into the image is on the disk before the
//! next, and before the reply to its command.
#![tactic(auto)]

mod cache;
mod files;
mod image;

use crate::cache::status_in_memory;
use crate::files::open_script;
use crate::image::{open_image, remove_new};
use afl_base::Sink;
use afl_sim::{StdSink, StdSource};
use program_run::{Failure, names, words};
use std::env::Env;
use std::fs::{File, Files};
use std::io::{Read, Write};
use std::process::ExitCode;

fn main(rt: HostRuntime) -> ExitCode {
    ExitCode::from(match start(&rt, rt.stdin(), rt.stdout()) {
        Ok(status) => status,
        Err(failure) => failure.status(),
    })
}

// Opens what the words name, and does what they ask for.
fn start<R, I, O>(rt: &R, stdin: I, stdout: O) -> Result<u8, Failure>
where
    R: Env + Files<File = File> + AllocGlobal,
    I: Read + Drop,
    O: Write + Drop,
{
    let words = words(rt)?;
    let words = words.as_slice();
    let mut out = StdSink::new(stdout);
    match names(words) {
        Some(names) if names.input == "-" => {
            let image = open_image(rt, names.image)?;
            let mut source = StdSource::new(stdin);
            Ok(status_in_memory(rt, words, &mut source, &mut out, image.flash))
        }
        Some(names) => with_script(rt, words, names.image, names.input, &mut out),
        // Wrong arguments name no image: `top` answers 1 for them, whatever the flash.
        None => Ok(1),
    }
}

// The status of words that name a file as their input.
fn with_script<R, K>(
    rt: &R,
    words: &[String],
    path: &str,
    input: &str,
    out: &mut K,
) -> Result<u8, Failure>
where
    R: Env + Files<File = File> + AllocGlobal,
    K: Sink,
{
    let image = open_image(rt, path)?;
    match open_script(rt, input) {
        Ok(script) => {
            let mut source = StdSource::new(script);
            Ok(status_in_memory(rt, words, &mut source, out, image.flash))
        }
        Err(failure) => {
            remove_new(rt, path, image);
            Err(failure)
        }
    }
}
