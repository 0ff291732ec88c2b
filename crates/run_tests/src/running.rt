//! Runs of the program over arrays in memory. Where there is no memory for one, it ends with a status that
//! no run has.

use afl_base::{Flash, Sink, Source};
use afl_sim::{MemFlash, MemSink, MemSource};
use antelope_run::top;
use std::alloc::{AllocError, Global};
use std::test::Fail;
use test_steps::{Part, joined};

/// The bytes of a sector.
pub const SECTOR: usize = 4_096;

/// The sectors of most images.
pub const MANY: usize = 256;

/// The sectors of a small one.
pub const FEW: usize = 24;

/// The words that carry out a script.
pub const RUN: &[&str] = &["run", "image", "script"];

/// What a run came to, and how often it read its flash.
#[derive(Drop)]
pub struct Ended {
    pub status: u8,
    pub written: Vec<u8>,
    pub reads: u64,
}

impl Ended {
    /// Whether it ended with this status and wrote just this.
    pub fn is(&self, status: u8, text: &[u8]) -> bool {
        self.status == status && self.written.as_slice() == text
    }

    /// Whether it ended with this status and wrote this text, or a part of it from its first byte on.
    pub fn is_front(&self, status: u8, text: &[u8]) -> bool {
        self.status == status && text.starts_with(self.written.as_slice())
    }

    /// Whether it ended with this status and wrote less than this text.
    pub fn is_cut_off(&self, status: u8, text: &[u8]) -> bool {
        self.written.len() < text.len() && self.is_front(status, text)
    }

    /// Whether it ended with the line of a broken rule.
    pub fn is_refused(&self) -> bool {
        self.status == 6 && self.written.as_slice().starts_with(b"no image ")
    }
}

/// A case of a test is wrong, or none is.
pub fn none_is_wrong(wrong: Option<u64>) -> Result<(), Fail> {
    match wrong {
        None => Ok(()),
        Some(case) => Err(Fail::new(case)),
    }
}

/// This many zeros.
pub fn of_zeros(alloc: Global, bytes: usize) -> Result<Vec<u8>, AllocError> {
    vec![in alloc; 0u8; bytes]
}

/// An erased image of this many sectors.
pub fn erased(alloc: Global, sectors: usize) -> Vec<u8> {
    match of_zeros(alloc, sectors.saturating_mul(SECTOR)) {
        Ok(image) => image,
        Err(_) => Vec::new(alloc),
    }
}

/// The same bytes.
pub fn copied(alloc: Global, bytes: &[u8]) -> Vec<u8> {
    match Vec::from_slice(alloc, bytes) {
        Ok(copy) => copy,
        Err(_) => Vec::new(alloc),
    }
}

/// Whether all bytes of an image are 0.
pub fn is_erased(alloc: Global, image: &[u8]) -> bool {
    image == erased(alloc, image.len() / SECTOR).as_slice()
}

/// The text of some parts.
pub fn text(alloc: Global, parts: &[Part]) -> Vec<u8> {
    match joined(alloc, parts) {
        Ok(text) => text,
        Err(_) => Vec::new(alloc),
    }
}

/// Calls the program with some words, and answers its status and the flash.
pub fn finish<F: Flash + Drop, S: Source, K: Sink>(
    alloc: Global,
    words: &[&str],
    input: &mut S,
    out: &mut K,
    flash: F,
) -> Result<(u8, F), AllocError> {
    let mut all = Vec::new(alloc);
    for word in words {
        all.push(String::from_str(alloc, *word)?)?;
    }
    Ok(top(all.as_slice(), input, out, flash))
}

// Calls the program with some words on a flash in memory, where there is memory for it.
fn called<S: Source>(
    alloc: Global,
    words: &[&str],
    input: &mut S,
    flash: MemFlash<'_>,
) -> Result<Ended, AllocError> {
    let mut room = of_zeros(alloc, 131_072)?;
    let mut out = MemSink::new(room.as_mut_slice(), None);
    let (status, flash) = finish(alloc, words, input, &mut out, flash)?;
    let written = Vec::from_slice(alloc, out.written())?;
    let reads = flash.reads();
    Ok(Ended {
        status,
        written,
        reads,
    })
}

/// No run.
pub fn nothing(alloc: Global) -> Ended {
    Ended {
        status: 255,
        written: Vec::new(alloc),
        reads: 0,
    }
}

/// Calls the program with some words on an image.
pub fn call<S: Source>(alloc: Global, words: &[&str], input: &mut S, image: &mut [u8]) -> Ended {
    let Some(flash) = MemFlash::new(image) else {
        return nothing(alloc);
    };
    match called(alloc, words, input, flash) {
        Ok(ended) => ended,
        Err(_) => nothing(alloc),
    }
}

/// Calls the program with some words and an input on an image.
pub fn call_with(alloc: Global, words: &[&str], input: &[u8], image: &mut [u8]) -> Ended {
    call(alloc, words, &mut MemSource::new(input, None), image)
}

/// Calls the program with words that read no input.
pub fn ask(alloc: Global, words: &[&str], image: &mut [u8]) -> Ended {
    call_with(alloc, words, b"", image)
}

/// Carries out a script on an image.
pub fn run(alloc: Global, script: &[u8], image: &mut [u8]) -> Ended {
    call_with(alloc, RUN, script, image)
}

/// Whether a script over an image is carried out with just these replies.
pub fn runs(alloc: Global, script: &[u8], image: &mut [u8], replies: &[u8]) -> bool {
    run(alloc, script, image).is(0, replies)
}

/// Whether a run on an image finds that it is sound, or says which rule it breaks.
pub fn is_judged(alloc: Global, image: &mut [u8]) -> bool {
    let ended = run(alloc, b"", image);
    ended.is(0, b"") || ended.is_refused()
}
