//! Runs and repairs over arrays in memory, whose power goes or does not. Where there is no memory for one, it ends with a status
//! that no run has.

use afl_base::Flash;
use afl_sim::{CutFlash, MemSink, MemSource};
use antelope_run::top;
use run_repair::{check, repair};
use std::alloc::{AllocError, Global};

const SECTOR: usize = 4_096;

/// After how many writes the power goes, and how many bytes of the next one are done.
#[derive(Clone, Copy, Debug, PartialEq, Eq)]
pub struct Cut {
    pub writes: u64,
    pub front: usize,
}

/// The power does not go.
pub const NO_CUT: Cut = Cut {
    writes: u64::MAX,
    front: 0,
};

/// What a run came to.
#[derive(Drop)]
pub struct Ended {
    pub status: u8,
    pub written: Vec<u8>,
}

/// No run.
pub fn nothing(alloc: Global) -> Ended {
    Ended {
        status: 255,
        written: Vec::new(alloc),
    }
}

fn of_zeros(alloc: Global, bytes: usize) -> Result<Vec<u8>, AllocError> {
    vec![in alloc; 0u8; bytes]
}

/// An erased image of this many sectors.
pub fn erased(alloc: Global, sectors: usize) -> Vec<u8> {
    match of_zeros(alloc, sectors.saturating_mul(SECTOR)) {
        Ok(image) => image,
        Err(_) => Vec::new(alloc),
    }
}

/// The same bytes.
pub fn copied(alloc: Global, bytes: &[u8]) -> Vec<u8> {
    match Vec::from_slice(alloc, bytes) {
        Ok(copy) => copy,
        Err(_) => Vec::new(alloc),
    }
}

/// The same bytes, and this many erased sectors after them.
pub fn enlarged(alloc: Global, bytes: &[u8], sectors: usize) -> Vec<u8> {
    let mut image = copied(alloc, bytes);
    match image.extend_from_slice(erased(alloc, sectors).as_slice()) {
        Ok(()) => image,
        Err(_) => Vec::new(alloc),
    }
}

fn all_of(alloc: Global, words: &[&str]) -> Result<Vec<String>, AllocError> {
    let mut all = Vec::new(alloc);
    for word in words {
        all.push(String::from_str(alloc, *word)?)?;
    }
    Ok(all)
}

fn called<F: Flash + Drop>(
    alloc: Global,
    words: &[&str],
    input: &[u8],
    flash: F,
) -> Result<Ended, AllocError> {
    let mut room = of_zeros(alloc, 65_536)?;
    let mut out = MemSink::new(room.as_mut_slice(), None);
    let words = all_of(alloc, words)?;
    let mut source = MemSource::new(input, None);
    let (status, _) = top(words.as_slice(), &mut source, &mut out, flash);
    Ok(Ended {
        status,
        written: Vec::from_slice(alloc, out.written())?,
    })
}

/// Calls the program with some words and an input on an image.
pub fn call(alloc: Global, words: &[&str], input: &[u8], image: &mut [u8], cut: Cut) -> Ended {
    let Some(flash) = CutFlash::new(image, cut.writes, cut.front) else {
        return nothing(alloc);
    };
    match called(alloc, words, input, flash) {
        Ok(ended) => ended,
        Err(_) => nothing(alloc),
    }
}

/// Carries out a script on an image.
pub fn run(alloc: Global, script: &[u8], image: &mut [u8], cut: Cut) -> Ended {
    call(alloc, &["run", "image", "script"], script, image, cut)
}

/// The script of the database that a sound image stands for, empty where it is not sound.
pub fn dumped(alloc: Global, image: &mut [u8]) -> Vec<u8> {
    let ended = call(alloc, &["dump", "image"], b"", image, NO_CUT);
    if ended.status == 0 {
        ended.written
    } else {
        Vec::new(alloc)
    }
}

fn repaired<F: Flash>(alloc: Global, flash: &mut F) -> Result<Ended, AllocError> {
    let mut room = of_zeros(alloc, 8_192)?;
    let mut out = MemSink::new(room.as_mut_slice(), None);
    let status = repair(&mut out, flash);
    Ok(Ended {
        status,
        written: Vec::from_slice(alloc, out.written())?,
    })
}

fn checked<F: Flash>(alloc: Global, flash: &mut F) -> Result<Ended, AllocError> {
    let mut room = of_zeros(alloc, 8_192)?;
    let mut out = MemSink::new(room.as_mut_slice(), None);
    let status = check(&mut out, flash);
    Ok(Ended {
        status,
        written: Vec::from_slice(alloc, out.written())?,
    })
}

/// Checks an image.
pub fn look_over(alloc: Global, image: &mut [u8]) -> Ended {
    let Some(mut flash) = CutFlash::new(image, NO_CUT.writes, NO_CUT.front) else {
        return nothing(alloc);
    };
    match checked(alloc, &mut flash) {
        Ok(ended) => ended,
        Err(_) => nothing(alloc),
    }
}

/// Repairs an image.
pub fn put_right(alloc: Global, image: &mut [u8], cut: Cut) -> Ended {
    let Some(mut flash) = CutFlash::new(image, cut.writes, cut.front) else {
        return nothing(alloc);
    };
    match repaired(alloc, &mut flash) {
        Ok(ended) => ended,
        Err(_) => nothing(alloc),
    }
}
