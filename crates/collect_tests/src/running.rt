//! Runs, collections and repairs over arrays in memory. Where there is no memory for one, it ends with a status that no run has.

use afl_base::Flash;
use afl_sim::{CutFlash, MemSink, MemSource};
use antelope_run::top;
use run_collect::collect;
use run_repair::repair;
use std::alloc::{AllocError, Global};

const SECTOR: usize = 4_096;

/// What is called.
#[derive(Clone, Copy, PartialEq, Eq)]
pub enum Calls {
    Collect,
    Repair,
    Run,
    Look,
    Dump,
}

/// What a call came to.
#[derive(Drop)]
pub struct Ended {
    pub status: u8,
    pub written: Vec<u8>,
}

impl Ended {
    /// Whether it ended with this status and wrote just this.
    pub fn is(&self, status: u8, text: &[u8]) -> bool {
        self.status == status && self.written.as_slice() == text
    }
}

fn of_zeros(alloc: Global, bytes: usize) -> Result<Vec<u8>, AllocError> {
    vec![in alloc; 0u8; bytes]
}

/// An erased image of this many sectors.
pub fn erased(alloc: Global, sectors: usize) -> Vec<u8> {
    match of_zeros(alloc, sectors.saturating_mul(SECTOR)) {
        Ok(image) => image,
        Err(_) => Vec::new(alloc),
    }
}

/// The same bytes.
pub fn copied(alloc: Global, bytes: &[u8]) -> Vec<u8> {
    match Vec::from_slice(alloc, bytes) {
        Ok(copy) => copy,
        Err(_) => Vec::new(alloc),
    }
}

fn words_of(calls: Calls) -> &'static [&'static str] {
    match calls {
        Calls::Look => &["look", "image"],
        Calls::Dump => &["dump", "image"],
        _ => &["run", "image", "script"],
    }
}

fn topped<F: Flash + Drop>(
    alloc: Global,
    calls: Calls,
    input: &[u8],
    out: &mut MemSink<'_>,
    flash: F,
) -> Result<u8, AllocError> {
    let mut words = Vec::new(alloc);
    for word in words_of(calls) {
        words.push(String::from_str(alloc, *word)?)?;
    }
    let mut source = MemSource::new(input, None);
    let (status, _) = top(words.as_slice(), &mut source, out, flash);
    Ok(status)
}

fn called<F: Flash + Drop>(
    alloc: Global,
    calls: Calls,
    input: &[u8],
    sink_fails: Option<u64>,
    mut flash: F,
) -> Result<Ended, AllocError> {
    let mut room = of_zeros(alloc, 65_536)?;
    let mut out = MemSink::new(room.as_mut_slice(), sink_fails);
    let status = match calls {
        Calls::Collect => collect(&mut out, &mut flash),
        Calls::Repair => repair(&mut out, &mut flash),
        _ => topped(alloc, calls, input, &mut out, flash)?,
    };
    Ok(Ended {
        status,
        written: Vec::from_slice(alloc, out.written())?,
    })
}

/// A call on an image whose power goes after this many writes, of the next of which `front` bytes are done.
pub fn call_cut(
    alloc: Global,
    calls: Calls,
    input: &[u8],
    image: &mut [u8],
    writes: u64,
    front: usize,
) -> Ended {
    let flash = CutFlash::new(image, writes, front);
    let ended = match flash {
        Some(flash) => called(alloc, calls, input, None, flash),
        None => Err(AllocError),
    };
    match ended {
        Ok(ended) => ended,
        Err(_) => nothing(alloc),
    }
}

// No call.
fn nothing(alloc: Global) -> Ended {
    Ended {
        status: 255,
        written: Vec::new(alloc),
    }
}

/// The same where the power does not go.
pub fn call(alloc: Global, calls: Calls, input: &[u8], image: &mut [u8]) -> Ended {
    call_cut(alloc, calls, input, image, u64::MAX, 0)
}

/// A collection whose sink fails at a call.
pub fn collect_unsaid(alloc: Global, image: &mut [u8], fails: u64) -> Ended {
    let ended = match CutFlash::new(image, u64::MAX, 0) {
        Some(flash) => called(alloc, Calls::Collect, b"", Some(fails), flash),
        None => Err(AllocError),
    };
    match ended {
        Ok(ended) => ended,
        Err(_) => nothing(alloc),
    }
}
