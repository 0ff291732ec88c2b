//! Runs in which a call of the input, of the flash or of the sink fails, or the sink has little room.

use crate::running::{Ended, finish, nothing, of_zeros};
use afl_base::Flash;
use afl_sim::{FaultFlash, MemFlash, MemSink, MemSource};
use arrayvec::ArrayVec;
use std::alloc::{AllocError, Global};

/// The calls of the script, of the flash and of the sink that fail, and the bytes of room that the sink
/// has.
#[derive(Clone, Copy)]
pub struct Faults {
    pub script: Option<u64>,
    pub flash: Option<u64>,
    pub sink: Option<u64>,
    pub room: usize,
}

/// No call fails, and there is room for all that is written.
pub const NO_FAULTS: Faults = Faults {
    script: None,
    flash: None,
    sink: None,
    room: 16_384,
};

/// A call of the script fails.
pub fn script_fails(at: u64) -> Faults {
    Faults {
        script: Some(at),
        ..NO_FAULTS
    }
}

/// A call of the flash fails.
pub fn flash_fails(at: u64) -> Faults {
    Faults {
        flash: Some(at),
        ..NO_FAULTS
    }
}

/// A call of the sink fails.
pub fn sink_fails(at: u64) -> Faults {
    Faults {
        sink: Some(at),
        ..NO_FAULTS
    }
}

/// The sink has room for this many bytes.
pub fn with_room(room: usize) -> Faults {
    Faults { room, ..NO_FAULTS }
}

// Calls the program with some words on a flash, where there is memory for it.
fn called<F: Flash + Drop>(
    alloc: Global,
    words: &[&str],
    script: &[u8],
    faults: Faults,
    flash: F,
) -> Result<Ended, AllocError> {
    let mut room = of_zeros(alloc, faults.room)?;
    let mut out = MemSink::new(room.as_mut_slice(), faults.sink);
    let mut source = MemSource::new(script, faults.script);
    let (status, _) = finish(alloc, words, &mut source, &mut out, flash)?;
    let written = Vec::from_slice(alloc, out.written())?;
    Ok(Ended {
        status,
        written,
        reads: 0,
    })
}

/// Calls the program with some words on a flash. Its script and its sink have these faults.
pub fn call_on<F: Flash + Drop>(
    alloc: Global,
    words: &[&str],
    script: &[u8],
    faults: Faults,
    flash: F,
) -> Ended {
    match called(alloc, words, script, faults, flash) {
        Ok(ended) => ended,
        Err(_) => nothing(alloc),
    }
}

// A flash in memory, of which a call may fail.
fn flash_over(image: &mut [u8], at: Option<u64>) -> Option<FaultFlash<MemFlash<'_>>> {
    let mut fails = ArrayVec::new();
    if let Some(at) = at {
        fails.push(at);
    }
    Some(FaultFlash::new(MemFlash::new(image)?, fails))
}

/// Calls the program with some words on an image, with some faults.
pub fn call_failing(
    alloc: Global,
    words: &[&str],
    script: &[u8],
    faults: Faults,
    image: &mut [u8],
) -> Ended {
    match flash_over(image, faults.flash) {
        Some(flash) => call_on(alloc, words, script, faults, flash),
        None => nothing(alloc),
    }
}
