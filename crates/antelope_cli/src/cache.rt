use crate::files::ImageFile;
use afl_base::{Flash, Sink, Source};
use afl_sim::{CachedFlash, FileFlash};
use program_run::carry_out;

const SECTOR: usize = 4096;

// What a flash needs to keep a whole image in memory.
#[derive(Drop)]
struct Memory {
    bytes: Vec<u8>,
    known: Vec<bool>,
}

/// The status of a run, or of a repair, on an image in a file, of which no page is read from the file twice. Where
/// memory as long as the image is not available, the run does without it, and ends with the same.
pub fn status_in_memory<R, S, K>(
    rt: &R,
    words: &[String],
    script: &mut S,
    out: &mut K,
    flash: FileFlash<ImageFile>,
) -> u8
where
    R: AllocGlobal,
    S: Source,
    K: Sink,
{
    let mut memory = memory_for(rt, flash.sectors());
    let flash = CachedFlash::new(
        flash,
        memory.bytes.as_mut_slice(),
        memory.known.as_mut_slice(),
    );
    let (status, _flash) = carry_out(words, script, out, flash);
    status
}

// Memory for this many sectors, or for none where it is wanting.
fn memory_for<R: AllocGlobal>(rt: &R, sectors: u16) -> Memory {
    let sectors = usize::from(sectors);
    match (
        vec![in rt.alloc(); 0; SECTOR * sectors],
        vec![in rt.alloc(); false; sectors],
    ) {
        (Ok(bytes), Ok(known)) => Memory { bytes, known },
        _ => Memory {
            bytes: Vec::new(rt.alloc()),
            known: Vec::new(rt.alloc()),
        },
    }
}
