//! Real files, by calls that answer plain values.

use crate::device_calls::{SIZE, only_byte};
use afl_base::SECTOR_SIZE;
use std::fs;
use std::fs::{File, Files, OpenOptions};

/// A new file of this many bytes, which are all zero.
pub fn zeros<R: Files<File = File>>(rt: &R, path: &str) -> Option<File> {
    let _ = fs::remove_file(rt, path);
    let file = File::create_new(rt, path).ok()?;
    file.set_len(SIZE as u64).ok()?;
    Some(file)
}

/// A file of bytes that are all 7.
pub fn sevens<R: Files<File = File>>(rt: &R, path: &str) -> Option<File> {
    fs::write(rt, path, [7u8; SIZE].as_slice()).ok()?;
    OpenOptions::new()
        .read(true)
        .write(true)
        .open(rt, path)
        .ok()
}

/// A file of these bytes, for reading alone.
pub fn read_alone<R: Files<File = File>>(rt: &R, path: &str, bytes: &[u8]) -> Option<File> {
    fs::write(rt, path, bytes).ok()?;
    File::open(rt, path).ok()
}

/// The length of a file, and the place and the value of its byte that is not zero, where there is just
/// one.
pub fn only_byte_in<R: Files<File = File> + AllocGlobal>(
    rt: &R,
    path: &str,
) -> Option<(usize, Option<(usize, u8)>)> {
    let kept = fs::read(rt, path).ok()?;
    Some((kept.len(), only_byte(kept.as_slice())))
}

/// Two bytes of a file from a place on.
pub fn two_bytes_in<R: Files<File = File> + AllocGlobal>(
    rt: &R,
    path: &str,
    at: usize,
) -> Option<[u8; 2]> {
    let kept = fs::read(rt, path).ok()?;
    if at > 16_000 {
        return None;
    }
    Some([*kept.get(at)?, *kept.get(at + 1)?])
}

/// Whether a file has just these bytes.
pub fn has_bytes<R: Files<File = File> + AllocGlobal>(rt: &R, path: &str, bytes: &[u8]) -> bool {
    match fs::read(rt, path) {
        Ok(kept) => kept.as_slice() == bytes,
        Err(_) => false,
    }
}

/// Whether a file has the bytes of four sectors, of which those of one are zero and all others 7.
pub fn is_erased_alone_in<R: Files<File = File> + AllocGlobal>(
    rt: &R,
    path: &str,
    sector: usize,
) -> Option<bool> {
    let kept = fs::read(rt, path).ok()?;
    Some(kept.len() == SIZE && is_erased_alone(kept.as_slice(), sector))
}

// Whether the bytes of one sector are zero and all others 7.
fn is_erased_alone(bytes: &[u8], sector: usize) -> bool {
    for (at, byte) in bytes.iter().enumerate() {
        let wanted = if at / SECTOR_SIZE == sector { 0 } else { 7 };
        if *byte != wanted {
            return false;
        }
    }
    true
}
