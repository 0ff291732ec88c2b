//! What stands on an image.

use afl_base::{Files, Flash, Name};
use afl_sim::MemFlash;
use coffee_volume::{MountError, Volume};
use std::alloc::{AllocError, Global};

fn read_file<V: Files>(alloc: Global, files: &mut V, name: Name) -> Result<Vec<u8>, AllocError> {
    let Some(id) = files.find(name) else {
        return Ok(Vec::new(alloc));
    };
    let mut bytes = vec![in alloc; 0u8; files.size(id) as usize]?;
    match files.read(id, 0, bytes.as_mut_slice()) {
        Ok(()) => Ok(bytes),
        Err(_) => Ok(Vec::new(alloc)),
    }
}

// The bytes of the file of a name on a flash.
fn contents_on<F: Flash + Drop>(
    alloc: Global,
    flash: F,
    name: Name,
) -> Result<Vec<u8>, AllocError> {
    match Volume::mount(flash) {
        Ok(mut volume) => read_file(alloc, &mut volume, name),
        Err(MountError::Bad { bad: _, flash: _ }) => Ok(Vec::new(alloc)),
        Err(MountError::Failed { flash: _ }) => Ok(Vec::new(alloc)),
    }
}

/// The bytes of the file of a name on an image, or none where there is no such file.
pub fn contents(alloc: Global, image: &mut [u8], name: &str) -> Vec<u8> {
    let Some(name) = Name::new(name.as_bytes()) else {
        return Vec::new(alloc);
    };
    let Some(flash) = MemFlash::new(image) else {
        return Vec::new(alloc);
    };
    match contents_on(alloc, flash, name) {
        Ok(bytes) => bytes,
        Err(_) => Vec::new(alloc),
    }
}

/// Whether the file of a name has just these bytes on an image.
pub fn has_contents(alloc: Global, image: &mut [u8], name: &str, bytes: &[u8]) -> bool {
    contents(alloc, image, name).as_slice() == bytes
}

/// Whether the file of a name has this many bytes on an image.
pub fn has_size(alloc: Global, image: &mut [u8], name: &str, size: usize) -> bool {
    contents(alloc, image, name).len() == size
}

/// The number of two bytes at a place, 0 after the end.
pub fn number_at(bytes: &[u8], at: usize) -> u16 {
    let Some(low) = bytes.get(at) else {
        return 0;
    };
    let Some(high) = bytes.get(at.saturating_add(1)) else {
        return 0;
    };
    u16::from(*low) + 256 * u16::from(*high)
}

/// Whether a page begins an active extent with these flags, of this name.
pub fn begins(page: &[u8], flags: u8, name: &str) -> bool {
    let Some(named) = page.get(10..26) else {
        return false;
    };
    let behind = named.get(name.as_bytes().len()).copied();
    page.get(9).copied() == Some(flags) && named.starts_with(name.as_bytes()) && behind == Some(0)
}

/// The page of the active file of a name, where it has a log of which this many records are in use.
pub fn page_with_log(image: &[u8], name: &str, used: usize) -> Option<usize> {
    let mut at = 0usize;
    for page in image.chunks(256) {
        if begins(page, 11, name) {
            let log = usize::from(number_at(page, 0).saturating_sub(1));
            if records(image, log) == used {
                return Some(at);
            }
            return None;
        }
        at = at.saturating_add(1);
    }
    None
}

/// Whether the active file of a name has no log.
pub fn is_unlogged(image: &[u8], name: &str) -> bool {
    for page in image.chunks(256) {
        if begins(page, 3, name) && number_at(page, 0) == 0 {
            return true;
        }
    }
    false
}

/// Whether all bytes from a place on are 0.
pub fn is_erased_from(image: &[u8], place: usize) -> bool {
    let Some(rest) = image.get(place..) else {
        return false;
    };
    for byte in rest {
        if *byte != 0 {
            return false;
        }
    }
    true
}

// How many records of the log at a page are in use.
fn records(image: &[u8], log: usize) -> usize {
    let mut used = 0usize;
    for record in 0..30usize {
        let at = log.saturating_mul(256).saturating_add(32 + 2 * record);
        if number_at(image, at) != 0 {
            used = used.saturating_add(1);
        }
    }
    used
}
