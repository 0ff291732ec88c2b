//! Bytes, of which there are none where there is no memory for them.

use std::alloc::{AllocError, Global};
use test_steps::{Part, joined};

fn of_zeros(alloc: Global, bytes: usize) -> Result<Vec<u8>, AllocError> {
    vec![in alloc; 0u8; bytes]
}

/// This many zeros.
pub fn zeros(alloc: Global, bytes: usize) -> Vec<u8> {
    match of_zeros(alloc, bytes) {
        Ok(bytes) => bytes,
        Err(_) => Vec::new(alloc),
    }
}

/// The same bytes.
pub fn copied(alloc: Global, bytes: &[u8]) -> Vec<u8> {
    match Vec::from_slice(alloc, bytes) {
        Ok(copy) => copy,
        Err(_) => Vec::new(alloc),
    }
}

/// The text of some parts.
pub fn text(alloc: Global, parts: &[Part]) -> Vec<u8> {
    match joined(alloc, parts) {
        Ok(text) => text,
        Err(_) => Vec::new(alloc),
    }
}
