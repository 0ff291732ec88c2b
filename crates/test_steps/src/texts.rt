//! Scripts and replies, put together of pieces.

use std::alloc::{AllocError, Global};

/// A relation of a number and a text, which takes three commands.
pub const TWO: &str =
    "CREATE RELATION s;CREATE ATTRIBUTE k DOMAIN LONG IN s;CREATE ATTRIBUTE t DOMAIN STRING(3) IN s;";

/// A relation of one number, which takes two commands.
pub const ONE: &str = "CREATE RELATION n;CREATE ATTRIBUTE v DOMAIN INT IN n;";

/// A part of a text.
#[derive(Drop)]
pub enum Part {
    Once(&'static str),
    Often(&'static str, u16),
    /// Two pieces with a number between them, for each number below an end.
    Numbered(&'static str, u16, &'static str),
}

/// The text of some parts, one after the other.
pub fn joined(alloc: Global, parts: &[Part]) -> Result<Vec<u8>, AllocError> {
    let mut text = Vec::new(alloc);
    for part in parts {
        push_part(&mut text, part)?;
    }
    Ok(text)
}

fn push_part(text: &mut Vec<u8>, part: &Part) -> Result<(), AllocError> {
    match part {
        Part::Once(piece) => push_often(text, piece, 1),
        Part::Often(piece, times) => push_often(text, piece, *times),
        Part::Numbered(front, end, behind) => push_numbered(text, front, *end, behind),
    }
}

/// Puts a piece after a text this many times.
pub fn push_often(text: &mut Vec<u8>, piece: &str, times: u16) -> Result<(), AllocError> {
    for _ in 0..times {
        text.extend_from_slice(piece.as_bytes())?;
    }
    Ok(())
}

/// Puts a number after a text, in decimal.
pub fn push_number(text: &mut Vec<u8>, number: u16) -> Result<(), AllocError> {
    let mut shown = false;
    for scale in [10_000, 1_000, 100, 10, 1] {
        let digit = (number / scale % 10) as u8;
        if digit > 0 || scale == 1 {
            shown = true;
        }
        if shown {
            text.push(b'0' + digit)?;
        }
    }
    Ok(())
}

// Puts two pieces with a number between them after a text, for each number below an end.
fn push_numbered(
    text: &mut Vec<u8>,
    front: &str,
    end: u16,
    behind: &str,
) -> Result<(), AllocError> {
    for number in 0..end {
        text.extend_from_slice(front.as_bytes())?;
        push_number(text, number)?;
        text.extend_from_slice(behind.as_bytes())?;
    }
    Ok(())
}
