//! Four clients on one line.

use crate::cases::show;
use crate::one_byte::OneByte;
use crate::running::{MANY, call, call_with, copied, erased};
use crate::samples::{TWO_ROWS, made_of};
use afl_sim::MemSource;
use std::alloc::{AllocError, Global};
use std::test::Fail;

const END: u8 = 0xC0;

// A client, and a text that it sends or is sent.
type Part = (u8, &'static str);

const SENT: &[Part] = &[
    (1, "OPEN 1 SELECT k FROM s"),
    (2, "INSERT (9, 'z') INTO s"),
    (2, "OPEN 1 SELECT k FROM s"),
    (1, "FETCH 1"),
    (2, "FETCH 1"),
    (1, "FETCH 1"),
    (1, "FETCH 1"),
    (3, "REMOVE FROM s"),
    (3, "FETCH 1"),
    (1, "FETCH 2"),
];

const REPLIES: &[Part] = &[
    (1, "ok\n"),
    (2, "ok\n"),
    (2, "ok\n"),
    (1, "5\nrows 1\n"),
    (2, "5\nrows 1\n"),
    (1, "-1\nrows 1\n"),
    (1, "rows 0\n"),
    (3, "no inuse 1\n"),
    (3, "no cursor\n"),
    (1, "no cursor\n"),
];

fn push_frames(alloc: Global, parts: &[Part]) -> Result<Vec<u8>, AllocError> {
    let mut line = Vec::new(alloc);
    for (client, text) in parts {
        line.push(*client)?;
        line.extend_from_slice(text.as_bytes())?;
        line.push(END)?;
    }
    Ok(line)
}

// A frame a part: the client, the text, and the end.
fn frames(alloc: Global, parts: &[Part]) -> Vec<u8> {
    match push_frames(alloc, parts) {
        Ok(line) => line,
        Err(_) => Vec::new(alloc),
    }
}

const SERVE: &[&str] = &["serve", "image", "line"];

// Whether a line over an image that comes in large reads gives just these replies.
fn is_served(alloc: Global, line: &[u8], replies: &[u8], image: &mut [u8]) -> bool {
    call_with(alloc, SERVE, line, image).is(0, replies)
}

// The same of a line that comes byte by byte.
fn is_served_slowly(alloc: Global, line: &[u8], replies: &[u8], image: &mut [u8]) -> bool {
    let mut input = OneByte::new(MemSource::new(line, None));
    call(alloc, SERVE, &mut input, image).is(0, replies)
}

// Whether a line over an image gives just these replies, in large reads and byte by byte, and leaves the
// same.
fn is_served_alike(alloc: Global, line: &[u8], replies: &[u8], image: &mut [u8]) -> bool {
    let mut again = copied(alloc, image);
    is_served(alloc, line, replies, image)
        && is_served_slowly(alloc, line, replies, again.as_mut_slice())
        && &*image == again.as_slice()
}

#[test]
fn clients_fetch_their_own_rows(rt: HostRuntime) -> Result<(), Fail> {
    let line = frames(rt.alloc(), SENT);
    let replies = frames(rt.alloc(), REPLIES);
    let mut image = made_of(rt.alloc(), TWO_ROWS, 5);
    let all = image.as_mut_slice();
    let alike = is_served_alike(rt.alloc(), line.as_slice(), replies.as_slice(), all);
    show(alike, "the replies and the image of both are the same")
}

// Two empty frames, a client 5, a broken escape, a command of no bytes, and a rest.
const BROKEN: &[u8] = b"\xc0\xc0\x05A\xc0\x01\xdbA\xc0\x01\xc0\x01P";

const TOLD: &[Part] = &[
    (0, "no frame\n"),
    (0, "no frame\n"),
    (1, "no syntax 0\n"),
    (0, "no unfinished\n"),
];

#[test]
fn each_frame_that_is_not_empty_has_one_reply(rt: HostRuntime) -> Result<(), Fail> {
    let replies = frames(rt.alloc(), TOLD);
    let mut image = erased(rt.alloc(), MANY);
    let alike = is_served_alike(rt.alloc(), BROKEN, replies.as_slice(), image.as_mut_slice());
    show(alike, "the replies and the image of both are the same")
}
