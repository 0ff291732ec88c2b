use crate::device_calls::{Answer, Call, first_other_in};
use crate::files::{is_erased_alone_in, sevens};
use crate::streams::{Count, first_other_read, first_other_write};
use afl_base::Failed;
use afl_sim::{StdSink, StdSource};
use std::io::{ErrorKind, Read, Write};
use std::test::Fail;
use std::{fs, io};

// A writer that takes one byte a call, as long as it has room. Its first call is interrupted by a
// signal, and one of its calls fails.
#[derive(Drop)]
struct Sips<'a> {
    room: &'a mut [u8],
    held: usize,
    calls: u64,
    fails: u64,
}

impl Write for Sips<'_> {
    fn write(&mut self, buf: &[u8]) -> io::Result<usize> {
        turn(&mut self.calls, self.fails)?;
        if buf.is_empty() || self.held >= self.room.len() {
            return Ok(0);
        }
        self.room[self.held] = buf[0];
        self.held += 1;
        Ok(1)
    }

    fn flush(&mut self) -> io::Result<()> {
        Ok(())
    }
}

// A reader that gives one byte a call, with the same calls that fail.
#[derive(Drop)]
struct Drips<'a> {
    left: &'a [u8],
    calls: u64,
    fails: u64,
}

impl Read for Drips<'_> {
    fn read(&mut self, buf: &mut [u8]) -> io::Result<usize> {
        turn(&mut self.calls, self.fails)?;
        if buf.is_empty() || self.left.is_empty() {
            return Ok(0);
        }
        buf[0] = self.left[0];
        self.left = &self.left[1..];
        Ok(1)
    }
}

// Counts a call. The first is interrupted, and that of the number `fails` fails.
fn turn(calls: &mut u64, fails: u64) -> io::Result<()> {
    *calls = calls.saturating_add(1);
    if *calls == 1 {
        return Err(io::Error::from(ErrorKind::Interrupted));
    }
    if *calls == fails {
        return Err(io::Error::from(ErrorKind::BrokenPipe));
    }
    Ok(())
}

#[test]
fn every_byte_of_an_erased_sector_is_zero_and_its_neighbours_stay(
    rt: HostRuntime,
) -> Result<(), Fail> {
    const PATH: &str = "afl_sim_erased_test.img";
    let calls = [(Call::Erase(1), Answer::Done)];
    let other = first_other_in(sevens(&rt, PATH), 16384, &calls);
    let kept = is_erased_alone_in(&rt, PATH, 1);
    fs::remove_file(&rt, PATH)?;
    assert_eq!(rt; (other, kept), (None, Some(true)));
    Ok(())
}

// What a writer of three bytes whose fourth call fails answers otherwise, and the bytes that it took.
fn sipped(calls: &[(&[u8], Count)]) -> (Option<(usize, Count)>, [u8; 3]) {
    let mut room = [0u8; 3];
    let writer = Sips {
        room: &mut room,
        held: 0,
        calls: 0,
        fails: 4,
    };
    let other = first_other_write(&mut StdSink::new(writer), calls);
    (other, room)
}

#[test]
fn a_writer_that_takes_a_part_gets_the_rest_later(rt: HostRuntime) {
    let calls = [
        (b"xyz".as_slice(), Ok(1)),
        (b"yz".as_slice(), Ok(1)),
        (b"z".as_slice(), Err(Failed)),
        (b"z".as_slice(), Ok(1)),
        (b"!".as_slice(), Err(Failed)),
    ];
    assert_eq!(rt; sipped(&calls), (None, *b"xyz"));
}

#[test]
fn a_reader_that_fails_goes_on_where_it_stood(rt: HostRuntime) {
    let reader = Drips {
        left: b"ab",
        calls: 0,
        fails: 3,
    };
    let calls = [
        (Ok(1), [b'a', 9]),
        (Err(Failed), [9, 9]),
        (Ok(1), [b'b', 9]),
        (Ok(0), [9, 9]),
    ];
    assert_eq!(rt; first_other_read(&mut StdSource::new(reader), &calls), None);
}
