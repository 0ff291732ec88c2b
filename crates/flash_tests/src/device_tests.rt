use crate::device_calls::{
    Answer, Call, SIZE, answer_to, erased, failing, first_other, first_other_in,
};
use crate::files::{has_bytes, only_byte_in, read_alone, zeros};
use crate::streams::{Count, first_other_read, first_other_write, write};
use afl_base::Failed;
use afl_sim::{MemFlash, MemSink, MemSource, StdSink, StdSource};
use std::fs;
use std::fs::{File, Files};
use std::test::Fail;

const PATH: &str = "afl_sim_test.img";

// Whether memory of these bytes is a flash.
fn is_flash(bytes: &mut [u8]) -> bool {
    MemFlash::new(bytes).is_some()
}

#[test]
fn memory_refuses_a_length_of_no_whole_number_of_sectors(rt: HostRuntime) {
    assert!(rt; !is_flash(&mut [0; 12288]));
    assert!(rt; !is_flash(&mut [0; 16385]));
}

// The first other answer where two calls fail, how often the flash inside was read, what that one answers
// to an erasure, and a byte of the sector then.
fn answers_around_faults(calls: &[(Call, Answer)]) -> (Option<(usize, Answer)>, u64, Answer, u8) {
    let mut image = erased();
    let (other, reads, answer) = answers_over(&mut image, calls);
    (other, reads, answer, image[16382])
}

fn answers_over(
    image: &mut [u8; SIZE],
    calls: &[(Call, Answer)],
) -> (Option<(usize, Answer)>, u64, Answer) {
    let Some(mut flash) = failing(image, &[2, 4]) else {
        return (None, 0, Answer::Nowhere);
    };
    let other = first_other(&mut flash, calls);
    let mut inner = flash.into_inner();
    (other, inner.reads(), answer_to(&mut inner, Call::Erase(3)))
}

#[test]
fn a_flash_that_fails_leaves_the_flash_inside(rt: HostRuntime) {
    let calls = [
        (Call::Sectors, Answer::Sectors(4)),
        (Call::Program(63, 254, [1, 2]), Answer::Done),
        (Call::Program(63, 254, [4, 4]), Answer::Failed),
        (Call::Program(63, 254, [8, 8]), Answer::Done),
        (Call::Erase(3), Answer::Failed),
        (Call::Read(63, 253), Answer::Bytes([0, 9, 10])),
    ];
    assert_eq!(rt; answers_around_faults(&calls), (None, 1, Answer::Done, 0));
}

#[test]
fn a_source_in_memory_fails_once_and_goes_on(rt: HostRuntime) {
    let mut source = MemSource::new(b"abc", Some(2));
    let calls = [
        (Ok(2), *b"ab"),
        (Err(Failed), [9, 9]),
        (Ok(1), [b'c', 9]),
        (Ok(0), [9, 9]),
    ];
    assert_eq!(rt; first_other_read(&mut source, &calls), None);
}

// What a sink of four bytes in memory whose second call fails answers otherwise, and the bytes that it has.
fn held(calls: &[(&[u8], Count)]) -> (Option<(usize, Count)>, [u8; 4], usize) {
    let mut room = [0u8; 4];
    let mut sink = MemSink::new(&mut room, Some(2));
    let other = first_other_write(&mut sink, calls);
    let written = sink.written().len();
    (other, room, written)
}

#[test]
fn a_sink_in_memory_fails_at_its_call_and_where_it_is_full(rt: HostRuntime) {
    let calls = [
        (b"abc".as_slice(), Ok(3)),
        (b"d".as_slice(), Err(Failed)),
        (b"def".as_slice(), Ok(1)),
        (b"e".as_slice(), Err(Failed)),
    ];
    assert_eq!(rt; held(&calls), (None, *b"abcd", 4));
}

#[test]
fn a_flash_in_a_file_programs_by_or_and_erases_a_sector(rt: HostRuntime) -> Result<(), Fail> {
    let calls = [
        (Call::Sectors, Answer::Sectors(4)),
        (Call::Program(17, 250, [1, 2]), Answer::Done),
        (Call::Program(17, 250, [4, 4]), Answer::Done),
        (Call::Program(63, 254, [0, 7]), Answer::Done),
        (Call::Read(17, 249), Answer::Bytes([0, 5, 6])),
        (Call::Erase(1), Answer::Done),
    ];
    let other = first_other_in(zeros(&rt, PATH), 16384, &calls);
    let kept = only_byte_in(&rt, PATH);
    fs::remove_file(&rt, PATH)?;
    assert_eq!(rt; (other, kept), (None, Some((16384, Some((16383, 7))))));
    Ok(())
}

#[test]
fn a_file_that_is_too_short_or_read_alone_fails(rt: HostRuntime) -> Result<(), Fail> {
    const SHORT: &str = "afl_sim_short_test.img";
    let calls = [
        (Call::Read(64, 0), Answer::Failed),
        (Call::Program(0, 0, [1, 0]), Answer::Failed),
    ];
    let other = first_other_in(read_alone(&rt, SHORT, &[0; 16384]), 20480, &calls);
    fs::remove_file(&rt, SHORT)?;
    assert_eq!(rt; other, None);
    Ok(())
}

// The first other read of a file; where there is no file, one that is not asked for.
fn first_other_read_in(
    file: Option<File>,
    calls: &[(Count, [u8; 2])],
) -> Option<(usize, Count, [u8; 2])> {
    match file {
        Some(file) => first_other_read(&mut StdSource::new(file), calls),
        None => Some((0, Err(Failed), [0; 2])),
    }
}

#[test]
fn a_real_source_reads_to_the_end(rt: HostRuntime) -> Result<(), Fail> {
    const TEXT: &str = "afl_sim_source_test.txt";
    let calls = [(Ok(2), *b"ab"), (Ok(1), [b'c', 9]), (Ok(0), [9, 9])];
    let other = first_other_read_in(read_alone(&rt, TEXT, b"abc"), &calls);
    fs::remove_file(&rt, TEXT)?;
    assert_eq!(rt; other, None);
    Ok(())
}

// What a sink over a file answers to one write, where there is the file.
fn answer_in(file: Option<File>, bytes: &[u8]) -> Option<Count> {
    Some(write(&mut StdSink::new(file?), bytes))
}

// The same of a file for reading alone and then of one for writing, and the bytes after both.
fn refused_and_taken<R: Files<File = File> + AllocGlobal>(
    rt: &R,
    path: &str,
) -> (Option<Count>, Option<Count>, bool) {
    let refused = answer_in(read_alone(rt, path, b"abc"), b"d");
    let taken = answer_in(File::create(rt, path).ok(), b"xyz");
    (refused, taken, has_bytes(rt, path, b"xyz"))
}

#[test]
fn a_write_that_is_refused_fails(rt: HostRuntime) -> Result<(), Fail> {
    const TEXT: &str = "afl_sim_sink_test.txt";
    let answers = refused_and_taken(&rt, TEXT);
    fs::remove_file(&rt, TEXT)?;
    assert_eq!(rt; answers, (Some(Err(Failed)), Some(Ok(3)), true));
    Ok(())
}
