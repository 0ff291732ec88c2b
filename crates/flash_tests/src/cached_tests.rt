use crate::device_calls::{
    Answer, Call, SIZE, erased, failing, first_other, first_other_of, flash_in,
};
use crate::files::{only_byte_in, read_alone, two_bytes_in, zeros};
use afl_base::Flash;
use afl_sim::CachedFlash;
use std::fs;
use std::fs::{File, Files};
use std::test::Fail;

const PATH: &str = "afl_sim_cached_test.img";

// The first other answer of a flash that is kept in `memory`, where these calls inside fail.
fn first_other_of_kept(
    image: &mut [u8; SIZE],
    fails: &[u64],
    memory: &mut [u8],
    known: &mut [bool],
    calls: &[(Call, Answer)],
) -> Option<(usize, Answer)> {
    match failing(image, fails) {
        Some(inner) => first_other(&mut CachedFlash::new(inner, memory, known), calls),
        None => Some((0, Answer::Nowhere)),
    }
}

// The same of a flash of this many bytes in a file.
fn first_other_of_kept_file(
    file: Option<File>,
    length: u64,
    memory: &mut [u8],
    known: &mut [bool],
    calls: &[(Call, Answer)],
) -> Option<(usize, Answer)> {
    match flash_in(file, length) {
        Some(inner) => first_other(&mut CachedFlash::new(inner, memory, known), calls),
        None => Some((0, Answer::Nowhere)),
    }
}

#[test]
fn a_sector_is_read_once_and_changes_go_through_at_once(rt: HostRuntime) {
    let before = [(Call::Program(1, 3, [5, 0]), Answer::Done)];
    let calls = [
        (Call::Sectors, Answer::Sectors(4)),
        (Call::Read(1, 2), Answer::Bytes([0, 5, 0])),
        (Call::Program(1, 3, [2, 8]), Answer::Done),
        (Call::Read(1, 2), Answer::Bytes([0, 7, 8])),
        (Call::Program(16, 0, [1, 1]), Answer::Done),
        (Call::Erase(1), Answer::Done),
        (Call::Read(16, 0), Answer::Bytes([0, 0, 0])),
        // the fifth call that reaches the flash inside
        (Call::Read(32, 0), Answer::Failed),
    ];
    let after = [
        (Call::Read(1, 2), Answer::Bytes([0, 7, 8])),
        (Call::Read(16, 0), Answer::Bytes([0, 0, 0])),
    ];
    assert_eq!(rt; first_others(&before, &calls, &after), [None; 3]);
}

// The first other answers of a flash, of the same one while it is kept and the fifth call inside fails,
// and of the same one again.
fn first_others(
    before: &[(Call, Answer)],
    kept: &[(Call, Answer)],
    after: &[(Call, Answer)],
) -> [Option<(usize, Answer)>; 3] {
    let mut image = erased();
    let (mut memory, mut known) = ([9u8; 8192], [true; 2]);
    [
        first_other_of(&mut image, &[], before),
        first_other_of_kept(&mut image, &[5], &mut memory, &mut known, kept),
        first_other_of(&mut image, &[], after),
    ]
}

#[test]
fn what_failed_is_read_again(rt: HostRuntime) {
    let mut image = erased();
    let calls = [
        (Call::Read(0, 0), Answer::Bytes([0, 0, 0])),
        (Call::Program(0, 0, [6, 6]), Answer::Failed),
        (Call::Read(0, 0), Answer::Bytes([0, 0, 0])),
        (Call::Erase(0), Answer::Failed),
        (Call::Program(0, 0, [6, 6]), Answer::Done),
        (Call::Read(0, 0), Answer::Failed),
        (Call::Read(0, 0), Answer::Bytes([6, 6, 0])),
    ];
    let (mut memory, mut known) = ([0u8; 16384], [false; 4]);
    let other = first_other_of_kept(&mut image, &[2, 4, 6], &mut memory, &mut known, &calls);
    assert_eq!(rt; other, None);
}

#[test]
fn a_flash_without_memory_goes_through(rt: HostRuntime) {
    let mut image = erased();
    let calls = [
        (Call::Program(63, 254, [3, 4]), Answer::Done),
        (Call::Program(47, 254, [3, 4]), Answer::Done),
        (Call::Erase(2), Answer::Done),
        (Call::Read(63, 253), Answer::Bytes([0, 3, 4])),
        (Call::Read(47, 253), Answer::Bytes([0, 0, 0])),
    ];
    let other = first_other_of_kept(&mut image, &[], &mut [], &mut [false; 4], &calls);
    assert_eq!(rt; other, None);
}

// What a flash that keeps a file answers otherwise to calls and to some more, with two bytes of the file
// after the first and the only byte in it after the others.
fn written_at_once<R: Files<File = File> + AllocGlobal, F: Flash>(
    rt: &R,
    flash: &mut F,
) -> (
    [Option<(usize, Answer)>; 2],
    Option<[u8; 2]>,
    Option<(usize, Option<(usize, u8)>)>,
) {
    let first = [
        (Call::Program(17, 250, [1, 2]), Answer::Done),
        (Call::Read(17, 249), Answer::Bytes([0, 1, 2])),
        (Call::Program(17, 250, [4, 4]), Answer::Done),
    ];
    let second = [
        (Call::Erase(1), Answer::Done),
        (Call::Program(16, 0, [7, 0]), Answer::Done),
    ];
    let other = first_other(flash, &first);
    let two = two_bytes_in(rt, PATH, 4602);
    let others = [other, first_other(flash, &second)];
    (others, two, only_byte_in(rt, PATH))
}

#[test]
fn a_flash_in_a_file_is_written_at_once(rt: HostRuntime) -> Result<(), Fail> {
    let (mut memory, mut known) = ([0u8; 12288], [false; 4]);
    let inner = flash_in(zeros(&rt, PATH), 16384).ok_or("no flash")?;
    let mut flash = CachedFlash::new(inner, &mut memory, &mut known);
    assert_eq!(rt;
        written_at_once(&rt, &mut flash),
        ([None, None], Some([5, 6]), Some((16384, Some((4096, 7)))))
    );
    Ok(())
}

#[test]
fn a_file_that_fails_leaves_what_stands_in_it(rt: HostRuntime) -> Result<(), Fail> {
    const READ_ALONE: &str = "afl_sim_read_alone_test.img";
    let file = read_alone(&rt, READ_ALONE, &[7; 16384]);
    let (mut memory, mut known) = ([0u8; 20480], [false; 5]);
    let calls = [
        (Call::Read(64, 0), Answer::Failed),
        (Call::Read(63, 0), Answer::Bytes([7, 7, 7])),
        (Call::Program(63, 0, [8, 8]), Answer::Failed),
        (Call::Read(63, 0), Answer::Bytes([7, 7, 7])),
    ];
    let other = first_other_of_kept_file(file, 20480, &mut memory, &mut known, &calls);
    fs::remove_file(&rt, READ_ALONE)?;
    assert_eq!(rt; other, None);
    Ok(())
}
