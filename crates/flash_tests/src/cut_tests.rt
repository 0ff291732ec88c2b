use crate::device_calls::{Answer, Call, SIZE, erased, first_other};
use afl_base::{Failed, Flash, PageId};
use afl_sim::CutFlash;

// Programs five bytes at the front of a page, where the flash has it.
fn program_five<F: Flash>(flash: &mut F, page: u16) -> Result<(), Failed> {
    if page / 16 >= flash.sectors() {
        return Err(Failed);
    }
    flash.program(PageId(page), 0, &[1, 2, 3, 4, 5])
}

// Whether of the writes to three pages the first is done and the power goes in the second.
fn goes_in_the_second<F: Flash>(flash: &mut F) -> bool {
    program_five(flash, 0).is_ok()
        && program_five(flash, 1).is_err()
        && program_five(flash, 2).is_err()
}

// The same of a flash that does three bytes of its second write.
fn goes_behind_three(image: &mut [u8; SIZE]) -> bool {
    let all = &mut image[..];
    match CutFlash::new(all, 1, 3) {
        Some(mut flash) => goes_in_the_second(&mut flash),
        None => false,
    }
}

// The same, and the fronts of the three pages then.
fn fronts_behind_three() -> (bool, [u8; 6], [u8; 6], u8) {
    let mut image = erased();
    let goes = goes_behind_three(&mut image);
    (goes, six(&image, 0), six(&image, 256), image[512])
}

// The six bytes of an image from a place on.
fn six(image: &[u8; SIZE], at: usize) -> [u8; 6] {
    let mut bytes = [0; 6];
    for i in 0..6usize {
        if at < 4096 {
            bytes[i] = image[at + i];
        }
    }
    bytes
}

// The first other answer of a flash whose power goes in its first write, of which so much is done.
fn first_other_of_cut(
    image: &mut [u8; SIZE],
    front: usize,
    calls: &[(Call, Answer)],
) -> Option<(usize, Answer)> {
    let all = &mut image[..];
    match CutFlash::new(all, 0, front) {
        Some(mut flash) => first_other(&mut flash, calls),
        None => Some((0, Answer::Nowhere)),
    }
}

// The first other answer of an erased flash where so much of the first write is done, and the two
// bytes at the front of its first page and of its second.
fn fronts_behind_a_cut(
    front: usize,
    calls: &[(Call, Answer)],
) -> (Option<(usize, Answer)>, [u8; 2], [u8; 2]) {
    let mut image = erased();
    let other = first_other_of_cut(&mut image, front, calls);
    (other, [image[0], image[1]], [image[256], image[257]])
}

#[test]
fn a_front_part_of_a_write_is_done_and_nothing_behind_it(rt: HostRuntime) {
    assert_eq!(rt;
        fronts_behind_three(),
        (true, [1, 2, 3, 4, 5, 0], [1, 2, 3, 0, 0, 0], 0)
    );
}

#[test]
fn of_two_bytes_none_is_done_or_both(rt: HostRuntime) {
    let calls = [
        (Call::Program(0, 0, [1, 2]), Answer::Failed),
        (Call::Program(1, 0, [3, 4]), Answer::Failed),
        (Call::Read(0, 0), Answer::Failed),
    ];
    for (front, done) in [(0, [0, 0]), (1, [0, 0]), (2, [1, 2])] {
        assert_eq!(rt; fronts_behind_a_cut(front, &calls), (None, done, [0, 0]));
    }
}

// The first other answer where a hundred bytes of the first erasure are done, and the bytes of a flash of
// sevens at the front and the end of these, and at the next sector.
fn sevens_behind_a_cut(calls: &[(Call, Answer)]) -> (Option<(usize, Answer)>, [u8; 5]) {
    let mut image = [7; SIZE];
    let other = first_other_of_cut(&mut image, 100, calls);
    let bytes = [
        image[4095],
        image[4096],
        image[4195],
        image[4196],
        image[8192],
    ];
    (other, bytes)
}

#[test]
fn a_front_part_of_a_sector_is_erased(rt: HostRuntime) {
    let calls = [
        (Call::Erase(1), Answer::Failed),
        (Call::Erase(2), Answer::Failed),
    ];
    assert_eq!(rt; sevens_behind_a_cut(&calls), (None, [7, 0, 0, 7, 7]));
}
