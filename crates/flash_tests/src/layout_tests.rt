use crate::image::{SIZE, erased, failing, file, memory, named, put, set_all, two_files};
use crate::layout_calls::{Answer, program, read};
use afl_base::{Failed, Flash, Kind, Name, PageId};
use coffee_header::{Header, read_header, write_header};
use coffee_layout::{
    BadImage, FileAt, Table, Unit, check, file_size, next_unit, region_place, unit_in,
};

// The bytes of the header of a new `CAT`, from the description of the formats.
const NEW_CAT: [u8; 32] = [
    0, 0, 30, 0, 128, 0, 6, 0, 1, 3, 67, 65, 84, 0, 0, 0, 0, 0, 0, 0, 0, 0, 0, 0, 0, 0, 0, 0, 0, 0,
    0, 0,
];

// What an image is judged.
#[derive(Clone, Copy, PartialEq, Eq, Debug)]
enum Verdict {
    Sound,
    Bad(BadImage),
    Failed,
}

// What the image of a flash is judged.
fn judge_flash<F: Flash>(flash: &mut F, table: &mut Table) -> Verdict {
    match check(flash, table) {
        Ok(Ok(())) => Verdict::Sound,
        Ok(Err(bad)) => Verdict::Bad(bad),
        Err(Failed) => Verdict::Failed,
    }
}

// What an image is judged, and the files that are found.
fn judge(image: &mut [u8; SIZE], table: &mut Table) -> Verdict {
    match memory(image) {
        Some(mut flash) => judge_flash(&mut flash, table),
        None => Verdict::Failed,
    }
}

// The same of an image whose files are of no account.
fn judged(image: &mut [u8; SIZE]) -> Verdict {
    let mut table = Table::new();
    judge(image, &mut table)
}

// The header of a new file of six pages as bytes, and what is read from them before and after the
// byte of its flags is another.
fn written_and_read(name: Name, flags: u8) -> ([u8; 32], Option<Header>, Option<Header>) {
    let mut bytes = [255; 32];
    write_header(&file(0, 6, true, name), &mut bytes);
    let written = bytes;
    let before = read_header(&bytes);
    bytes[9] = flags;
    (written, before, read_header(&bytes))
}

#[test]
fn a_header_is_the_bytes_of_the_formats(rt: HostRuntime) {
    let cat = named(b"CAT");
    assert_eq!(rt;
        written_and_read(cat, 1),
        (NEW_CAT, Some(file(0, 6, true, cat)), None)
    );
}

#[test]
fn the_files_of_a_sound_image_are_listed_with_their_logs(rt: HostRuntime) {
    let mut table = Table::new();
    assert_eq!(rt; judge(&mut two_files(), &mut table), Verdict::Sound);
    let wanted = [
        FileAt {
            name: named(b"CAT"),
            kind: Kind::Fixed(6),
            page: PageId(0),
            pages: 6,
            size: 1472,
            log: Some(PageId(22)),
            used: 4,
        },
        FileAt {
            name: named(b"T0"),
            kind: Kind::Doubling,
            page: PageId(6),
            pages: 16,
            size: 10,
            log: None,
            used: 0,
        },
    ];
    assert_eq!(rt; table.as_slice(), wanted.as_slice());
}

// The unit at page 38, the one at page 6, the size of `CAT` without its log, and the place of its
// region 11.
fn parts<F: Flash>(flash: &mut F) -> Result<(Option<Unit>, Option<Unit>, u32, u32), Failed> {
    if flash.sectors() != 4 {
        return Err(Failed);
    }
    let log = Some(PageId(22));
    Ok((
        next_unit(flash, PageId(38))?,
        unit_in(flash, 6, 64)?,
        file_size(flash, PageId(0), 6, None)?,
        region_place(flash, PageId(0), log, 11, 128)?,
    ))
}

// The same of an image.
fn parts_of(image: &mut [u8; SIZE]) -> Result<(Option<Unit>, Option<Unit>, u32, u32), Failed> {
    match memory(image) {
        Some(mut flash) => parts(&mut flash),
        None => Err(Failed),
    }
}

#[test]
fn the_parts_of_a_sound_image_are_found(rt: HostRuntime) {
    let second = Unit::Extent(file(0, 16, false, named(b"T0")));
    assert_eq!(rt;
        parts_of(&mut two_files()),
        Ok((Some(Unit::Free), Some(second), 0, 256 * 22 + 96 + 3 * 128))
    );
}

// What the image of two files is judged where some of its bytes are others.
fn edited(edits: &[(usize, u8)]) -> Verdict {
    let mut image = two_files();
    set_all(&mut image, edits);
    judged(&mut image)
}

#[test]
fn each_rule_is_the_first_that_is_broken(rt: HostRuntime) {
    let log = 256 * 22;
    let edits: [(u8, u16, &[(usize, u8)]); 11] = [
        (1, 0, &[(9, 1)]),
        (2, 22, &[(log + 6, 136), (log + 7, 19)]),
        (3, 38, &[(256 * 38 + 100, 1)]),
        (4, 40, &[(256 * 40 + 9, 34)]),
        (
            6,
            6,
            &[(256 * 6 + 10, 67), (256 * 6 + 11, 65), (256 * 6 + 12, 84)],
        ),
        (7, 0, &[(2, 31)]),
        (8, 0, &[(0, 24)]),
        (9, 22, &[(0, 0), (9, 3)]),
        (10, 22, &[(log + 42, 1)]),
        (11, 22, &[(log + 32, 13)]),
        (12, 22, &[(log + 92, 1)]),
    ];
    for (rule, place, bytes) in edits {
        assert_eq!(rt; edited(bytes), Verdict::Bad(BadImage { rule, place }));
    }
}

// An image of this many files of one page.
fn files_of_a_page(files: u8) -> [u8; SIZE] {
    let mut image = erased();
    for i in 0..files.min(64) {
        let header = file(0, 1, true, named(&[70, 48 + i / 10, 48 + i % 10]));
        put(&mut image, usize::from(i), &header);
    }
    image
}

// An image of an empty file of all pages.
fn a_large_file() -> [u8; SIZE] {
    let mut image = erased();
    put(&mut image, 0, &file(0, 64, false, named(b"T0")));
    image
}

#[test]
fn the_33rd_file_and_a_large_empty_file_break_their_rules(rt: HostRuntime) {
    let verdicts = [
        judged(&mut erased()),
        judged(&mut files_of_a_page(33)),
        judged(&mut a_large_file()),
    ];
    let wanted = [
        Verdict::Sound,
        Verdict::Bad(BadImage { rule: 5, place: 32 }),
        Verdict::Bad(BadImage { rule: 13, place: 0 }),
    ];
    assert_eq!(rt; verdicts, wanted);
}

// What is answered where bytes are programmed over the end of a page, and read with their neighbours.
fn over_the_end<F: Flash>(flash: &mut F) -> [Answer; 2] {
    let mut bytes = [0; 300];
    bytes[0] = 5;
    bytes[299] = 6;
    let mut around = [0; 302];
    around[1] = 5;
    around[300] = 6;
    [program(flash, 200, &bytes), read(flash, 199, &around)]
}

// The same in memory, and how often it was read.
fn answers_and_reads(image: &mut [u8; SIZE]) -> ([Answer; 2], u64) {
    match memory(image) {
        Some(mut flash) => (over_the_end(&mut flash), flash.reads()),
        None => ([Answer::Failed; 2], 0),
    }
}

#[test]
fn a_range_crosses_pages(rt: HostRuntime) {
    assert_eq!(rt; answers_and_reads(&mut erased()), ([Answer::Done; 2], 2));
}

// What an image is judged while the call of this number fails, and then again.
fn judged_twice(image: &mut [u8; SIZE], call: u64) -> [Verdict; 2] {
    let mut table = Table::new();
    match failing(image, call) {
        Some(mut flash) => [
            judge_flash(&mut flash, &mut table),
            judge_flash(&mut flash, &mut table),
        ],
        None => [Verdict::Failed; 2],
    }
}

#[test]
fn a_read_that_fails_ends_the_judgement(rt: HostRuntime) {
    for call in [1, 7, 40, 90, 128] {
        assert_eq!(rt;
            judged_twice(&mut two_files(), call),
            [Verdict::Failed, Verdict::Sound]
        );
    }
}
