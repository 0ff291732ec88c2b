use crate::acts::{Answer, drafted, only_file, run};
use crate::mounted::{erased, memory, named};
use crate::steps::Step;
use afl_base::{Flash, Kind, PageId};
use coffee_layout::{BadImage, FileAt};

// 200 bytes, of which the first 31 rows of five end in a 3.
fn marked() -> [u8; 200] {
    let mut bytes = [1; 200];
    for row in 0..31usize {
        bytes[5 * row + 4] = 3;
    }
    bytes
}

// What filling a log and one overwrite more come to, each with the only file then.
fn filled_and_merged<F: Flash + Drop>(flash: Option<F>) -> Option<[(Answer, Option<FileAt>); 2]> {
    let t0 = named(b"T0");
    let filling = [
        Step::Make(t0, Kind::Doubling),
        Step::Append(t0, &[1; 200], 1),
        Step::Mark(t0, 30),
    ];
    let (mut flash, filled) = run(flash?, &filling);
    let full = only_file(&mut flash);
    let marked = marked();
    let merging = [Step::Overwrite(t0, 154, &[3]), Step::Holds(t0, 0, &marked)];
    let (mut flash, merged) = run(flash, &merging);
    Some([(filled, full), (merged, only_file(&mut flash))])
}

#[test]
fn a_full_log_is_merged_and_the_next_begins_with_one_record(rt: HostRuntime) {
    let full = FileAt {
        name: named(b"T0"),
        kind: Kind::Doubling,
        page: PageId(0),
        pages: 16,
        size: 200,
        log: Some(PageId(16)),
        used: 30,
    };
    let merged = FileAt {
        name: named(b"T0"),
        kind: Kind::Doubling,
        page: PageId(32),
        pages: 16,
        size: 200,
        log: Some(PageId(48)),
        used: 1,
    };
    assert_eq!(rt;
        filled_and_merged(memory(&mut erased())),
        Some([(Answer::Done, Some(full)), (Answer::Done, Some(merged))])
    );
}

// What a draft in the place of a file with a log comes to, and the only file then.
fn replaced<F: Flash + Drop>(flash: Option<F>) -> Option<(Answer, Option<FileAt>)> {
    let t0 = named(b"T0");
    let steps = [
        Step::Make(t0, Kind::Doubling),
        Step::Append(t0, &[1; 1500], 1),
        Step::Overwrite(t0, 4, &[3]),
        Step::Replace(t0, &[5; 1500], 700),
        Step::Holds(t0, 0, &[5; 1500]),
    ];
    let (mut flash, done) = run(flash?, &steps);
    Some((done, only_file(&mut flash)))
}

#[test]
fn a_draft_that_replaces_a_file_leaves_no_log(rt: HostRuntime) {
    let file = FileAt {
        name: named(b"T0"),
        kind: Kind::Doubling,
        page: PageId(32),
        pages: 16,
        size: 1500,
        log: None,
        used: 0,
    };
    assert_eq!(rt;
        replaced(memory(&mut erased())),
        Some((Answer::Done, Some(file)))
    );
}

// What making a file, beginning a draft beside it and mounting anew come to.
fn mounted_with_a_draft<F: Flash + Drop>(flash: Option<F>) -> Option<[Answer; 3]> {
    let (flash, made) = run(flash?, &[Step::Make(named(b"T0"), Kind::Doubling)]);
    let (flash, begun) = drafted(flash, named(b"T1"));
    let (_, mounted) = run(flash, &[]);
    Some([made, begun, mounted])
}

#[test]
fn a_draft_that_was_not_committed_is_no_file_of_a_sound_image(rt: HostRuntime) {
    let bad = BadImage { rule: 1, place: 16 };
    assert_eq!(rt;
        mounted_with_a_draft(memory(&mut erased())),
        Some([Answer::Done, Answer::Done, Answer::Bad(bad)])
    );
}
