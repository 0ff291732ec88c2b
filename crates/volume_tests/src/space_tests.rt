use crate::acts::{
    Answer, collected, first_not_free, first_not_isolated, is_obsolete, only_file, run, two_files,
};
use crate::mounted::{erased, memory, named};
use crate::steps::Step;
use afl_base::{Flash, Kind, PageId};
use coffee_layout::FileAt;

const ROW: [u8; 5] = [1, 2, 3, 4, 5];

// What making a file of each kind comes to, the two files with the first page after them that is not
// free, and what filling the doubling one and a row more come to.
fn made_and_filled<F: Flash + Drop>(
    flash: Option<F>,
) -> Option<(Answer, Option<(FileAt, FileAt)>, Option<u16>, [Answer; 2])> {
    let (cat, t0) = (named(b"CAT"), named(b"T0"));
    let making = [
        Step::Make(cat, Kind::Fixed(6)),
        Step::Append(cat, &[7; 1480], 1),
        Step::Make(t0, Kind::Doubling),
        Step::Overwrite(cat, 128, &[8; 128]),
    ];
    let (mut flash, made) = run(flash?, &making);
    let files = two_files(&mut flash);
    let behind = first_not_free(&mut flash, 38, 64);
    let (flash, filled) = run(flash, &[Step::Append(t0, &ROW, 812)]);
    let (_, more) = run(flash, &[Step::Append(t0, &ROW, 1)]);
    Some((made, files, behind, [filled, more]))
}

#[test]
fn a_fixed_file_a_doubling_one_and_a_log_lie_in_the_order_of_their_making(rt: HostRuntime) {
    let first = FileAt {
        name: named(b"CAT"),
        kind: Kind::Fixed(6),
        page: PageId(0),
        pages: 6,
        size: 1480,
        log: Some(PageId(22)),
        used: 1,
    };
    let second = FileAt {
        name: named(b"T0"),
        kind: Kind::Doubling,
        page: PageId(6),
        pages: 16,
        size: 0,
        log: None,
        used: 0,
    };
    // A row more does not fit into 16 pages, and only 26 are free.
    let filling = [Answer::Done, Answer::Space(32)];
    assert_eq!(rt;
        made_and_filled(memory(&mut erased())),
        Some((Answer::Done, Some((first, second)), None, filling))
    );
}

// What growing a doubling file and a row more come to, and the only file then.
fn grown<F: Flash + Drop>(flash: Option<F>) -> Option<([Answer; 2], Option<FileAt>)> {
    let t0 = named(b"T0");
    let growing = [Step::Make(t0, Kind::Doubling), Step::Append(t0, &ROW, 1632)];
    let (flash, filled) = run(flash?, &growing);
    let (mut flash, more) = run(flash, &[Step::Append(t0, &ROW, 1)]);
    Some(([filled, more], only_file(&mut flash)))
}

#[test]
fn a_doubling_file_grows_until_its_double_has_no_place(rt: HostRuntime) {
    let file = FileAt {
        name: named(b"T0"),
        kind: Kind::Doubling,
        page: PageId(16),
        pages: 32,
        size: 8160,
        log: None,
        used: 0,
    };
    assert_eq!(rt;
        grown(memory(&mut erased())),
        Some(([Answer::Done, Answer::Space(64)], Some(file)))
    );
}

// Whether an obsolete file begins at each sector.
fn all_are_obsolete<F: Flash>(flash: &mut F) -> bool {
    is_obsolete(flash, 0)
        && is_obsolete(flash, 16)
        && is_obsolete(flash, 32)
        && is_obsolete(flash, 48)
}

// What making and removing a file 4 times, once more and 35 times more come to; whether no page is free
// after 4 times; and whether the fifth stands alone after a collection.
fn made_and_removed<F: Flash + Drop>(flash: Option<F>) -> Option<([Answer; 3], bool, bool)> {
    let t0 = named(b"T0");
    let (mut flash, four) = run(flash?, &[Step::MakeAndErase(t0, 4)]);
    let full = all_are_obsolete(&mut flash);
    let (mut flash, fifth) = run(flash, &[Step::MakeAndErase(t0, 1)]);
    let alone = is_obsolete(&mut flash, 0) && first_not_free(&mut flash, 16, 64).is_none();
    let (_, more) = run(flash, &[Step::MakeAndErase(t0, 35)]);
    Some(([four, fifth, more], full, alone))
}

#[test]
fn a_file_is_made_and_removed_40_times_in_the_space_of_four(rt: HostRuntime) {
    assert_eq!(rt;
        made_and_removed(memory(&mut erased())),
        Some(([Answer::Done; 3], true, true))
    );
}

// What making two files and removing the second comes to, how many sectors a collection erases then, and
// the only file, with the first pages that are not isolated after it and not free after these.
fn isolated<F: Flash + Drop>(
    flash: Option<F>,
) -> Option<(Answer, Option<u16>, Option<FileAt>, [Option<u16>; 2])> {
    let (a, b) = (named(b"A"), named(b"B"));
    let steps = [
        Step::Make(a, Kind::Fixed(6)),
        Step::Make(b, Kind::Fixed(12)),
        Step::Erase(b),
    ];
    let (mut flash, done) = run(flash?, &steps);
    let erased = collected(&mut flash);
    let file = only_file(&mut flash);
    let others = [
        first_not_isolated(&mut flash, 6, 16),
        first_not_free(&mut flash, 16, 64),
    ];
    Some((done, erased, file, others))
}

#[test]
fn a_collection_isolates_what_shares_a_sector_with_a_file(rt: HostRuntime) {
    let file = FileAt {
        name: named(b"A"),
        kind: Kind::Fixed(6),
        page: PageId(0),
        pages: 6,
        size: 0,
        log: None,
        used: 0,
    };
    assert_eq!(rt;
        isolated(memory(&mut erased())),
        Some((Answer::Done, Some(1), Some(file), [None, None]))
    );
}
