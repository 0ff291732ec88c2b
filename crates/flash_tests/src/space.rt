use crate::image::{SIZE, erased, file, first_other_of, named, put, set_all};
use crate::layout_calls::{Answer, Call};

// `A` in pages 0 to 5, and the removed `B` in pages 6 to 17.
fn a_file_and_a_removed_one() -> [u8; SIZE] {
    let mut image = erased();
    put(&mut image, 0, &file(0, 6, true, named(b"A")));
    put(&mut image, 6, &file(0, 12, true, named(b"B")));
    let bytes = [
        (256 * 5 + 100, 65),
        (256 * 6 + 9, 7),
        (256 * 10 + 100, 66),
        (256 * 17 + 100, 66),
    ];
    set_all(&mut image, &bytes);
    image
}

#[test]
fn collection_isolates_what_outlives_its_header(rt: HostRuntime) {
    let mut image = a_file_and_a_removed_one();
    let calls = [
        (Call::Run(46), Answer::Number(18)),
        (Call::Run(47), Answer::None),
        (Call::Collect, Answer::Number(1)),
        (Call::KeepsA, Answer::Done),
        (Call::Isolated(6, 16), Answer::Done),
        (Call::Free(16, 64), Answer::Done),
        (Call::Collect, Answer::Number(0)),
    ];
    assert_eq!(rt; first_other_of(&mut image, 0, &calls), None);
    assert_eq!(rt;
        (
            image[256 * 5 + 100],
            image[256 * 10 + 100],
            image[256 * 17 + 100]
        ),
        (65, 66, 0)
    );
}

// A file of one page at the front of each sector.
fn a_file_in_each_sector() -> [u8; SIZE] {
    let mut image = erased();
    for i in 0..4u8 {
        let header = file(0, 1, true, named(&[70, 48 + i]));
        put(&mut image, 16 * usize::from(i), &header);
    }
    image
}

#[test]
fn space_comes_where_each_sector_has_an_active_page(rt: HostRuntime) {
    let calls = [
        (Call::Space(16), Answer::Space(16)),
        (Call::Space(15), Answer::Number(1)),
    ];
    assert_eq!(rt;
        first_other_of(&mut a_file_in_each_sector(), 0, &calls),
        None
    );
}

#[test]
fn a_reservation_collects_where_nothing_is_free(rt: HostRuntime) {
    let calls = [
        (Call::Space(48), Answer::Number(16)),
        (Call::Space(49), Answer::Space(49)),
    ];
    assert_eq!(rt;
        first_other_of(&mut a_file_and_a_removed_one(), 0, &calls),
        None
    );
}

#[test]
fn a_fault_ends_a_collection(rt: HostRuntime) {
    let again = [
        (Call::Collect, Answer::Failed),
        (Call::KeepsA, Answer::Done),
        (Call::Collect, Answer::Number(1)),
        (Call::Run(48), Answer::Number(16)),
    ];
    // 5 reads mark the sectors; the third call after them is the first that programs, and the last erases.
    for (call, calls) in [(1, 4), (4, 4), (7, 4), (12, 2), (21, 2)] {
        let mut image = a_file_and_a_removed_one();
        assert_eq!(rt; first_other_of(&mut image, call, &again[..calls]), None);
    }
}
