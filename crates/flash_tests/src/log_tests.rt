use crate::image::{first_other_of, set, two_files};
use crate::layout_calls::{Answer, Call};

#[test]
fn the_last_record_of_a_region_counts_and_one_more_is_added(rt: HostRuntime) {
    let calls = [
        (Call::Used, Answer::Number(4)),
        (Call::Record(0), Answer::Number(1)),
        (Call::Record(11), Answer::Number(3)),
        (Call::Record(65535), Answer::None),
        (Call::PutFifth(&[7; 128]), Answer::Done),
        (Call::Used, Answer::Number(5)),
        (Call::Record(5), Answer::Number(4)),
        (Call::Record(11), Answer::Number(3)),
        (Call::Record(65535), Answer::None),
        // The record stands at byte 96 + 128 * 4 of the log, and its number, 6, at byte 32 + 2 * 4.
        (Call::Read(256 * 22 + 608, &[7; 128]), Answer::Done),
        (Call::Read(256 * 22 + 40, &[6, 0]), Answer::Done),
    ];
    assert_eq!(rt; first_other_of(&mut two_files(), 0, &calls), None);
}

#[test]
fn a_fault_at_either_program_of_a_record_is_told(rt: HostRuntime) {
    let calls = [(Call::PutFifth(&[7; 128]), Answer::Failed)];
    // The bytes of record 4 lie in one page, and its number in another.
    for call in [1, 2] {
        assert_eq!(rt; first_other_of(&mut two_files(), call, &calls), None);
    }
}

#[test]
fn content_is_written_over_by_records_and_read_back(rt: HostRuntime) {
    let calls = [
        // The bytes 126 to 129 lie in the regions 0 and 1.
        (Call::Overwrite(126, &[5; 4]), Answer::Number(6)),
        (Call::Record(0), Answer::Number(4)),
        (Call::Record(1), Answer::Number(5)),
        (Call::Record(11), Answer::Number(3)),
        (Call::ReadCat(125, &[0, 5, 5, 5, 5, 0]), Answer::Done),
        (Call::ReadCat(1471, &[1]), Answer::Done),
    ];
    assert_eq!(rt; first_other_of(&mut two_files(), 0, &calls), None);
}

#[test]
fn an_append_takes_a_record_where_its_region_has_one(rt: HostRuntime) {
    let mut image = two_files();
    // Byte 100 of the record of the last region lies past the content.
    set(&mut image, 256 * 22 + 96 + 128 * 3 + 100, 7);
    let mut end = [3; 33];
    end[0] = 1;
    let calls = [
        (Call::AppendToCat(&[3; 32]), Answer::Number(5)),
        (Call::Record(0), Answer::Number(1)),
        (Call::Record(11), Answer::Number(4)),
        (Call::Record(65535), Answer::None),
        (Call::ReadCat(1471, &end), Answer::Done),
        (
            Call::Read(256 * 22 + 96 + 128 * 4 + 96, &[0; 32]),
            Answer::Done,
        ),
        (Call::AppendToT0(&[4; 2]), Answer::Number(0)),
        (Call::ReadT0(9, &[1, 4, 4, 0]), Answer::Done),
    ];
    assert_eq!(rt; first_other_of(&mut image, 0, &calls), None);
}

#[test]
fn a_fault_in_an_overwrite_or_a_read_is_told(rt: HostRuntime) {
    let overwriting = [(Call::Overwrite(0, &[5; 4]), Answer::Failed)];
    // The table, the region, the record and its number.
    for call in [1, 2, 3, 4] {
        assert_eq!(rt; first_other_of(&mut two_files(), call, &overwriting), None);
    }
    let reading = [
        (Call::ReadCat(0, &[0; 4]), Answer::Failed),
        (Call::ReadCat(0, &[0; 4]), Answer::Done),
    ];
    assert_eq!(rt; first_other_of(&mut two_files(), 1, &reading), None);
}
