ghost use Rattle.std.specs.Prelude.{◌≡◌, None, OnOk};

use crate::database::{
    ROWS, emptied_relation, emptied_up_to_a_name, first_relation, no_relation, one_index,
    one_relation, put_catalog, put_growing,
};
use afl_base::{FileError, Files};
use afl_sim::PlainFiles;
use stored_survey::may_be_cut;

// Whether no cut leaves a database of the first bytes of this catalog, with these rows in T0 and this tree in X0.
fn is_strange<V: Files>(
    files: &mut V,
    catalog: &[u8],
    size: usize,
    rows: Option<&[u8]>,
    tree: Option<&[u8]>,
) -> Result<bool, FileError>
    requires idle { (V.state files.old).draft ≡ None }
{
    if size > 0 {
        put_catalog(files, catalog, size)?;
    }
    if let Some(rows) = rows {
        put_growing(files, b"T0", rows)?;
    }
    if let Some(tree) = tree {
        put_growing(files, b"X0", tree)?;
    }
    Ok(!may_be_cut(files)?)
}

// The same in new files.
fn is_refused(catalog: &[u8], size: usize, rows: Option<&[u8]>, tree: Option<&[u8]>) -> bool {
    let mut files: PlainFiles<4064> = PlainFiles::new();
    is_strange(&mut files, catalog, size, rows, tree) == Ok(true)
}

#[test]
fn rows_without_any_catalog_are_strange(rt: HostRuntime) {
    assert!(rt; is_refused(b"", 0, Some(&ROWS), None));
}

#[test]
fn a_tree_without_any_catalog_is_strange(rt: HostRuntime) {
    assert!(rt; is_refused(b"", 0, Some(b""), Some(b"tree")));
}

#[test]
fn a_first_catalog_beside_rows_is_strange(rt: HostRuntime) {
    assert!(rt; is_refused(&first_relation(), 176, Some(&ROWS), None));
}

#[test]
fn a_first_catalog_without_a_file_of_rows_is_strange(rt: HostRuntime) {
    assert!(rt; is_refused(&first_relation(), 176, None, None));
}

#[test]
fn a_first_catalog_with_an_attribute_is_strange(rt: HostRuntime) {
    assert!(rt; is_refused(&one_relation(2), 176, Some(b""), None));
}

#[test]
fn bytes_behind_a_catalog_that_begin_no_mark_are_strange(rt: HostRuntime) {
    let mut bytes = one_relation(2);
    bytes[1472] = 3;
    assert!(rt; is_refused(&bytes, 1473, Some(&ROWS), None));
}

#[test]
fn a_mark_in_part_beside_a_row_in_part_is_strange(rt: HostRuntime) {
    assert!(rt; is_refused(&one_relation(2), 1473, Some(&ROWS[..11]), None));
}

#[test]
fn a_time_with_rows_in_a_catalog_without_the_mark_is_strange(rt: HostRuntime) {
    let rows = [7, 0, 0, 0, 0, 0, 0, 0, 1];
    assert!(rt; is_refused(&one_relation(4), 1472, Some(&rows), None));
}

#[test]
fn a_slot_with_bytes_behind_a_name_is_strange(rt: HostRuntime) {
    let mut bytes = one_relation(2);
    bytes[18] = b'x';
    assert!(rt; is_refused(&bytes, 1480, Some(&ROWS), None));
}

#[test]
fn a_slot_that_has_lost_its_name_alone_is_strange(rt: HostRuntime) {
    let mut bytes = one_relation(2);
    bytes[0] = 0;
    assert!(rt; is_refused(&bytes, 1480, Some(&ROWS), None));
}

#[test]
fn a_slot_that_was_being_emptied_without_its_rows_is_strange(rt: HostRuntime) {
    assert!(rt; is_refused(&emptied_relation(), 1480, None, None));
}

#[test]
fn an_emptied_slot_with_the_end_of_no_name_is_strange(rt: HostRuntime) {
    assert!(rt; is_refused(&emptied_up_to_a_name(b"it?de"), 1480, Some(b""), None));
}

#[test]
fn an_emptied_slot_with_the_end_of_too_long_a_name_is_strange(rt: HostRuntime) {
    assert!(rt;
        is_refused(
            &emptied_up_to_a_name(b"itudeitudeit"),
            1480,
            Some(b""),
            None
        )
    );
}

#[test]
fn an_attribute_that_is_not_counted_is_strange_where_there_are_rows(rt: HostRuntime) {
    let mut bytes = one_relation(2);
    bytes[34] = b'a';
    bytes[50] = 2;
    assert!(rt; is_refused(&bytes, 1480, Some(&ROWS), None));
}

#[test]
fn an_attribute_that_is_not_counted_is_strange_in_the_number_s_region(rt: HostRuntime) {
    let mut bytes = one_relation(2);
    bytes[160] = 0;
    bytes[142] = b'a';
    bytes[158] = 2;
    assert!(rt; is_refused(&bytes, 1480, Some(b""), None));
}

#[test]
fn a_relation_without_its_rows_is_strange(rt: HostRuntime) {
    assert!(rt; is_refused(&one_relation(2), 1480, None, None));
}

#[test]
fn a_mark_that_no_row_has_is_strange(rt: HostRuntime) {
    assert!(rt;
        is_refused(
            &one_relation(2),
            1480,
            Some(&[7, 0, 0, 0, 1, 5, 0, 0, 0, 2, 1]),
            None
        )
    );
}

#[test]
fn a_row_in_part_beside_rows_and_a_tree_in_part_is_strange(rt: HostRuntime) {
    assert!(rt;
        is_refused(
            &one_index(),
            1480,
            Some(&ROWS[..11]),
            Some(b"a part of a tree")
        )
    );
}

#[test]
fn a_tree_without_rows_that_is_not_empty_is_strange(rt: HostRuntime) {
    assert!(rt; is_refused(&one_index(), 1480, Some(b""), Some(b"a part of a tree")));
}

#[test]
fn a_tree_that_names_a_slot_behind_the_rows_is_strange(rt: HostRuntime) {
    let mut tree = [0; 689];
    tree[687] = 4;
    tree[688] = 1;
    assert!(rt; is_refused(&one_index(), 1480, Some(&ROWS), Some(&tree)));
}

#[test]
fn rows_and_a_tree_that_both_are_left_over_are_strange(rt: HostRuntime) {
    assert!(rt; is_refused(&no_relation(), 1480, Some(&ROWS), Some(b"tree")));
}

#[test]
fn keys_that_fall_are_strange(rt: HostRuntime) {
    let mut bytes = one_index();
    bytes[1408] = 1;
    assert!(rt; is_refused(&bytes, 1480, Some(&ROWS), None));
}
