ghost use Rattle.std.specs.Prelude.{◌≡◌, None, OnOk};

use crate::database::{
    ROWS, emptied_relation, emptied_up_to_a_name, first_relation, no_relation, one_index,
    one_relation, put_catalog, put_growing, six_attributes,
};
use crate::mended::{byte_at, is_mended, size_named};
use afl_base::{FileError, Files};
use afl_sim::PlainFiles;

fn takes_a_first_catalog_back<V: Files>(files: &mut V) -> Result<bool, FileError>
    requires idle { (V.state files.old).draft ≡ None }
{
    put_catalog(files, &first_relation(), 176)?;
    put_growing(files, b"T0", b"")?;
    let lines = b"catalog taken back\nrelation of slot 0 removed\n";
    let mended = is_mended(files, lines)?;
    Ok(mended && size_named(files, b"CAT").is_none() && size_named(files, b"T0").is_none())
}

#[test]
fn a_first_catalog_that_is_not_whole_is_taken_back(rt: HostRuntime) {
    let mut files: PlainFiles<4064> = PlainFiles::new();
    assert!(rt; takes_a_first_catalog_back(&mut files) == Ok(true));
}

fn takes_a_first_name_back<V: Files>(files: &mut V) -> Result<bool, FileError>
    requires idle { (V.state files.old).draft ≡ None }
{
    put_catalog(files, b"interior", 2)?;
    put_growing(files, b"T0", b"")?;
    let lines = b"catalog taken back\nrelation of slot 0 removed\n";
    is_mended(files, lines)
}

#[test]
fn a_first_catalog_whose_name_is_cut_to_a_keyword_is_taken_back(rt: HostRuntime) {
    let mut files: PlainFiles<4064> = PlainFiles::new();
    assert!(rt; takes_a_first_name_back(&mut files) == Ok(true));
}

fn completes_a_mark<V: Files>(files: &mut V) -> Result<bool, FileError>
    requires idle { (V.state files.old).draft ≡ None }
{
    put_catalog(files, &one_relation(2), 1473)?;
    put_growing(files, b"T0", &ROWS)?;
    let mended = is_mended(files, b"catalog mark written\n")?;
    Ok(mended && size_named(files, b"CAT") == Some(1480))
}

#[test]
fn a_mark_that_is_not_whole_is_completed(rt: HostRuntime) {
    let mut files: PlainFiles<4064> = PlainFiles::new();
    assert!(rt; completes_a_mark(&mut files) == Ok(true));
}

fn marks_a_time<V: Files>(files: &mut V) -> Result<bool, FileError>
    requires idle { (V.state files.old).draft ≡ None }
{
    put_catalog(files, &one_relation(4), 1472)?;
    put_growing(files, b"T0", b"")?;
    let mended = is_mended(files, b"catalog mark written\n")?;
    Ok(mended && size_named(files, b"CAT") == Some(1480))
}

#[test]
fn a_catalog_with_a_time_gets_its_mark(rt: HostRuntime) {
    let mut files: PlainFiles<4064> = PlainFiles::new();
    assert!(rt; marks_a_time(&mut files) == Ok(true));
}

fn leaves_version_1<V: Files>(files: &mut V) -> Result<bool, FileError>
    requires idle { (V.state files.old).draft ≡ None }
{
    put_catalog(files, &one_relation(2), 1472)?;
    put_growing(files, b"T0", &ROWS)?;
    let mended = is_mended(files, b"")?;
    Ok(mended && size_named(files, b"CAT") == Some(1472))
}

#[test]
fn a_sound_catalog_of_version_1_stays(rt: HostRuntime) {
    let mut files: PlainFiles<4064> = PlainFiles::new();
    assert!(rt; leaves_version_1(&mut files) == Ok(true));
}

fn empties_a_slot<V: Files>(files: &mut V) -> Result<bool, FileError>
    requires idle { (V.state files.old).draft ≡ None }
{
    put_catalog(files, &emptied_relation(), 1480)?;
    put_growing(files, b"T0", &ROWS)?;
    let mended = is_mended(files, b"relation of slot 0 removed\n")?;
    let emptied = byte_at(files, b"CAT", 160)? == Some(0);
    Ok(mended && emptied && size_named(files, b"T0").is_none())
}

#[test]
fn a_slot_that_is_empty_up_to_a_region_is_emptied(rt: HostRuntime) {
    let mut files: PlainFiles<4064> = PlainFiles::new();
    assert!(rt; empties_a_slot(&mut files) == Ok(true));
}

fn takes_an_attribute_back<V: Files>(files: &mut V) -> Result<bool, FileError>
    requires idle { (V.state files.old).draft ≡ None }
{
    let mut bytes = one_relation(2);
    bytes[34] = b'a';
    bytes[50] = 4;
    put_catalog(files, &bytes, 1472)?;
    put_growing(files, b"T0", b"")?;
    let mended = is_mended(files, b"attribute of r taken back\n")?;
    let zero = byte_at(files, b"CAT", 34)? == Some(0) && byte_at(files, b"CAT", 50)? == Some(0);
    let kept = byte_at(files, b"CAT", 16)? == Some(b'k');
    Ok(mended && zero && kept && size_named(files, b"CAT") == Some(1472))
}

#[test]
fn an_attribute_that_is_not_counted_is_taken_back(rt: HostRuntime) {
    let mut files: PlainFiles<4064> = PlainFiles::new();
    assert!(rt; takes_an_attribute_back(&mut files) == Ok(true));
}

fn takes_a_name_back<V: Files>(files: &mut V) -> Result<bool, FileError>
    requires idle { (V.state files.old).draft ≡ None }
{
    put_catalog(files, &six_attributes(b"long"), 1480)?;
    put_growing(files, b"T0", b"")?;
    let mended = is_mended(files, b"attribute of r taken back\n")?;
    Ok(mended && byte_at(files, b"CAT", 124)? == Some(0))
}

#[test]
fn the_name_longitude_that_is_cut_to_a_keyword_is_taken_back(rt: HostRuntime) {
    let mut files: PlainFiles<4064> = PlainFiles::new();
    assert!(rt; takes_a_name_back(&mut files) == Ok(true));
}

fn empties_a_slot_up_to_a_name<V: Files>(files: &mut V) -> Result<bool, FileError>
    requires idle { (V.state files.old).draft ≡ None }
{
    put_catalog(files, &emptied_up_to_a_name(b"itude"), 1480)?;
    put_growing(files, b"T0", b"")?;
    let mended = is_mended(files, b"relation of slot 0 removed\n")?;
    Ok(mended && byte_at(files, b"CAT", 128)? == Some(0))
}

#[test]
fn a_slot_that_is_empty_up_to_the_middle_of_a_name_is_emptied(rt: HostRuntime) {
    let mut files: PlainFiles<4064> = PlainFiles::new();
    assert!(rt; empties_a_slot_up_to_a_name(&mut files) == Ok(true));
}

fn takes_an_index_back<V: Files>(files: &mut V) -> Result<bool, FileError>
    requires idle { (V.state files.old).draft ≡ None }
{
    put_catalog(files, &one_index(), 1480)?;
    put_growing(files, b"T0", &ROWS)?;
    let mended = is_mended(files, b"index on r.k taken back\n")?;
    let emptied = byte_at(files, b"CAT", 1408)? == Some(0);
    Ok(mended && emptied && size_named(files, b"T0") == Some(15))
}

#[test]
fn an_index_without_its_tree_is_taken_back(rt: HostRuntime) {
    let mut files: PlainFiles<4064> = PlainFiles::new();
    assert!(rt; takes_an_index_back(&mut files) == Ok(true));
}

fn removes_rows<V: Files>(files: &mut V) -> Result<bool, FileError>
    requires idle { (V.state files.old).draft ≡ None }
{
    put_catalog(files, &no_relation(), 1480)?;
    put_growing(files, b"T2", &ROWS)?;
    let mended = is_mended(files, b"relation of slot 2 removed\n")?;
    Ok(mended && size_named(files, b"T2").is_none())
}

#[test]
fn rows_that_the_catalog_does_not_ask_for_are_removed(rt: HostRuntime) {
    let mut files: PlainFiles<4064> = PlainFiles::new();
    assert!(rt; removes_rows(&mut files) == Ok(true));
}

fn removes_a_tree<V: Files>(files: &mut V) -> Result<bool, FileError>
    requires idle { (V.state files.old).draft ≡ None }
{
    put_catalog(files, &one_relation(2), 1480)?;
    put_growing(files, b"T0", &ROWS)?;
    put_growing(files, b"X3", b"tree")?;
    let mended = is_mended(files, b"index of slot 3 removed\n")?;
    Ok(mended && size_named(files, b"X3").is_none() && size_named(files, b"T0") == Some(15))
}

#[test]
fn a_tree_that_the_catalog_does_not_ask_for_is_removed(rt: HostRuntime) {
    let mut files: PlainFiles<4064> = PlainFiles::new();
    assert!(rt; removes_a_tree(&mut files) == Ok(true));
}

fn fills_a_row<V: Files>(files: &mut V) -> Result<bool, FileError>
    requires idle { (V.state files.old).draft ≡ None }
{
    put_catalog(files, &one_relation(2), 1480)?;
    put_growing(files, b"T0", &ROWS[..11])?;
    let mended = is_mended(files, b"row of r taken back\n")?;
    let kept = byte_at(files, b"T0", 5)? == Some(5) && byte_at(files, b"T0", 10)? == Some(7);
    let removed = byte_at(files, b"T0", 14)? == Some(3);
    Ok(mended && kept && removed && size_named(files, b"T0") == Some(15))
}

#[test]
fn a_row_that_is_not_whole_is_filled_to_a_removed_one(rt: HostRuntime) {
    let mut files: PlainFiles<4064> = PlainFiles::new();
    assert!(rt; fills_a_row(&mut files) == Ok(true));
}

fn builds_a_tree<V: Files>(files: &mut V) -> Result<bool, FileError>
    requires idle { (V.state files.old).draft ≡ None }
{
    put_catalog(files, &one_index(), 1480)?;
    put_growing(files, b"T0", &ROWS)?;
    put_growing(files, b"X0", b"a part of a tree")?;
    let mended = is_mended(files, b"index on r.k built anew\n")?;
    let first_key = byte_at(files, b"X0", 683)? == Some(7);
    Ok(mended && first_key && size_named(files, b"X0") == Some(878))
}

#[test]
fn a_tree_that_lacks_keys_is_built_anew(rt: HostRuntime) {
    let mut files: PlainFiles<4064> = PlainFiles::new();
    assert!(rt; builds_a_tree(&mut files) == Ok(true));
}
