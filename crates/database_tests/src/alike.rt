ghost use Rattle.std.specs.Prelude.{◌≡◌, OnOk, None};

use crate::trees::{built_tree, put_key};
use afl_base::{FileError, FileId, Files, Kind};
use afl_sim::PlainFiles;
use test_steps::{appended, new_file, read_from, size_of};

// The two bytes of one of six keys; the first four share three digits of four.
fn key_for(seed: u32) -> (u8, u8) {
    match seed / 65536 % 6 {
        0 => (7, 0),
        1 => (71, 0),
        2 => (135, 0),
        3 => (199, 0),
        4 => (255, 255),
        _ => (8, 0),
    }
}

// 600 rows of mixed keys, so that chains of several lowest nodes grow in turn.
fn mixed_rows() -> [u8; 1800] {
    let mut rows = [1; 1800];
    let mut seed = 1u32;
    for row in 0..600usize {
        seed = seed.wrapping_mul(1664525).wrapping_add(1013904223);
        let (low, high) = key_for(seed);
        rows[3 * row] = low;
        rows[3 * row + 1] = high;
    }
    rows
}

// The tree that is built over the rows.
fn built<V: Files>(files: &mut V, bytes: &[u8; 1800]) -> Result<FileId, FileError>
    requires idle { (V.state files.old).draft ≡ None }
    ensures idle { OnOk result ((V.state files.new).draft ≡ None) }
{
    let rows = new_file(files, b"T0", Kind::Doubling)?;
    appended(files, rows, bytes)?;
    built_tree(files, b"X0", rows, 600)
}

// The tree that the keys of the rows make when they are inserted one by one.
fn grown<V: Files>(files: &mut V, bytes: &[u8; 1800]) -> Result<FileId, FileError>
    requires idle { (V.state files.old).draft ≡ None }
    ensures idle { OnOk result ((V.state files.new).draft ≡ None) }
{
    let empty = new_file(files, b"T0", Kind::Doubling)?;
    let index = built_tree(files, b"X0", empty, 0)?;
    for slot in 0..600u16 {
        let row = 3 * usize::from(slot);
        let key = if bytes[row + 1] == 255 {
            -1
        } else {
            i32::from(bytes[row])
        };
        put_key(files, index, &key, slot)?;
    }
    Ok(index)
}

// Whether two files have the same bytes.
fn are_alike<V: Files>(
    files: &mut V,
    id: FileId,
    others: &mut V,
    other: FileId,
) -> Result<bool, FileError>
    requires idle { (V.state files.old).draft ≡ None }
    requires others { (V.state others.old).draft ≡ None }
{
    let size = size_of(files, id);
    if size_of(others, other) != size {
        return Ok(false);
    }
    for at in 0..size {
        let mut one = [0; 1];
        let mut two = [1; 1];
        read_from(files, id, at, &mut one)?;
        read_from(others, other, at, &mut two)?;
        if one[0] != two[0] {
            return Ok(false);
        }
    }
    Ok(true)
}

// Whether the built tree and the grown one are alike, and of more than 20 buckets.
fn builds_what_grows<V: Files>(files: &mut V, others: &mut V) -> Result<bool, FileError>
    requires idle { (V.state files.old).draft ≡ None }
    requires others { (V.state others.old).draft ≡ None }
{
    let bytes = mixed_rows();
    let built = built(files, &bytes)?;
    let grown = grown(others, &bytes)?;
    if size_of(others, grown) <= 683 + 20 * 195 {
        return Ok(false);
    }
    are_alike(files, built, others, grown)
}

#[test]
fn a_built_tree_is_the_one_that_inserts_make(rt: HostRuntime) {
    let mut files: PlainFiles<16352> = PlainFiles::new();
    let mut others: PlainFiles<16352> = PlainFiles::new();
    assert!(rt; builds_what_grows(&mut files, &mut others) == Ok(true));
}
