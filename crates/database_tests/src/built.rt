ghost use Rattle.std.specs.Prelude.{◌≡◌, OnOk, None};

use crate::trees::{buckets, built_tree, finds_all, is_tree};
use crate::volumes::mounted;
use afl_base::{FileError, FileId, Files, Kind, get_u16};
use afl_sim::{CutFlash, MemFlash, PlainFiles};
use std::test::Fail;
use test_steps::{appended, new_file, read_from, size_of};

// 256 rows of one key.
fn rows_of(low: u8, high: u8) -> [u8; 768] {
    let mut rows = [1; 768];
    for row in 0..256usize {
        rows[3 * row] = low;
        rows[3 * row + 1] = high;
    }
    rows
}

// A new file of rows, 256 at a time this many times.
fn rows_in<V: Files>(files: &mut V, bytes: &[u8; 768], times: u16) -> Result<FileId, FileError>
    requires idle { (V.state files.old).draft ≡ None }
    ensures idle { OnOk result ((V.state files.new).draft ≡ None) }
{
    let rows = new_file(files, b"T0", Kind::Doubling)?;
    for turn in 0..times {
        appended(files, rows, bytes)?;
    }
    Ok(rows)
}

// The number that stands at a place.
fn number_at<V: Files>(files: &mut V, index: FileId, place: u32) -> Result<u16, FileError>
    requires idle { (V.state files.old).draft ≡ None }
    ensures idle { OnOk result ((V.state files.new).draft ≡ None) }
{
    let mut two = [0; 2];
    read_from(files, index, place, &mut two)?;
    Ok(get_u16(&two, 0))
}

// Whether these numbers stand at their places.
fn has_numbers<V: Files>(
    files: &mut V,
    index: FileId,
    numbers: &[(u32, u16)],
) -> Result<bool, FileError>
    requires idle { (V.state files.old).draft ≡ None }
    ensures idle { OnOk result ((V.state files.new).draft ≡ None) }
{
    for (place, number) in numbers.iter() {
        if number_at(files, index, *place)? != *number {
            return Ok(false);
        }
    }
    Ok(true)
}

// The heads on the path of the key 7, and the chain after its lowest node.
const PATH_OF_7: [(u32, u16); 10] = [
    (0, 1),
    (2 * 4, 2),
    (2 * 18, 3),
    (2 * 73, 4),
    (2 * 293, 5),
    (2 * 5, 0),
    (1655, 6),
    (1850, 7),
    (2045, 8),
    (2240, 0),
];

// Whether 256 rows of the key 7 make a tree of one path and its chain, and 255 of them another.
fn fills_a_path<V: Files>(files: &mut V) -> Result<bool, FileError>
    requires idle { (V.state files.old).draft ≡ None }
{
    let rows = rows_in(files, &rows_of(7, 0), 1)?;
    let index = built_tree(files, b"X0", rows, 256)?;
    if size_of(files, index) != 2243 || size_of(files, rows) != 768 {
        return Ok(false);
    }
    if !has_numbers(files, index, &PATH_OF_7)? || !is_tree(files, index, rows, 256)? {
        return Ok(false);
    }
    Ok(!is_tree(files, index, rows, 255)?)
}

#[test]
fn equal_keys_fill_a_path_and_its_chain(rt: HostRuntime) {
    let mut files: PlainFiles<4064> = PlainFiles::new();
    assert!(rt; fills_a_path(&mut files) == Ok(true));
}

// 256 pairs in eight buckets go out in 64 groups, with two writes more for each bucket.
#[test]
fn a_tree_is_built_in_few_writes(rt: HostRuntime) -> Result<(), Fail> {
    let mut image = vec![in rt.alloc(); 0u8; 65_536]?;
    let mut volume = mounted(CutFlash::new(&mut image, 120, 0).ok_or("no flash")?)?;
    assert!(rt; fills_a_path(&mut volume) == Ok(true));
    Ok(())
}

// The heads on the path of the key -1.
const PATH_BELOW_ZERO: [(u32, u16); 5] = [(0, 1), (2, 2), (2 * 5, 3), (2 * 21, 4), (2 * 85, 5)];

fn has_a_path_below_zero<V: Files>(files: &mut V) -> Result<bool, FileError>
    requires idle { (V.state files.old).draft ≡ None }
{
    let rows = rows_in(files, &rows_of(255, 255), 1)?;
    let index = built_tree(files, b"X0", rows, 256)?;
    Ok(size_of(files, rows) == 768 && has_numbers(files, index, &PATH_BELOW_ZERO)?)
}

#[test]
fn a_key_below_zero_has_its_path(rt: HostRuntime) {
    let mut files: PlainFiles<4064> = PlainFiles::new();
    assert!(rt; has_a_path_below_zero(&mut files) == Ok(true));
}

// Whether a tree of 32,768 equal keys has the right size, keeps its rules for this many slots and no
// fewer, and is searched through in order.
fn chains_equal_keys<V: Files>(files: &mut V, keys: &[i32]) -> Result<bool, FileError>
    requires idle { (V.state files.old).draft ≡ None }
{
    let rows = rows_in(files, &rows_of(7, 0), 128)?;
    if size_of(files, rows) != 98_304 || buckets(files, rows, 32_768)? != 1_024 {
        return Ok(false);
    }
    let index = built_tree(files, b"X0", rows, 32_768)?;
    if size_of(files, index) != 200_363 || size_of(files, rows) != 98_304 {
        return Ok(false);
    }
    if !is_tree(files, index, rows, 32_768)? || is_tree(files, index, rows, 32_767)? {
        return Ok(false);
    }
    finds_all(files, index, keys, 32_768, &7)
}

#[test]
fn a_chain_holds_32768_equal_keys(rt: HostRuntime) -> Result<(), Fail> {
    let mut image = vec![in rt.alloc(); 0u8; 1_048_576]?;
    let keys = vec![in rt.alloc(); 7i32; 32_768]?;
    let mut volume = mounted(MemFlash::new(&mut image).ok_or("no flash")?)?;
    assert!(rt; chains_equal_keys(&mut volume, &keys) == Ok(true));
    Ok(())
}
