ghost use Rattle.std.specs.Prelude.{◌≡◌, None, IfSome};

use crate::calls::{doubling_file, live_files, make};
use crate::mounted::{mounted, named};
use crate::rows::{append_short_rows, are_long_rows, insert_long_rows, long_rows, short_rows};
use afl_base::{FileError, Files, Flash, Kind, Name, SlotNo};
use afl_sim::MemFlash;
use coffee_volume::Volume;
use db_model::{Tuple, Value};
use std::test::Fail;

#[test]
fn rows_of_128_bytes_are_read_back(rt: HostRuntime) -> Result<(), Fail> {
    let mut image = vec![in rt.alloc(); 0u8; 262_144]?;
    assert_eq!(rt; keep_long_rows(&mut image), Ok(true));
    Ok(())
}

#[test]
fn rows_are_counted_up_to_32768(rt: HostRuntime) -> Result<(), Fail> {
    let mut image = vec![in rt.alloc(); 0u8; 1_048_576]?;
    assert_eq!(rt; last_of_short_rows(&mut image), Ok(Some((32_768, 32_767))));
    Ok(())
}

// Writes long rows into a new file of a flash, and reads them back. It answers whether all are there.
fn keep_long_rows(image: &mut [u8]) -> Result<bool, FileError> {
    match MemFlash::new(image) {
        Some(flash) => keep_long_rows_over(flash),
        None => Ok(false),
    }
}

fn keep_long_rows_over<F: Flash + Drop>(flash: F) -> Result<bool, FileError> {
    match with_a_file(flash) {
        Some(mut volume) => write_long_rows(&mut volume, named(b"T0")),
        None => Ok(false),
    }
}

// The files of a flash, with a new one.
fn with_a_file<F: Flash + Drop>(flash: F) -> Option<Volume<F>>
    ensures { IfSome result (λ v. (⟦<Volume<F> as Files>⟧.state v).draft ≡ None) }
{
    let mut volume = mounted(flash)?;
    let mut used = live_files(&volume);
    match make(&mut volume, &mut used, named(b"T0"), Kind::Doubling) {
        Ok(true) => Some(volume),
        _ => None,
    }
}

// Writes 200 rows of 128 bytes into an empty file, and reads them back.
fn write_long_rows<V: Files>(files: &mut V, name: Name) -> Result<bool, FileError>
    requires { (V.state files.old).draft ≡ None }
{
    let Some(file) = doubling_file(files, name) else {
        return Ok(false);
    };
    let tuples = long_rows(file);
    if !tuples.valid(files, 2)? || tuples.count(files) != 0 {
        return Ok(false);
    }
    if !insert_long_rows(files, &tuples, 200)? {
        return Ok(false);
    }
    if tuples.count(files) != 200 || files.size(file) != 25_600 {
        return Ok(false);
    }
    are_long_rows(files, &tuples, 200)
}

// Writes all short rows into a new file of a flash. It answers how many there are, and the number in
// the last.
fn last_of_short_rows(image: &mut [u8]) -> Result<Option<(u16, i64)>, FileError> {
    match MemFlash::new(image) {
        Some(flash) => last_of_short_rows_over(flash),
        None => Ok(None),
    }
}

fn last_of_short_rows_over<F: Flash + Drop>(flash: F) -> Result<Option<(u16, i64)>, FileError> {
    match with_a_file(flash) {
        Some(mut volume) => all_short_rows(&mut volume, named(b"T0")),
        None => Ok(None),
    }
}

fn all_short_rows<V: Files>(files: &mut V, name: Name) -> Result<Option<(u16, i64)>, FileError>
    requires { (V.state files.old).draft ≡ None }
{
    if !append_short_rows(files, name)? {
        return Ok(None);
    }
    last_short_row(files, name)
}

// The number of slots of a relation, and the number in slot 32,767.
fn last_short_row<V: Files>(files: &mut V, name: Name) -> Result<Option<(u16, i64)>, FileError> {
    let Some(file) = doubling_file(files, name) else {
        return Ok(None);
    };
    let tuples = short_rows(file);
    let Some(slot) = SlotNo::new(32_767) else {
        return Ok(None);
    };
    if !tuples.valid(files, 2)? {
        return Ok(None);
    }
    let count = tuples.count(files);
    let mut tuple = Tuple::new();
    if count <= 32_767 || !tuples.row(files, slot, &mut tuple)? {
        return Ok(None);
    }
    match tuple.as_slice() {
        [Value::Number(number)] => Ok(Some((count, *number))),
        _ => Ok(None),
    }
}
