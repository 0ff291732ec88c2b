//! How often a change of many rows programs its flash.

ghost use Rattle.std.specs.Prelude.{◌≡◌, None};

use crate::calls::doubling_file;
use crate::mounted::{SIZE, erased, mounted, named};
use crate::rows::{make_short_rows, short_rows};
use afl_base::{FileError, Files, Name};
use afl_sim::CutFlash;
use tuple_file::Span;

// What is done with the rows of a relation.
#[derive(Clone, Copy)]
enum Change {
    // Those of odd numbers are removed.
    Remove,
    // Those that are removed are dropped.
    Pack,
}

fn carry_out<V: Files>(files: &mut V, change: Change) -> Result<bool, FileError>
    requires { (V.state files.old).draft ≡ None }
{
    let name = named(b"T0");
    match change {
        Change::Remove => remove_odd(files, name),
        Change::Pack => pack(files, name),
    }
}

fn remove_odd<V: Files>(files: &mut V, name: Name) -> Result<bool, FileError>
    requires { (V.state files.old).draft ≡ None }
{
    let Some(file) = doubling_file(files, name) else {
        return Ok(false);
    };
    let tuples = short_rows(file);
    if !tuples.valid(files, 2)? {
        return Ok(false);
    }
    let all = Span {
        first: 0,
        end: tuples.count(files),
    };
    tuples.rewrite(files, &all, |row: &[u8]| match row.first() {
        Some(low) => *low % 2 == 1,
        None => false,
    })?;
    Ok(true)
}

fn pack<V: Files>(files: &mut V, name: Name) -> Result<bool, FileError>
    requires { (V.state files.old).draft ≡ None }
{
    let Some(file) = doubling_file(files, name) else {
        return Ok(false);
    };
    let tuples = short_rows(file);
    if !tuples.valid(files, 2)? {
        return Ok(false);
    }
    tuples.pack(files)?;
    Ok(tuples.count(files) == 150)
}

// Whether a change is done by this many programs and erases.
fn is_done_by(image: &mut [u8; SIZE], what: Change, writes: u64) -> bool {
    let all = &mut image[..];
    let Some(flash) = CutFlash::new(all, writes, 0) else {
        return false;
    };
    match mounted(flash) {
        Some(mut volume) => carry_out(&mut volume, what) == Ok(true),
        None => false,
    }
}

// Whether it is done by this many, and not by one less.
fn takes(image: &mut [u8; SIZE], what: Change, writes: u64) -> bool {
    let mut copy = *image;
    !is_done_by(&mut copy, what, writes.saturating_sub(1)) && is_done_by(image, what, writes)
}

#[test]
fn rows_of_a_draft_are_programmed_many_at_once(rt: HostRuntime) {
    let mut image = erased();
    assert!(rt; make_short_rows(&mut image));
    // The header of the draft, the flag of the draft and that of the file before are one program each.
    // Between them 900 bytes, after a header of 32, lie in four pages, each of which is programmed once.
    assert!(rt; takes(&mut image, Change::Remove, 7));
    // 450 bytes lie in two.
    assert!(rt; takes(&mut image, Change::Pack, 5));
}
