//! Catalogs of version 1, which become version 2 with the next change of the catalog.

ghost use Rattle.std.specs.Prelude.{◌≡◌, IsTrue, None};

use crate::arrays::zeros;
use crate::cases::{LARGE, show};
use crate::filling::{fill, new_file, size_of};
use crate::told::{told, volume_over};
use afl_base::{Files, Kind};
use std::alloc::Global;
use std::test::Fail;

// The catalog of version 1 with the relation `n` of one attribute `v`.
fn old_catalog() -> [u8; 1472] {
    let mut bytes = [0u8; 1472];
    bytes[0] = b'n';
    bytes[16] = b'v';
    bytes[32] = 1;
    bytes[160] = 1;
    for slot in 0..8usize {
        bytes[176 * slot + 175] = 1;
        bytes[1408 + 8 * slot + 7] = 1;
    }
    bytes
}

// Makes the files of the relation `n` of version 1, with this many rows of the number 5.
fn make_old<V: Files>(files: &mut V, rows: u16) -> bool
    requires { (V.state files.old).draft ≡ None }
    ensures { IsTrue result → (V.state files.new).draft ≡ None }
{
    match new_file(files, b"CAT", Kind::Fixed(6)) {
        Some(cat) if fill(files, cat, &old_catalog()) => make_rows(files, rows),
        _ => false,
    }
}

fn make_rows<V: Files>(files: &mut V, rows: u16) -> bool
    requires { (V.state files.old).draft ≡ None }
    ensures { IsTrue result → (V.state files.new).draft ≡ None }
{
    let Some(file) = new_file(files, b"T0", Kind::Doubling) else {
        return false;
    };
    for row in 0..rows {
        if !fill(files, file, &[5, 0, 1]) {
            return false;
        }
    }
    true
}

// What a text gives over files that are made so, and the files after it.
fn told_old<V: Files + Drop>(
    alloc: Global,
    files: V,
    rows: u16,
    text: &[u8],
) -> Option<(Vec<u8>, V)>
    requires { (V.state files).draft ≡ None }
{
    let mut files = files;
    if make_old(&mut files, rows) {
        told(alloc, files, text)
    } else {
        None
    }
}

// A script over this many rows of version 1, its replies, and the bytes of the catalog after it, where they
// are looked at.
#[derive(Drop)]
struct Case {
    rows: u16,
    script: &'static [u8],
    replies: &'static [u8],
    catalog: Option<u32>,
}

// Whether a script has the replies of its case, and leaves a catalog of its size.
fn is_told<V: Files + Drop>(alloc: Global, files: V, case: &Case) -> bool
    requires { (V.state files).draft ≡ None }
{
    match told_old(alloc, files, case.rows, case.script) {
        Some((written, files)) => {
            written.as_slice() == case.replies
                && (case.catalog.is_none() || size_of(&files, b"CAT") == case.catalog)
        }
        None => false,
    }
}

fn is_told_on_flash(alloc: Global, case: &Case) -> bool {
    match volume_over(zeros(alloc, LARGE).as_mut_slice()) {
        Some(volume) => is_told(alloc, volume, case),
        None => false,
    }
}

const READ: Case = Case {
    rows: 1,
    script: b"SELECT v FROM n;INSERT (6) INTO n;",
    replies: b"5\nrows 1\nok\n",
    catalog: Some(1_472),
};

#[test]
fn an_old_catalog_stays_as_it_is_where_it_is_read(rt: HostRuntime) -> Result<(), Fail> {
    show(
        is_told_on_flash(rt.alloc(), &READ),
        "a row of version 1 is read",
    )
}

const CHANGED: Case = Case {
    rows: 1,
    script: b"SELECT v FROM n;INSERT (6) INTO n;CREATE ATTRIBUTE t DOMAIN TIME IN n;CREATE RELATION m;\
        CREATE ATTRIBUTE t DOMAIN time IN m;INSERT (140737488355327) INTO m;\
        INSERT (140737488355328) INTO m;INSERT (-1) INTO m;CREATE INDEX m.t TYPE MAXHEAP;\
        CREATE INDEX m.t TYPE INLINE;INSERT (5) INTO m;SELECT t FROM m WHERE t > 5;",
    replies: b"5\nrows 1\nok\nno empty\nok\nok\nok\nno value 1\nno value 1\nno domain\nok\n\
        no ordered 140737488355327\n140737488355327\nrows 1\n",
    catalog: Some(1_480),
};

#[test]
fn an_old_catalog_becomes_new_with_the_next_change(rt: HostRuntime) -> Result<(), Fail> {
    let told = is_told_on_flash(rt.alloc(), &CHANGED);
    show(told, "an attribute of the domain TIME is made")
}

const FULL: Case = Case {
    rows: 16_384,
    script: b"INSERT (1) INTO n;CREATE RELATION m;INSERT (1) INTO n;",
    replies: b"no full slots 16384\nok\nok\n",
    catalog: None,
};

#[test]
fn a_relation_of_version_1_has_16_384_slots(rt: HostRuntime) -> Result<(), Fail> {
    show(
        is_told_on_flash(rt.alloc(), &FULL),
        "16,384 slots are all of version 1",
    )
}
