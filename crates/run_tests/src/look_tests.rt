//! What `look` writes about an image.

use crate::cases::show;
use crate::running::{MANY, ask, copied, erased};
use crate::samples::{TWO_ROWS, made_of};
use crate::strangers::{set, version_1};
use std::alloc::Global;
use std::test::Fail;

// Whether just these lines are told of an image, which stays as it is.
fn is_told(alloc: Global, image: &mut [u8], lines: &[u8]) -> bool {
    let before = copied(alloc, image);
    let ended = ask(alloc, &["look", "image"], image);
    ended.is(0, lines) && &*image == before.as_slice()
}

const ERASED: &[u8] = b"flash sectors 256 pages free 4096 in files 0 in logs 0 to be collected 0\n";

const ISOLATED: &[u8] =
    b"flash sectors 256 pages free 4095 in files 0 in logs 0 to be collected 1\n";

#[test]
fn an_isolated_page_is_to_be_collected(rt: HostRuntime) -> Result<(), Fail> {
    let mut image = erased(rt.alloc(), MANY);
    let erased = is_told(rt.alloc(), image.as_mut_slice(), ERASED);
    show(erased, "an erased image")?;
    set(image.as_mut_slice(), 256 * 4_080 + 9, 34);
    let isolated = is_told(rt.alloc(), image.as_mut_slice(), ISOLATED);
    show(isolated, "an isolated page")
}

// Of CAT there are 6 pages, of its log 16, and of T0 16.
const TWO_ROWS_TOLD: &[u8] = b"relation s (k LONG, t STRING(3)) rows 2 removed 0 slots left 32766\n\
    flash sectors 256 pages free 4058 in files 22 in logs 16 to be collected 0\n";

#[test]
fn rows_and_pages_are_counted(rt: HostRuntime) -> Result<(), Fail> {
    let mut image = made_of(rt.alloc(), TWO_ROWS, 5);
    let told = is_told(rt.alloc(), image.as_mut_slice(), TWO_ROWS_TOLD);
    show(told, "two rows")
}

const VERSION_1_TOLD: &[u8] = b"relation n (v INT) rows 0 removed 0 slots left 16384\n\
    flash sectors 256 pages free 4074 in files 22 in logs 0 to be collected 0\n";

#[test]
fn version_1_has_fewer_slots(rt: HostRuntime) -> Result<(), Fail> {
    let mut image = version_1(rt.alloc(), 1, 16);
    let told = is_told(rt.alloc(), image.as_mut_slice(), VERSION_1_TOLD);
    show(told, "a relation of version 1")
}
