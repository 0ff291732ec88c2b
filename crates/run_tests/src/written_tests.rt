//! A database that is written as a script.

use crate::cases::show;
use crate::running::{MANY, ask, copied, erased, text};
use crate::samples::{SEVENS, TWO_ROWS, made_by, made_of};
use std::alloc::Global;
use std::test::Fail;
use test_steps::Part;

// Whether an image is written as just this script, and stays as it is.
fn dumps(alloc: Global, image: &mut [u8], script: &[u8]) -> bool {
    let before = copied(alloc, image);
    let ended = ask(alloc, &["dump", "image"], image);
    ended.is(0, script) && &*image == before.as_slice()
}

const TWO_ROWS_WRITTEN: &[u8] =
    b"CREATE RELATION s;\nCREATE ATTRIBUTE k DOMAIN LONG IN s;\nCREATE ATTRIBUTE t DOMAIN STRING(3) IN s;\n\
    INSERT (5, 'abc') INTO s;\nINSERT (-1, '') INTO s;\n";

#[test]
fn two_rows_are_written_as_five_commands(rt: HostRuntime) -> Result<(), Fail> {
    let mut image = made_of(rt.alloc(), TWO_ROWS, 5);
    let written = dumps(rt.alloc(), image.as_mut_slice(), TWO_ROWS_WRITTEN);
    show(written, "the script that is written")
}

#[test]
fn an_erased_image_is_written_as_nothing(rt: HostRuntime) -> Result<(), Fail> {
    let mut image = erased(rt.alloc(), MANY);
    show(
        dumps(rt.alloc(), image.as_mut_slice(), b""),
        "the script that is written",
    )
}

const SEVENS_WRITTEN: &[Part] = &[
    Part::Once("CREATE RELATION n;\nCREATE ATTRIBUTE v DOMAIN INT IN n;\n"),
    Part::Often("INSERT (7) INTO n;\n", 256),
    Part::Once("CREATE INDEX n.v TYPE MAXHEAP;\n"),
];

#[test]
fn what_is_written_makes_itself_again(rt: HostRuntime) -> Result<(), Fail> {
    let script = text(rt.alloc(), SEVENS_WRITTEN);
    let mut image = made_of(rt.alloc(), SEVENS, 259);
    let written = dumps(rt.alloc(), image.as_mut_slice(), script.as_slice());
    show(written, "the script that is written")?;
    let mut again = made_by(rt.alloc(), script.as_slice(), 259);
    let same = dumps(rt.alloc(), again.as_mut_slice(), script.as_slice());
    show(same, "the same script is written again")
}
