//! Generated commands.

use crate::cases::{Case, expect_on, show};
use crate::running::{MANY, ask, erased};
use std::alloc::Global;
use std::test::Fail;
use test_steps::Part;

// Whether the generated commands of these words over an image are counted by just this line.
fn counts(alloc: Global, seed: &str, commands: &str, image: &mut [u8], line: &[u8]) -> bool {
    ask(alloc, &["gen", "image", seed, commands], image).is(0, line)
}

// The same of an erased image.
fn counts_anew(alloc: Global, commands: &str, line: &[u8]) -> bool {
    counts(
        alloc,
        "1",
        commands,
        erased(alloc, MANY).as_mut_slice(),
        line,
    )
}

#[test]
fn the_first_commands_are_counted(rt: HostRuntime) -> Result<(), Fail> {
    let four = counts_anew(rt.alloc(), "4", b"commands 4 ok 4 rows 0 refused 0\n");
    show(four, "four commands are counted")?;
    let more = counts_anew(rt.alloc(), "64", b"commands 64 ok 63 rows 1 refused 0\n");
    show(more, "64 commands are counted")
}

const COUNTED: Case = Case {
    shows: "the rows that are left",
    script: &[Part::Once("SELECT COUNT(v) FROM w;")],
    replies: &[Part::Once("19684\nrows 1\n")],
};

#[test]
fn twenty_thousand_commands_leave_their_rows(rt: HostRuntime) -> Result<(), Fail> {
    let mut image = erased(rt.alloc(), 1_024);
    let line = b"commands 20000 ok 19688 rows 312 refused 0\n";
    let counted = counts(rt.alloc(), "7", "20000", image.as_mut_slice(), line);
    show(counted, "the commands are counted")?;
    expect_on(rt.alloc(), &COUNTED, image.as_mut_slice())
}
