//! How many sectors are planned for rows to come.

use crate::cases::show;
use crate::image::is_erased_from;
use crate::running::{MANY, ask, copied, erased, text};
use crate::samples::{BY_MINUTE, SEVENS, day, made_by, made_of};
use std::alloc::Global;
use std::test::Fail;
use test_steps::push_often;

// Whether these words are answered by just this line, which leaves the image.
fn answers(alloc: Global, image: &mut [u8], words: &[&str], line: &[u8]) -> bool {
    let before = copied(alloc, image);
    let ended = ask(alloc, words, image);
    ended.is(0, line) && &*image == before.as_slice()
}

// Whether this many rows are planned for by just this line, which leaves the image.
fn plans(alloc: Global, image: &mut [u8], rows: &str, line: &[u8]) -> bool {
    answers(alloc, image, &["plan", "image", rows], line)
}

#[test]
fn an_erased_image_needs_five_sectors(rt: HostRuntime) -> Result<(), Fail> {
    let mut image = erased(rt.alloc(), MANY);
    let line = b"sectors needed 5 present 256\n";
    show(
        plans(rt.alloc(), image.as_mut_slice(), "100", line),
        "100 rows",
    )
}

// Whether no rows and then this many are planned for by just these lines.
fn plans_both(alloc: Global, image: &mut [u8], now: &[u8], rows: &str, then: &[u8]) -> bool {
    plans(alloc, image, "0", now) && plans(alloc, image, rows, then)
}

#[test]
fn a_second_day_needs_more_sectors(rt: HostRuntime) -> Result<(), Fail> {
    let script = day(rt.alloc(), BY_MINUTE, 0);
    let mut image = made_by(rt.alloc(), script.as_slice(), 1_445);
    let now = b"sectors needed 51 present 256\n";
    let then = b"sectors needed 99 present 256\n";
    let planned = plans_both(rt.alloc(), image.as_mut_slice(), now, "1440", then);
    show(planned, "a second day")
}

#[test]
fn a_tree_may_need_a_bucket_a_row(rt: HostRuntime) -> Result<(), Fail> {
    let mut image = made_of(rt.alloc(), SEVENS, 259);
    let now = b"sectors needed 22 present 256\n";
    let then = b"sectors needed 518 present 256\n";
    let planned = plans_both(rt.alloc(), image.as_mut_slice(), now, "1000", then);
    show(planned, "1,000 rows under a tree")
}

#[test]
fn no_more_than_32767_rows_are_planned_for(rt: HostRuntime) -> Result<(), Fail> {
    let mut image = erased(rt.alloc(), MANY);
    let ended = ask(
        rt.alloc(),
        &["plan", "image", "32768"],
        image.as_mut_slice(),
    );
    show(ended.is(1, b""), "the words are of no form")?;
    show(is_erased_from(image.as_slice(), 0), "the image stays")
}

// Two relations of one number: 256 rows of one key under a hash tree in `n`, and none in `m`: 261 commands.
fn two_relations(alloc: Global) -> Vec<u8> {
    let mut script = text(alloc, SEVENS);
    let other = "CREATE RELATION m; CREATE ATTRIBUTE v DOMAIN INT IN m;";
    match push_often(&mut script, other, 1) {
        Ok(()) => made_by(alloc, script.as_slice(), 261),
        Err(_) => Vec::new(alloc),
    }
}

// Rows are 3 bytes long. Beside three files lie nine gaps at most, and 8 of the sectors touched are those of
// logs. The tree of 256 like keys has 8 buckets; of 5,256 rows it has 164 + 341 at most, in 512 pages.
#[test]
fn rows_come_to_named_relations_alone(rt: HostRuntime) -> Result<(), Fail> {
    let mut image = two_relations(rt.alloc());
    let image = image.as_mut_slice();
    // 3 + 9 + 3 sectors, 2 and 8 more, and 9 gaps of 7
    let one = b"sectors needed 89 present 256\n";
    let to_one = answers(rt.alloc(), image, &["plan", "image", "m=5000"], one);
    show(to_one, "5,000 rows in m")?;
    // 9 + 9 + 65 sectors, 2 and 8 more, and 9 gaps of 63
    let all = b"sectors needed 661 present 256\n";
    show(plans(rt.alloc(), image, "5000", all), "5,000 rows in each")?;
    // 9 + 33 + 65 sectors: 20,000 rows have 256 pages
    let both = b"sectors needed 685 present 256\n";
    let words = &["plan", "image", "m=20000", "n=05000"];
    show(answers(rt.alloc(), image, words, both), "some in both")
}

#[test]
fn a_plan_for_no_relation_is_refused(rt: HostRuntime) -> Result<(), Fail> {
    let mut image = two_relations(rt.alloc());
    let image = image.as_mut_slice();
    let line = b"no relation\n";
    let words = &["plan", "image", "m=1", "N=1"];
    show(answers(rt.alloc(), image, words, line), "one of two")?;
    let mut image = erased(rt.alloc(), MANY);
    show(
        plans(rt.alloc(), image.as_mut_slice(), "m=0", line),
        "an erased image",
    )
}

// Whether a plan for such arguments is refused.
fn is_of_no_form(alloc: Global, image: &mut [u8], rows: &[&str]) -> bool {
    let mut words = Vec::new(alloc);
    if words.extend_from_slice(&["plan", "image"]).is_err() {
        return false;
    }
    if words.extend_from_slice(rows).is_err() {
        return false;
    }
    ask(alloc, words.as_slice(), image).is(1, b"")
}

#[test]
fn a_plan_has_up_to_eight_names(rt: HostRuntime) -> Result<(), Fail> {
    let mut image = erased(rt.alloc(), MANY);
    let image = image.as_mut_slice();
    let eight = &["a=1", "b=1", "c=1", "d=1", "e=1", "f=1", "g=1", "h=1"];
    let nine = &[
        "a=1", "b=1", "c=1", "d=1", "e=1", "f=1", "g=1", "h=1", "i=1",
    ];
    show(!is_of_no_form(rt.alloc(), image, eight), "eight names")?;
    show(is_of_no_form(rt.alloc(), image, nine), "nine names")?;
    show(
        is_of_no_form(rt.alloc(), image, &["a=1", "b=2", "a=1"]),
        "a name twice",
    )?;
    show(
        is_of_no_form(rt.alloc(), image, &["a=1", "2"]),
        "a name and none",
    )?;
    for word in [
        "a=", "=1", "a=32768", "a=000001", "a=1=1", "1a=1", "Int=1", "a b=1",
    ] {
        show(
            is_of_no_form(rt.alloc(), image, &[word]),
            "no name or no number",
        )?;
    }
    show(
        !is_of_no_form(rt.alloc(), image, &["a23456789_12345=00000"]),
        "the longest words",
    )
}
