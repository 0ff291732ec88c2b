//! Stories that are cut at each of their writes.

use crate::random::Random;
use crate::running::{Cut, Ended, NO_CUT, copied, dumped, enlarged, look_over, put_right};
use crate::stories::{Mark, Story};
use std::alloc::Global;

// The bytes of as many sectors as are enough for each command of these tests: no repair lacks space there.
const ENOUGH: usize = 262_144;

/// How many cut images were repaired, and the first that was not.
#[derive(Drop)]
pub struct Tally {
    pub images: u64,
    pub wrong: Option<Wrong>,
}

/// A cut after which something was wrong: the number of its write, how many bytes of it were done, and what was wrong.
#[derive(Clone, Copy, Debug, PartialEq, Eq)]
pub struct Wrong {
    pub cut: Cut,
    pub what: Trouble,
}

/// What is wrong after a cut.
#[derive(Clone, Copy, Debug, PartialEq, Eq)]
pub enum Trouble {
    /// The run ended otherwise than a cut one.
    Run(u8),
    /// The check ended so, and foretold other lines than those of the repair, or changed the image.
    Check(u8),
    /// The repair ended so.
    Repair(u8),
    /// A repair that was cut ended so.
    CutRepair(u8),
    /// The database is none of those that may be.
    Database,
}

// How many bytes two texts have in common at their front.
fn common_front(a: &[u8], b: &[u8]) -> usize {
    let mut many = 0usize;
    for (x, y) in a.iter().zip(b) {
        if *x != *y {
            return many;
        }
        many = many.saturating_add(1);
    }
    many
}

// How many bytes two texts have in common at their end.
fn common_end(a: &[u8], b: &[u8]) -> usize {
    let mut many = 0usize;
    for (x, y) in a.iter().rev().zip(b.iter().rev()) {
        if *x != *y {
            return many;
        }
        many = many.saturating_add(1);
    }
    many
}

// Whether a text begins like what stands after a removal, and goes on like what stood before it.
fn is_between(text: &[u8], before: &[u8], after: &[u8]) -> bool {
    let front = common_front(text, after);
    let end = common_end(text, before);
    text.len() <= before.len()
        && after.len() <= text.len()
        && text.len() <= front.saturating_add(end)
}

// Whether a database and so much that was written may stand where the power went after this many writes.
fn may_be(story: &Story, cut: Cut, written: usize, database: &[u8]) -> bool {
    let marks = story.marks.as_slice();
    for (at, mark) in marks.iter().enumerate() {
        let next = marks.get(at.saturating_add(1));
        let is_last = match next {
            Some(next) => cut.writes < next.writes,
            None => true,
        };
        if is_last {
            return mark.written <= written && is_allowed(mark, next, database);
        }
    }
    false
}

// Whether a database is that after some commands, or after the next one, or between where that removes rows.
fn is_allowed(mark: &Mark, next: Option<&Mark>, database: &[u8]) -> bool {
    let before = mark.database.as_slice();
    if database == before {
        return true;
    }
    match next {
        Some(next) => {
            let after = next.database.as_slice();
            database == after || mark.removes && is_between(database, before, after)
        }
        None => false,
    }
}

// Whether a repair came to its end, and said so.
fn is_repaired(ended: &Ended) -> bool {
    let text = ended.written.as_slice();
    ended.status == 0 && (text == b"sound\n".as_slice() || text.ends_with(b"repaired\n"))
}

// Whether a check foretold what a repair then said.
fn foretells(check: &Ended, repair: &Ended) -> bool {
    let foretold = check.written.as_slice();
    let said = repair.written.as_slice();
    check.status == 0
        && match foretold.strip_suffix(b"to be repaired\n".as_slice()) {
            Some(lines) => said.strip_suffix(b"repaired\n".as_slice()) == Some(lines),
            None => foretold == said,
        }
}

// A cut of a story, and how much was written before.
#[derive(Clone, Copy)]
struct Place<'a> {
    story: &'a Story,
    cut: Cut,
    written: usize,
}

// What a check foretells of an image, of one in three, since it takes time.
fn foretold_of(alloc: Global, place: Place, image: &mut [u8]) -> Option<Ended> {
    if place.cut.writes % 3 == 0 {
        Some(look_over(alloc, image))
    } else {
        None
    }
}

// Checks an image and repairs it, on a larger flash where there is no space, and tells what is wrong after it.
fn end_repair(alloc: Global, place: Place, image: &[u8]) -> Option<Trouble> {
    let mut now = copied(alloc, image);
    let foretold = foretold_of(alloc, place, now.as_mut_slice());
    if now.as_slice() != image {
        return Some(Trouble::Check(0));
    }
    let mut ended = put_right(alloc, now.as_mut_slice(), NO_CUT);
    if ended.status == 3
        && image.len() < ENOUGH
        && ended.written.as_slice().starts_with(b"no space ")
    {
        now = enlarged(alloc, now.as_slice(), 64);
        ended = put_right(alloc, now.as_mut_slice(), NO_CUT);
    }
    if !is_repaired(&ended) {
        return Some(Trouble::Repair(ended.status));
    }
    match &foretold {
        Some(check) if !foretells(check, &ended) => return Some(Trouble::Check(check.status)),
        _ => {}
    }
    let database = dumped(alloc, now.as_mut_slice());
    if may_be(place.story, place.cut, place.written, database.as_slice()) {
        None
    } else {
        Some(Trouble::Database)
    }
}

// Repairs an image by a repair that is cut, at each of its writes, and then by one that is not.
fn end_cut_repairs(
    alloc: Global,
    place: Place,
    image: &[u8],
    tally: &mut Tally,
    random: &mut Random,
) -> Option<Trouble> {
    for writes in 0..100_000u64 {
        let mut now = copied(alloc, image);
        let cut = Cut {
            writes,
            front: random.front(),
        };
        let ended = put_right(alloc, now.as_mut_slice(), cut);
        match ended.status {
            0 | 3 => return None,
            4 => {}
            other => return Some(Trouble::CutRepair(other)),
        }
        tally.images = tally.images.saturating_add(1);
        if let Some(trouble) = end_repair(alloc, place, now.as_slice()) {
            return Some(trouble);
        }
    }
    None
}

// What is wrong after a cut that left an image.
fn first_trouble(
    alloc: Global,
    place: Place,
    status: u8,
    image: &[u8],
    one_in: u32,
    tally: &mut Tally,
    random: &mut Random,
) -> Option<Trouble> {
    if status != 4 {
        return Some(Trouble::Run(status));
    }
    tally.images = tally.images.saturating_add(1);
    if let Some(trouble) = end_repair(alloc, place, image) {
        return Some(trouble);
    }
    if random.is_one_in(one_in) {
        return end_cut_repairs(alloc, place, image, tally, random);
    }
    None
}

// Cuts a story at a write. Whether it came to its end before, or to a command for which there is no space.
fn cut_at(
    alloc: Global,
    story: &Story,
    cut: Cut,
    one_in: u32,
    tally: &mut Tally,
    random: &mut Random,
) -> bool {
    let (ended, image) = story.cut(alloc, cut);
    if ended.status == 0 || ended.status == 3 {
        return true;
    }
    let place = Place {
        story,
        cut,
        written: ended.written.len(),
    };
    let trouble = first_trouble(
        alloc,
        place,
        ended.status,
        image.as_slice(),
        one_in,
        tally,
        random,
    );
    if let Some(what) = trouble {
        tally.wrong = Some(Wrong { cut, what });
    }
    trouble.is_some()
}

/// Cuts a story at each of its writes, this many times each, and cuts one in some of the repairs at each of theirs.
pub fn cut_everywhere(alloc: Global, story: &Story, times: u32, one_in: u32, seed: u32) -> Tally {
    let mut tally = Tally {
        images: 0,
        wrong: None,
    };
    let mut random = Random::new(seed);
    for writes in 0..1_000_000u64 {
        for _ in 0..times {
            let cut = Cut {
                writes,
                front: random.front(),
            };
            if cut_at(alloc, story, cut, one_in, &mut tally, &mut random) {
                return tally;
            }
        }
    }
    tally
}
