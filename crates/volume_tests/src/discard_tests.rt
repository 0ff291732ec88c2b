//! A file is given up where the last record of its log is torn: all others stay, also where the power goes again.

ghost use Rattle.std.specs.Prelude.{Some, length};
ghost use Rattle.coffee_find.specs.Found.{HasRecord};

use crate::acts::{Answer, run, run_in};
use crate::mending::{Came, mended};
use crate::mounted::{SIZE, erased, memory, named};
use crate::steps::Step;
use afl_base::{Flash, Kind};
use afl_sim::CutFlash;
use coffee_find::{Judgement, TornRecord, judge};
use coffee_mend::{discard, torn_file};

// A flash in memory whose power goes after this many writes, and after this many bytes of the next.
fn cutting<'a>(image: &'a mut [u8; SIZE], writes: u64, front: usize) -> Option<CutFlash<'a>> {
    let all = &mut image[..];
    CutFlash::new(all, writes, front)
}

// Gives up the file of a log whose record is torn.
fn give_up_owner<F: Flash>(flash: &mut F, torn: &TornRecord) -> Came
    requires { HasRecord (length (F.image flash.old)) (Some torn.now) }
{
    match torn_file(flash, torn) {
        Ok(Some(file)) => match discard(flash, &file, torn.log) {
            Ok(()) => Came::Mended,
            Err(_) => Came::Failed,
        },
        Ok(None) => Came::Strange,
        Err(_) => Came::Failed,
    }
}

// The same of what is found in an image.
fn give_up<F: Flash>(flash: &mut F) -> Came {
    match judge(flash) {
        Ok(Judgement::Cut(trouble)) => match trouble.torn {
            Some(torn) => give_up_owner(flash, &torn),
            None => Came::Strange,
        },
        Ok(_) => Came::Strange,
        Err(_) => Came::Failed,
    }
}

// Two files, the second of which has a log with 29 records; the power goes while the thirtieth is written.
fn fill(image: &mut [u8; SIZE]) -> Option<Answer> {
    let (other, tree) = (named(b"T0"), named(b"X0"));
    let filling = [
        Step::Make(other, Kind::Fixed(6)),
        Step::Append(other, &[5; 300], 1),
        Step::Make(tree, Kind::Doubling),
        Step::Append(tree, &[1; 200], 1),
        Step::Mark(tree, 29),
    ];
    if run_in(image, &filling) != Answer::Done {
        return None;
    }
    let (_, cut) = run(cutting(image, 0, 20)?, &[Step::Overwrite(tree, 149, &[3])]);
    Some(cut)
}

// What giving up that file comes to on a flash whose power goes after this many writes, and what mending what is left, and
// some steps then.
fn given_up(writes: u64, steps: &[Step]) -> Option<(Came, Came, Answer)> {
    let mut image = erased();
    if fill(&mut image)? != Answer::Failed {
        return None;
    }
    let came = give_up(&mut cutting(&mut image, writes, 0)?);
    let then = mended(&mut memory(&mut image)?);
    Some((came, then, run_in(&mut image, steps)))
}

#[test]
fn a_file_is_given_up_and_the_other_stays(rt: HostRuntime) {
    let (other, tree) = (named(b"T0"), named(b"X0"));
    let gone = [Step::Lacks(tree), Step::Holds(other, 0, &[5; 300])];
    assert_eq!(rt;
        given_up(2, &gone),
        Some((Came::Mended, Came::Mended, Answer::Done))
    );
    assert_eq!(rt;
        given_up(1, &gone),
        Some((Came::Failed, Came::Mended, Answer::Done))
    );
}

#[test]
fn a_file_that_is_not_given_up_yet_is_there(rt: HostRuntime) {
    let (other, tree) = (named(b"T0"), named(b"X0"));
    let there = [
        Step::Holds(tree, 145, &[1; 55]),
        Step::Holds(other, 0, &[5; 300]),
    ];
    assert_eq!(rt;
        given_up(0, &there),
        Some((Came::Failed, Came::Mended, Answer::Done))
    );
}
