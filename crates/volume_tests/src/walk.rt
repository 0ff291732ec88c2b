ghost use Rattle.std.specs.Prelude.{◌≡◌, ◌<◌, ◌≤◌, IfSome, OnOk};
ghost use Rattle.afl_base.specs.FileErrors.{OnSpace, UnlessFailed};
ghost use Rattle.volume_tests.specs.Counts.{HasFiles};

use crate::calls::{change, change_behind, erase, fetch, look, make, replace};
use crate::mounted::named;
use crate::random::Random;
use afl_base::{FileError, Files, Kind, Name};

/// The most bytes that a walk gives to a file.
const MOST: u32 = 16_352;

/// What is done to a file.
#[derive(Clone, Copy)]
enum Act {
    Make,
    Erase,
    Change { at: u32, len: usize, tail: usize },
    ChangeBehind { at: u32, len: usize, tail: usize },
    Replace { len: usize, cut: usize },
    Fetch { at: u32, len: usize },
}

/// A file and what is done to it.
#[derive(Drop)]
struct Step {
    name: Name,
    kind: Kind,
    act: Act,
}

/// The bytes that a step writes.
#[derive(Drop)]
struct Bytes {
    bytes: [u8; 16_352],
    tail: [u8; 4_096],
}

/// Takes this many steps over files of two kinds, which have to come out alike. Where the first answer
/// that no space is left, the others do not take the step. It answers how often that was, and nothing
/// where they come out otherwise.
pub fn walk<V: Files, W: Files>(
    files: &mut V,
    others: &mut W,
    used: &mut u16,
    random: &mut Random,
    steps: u16,
) -> Option<u16>
    requires files { HasFiles (V.state files.old) used.old }
    requires others { HasFiles (W.state others.old) used.old }
    ensures files { IfSome result (λ _. HasFiles (V.state files.new) used.new) }
    ensures others { IfSome result (λ _. HasFiles (W.state others.new) used.new) }
    ensures spaces { IfSome result (λ spaces. spaces ≤ steps) }
{
    let mut spaces = 0;
    for turn in 0..steps {
        if take_step(files, others, used, random)? {
            spaces += 1;
        }
    }
    Some(spaces)
}

// Takes one step, and says whether it lacked space, where it comes out alike.
fn take_step<V: Files, W: Files>(
    files: &mut V,
    others: &mut W,
    used: &mut u16,
    random: &mut Random,
) -> Option<bool>
    requires files { HasFiles (V.state files.old) used.old }
    requires others { HasFiles (W.state others.old) used.old }
    ensures files { IfSome result (λ _. HasFiles (V.state files.new) used.new) }
    ensures others { IfSome result (λ _. HasFiles (W.state others.new) used.new) }
{
    let (name, kind) = file_name(random.below(34) as u8);
    let act = drawn(look(files, name), random);
    let step = Step { name, kind, act };
    let bytes = written(act, random);
    let mut first = [0; 4_096];
    let mut second = [0; 4_096];
    let mut count = *used;
    let done = match take(files, used, &step, &bytes, &mut first) {
        Ok(done) => done,
        Err(FileError::Space { need: _ }) => return Some(true),
        Err(FileError::Failed) => return None,
    };
    let also = match take(others, &mut count, &step, &bytes, &mut second) {
        Ok(also) => also,
        Err(_) => return None,
    };
    if done != also
        || *used != count
        || first != second
        || look(files, name) != look(others, name)
    {
        return None;
    }
    Some(false)
}

// The file of a number, of two more than there may be: its name, and the kind that it has.
fn file_name(number: u8) -> (Name, Kind)
    requires { number < 34 }
{
    let kind = if number < 26 {
        Kind::Doubling
    } else {
        Kind::Fixed(u16::from(number) * 7 % 15 + 1)
    };
    (named(&[70, 65 + number]), kind)
}

// What is done to a file, where there is one, from its size.
fn drawn(file: Option<(Name, Kind, u32)>, random: &mut Random) -> Act {
    let Some((_, _, size)) = file else {
        return if random.below(4) == 0 {
            drawn_draft(random)
        } else {
            Act::Make
        };
    };
    let size = size.min(MOST);
    match random.below(32) {
        0 => Act::Erase,
        1 | 2 => drawn_draft(random),
        3..=8 => {
            let at = random.below(size + 1);
            Act::Fetch {
                at,
                len: random.below((size - at).min(4_096) + 1) as usize,
            }
        }
        _ => drawn_change(size, random),
    }
}

fn drawn_draft(random: &mut Random) -> Act {
    let most = if random.below(4) == 0 { MOST } else { 900 };
    let len = random.below(most + 1);
    Act::Replace {
        len: len as usize,
        cut: random.below(len + 1) as usize,
    }
}

// A change that overwrites, appends or does both. A file that would get too long is removed.
fn drawn_change(size: u32, random: &mut Random) -> Act
    requires { size ≤ 16352 }
{
    let tail = match random.below(8) {
        0 | 1 | 2 => 0,
        3 => random.below(4_097),
        4 | 5 => random.below(600),
        _ => random.below(40),
    };
    if MOST < size + tail {
        return Act::Erase;
    }
    let at = random.below(size + 1);
    let len = match random.below(8) {
        0 | 1 => 0,
        2 => random.below((size - at).min(3_584) + 1),
        3 | 4 => random.below((size - at).min(400) + 1),
        _ => random.below((size - at).min(20) + 1),
    } as usize;
    let tail = tail as usize;
    if random.below(2) == 0 {
        Act::Change { at, len, tail }
    } else {
        Act::ChangeBehind { at, len, tail }
    }
}

// The bytes that are written: what an act writes does not end in a zero.
fn written(act: Act, random: &mut Random) -> Bytes {
    let mut bytes = Bytes {
        bytes: [0; 16_352],
        tail: [0; 4_096],
    };
    let (len, tail) = match act {
        Act::Change { at: _, len, tail } => (len, tail),
        Act::ChangeBehind { at: _, len, tail } => (len, tail),
        Act::Replace { len, cut: _ } => (len, 0),
        _ => (0, 0),
    };
    random.fill(&mut bytes.bytes[..len.min(16_352)]);
    random.fill(&mut bytes.tail[..tail.min(4_096)]);
    bytes
}

// Does what the step says. It answers false where a condition of a call is not met.
fn take<V: Files>(
    files: &mut V,
    used: &mut u16,
    step: &Step,
    bytes: &Bytes,
    into: &mut [u8; 4_096],
) -> Result<bool, FileError>
    requires { HasFiles (V.state files.old) used.old }
    ensures files { UnlessFailed result (HasFiles (V.state files.new) used.new) }
    ensures same { OnSpace result (λ _. used.new ≡ used.old) }
{
    let name = step.name;
    match step.act {
        Act::Make => make(files, used, name, step.kind),
        Act::Erase => erase(files, used, name),
        Act::Change { at, len, tail } => change(
            files,
            name,
            at,
            &bytes.bytes[..len.min(16_352)],
            &bytes.tail[..tail.min(4_096)],
        ),
        Act::ChangeBehind { at, len, tail } => change_behind(
            files,
            name,
            at,
            &bytes.bytes[..len.min(16_352)],
            &bytes.tail[..tail.min(4_096)],
        ),
        Act::Replace { len, cut } => {
            replace(files, used, name, &bytes.bytes[..len.min(16_352)], cut)
        }
        Act::Fetch { at, len } => fetch(files, name, at, &mut into[..len.min(4_096)]),
    }
}

/// Whether files of two kinds have the same files, byte by byte.
pub fn are_same<V: Files, W: Files>(files: &mut V, others: &mut W) -> Result<bool, FileError>
    ensures files { OnOk result (V.state files.new ≡ V.state files.old) }
    ensures others { OnOk result (W.state others.new ≡ W.state others.old) }
{
    for number in 0..34u8 {
        let (name, _) = file_name(number);
        if !is_same(files, others, name)? {
            return Ok(false);
        }
    }
    Ok(true)
}

// Whether the files of a name are the same.
fn is_same<V: Files, W: Files>(files: &mut V, others: &mut W, name: Name) -> Result<bool, FileError>
    ensures files { OnOk result (V.state files.new ≡ V.state files.old) }
    ensures others { OnOk result (W.state others.new ≡ W.state others.old) }
{
    let file = look(files, name);
    if file != look(others, name) {
        return Ok(false);
    }
    let Some((_, _, size)) = file else {
        return Ok(true);
    };
    for piece in 0..size / 500 + 1 {
        let n = (size - 500 * piece).min(500) as usize;
        if !are_same_bytes(files, others, name, 500 * piece, n)? {
            return Ok(false);
        }
    }
    Ok(true)
}

// Whether this many bytes of the files of a name, at most 500, are the same from a place on.
fn are_same_bytes<V: Files, W: Files>(
    files: &mut V,
    others: &mut W,
    name: Name,
    at: u32,
    n: usize,
) -> Result<bool, FileError>
    requires { n ≤ 500 }
    ensures files { OnOk result (V.state files.new ≡ V.state files.old) }
    ensures others { OnOk result (W.state others.new ≡ W.state others.old) }
{
    let mut first = [0; 500];
    let mut second = [1; 500];
    let read = fetch(files, name, at, &mut first[..n])?;
    let also = fetch(others, name, at, &mut second[..n])?;
    Ok(read && also && first[..n] == second[..n])
}
