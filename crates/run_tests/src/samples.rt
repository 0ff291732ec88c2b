//! Databases that several tests begin with.

use crate::running::{MANY, erased, run, text};
use std::alloc::{AllocError, Global};
use test_steps::{ONE, Part, TWO, push_number, push_often};

const SAMPLES: &str = "CREATE RELATION samples; CREATE ATTRIBUTE minute DOMAIN LONG IN samples; \
    CREATE ATTRIBUTE node DOMAIN INT IN samples; CREATE ATTRIBUTE value DOMAIN INT IN samples; ";

/// The index by which a sensor's day is ordered.
pub const BY_MINUTE: &str = "CREATE INDEX samples.minute TYPE INLINE; ";

// A question after ten minutes of a sensor's day, which lie together.
const TEN_MINUTES: &str =
    "SELECT minute, value FROM samples WHERE minute >= 600 AND minute < 610; ";

/// The ten minutes.
pub const THE_TEN: &str = "600,205\n601,206\n602,200\n603,201\n604,202\n605,203\n606,204\n607,205\n\
    608,206\n609,200\nrows 10\n";

// A sensor's day, a row a minute, behind which stands a text so many times.
fn push_day(alloc: Global, index: &str, behind: &str, times: u16) -> Result<Vec<u8>, AllocError> {
    let mut script = Vec::from_slice(alloc, SAMPLES.as_bytes())?;
    push_often(&mut script, index, 1)?;
    for minute in 0..1_440u16 {
        push_often(&mut script, "INSERT (", 1)?;
        push_number(&mut script, minute)?;
        push_often(&mut script, ", ", 1)?;
        push_number(&mut script, minute % 4)?;
        push_often(&mut script, ", ", 1)?;
        push_number(&mut script, 200 + minute % 7)?;
        push_often(&mut script, ") INTO samples; ", 1)?;
    }
    push_often(&mut script, behind, times)?;
    Ok(script)
}

/// A sensor's day, a row a minute: 1,444 commands, and one more where it has an index; and behind them so
/// many questions after ten minutes of it.
pub fn day(alloc: Global, index: &str, questions: u16) -> Vec<u8> {
    match push_day(alloc, index, TEN_MINUTES, questions) {
        Ok(script) => script,
        Err(_) => Vec::new(alloc),
    }
}

/// 256 rows of the number 7 under a hash tree: 259 commands.
pub const SEVENS: &[Part] = &[
    Part::Once(ONE),
    Part::Once("CREATE INDEX n.v TYPE MAXHEAP;"),
    Part::Often("INSERT (7) INTO n;", 256),
];

/// A relation of a number and a text, and two rows: five commands.
pub const TWO_ROWS: &[Part] = &[
    Part::Once(TWO),
    Part::Once("INSERT (5, 'abc') INTO s; INSERT (-1, '') INTO s;"),
];

/// What a script of this many commands leaves of an erased image, all of which reply `ok`; no image where
/// they do not.
pub fn made_by(alloc: Global, script: &[u8], commands: u16) -> Vec<u8> {
    let mut image = erased(alloc, MANY);
    let replies = text(alloc, &[Part::Often("ok\n", commands)]);
    if run(alloc, script, image.as_mut_slice()).is(0, replies.as_slice()) {
        image
    } else {
        Vec::new(alloc)
    }
}

/// What a script of some parts leaves, which has this many commands.
pub fn made_of(alloc: Global, script: &[Part], commands: u16) -> Vec<u8> {
    made_by(alloc, text(alloc, script).as_slice(), commands)
}
