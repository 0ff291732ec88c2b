//! The generated workload, command by command.

ghost use Rattle.std.specs.Prelude.{◌≡◌, None};

use crate::arrays::zeros;
use crate::cases::show;
use crate::told::{carry_out, read, say, started, volume_over};
use afl_base::Files;
use afl_sim::MemSink;
use antelope_engine::{Outcome, Session};
use db_model::Command;
use std::alloc::{AllocError, Global};
use std::test::Fail;
use test_steps::{push_number, push_often};

// What a number of commands came to.
#[derive(Clone, Copy, Debug, Default, PartialEq, Eq)]
struct Tally {
    fine: u32,
    rows: u64,
    refused: u32,
}

impl Tally {
    fn count(&mut self, outcome: &Outcome) {
        match outcome {
            Outcome::Fine => self.fine = self.fine.saturating_add(1),
            Outcome::Rows(rows) => self.rows = self.rows.saturating_add(*rows),
            Outcome::Refused => self.refused = self.refused.saturating_add(1),
        }
    }
}

// Command number k of a seed after the first four: a key that is hashed from k is inserted, and at
// every 64th one is looked for.
fn push_generated(alloc: Global, seed: u32, k: u32) -> Result<Vec<u8>, AllocError> {
    let mixed = seed ^ k.wrapping_mul(2_654_435_761);
    let hash = mixed.wrapping_mul(1_664_525).wrapping_add(1_013_904_223);
    let key = (hash / 65_536 % 512) as u16;
    let mut text = Vec::new(alloc);
    if k % 64 == 63 {
        push_often(&mut text, "SELECT COUNT(v) FROM w WHERE k = ", 1)?;
        push_number(&mut text, key)?;
    } else {
        push_often(&mut text, "INSERT (", 1)?;
        push_number(&mut text, key)?;
        push_often(&mut text, ", ", 1)?;
        push_number(&mut text, (k % 1000) as u16)?;
        push_often(&mut text, ") INTO w", 1)?;
    }
    Ok(text)
}

fn generated(alloc: Global, seed: u32, k: u32) -> Vec<u8> {
    match push_generated(alloc, seed, k) {
        Ok(text) => text,
        Err(_) => Vec::new(alloc),
    }
}

const FIRST: &[u8] =
    b"CREATE RELATION w;CREATE ATTRIBUTE k DOMAIN LONG IN w;CREATE ATTRIBUTE v DOMAIN INT IN w;\
    CREATE INDEX w.k TYPE MAXHEAP;";

// What a command of a text came to.
fn outcome<V: Files>(
    session: &mut Session<V>,
    text: &[u8],
    command: &mut Command,
) -> Option<Outcome> {
    let mut room = [0; 64];
    let mut out = MemSink::new(&mut room[..], None);
    match read(text, command) {
        Ok(()) => carry_out(session, command, &mut out),
        Err(_) => None,
    }
}

// What the commands 4 to 19,999 of a seed come to.
fn tallied<V: Files>(alloc: Global, session: &mut Session<V>, seed: u32) -> Option<Tally> {
    let mut tally = Tally::default();
    let mut command = Command::FetchCursor { number: 0 };
    for k in 4..20_000u32 {
        let text = generated(alloc, seed, k);
        tally.count(&outcome(session, text.as_slice(), &mut command)?);
    }
    Some(tally)
}

const WHOLE: Tally = Tally {
    fine: 19_684,
    rows: 312,
    refused: 0,
};

// Whether a text has just these replies.
fn says<V: Files>(alloc: Global, session: &mut Session<V>, text: &[u8], replies: &[u8]) -> bool {
    match say(alloc, session, text) {
        Some(written) => written.as_slice() == replies,
        None => false,
    }
}

// Whether the workload over new files is carried out.
fn is_done<V: Files + Drop>(alloc: Global, files: V) -> bool
    requires { (V.state files).draft ≡ None }
{
    match started(files) {
        Some(mut session) => {
            says(alloc, &mut session, FIRST, b"ok\nok\nok\nok\n")
                && tallied(alloc, &mut session, 7) == Some(WHOLE)
                && says(
                    alloc,
                    &mut session,
                    b"SELECT COUNT(v) FROM w;",
                    b"19684\nrows 1\n",
                )
        }
        None => false,
    }
}

fn is_done_on_flash(alloc: Global) -> bool {
    match volume_over(zeros(alloc, 4_194_304).as_mut_slice()) {
        Some(volume) => is_done(alloc, volume),
        None => false,
    }
}

#[test]
fn twenty_thousand_generated_commands_are_done(rt: HostRuntime) -> Result<(), Fail> {
    show(
        is_done_on_flash(rt.alloc()),
        "the commands come to their counts",
    )
}
