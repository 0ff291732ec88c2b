//! Scripts that sessions are written as.

ghost use Rattle.std.specs.Prelude.{◌≡◌, None};

use crate::arrays::{copied, zeros};
use crate::cases::show;
use crate::told::{say, started};
use afl_base::{Fault, Files, Sink};
use afl_sim::{MemSink, PlainFiles};
use antelope_engine::Session;
use std::alloc::Global;
use std::test::Fail;

// How the writing of a session's database ends, which was not stopped.
fn write<V: Files, K: Sink>(session: &mut Session<V>, out: &mut K) -> Option<Result<(), Fault>> {
    if session.is_stopped() {
        return None;
    }
    Some(dump::write(session, out))
}

// The script of a session's database, into a sink that fails at a call of a number, and how it ends.
fn script<V: Files>(
    alloc: Global,
    session: &mut Session<V>,
    fail_at: Option<u64>,
) -> Option<(Vec<u8>, Result<(), Fault>)> {
    let mut room = zeros(alloc, 4096);
    let mut out = MemSink::new(room.as_mut_slice(), fail_at);
    let ended = write(session, &mut out)?;
    Some((copied(alloc, out.written()), ended))
}

// Whether a session is written as just this script.
fn is_script<V: Files>(alloc: Global, session: &mut Session<V>, wanted: &[u8]) -> bool {
    match script(alloc, session, None) {
        Some((text, ended)) => ended == Ok(()) && text.as_slice() == wanted,
        None => false,
    }
}

// A session over new files, which was told a text.
fn session_told<V: Files + Drop>(alloc: Global, files: V, text: &[u8]) -> Option<Session<V>>
    requires { (V.state files).draft ≡ None }
{
    let mut session = started(files)?;
    say(alloc, &mut session, text)?;
    Some(session)
}

// Whether what a text makes of new files is written as just this script.
fn is_written_as<V: Files + Drop>(alloc: Global, files: V, text: &[u8], wanted: &[u8]) -> bool
    requires { (V.state files).draft ≡ None }
{
    match session_told(alloc, files, text) {
        Some(mut session) => is_script(alloc, &mut session, wanted),
        None => false,
    }
}

const TWO_ROWS: &[u8] = b"CREATE RELATION s;\nCREATE ATTRIBUTE k DOMAIN LONG IN s;\n\
    CREATE ATTRIBUTE t DOMAIN STRING(3) IN s;\nINSERT (5, 'abc') INTO s;\nINSERT (-1, '') INTO s;\n";

#[test]
fn a_relation_is_written_as_commands_one_a_line(rt: HostRuntime) -> Result<(), Fail> {
    let files = PlainFiles::<4064>::new();
    show(
        is_written_as(rt.alloc(), files, TWO_ROWS, TWO_ROWS),
        "two rows",
    )
}

#[test]
fn no_relation_gives_no_command(rt: HostRuntime) -> Result<(), Fail> {
    let files = PlainFiles::<4064>::new();
    show(is_written_as(rt.alloc(), files, b"", b""), "no relation")
}

// Unused slots, removed rows and an index between others.
const GAPS: &[u8] = b"CREATE RELATION a;CREATE RELATION b;\
    CREATE ATTRIBUTE at DOMAIN TIME IN b;CREATE ATTRIBUTE v DOMAIN INT IN b;\
    CREATE INDEX b.v TYPE MEMHASH;CREATE INDEX b.at TYPE INLINE;\
    INSERT (7, 1) INTO b;INSERT (8, 2) INTO b;INSERT (140737488355327, -32767) INTO b;\
    REMOVE FROM b WHERE v = 2;REMOVE INDEX b.v;CREATE RELATION c;CREATE ATTRIBUTE w DOMAIN LONG IN c;\
    CREATE INDEX c.w TYPE MAXHEAP;REMOVE RELATION a;";

const CLOSED_UP: &[u8] = b"CREATE RELATION b;\nCREATE ATTRIBUTE at DOMAIN TIME IN b;\n\
    CREATE ATTRIBUTE v DOMAIN INT IN b;\nINSERT (7, 1) INTO b;\n\
    INSERT (140737488355327, -32767) INTO b;\nCREATE RELATION c;\n\
    CREATE ATTRIBUTE w DOMAIN LONG IN c;\nCREATE INDEX c.w TYPE MAXHEAP;\n\
    CREATE INDEX b.at TYPE INLINE;\n";

#[test]
fn what_is_removed_is_left_out_and_the_script_makes_itself(rt: HostRuntime) -> Result<(), Fail> {
    let files = PlainFiles::<4064>::new();
    show(
        is_written_as(rt.alloc(), files, GAPS, CLOSED_UP),
        "gaps are left out",
    )?;
    let files = PlainFiles::<4064>::new();
    show(
        is_written_as(rt.alloc(), files, CLOSED_UP, CLOSED_UP),
        "the script makes itself",
    )
}

// Whether the script of a session, into a sink that fails at its third call, is a proper prefix that ends
// with this line.
fn is_cut_off<V: Files>(
    alloc: Global,
    session: &mut Session<V>,
    whole: &[u8],
    last: &[u8],
) -> bool {
    match script(alloc, session, Some(3)) {
        Some((front, ended)) => {
            ended == Err(Fault::Sink) && is_prefix(front.as_slice(), whole, last)
        }
        None => false,
    }
}

// Whether a text is a proper prefix of another that ends so.
fn is_prefix(front: &[u8], whole: &[u8], last: &[u8]) -> bool {
    front.len() < whole.len() && whole.starts_with(front) && front.ends_with(last)
}

// Whether this is so of what a text makes of new files, and a second script is whole.
fn is_cut_off_once<V: Files + Drop>(
    alloc: Global,
    files: V,
    text: &[u8],
    whole: &[u8],
    last: &[u8],
) -> bool
    requires { (V.state files).draft ≡ None }
{
    match session_told(alloc, files, text) {
        Some(mut session) => {
            is_cut_off(alloc, &mut session, whole, last) && is_script(alloc, &mut session, whole)
        }
        None => false,
    }
}

#[test]
fn a_sink_that_fails_holds_a_proper_prefix(rt: HostRuntime) -> Result<(), Fail> {
    let files = PlainFiles::<4064>::new();
    // the text of each relation goes out in a call, and so does that of each index
    let last = b"CREATE ATTRIBUTE w DOMAIN LONG IN c;\n";
    show(
        is_cut_off_once(rt.alloc(), files, GAPS, CLOSED_UP, last),
        "a proper prefix",
    )
}
