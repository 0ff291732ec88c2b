//! A session that gets commands as text.

ghost use Rattle.std.specs.Prelude.{◌≡◌, ◌≤◌, IfSome, None, OnOk, length};
ghost use Rattle.session_model.specs.Queries.{IsWellFormed};

use crate::arrays::{copied, zeros};
use afl_base::{Files, Flash, Sink};
use afl_sim::{MemFlash, MemSink};
use antelope_engine::{Outcome, Session, StartError, Step};
use aql_parse::parse;
use coffee_volume::{MountError, Volume};
use db_model::{Command, Refusal};
use reply_text::write_refusal;
use std::alloc::Global;

/// A volume over a flash.
pub fn mounted<F: Flash + Drop>(flash: F) -> Option<Volume<F>>
    ensures idle { IfSome result (λ v. (⟦<Volume<F> as Files>⟧.state v).draft ≡ None) }
{
    match Volume::mount(flash) {
        Ok(volume) => Some(volume),
        Err(MountError::Bad { bad: _, flash: _ }) => None,
        Err(MountError::Failed { flash: _ }) => None,
    }
}

/// A volume over a flash in memory.
pub fn volume_over<'a>(image: &'a mut [u8]) -> Option<Volume<MemFlash<'a>>>
    ensures idle { IfSome result (λ v. (⟦<Volume<MemFlash<'a>> as Files>⟧.state v).draft ≡ None) }
{
    match MemFlash::new(image) {
        Some(flash) => mounted(flash),
        None => None,
    }
}

/// A session over files in which no draft is begun.
pub fn started<V: Files + Drop>(files: V) -> Option<Session<V>>
    requires { (V.state files).draft ≡ None }
{
    match Session::start(files) {
        Ok(session) => Some(session),
        Err(
            StartError::Bad {
                broken: _,
                files: _,
            },
        ) => None,
        Err(StartError::Failed { files: _ }) => None,
    }
}

/// Carries out the commands of a text over files in which no draft is begun, and answers what was written,
/// and the files.
pub fn told<V: Files + Drop>(alloc: Global, files: V, text: &[u8]) -> Option<(Vec<u8>, V)>
    requires { (V.state files).draft ≡ None }
{
    let mut session = started(files)?;
    let written = say(alloc, &mut session, text)?;
    Some((written, session.close()))
}

/// Carries out the commands of a text, each ended by `;`, and answers what was written.
pub fn say<V: Files>(alloc: Global, session: &mut Session<V>, text: &[u8]) -> Option<Vec<u8>> {
    let mut room = zeros(alloc, 131_072);
    let mut out = MemSink::new(room.as_mut_slice(), None);
    if say_all(session, text, &mut out) {
        Some(copied(alloc, out.written()))
    } else {
        None
    }
}

// Carries out the commands of a text into a sink, and answers whether it came to its end.
fn say_all<V: Files, K: Sink>(session: &mut Session<V>, text: &[u8], out: &mut K) -> bool {
    let mut command = Command::FetchCursor { number: 0 };
    let mut from = 0;
    for at in 0..text.len() {
        if text[at] == b';' {
            match text.get(from..at) {
                Some(piece) if say_one(session, &mut command, piece, out) => from = at + 1,
                _ => return false,
            }
        }
    }
    true
}

// Reads a command and carries it out.
fn say_one<V: Files, K: Sink>(
    session: &mut Session<V>,
    command: &mut Command,
    bytes: &[u8],
    out: &mut K,
) -> bool {
    match read(bytes, command) {
        Ok(()) => carry_out(session, command, out).is_some(),
        Err(refusal) => refuse(&refusal, out).is_some(),
    }
}

/// Reads a command.
#[tactic(auto, using(session_model::proofs::WellFormed::well_formed))]
pub fn read(bytes: &[u8], command: &mut Command) -> Result<(), Refusal>
    ensures { OnOk result (IsWellFormed command.new) }
{
    if bytes.len() > 512 {
        return Err(Refusal::Long);
    }
    parse(bytes, command)
}

/// Carries out a command, and answers what it came to. One for which there is no space is refused.
pub fn carry_out<V: Files, K: Sink>(
    session: &mut Session<V>,
    command: &Command,
    out: &mut K,
) -> Option<Outcome>
    requires { IsWellFormed command.now }
{
    match step(session, command, out)? {
        Step::Done(outcome) => Some(outcome),
        Step::NoSpace { need } => refuse(&Refusal::Space { need }, out),
    }
}

fn refuse<K: Sink>(refusal: &Refusal, out: &mut K) -> Option<Outcome> {
    match write_refusal(out, refusal) {
        Ok(()) => Some(Outcome::Refused),
        Err(_) => None,
    }
}

// What a session that was not stopped does at a command.
fn step<V: Files, K: Sink>(session: &mut Session<V>, command: &Command, out: &mut K) -> Option<Step>
    requires { IsWellFormed command.now }
{
    if session.is_stopped() {
        return None;
    }
    match session.exec(command, out) {
        Ok(step) => Some(step),
        Err(_) => None,
    }
}
