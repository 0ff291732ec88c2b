//! Calls of files in a row, each of which has to be done.

ghost use Rattle.std.specs.Prelude.{◌≡◌, None};
ghost use Rattle.afl_base.specs.FileErrors.{UnlessFailed};
ghost use Rattle.volume_tests.specs.Counts.{HasFiles};

use crate::calls::{change, change_behind, erase, fetch, make, replace};
use crate::runs::{append_rows, make_and_erase, mark_rows};
use afl_base::{FileError, Files, Kind, Name};

/// A call of files by a name.
#[derive(Clone, Copy)]
pub enum Step<'a> {
    Make(Name, Kind),
    Erase(Name),
    /// Puts bytes in the place of others.
    Overwrite(Name, u32, &'a [u8]),
    /// Appends bytes this many times, with a `prepare` for each.
    Append(Name, &'a [u8], u16),
    /// Appends bytes, and then puts others in a place, after one `prepare` for both.
    Change(Name, u32, &'a [u8], &'a [u8]),
    /// Puts a 3 in the place of the last byte of each of the first rows of five bytes.
    Mark(Name, u16),
    /// Puts a draft of bytes, written in two parts, in the place of a file or beside all others.
    Replace(Name, &'a [u8], usize),
    /// Makes a file and takes it away this many times.
    MakeAndErase(Name, u16),
    /// Has these bytes, at most 2,048, at a place.
    Holds(Name, u32, &'a [u8]),
    /// Stands in a place of the table, with this many bytes.
    Stands(Name, u16, Kind, u32),
    /// Is no file.
    Lacks(Name),
}

/// Takes some steps, up to the first that is not done.
pub fn take_all<V: Files>(files: &mut V, used: &mut u16, steps: &[Step]) -> Result<bool, FileError>
    requires { HasFiles (V.state files.old) used.old }
    ensures { UnlessFailed result (HasFiles (V.state files.new) used.new) }
{
    for step in steps.iter() {
        if !take(files, used, step)? {
            return Ok(false);
        }
    }
    Ok(true)
}

/// Takes a step.
pub fn take<V: Files>(files: &mut V, used: &mut u16, step: &Step) -> Result<bool, FileError>
    requires { HasFiles (V.state files.old) used.old }
    ensures { UnlessFailed result (HasFiles (V.state files.new) used.new) }
{
    match step {
        Step::Make(name, kind) => make(files, used, *name, *kind),
        Step::Erase(name) => erase(files, used, *name),
        Step::Overwrite(name, at, bytes) => change(files, *name, *at, bytes, &[]),
        Step::Append(name, row, times) => append_rows(files, *name, row, *times),
        Step::Change(name, at, bytes, tail) => change_behind(files, *name, *at, bytes, tail),
        Step::Mark(name, rows) => mark_rows(files, *name, *rows),
        Step::Replace(name, bytes, cut) => replace(files, used, *name, bytes, *cut),
        Step::MakeAndErase(name, times) => make_and_erase(files, used, *name, *times),
        Step::Holds(name, at, bytes) => holds(files, *name, *at, bytes),
        Step::Stands(name, number, kind, size) => {
            Ok(stands(files, *name) == Some((*number, *kind, *size)))
        }
        Step::Lacks(name) => Ok(files.find(*name).is_none()),
    }
}

// Whether a file has these bytes at a place.
fn holds<V: Files>(files: &mut V, name: Name, at: u32, bytes: &[u8]) -> Result<bool, FileError>
    ensures { UnlessFailed result (V.state files.new ≡ V.state files.old) }
{
    let mut into = [0; 2_048];
    if bytes.len() > 2_048 {
        return Ok(false);
    }
    let read = &mut into[..bytes.len()];
    if !fetch(files, name, at, read)? {
        return Ok(false);
    }
    Ok(*read == *bytes)
}

// The place in the table, the kind and the size of a file that is live.
fn stands<V: Files>(files: &V, name: Name) -> Option<(u16, Kind, u32)> {
    let id = files.find(name)?;
    if !files.live(id) {
        return None;
    }
    Some((id.number(), files.kind(id), files.size(id)))
}
