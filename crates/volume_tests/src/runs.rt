//! Calls by name, many times. Each answers whether all were done.

ghost use Rattle.std.specs.Prelude.{◌≡◌, ◌≤◌, None};
ghost use Rattle.afl_base.specs.FileErrors.{UnlessFailed};
ghost use Rattle.afl_base.specs.Files.{used};
ghost use Rattle.volume_tests.specs.Counts.{HasFiles};

use crate::calls::{change, erase, make};
use afl_base::{FileError, Files, Kind, Name};

/// Appends a row this many times, with a `prepare` for each.
pub fn append_rows<V: Files>(
    files: &mut V,
    name: Name,
    row: &[u8],
    rows: u16,
) -> Result<bool, FileError>
    requires { (V.state files.old).draft ≡ None }
    ensures idle { UnlessFailed result ((V.state files.new).draft ≡ None) }
    ensures used { UnlessFailed result (used (V.state files.new).files ≡ used (V.state files.old).files) }
{
    for turn in 0..rows {
        if !change(files, name, 0, &[], row)? {
            return Ok(false);
        }
    }
    Ok(true)
}

/// Puts a 3 in the place of the last byte of each of the first rows of five bytes, one after the other.
pub fn mark_rows<V: Files>(files: &mut V, name: Name, rows: u16) -> Result<bool, FileError>
    requires { (V.state files.old).draft ≡ None }
    ensures idle { UnlessFailed result ((V.state files.new).draft ≡ None) }
    ensures used { UnlessFailed result (used (V.state files.new).files ≡ used (V.state files.old).files) }
{
    for row in 0..rows {
        if !change(files, name, 5 * u32::from(row) + 4, &[3], &[])? {
            return Ok(false);
        }
    }
    Ok(true)
}

/// Makes a file and takes it away this many times.
pub fn make_and_erase<V: Files>(
    files: &mut V,
    used: &mut u16,
    name: Name,
    times: u16,
) -> Result<bool, FileError>
    requires { HasFiles (V.state files.old) used.old }
    ensures { UnlessFailed result (HasFiles (V.state files.new) used.new) }
{
    for turn in 0..times {
        if !make(files, used, name, Kind::Doubling)? {
            return Ok(false);
        }
        if !erase(files, used, name)? {
            return Ok(false);
        }
    }
    Ok(true)
}
