//! Whether files are repaired, and what is said of it.

ghost use Rattle.std.specs.Prelude.{◌≡◌, None, OnOk};

use afl_base::{Failed, FileError, Files, Name};
use afl_sim::MemSink;
use catalog::{Catalog, load};
use stored_mend::{Report, mend_database, write_report};
use stored_survey::may_be_cut;

/// Whether the files are found to be those of a cut, are repaired with these lines, and then keep all
/// rules, so that there is no more to be done.
pub fn is_mended<V: Files>(files: &mut V, lines: &[u8]) -> Result<bool, FileError>
    requires idle { (V.state files.old).draft ≡ None }
    ensures idle { OnOk result ((V.state files.new).draft ≡ None) }
{
    if !may_be_cut(files)? {
        return Ok(false);
    }
    let mut report = Report::new();
    mend_database(files, &mut report)?;
    if !has_lines(&report, lines) || load(files, &mut Catalog::empty())?.is_err() {
        return Ok(false);
    }
    let mut again = Report::new();
    mend_database(files, &mut again)?;
    Ok(has_lines(&again, b"") && may_be_cut(files)?)
}

// Whether a report has these lines.
fn has_lines(report: &Report, lines: &[u8]) -> bool {
    let mut room = [0u8; 256];
    let mut out = MemSink::new(&mut room, None);
    let written = write_report(&mut out, report);
    written.is_ok() && out.written() == lines
}

/// The size of the file of a name, None where there is none.
pub fn size_named<V: Files>(files: &V, name: &[u8]) -> Option<u32> {
    let id = files.find(Name::new(name)?)?;
    Some(files.size(id))
}

/// The byte at a place of the file of a name, None where it has none.
pub fn byte_at<V: Files>(files: &mut V, name: &[u8], at: u32) -> Result<Option<u8>, Failed> {
    let found = match Name::new(name) {
        Some(name) => files.find(name),
        None => None,
    };
    let Some(id) = found else {
        return Ok(None);
    };
    if at >= files.size(id) {
        return Ok(None);
    }
    let mut byte = [0];
    files.read(id, at, &mut byte)?;
    Ok(Some(byte[0]))
}
