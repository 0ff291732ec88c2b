//! Whether a file holds whole rows, and perhaps a part of one more.

#![tactic(auto)]

ghost use Rattle.std.specs.Prelude.{◌≡◌, ◌+◌, ◌*◌, ◌≤◌, ◌<◌, IfOk, IsTrue, length};
ghost use Rattle.std.specs.Bool.{Decides};
ghost use Rattle.afl_base.specs.Files.{IsLive, bytes_at, size_at};
ghost use Rattle.afl_base.specs.Keeping.{OnlyReads};
ghost use Rattle.db_model.specs.Row.{row_length};
ghost use Rattle.stored_survey.specs.Pieces.{AreWritten, IsRowWritten};

use afl_base::{Failed, FileId, Files};
use db_model::{Attributes, row_length};
use stored_mend::is_row;

/// Whether so many rows stand in front in the file.
pub fn holds_rows<V: Files>(
    files: &mut V,
    file: FileId,
    attributes: &Attributes,
    count: u32,
) -> Result<bool, Failed>
    requires live { IsLive (V.state files.old).files file }
    requires short { row_length attributes.now ≤ 128 }
    requires inside { row_length attributes.now * count ≤ size_at (V.state files.old).files file }
    requires few { count ≤ 32768 }
    ensures written { let bytes = bytes_at (V.state files.old).files file in
        IsTrue (V.state files.old).tells → IfOk result
        (λ holds. Decides holds (AreWritten attributes.now bytes count)) }
    ensures frame { OnlyReads V.state V.lent V.reads V.faults files.old files.new result }
{
    for slot in 0..count {
        if !holds_row(files, file, attributes, slot)? {
            return Ok(false);
        }
    }
    Ok(true)
}

// Whether a row stands in a slot of the file.
fn holds_row<V: Files>(
    files: &mut V,
    file: FileId,
    attributes: &Attributes,
    slot: u32,
) -> Result<bool, Failed>
    requires live { IsLive (V.state files.old).files file }
    requires short { row_length attributes.now ≤ 128 }
    requires inside { row_length attributes.now * slot + row_length attributes.now
        ≤ size_at (V.state files.old).files file }
    requires few { slot < 32768 }
    ensures written { let bytes = bytes_at (V.state files.old).files file in
        IsTrue (V.state files.old).tells → IfOk result
        (λ holds. Decides holds (IsRowWritten attributes.now bytes slot)) }
    ensures frame { OnlyReads V.state V.lent V.reads V.faults files.old files.new result }
{
    let mut bytes = [0; 128];
    let length = row_length(attributes);
    let row = &mut bytes[..length];
    files.read(file, length as u32 * slot, row)?;
    Ok(is_row(attributes, row))
}
