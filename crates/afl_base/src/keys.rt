ghost use Rattle.std.specs.Prelude.{◌≡◌, ◌≢◌, ◌+◌, ◌*◌, ◌≤◌, IfOk, IsTrue};
ghost use Rattle.afl_base.specs.Files.{IsLive, bytes_at, size_at};
ghost use Rattle.afl_base.specs.Keeping.{OnlyReads};
ghost use Rattle.afl_base.specs.KeyColumn.{HasField, IsWidth, key_of, number_of_width};

use crate::failed::Failed;
use crate::fields::{get_i32, get_i64, get_u16};
use crate::files::Files;
use crate::ids::{FileId, SlotNo};
use crate::key_column::KeyColumn;

impl KeyColumn {
    /// The field of row number `slot`, of width 2 or 4, as a signed number. It reads at most two
    /// regions, and leaves all files. Where the bytes are not told the answer may be any number.
    pub fn key<V: Files>(&self, files: &mut V, slot: SlotNo) -> Result<i32, Failed>
        requires width { IsWidth self.now.width }
        requires narrow { self.now.width ≢ 8 }
        requires field { HasField (V.state files.old) self.now slot }
        ensures key { IsTrue (V.state files.old).tells
            → IfOk result (λ key. key ≡ key_of (V.state files.old) self.now slot) }
        ensures reads { V.reads files.new ≤ V.reads files.old + 6 }
        ensures frame { OnlyReads V.state V.lent V.reads V.faults files.old files.new result }
    {
        let at = field_place(self.row, slot, self.at);
        if self.width == 2 {
            return Ok(i32::from(read_i16(files, self.file, at)?));
        }
        read_i32(files, self.file, at)
    }

    /// The field of row number `slot`, of width 2, 4 or 8, as `key` gives it.
    pub fn key64<V: Files>(&self, files: &mut V, slot: SlotNo) -> Result<i64, Failed>
        requires width { IsWidth self.now.width }
        requires field { HasField (V.state files.old) self.now slot }
        ensures key { IsTrue (V.state files.old).tells
            → IfOk result (λ key. key ≡ key_of (V.state files.old) self.now slot) }
        ensures reads { V.reads files.new ≤ V.reads files.old + 6 }
        ensures frame { OnlyReads V.state V.lent V.reads V.faults files.old files.new result }
    {
        if self.width != 8 {
            return Ok(i64::from(self.key(files, slot)?));
        }
        read_i64(files, self.file, field_place(self.row, slot, self.at))
    }
}

// The place of a slot's field in a file of rows.
fn field_place(row: u8, slot: SlotNo, at: u8) -> u32
    ensures { result ≡ row * slot + at }
{
    u32::from(row) * u32::from(slot.number()) + u32::from(at)
}

fn read_i16<V: Files>(files: &mut V, file: FileId, at: u32) -> Result<i16, Failed>
    requires live { IsLive (V.state files.old).files file }
    requires range { at + 2 ≤ size_at (V.state files.old).files file }
    ensures number { IsTrue (V.state files.old).tells
        → IfOk result (λ n. n ≡ number_of_width (bytes_at (V.state files.old).files file) at 2) }
    ensures reads { V.reads files.new ≤ V.reads files.old + 6 }
    ensures frame { OnlyReads V.state V.lent V.reads V.faults files.old files.new result }
{
    let mut field = [0; 2];
    files.read(file, at, &mut field)?;
    Ok(get_u16(&field, 0).cast_signed())
}

fn read_i32<V: Files>(files: &mut V, file: FileId, at: u32) -> Result<i32, Failed>
    requires live { IsLive (V.state files.old).files file }
    requires range { at + 4 ≤ size_at (V.state files.old).files file }
    ensures number { IsTrue (V.state files.old).tells
        → IfOk result (λ n. n ≡ number_of_width (bytes_at (V.state files.old).files file) at 4) }
    ensures reads { V.reads files.new ≤ V.reads files.old + 6 }
    ensures frame { OnlyReads V.state V.lent V.reads V.faults files.old files.new result }
{
    let mut field = [0; 4];
    files.read(file, at, &mut field)?;
    Ok(get_i32(&field, 0))
}

fn read_i64<V: Files>(files: &mut V, file: FileId, at: u32) -> Result<i64, Failed>
    requires live { IsLive (V.state files.old).files file }
    requires range { at + 8 ≤ size_at (V.state files.old).files file }
    ensures number { IsTrue (V.state files.old).tells
        → IfOk result (λ n. n ≡ number_of_width (bytes_at (V.state files.old).files file) at 8) }
    ensures reads { V.reads files.new ≤ V.reads files.old + 6 }
    ensures frame { OnlyReads V.state V.lent V.reads V.faults files.old files.new result }
{
    let mut field = [0; 8];
    files.read(file, at, &mut field)?;
    Ok(get_i64(&field, 0))
}
