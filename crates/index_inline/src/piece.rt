//! The last few slots, whose keys are read at once.

#![tactic(auto)]

ghost use Rattle.std.specs.Prelude.{◌≡◌, ◌+◌, ◌-◌, ◌*◌, ◌<◌, ◌≤◌, ℕ, ℤ, true, false, IsTrue, IfOk, OnOk, length};
ghost use Rattle.afl_base.specs.Keeping.{OnlyReads};
ghost use Rattle.afl_base.specs.KeyColumn.{HasField, IsWidth, key_of, number_of_width};
ghost use Rattle.db_model.specs.Cost.{bits};
ghost use Rattle.index_inline.specs.Span.{AreAround, IsSpanTo, KeysRise, passes_end};

use crate::halving::{Around, passes_end};
use afl_base::{Failed, Files, KeyColumn, get_i32, get_i64, get_u16};
use db_model::Range;

// Bytes that are read at once: no more than two regions, as the field of one slot.
const PIECE_SIZE: usize = 128;

/// A range up to a slot: the slots from `from` on and below `to` lie in it, and it ends at `behind` or before.
#[derive(Clone, Copy)]
pub struct Near {
    pub from: u16,
    pub to: u16,
    pub behind: u16,

    pub ghost order: { from ≤ to },
    pub ghost within: { to ≤ behind },
}

/// How many slots have their fields in so few bytes.
pub(crate) fn slots_at_once(column: &KeyColumn) -> u16
    requires width { IsWidth column.now.width }
    ensures some { 1 ≤ result }
    ensures few { result ≤ 128 }
    ensures short { column.now.row * (result - 1) + column.now.width ≤ 128 }
{
    (128 - u16::from(column.width)) / u16::from(column.row.max(1)) + 1
}

/// Where a range begins that begins from `low` to `high`, and as much of its end as the keys that stand
/// with these in a few bytes show.
pub(crate) fn look_near<V: Files>(
    files: &mut V,
    column: &KeyColumn,
    around: Around,
    few: u16,
    within: &Range,
) -> Result<Near, Failed>
    requires behind { around.behind ≤ 32768 }
    requires few { 1 ≤ few }
    requires short { column.now.row * (few - 1) + column.now.width ≤ 128 }
    requires near { around.high ≤ around.low + few }
    requires width { IsWidth column.now.width }
    requires fields { (slot : ℕ) → slot < around.behind → HasField (V.state files.old) column.now slot }
    ensures behind { IfOk result (λ near. near.behind ≤ around.behind) }
    ensures span { let key = key_of (V.state files.old) column.now in
        IsTrue (V.state files.old).tells → IfOk result (λ near. (slots : ℕ) → KeysRise key slots
        → AreAround within.now key slots around.low around.high around.behind
        → IsSpanTo within.now key slots near.from near.to near.behind) }
    ensures reads { V.reads files.new ≤ V.reads files.old + 6 * bits (around.high - around.low) }
    ensures frame { OnlyReads V.state V.lent V.reads V.faults files.old files.new result }
{
    if around.low == around.high {
        return Ok(Near {
            from: around.high,
            to: around.high,
            behind: around.behind,
        });
    }
    let count = few.min(around.behind - around.low);
    let mut bytes = [0; PIECE_SIZE];
    let piece = &mut bytes[..length_of(column.row, column.width, count)];
    read_piece(files, column, around.low, count, piece)?;
    Ok(found_in(column, piece, around, count, within))
}

// The bytes from the begin of the first field to the end of the last.
fn length_of(row: u8, width: u8, count: u16) -> usize
    requires some { 1 ≤ count }
    requires few { count ≤ 32768 }
    ensures { result ≡ row * (count - 1) + width }
{
    usize::from(row) * usize::from(count - 1) + usize::from(width)
}

// The place of the field of a slot.
fn place_of(row: u8, slot: u16, at: u8) -> u32
    requires { slot < 32768 }
    ensures { result ≡ row * slot + at }
{
    u32::from(row) * u32::from(slot) + u32::from(at)
}

// Reads the fields of so many slots from one on.
fn read_piece<V: Files>(
    files: &mut V,
    column: &KeyColumn,
    slot: u16,
    count: u16,
    into: &mut [u8],
) -> Result<(), Failed>
    requires some { 1 ≤ count }
    requires below { slot + count ≤ 32768 }
    requires width { IsWidth column.now.width }
    requires last { HasField (V.state files.old) column.now (slot + (count - 1)) }
    requires size { length into.old ≡ column.now.row * (count - 1) + column.now.width }
    requires short { length into.old ≤ 128 }
    ensures keys { IsTrue (V.state files.old).tells → OnOk result ((nth : ℕ) → nth < count
        → number_of_width into.new (column.now.row * nth) column.now.width
        ≡ key_of (V.state files.old) column.now (slot + nth)) }
    ensures size { length into.new ≡ length into.old }
    ensures reads { V.reads files.new ≤ V.reads files.old + 6 }
    ensures frame { OnlyReads V.state V.lent V.reads V.faults files.old files.new result }
{
    files.read(column.file, place_of(column.row, slot, column.at), into)?;
    Ok(())
}

// What the keys of so many slots from `low` on tell.
fn found_in(column: &KeyColumn, piece: &[u8], around: Around, count: u16, within: &Range) -> Near
    requires width { IsWidth column.now.width }
    requires behind { around.behind ≤ 32768 }
    requires some { 1 ≤ count }
    requires near { around.high ≤ around.low + count }
    requires count { around.low + count ≤ around.behind }
    requires size { length piece.now ≡ column.now.row * (count - 1) + column.now.width }
    ensures behind { result.behind ≤ around.behind }
    ensures span { (key : ℕ → ℤ) (slots : ℕ) → KeysRise key slots
        → ((nth : ℕ) → nth < count → number_of_width piece.now (column.now.row * nth) column.now.width
        ≡ key (around.low + nth))
        → AreAround within.now key slots around.low around.high around.behind
        → IsSpanTo within.now key slots result.from result.to result.behind }
{
    let from = first_failing(column, piece, 0, around.high - around.low, false, within);
    let to = first_failing(column, piece, from, count, true, within);
    if to == count {
        return Near {
            from: around.low + from,
            to: around.low + to,
            behind: around.behind,
        };
    }
    Near {
        from: around.low + from,
        to: around.low + to,
        behind: around.low + to,
    }
}

// The first of some slots whose key does not come before an end of a range, or the end of these.
fn first_failing(
    column: &KeyColumn,
    piece: &[u8],
    start: u16,
    end: u16,
    upper: bool,
    within: &Range,
) -> u16
    requires width { IsWidth column.now.width }
    requires order { start ≤ end }
    requires fields { (nth : ℕ) → nth < end → column.now.row * nth + column.now.width ≤ length piece.now }
    ensures order { start ≤ result }
    ensures within { result ≤ end }
    ensures passed { (nth : ℕ) → start ≤ nth → nth < result → passes_end upper within.now
        (number_of_width piece.now (column.now.row * nth) column.now.width) ≡ true }
    ensures failed { result < end → passes_end upper within.now
        (number_of_width piece.now (column.now.row * result) column.now.width) ≡ false }
{
    for nth in start..end {
        let key = key_in(column, piece, nth);
        if !passes_end(upper, within, &key) {
            return nth;
        }
    }
    end
}

// The key of a slot in a piece, counted from its first.
fn key_in(column: &KeyColumn, piece: &[u8], nth: u16) -> i64
    requires width { IsWidth column.now.width }
    requires field { column.now.row * nth + column.now.width ≤ length piece.now }
    ensures { result ≡ number_of_width piece.now (column.now.row * nth) column.now.width }
{
    let at = usize::from(column.row) * usize::from(nth);
    if column.width == 2 {
        return i64::from(get_u16(piece, at).cast_signed());
    }
    if column.width == 4 {
        return i64::from(get_i32(piece, at));
    }
    get_i64(piece, at)
}
