//! Where the ends of a range lie, by halving: first one that serves both, then one for the second end alone.

#![tactic(auto)]

ghost use Rattle.std.specs.Prelude.{◌≡◌, ◌+◌, ◌-◌, ◌*◌, ◌/◌, ◌<◌, ◌≤◌, ℕ, ℤ, true, IsTrue, IfOk};
ghost use Rattle.afl_base.specs.Keeping.{OnlyReads};
ghost use Rattle.afl_base.specs.KeyColumn.{HasField, IsWidth, key_of};
ghost use Rattle.db_model.specs.Cost.{bits};
ghost use Rattle.index_inline.specs.Span.{AreAround, IsEndFrom, KeysRise, passes_end};

use afl_base::{Failed, Files, KeyColumn, SlotNo};
use db_model::Range;

/// Slots around the ends of a range: it begins from `low` to `high`, and ends at `behind` or before.
#[derive(Clone, Copy)]
pub struct Around {
    pub low: u16,
    pub high: u16,
    pub behind: u16,

    pub ghost order: { low ≤ high },
    pub ghost within: { high ≤ behind },
}

/// Halves the slots until no more than a few are left in which the range may begin.
pub(crate) fn narrowed<V: Files>(
    files: &mut V,
    column: &KeyColumn,
    slots: u16,
    few: u16,
    within: &Range,
) -> Result<Around, Failed>
    requires few { slots ≤ 32768 }
    requires width { IsWidth column.now.width }
    requires fields { (slot : ℕ) → slot < slots → HasField (V.state files.old) column.now slot }
    ensures end { IfOk result (λ a. a.behind ≤ slots) }
    ensures near { IfOk result (λ a. a.high ≤ a.low + few) }
    ensures around { let key = key_of (V.state files.old) column.now in
        IsTrue (V.state files.old).tells → KeysRise key slots
        → IfOk result (λ a. AreAround within.now key slots a.low a.high a.behind) }
    ensures reads { IfOk result (λ a.
        V.reads files.new + 6 * bits (a.high - a.low) ≤ V.reads files.old + 6 * bits slots) }
    ensures reads_err { V.reads files.new ≤ V.reads files.old + 6 * bits slots }
    ensures frame { OnlyReads V.state V.lent V.reads V.faults files.old files.new result }
{
    let mut around = Around {
        low: 0,
        high: slots,
        behind: slots,
    };
    'halves: while around.high - around.low > few {
        let middle = around.low + (around.high - around.low) / 2;
        let key = key_in(files, column, middle)?;
        around = halved(around, middle, &key, within);
    }
    Ok(around)
}

// The slots that are left after a look at the key of one in the middle.
fn halved(around: Around, middle: u16, key: &i64, within: &Range) -> Around
    requires some { around.low < around.high }
    requires middle { middle ≡ around.low + (around.high - around.low) / 2 }
    ensures half { result.high - result.low ≤ (around.high - around.low) / 2 }
    ensures less { result.high - result.low < around.high - around.low }
    ensures behind { result.behind ≤ around.behind }
    ensures around { (keys : ℕ → ℤ) (slots : ℕ) → KeysRise keys slots → key.now ≡ keys middle
        → AreAround within.now keys slots around.low around.high around.behind
        → AreAround within.now keys slots result.low result.high result.behind }
{
    if passes_end(false, within, key) {
        return Around {
            low: middle + 1,
            high: around.high,
            behind: around.behind,
        };
    }
    if passes_end(true, within, key) {
        return Around {
            low: around.low,
            high: middle,
            behind: around.behind,
        };
    }
    Around {
        low: around.low,
        high: middle,
        behind: middle,
    }
}

/// Where a range ends that begins at or before `from`, and ends at or before `to`, by halving.
pub(crate) fn end_between<V: Files>(
    files: &mut V,
    column: &KeyColumn,
    from: u16,
    to: u16,
    within: &Range,
) -> Result<u16, Failed>
    requires order { from ≤ to }
    requires few { to ≤ 32768 }
    requires width { IsWidth column.now.width }
    requires fields { (slot : ℕ) → slot < to → HasField (V.state files.old) column.now slot }
    ensures order { IfOk result (λ end. from ≤ end) }
    ensures within { IfOk result (λ end. end ≤ to) }
    ensures end { let key = key_of (V.state files.old) column.now in
        IsTrue (V.state files.old).tells → (slots : ℕ) → to ≤ slots → KeysRise key slots
        → IfOk result (λ end. IsEndFrom within.now key from to end) }
    ensures reads { V.reads files.new ≤ V.reads files.old + 6 * bits (to - from) }
    ensures frame { OnlyReads V.state V.lent V.reads V.faults files.old files.new result }
{
    let mut low = from;
    let mut high = to;
    'halves: while low < high {
        let middle = low + (high - low) / 2;
        let key = key_in(files, column, middle)?;
        if passes_end(true, within, &key) {
            low = middle + 1;
        } else {
            high = middle;
        }
    }
    Ok(low)
}

// The key of a slot.
fn key_in<V: Files>(files: &mut V, column: &KeyColumn, slot: u16) -> Result<i64, Failed>
    requires few { slot < 32768 }
    requires width { IsWidth column.now.width }
    requires field { HasField (V.state files.old) column.now slot }
    ensures key { IsTrue (V.state files.old).tells
        → IfOk result (λ key. key ≡ key_of (V.state files.old) column.now slot) }
    ensures reads { V.reads files.new ≤ V.reads files.old + 6 }
    ensures frame { OnlyReads V.state V.lent V.reads V.faults files.old files.new result }
{
    match SlotNo::new(slot) {
        Some(slot) => column.key64(files, slot),
        None => Err(Failed),
    }
}

/// Whether a key comes before an end of a range: it is less than the lower bound, or at most the upper one.
pub(crate) fn passes_end(upper: bool, within: &Range, key: &i64) -> bool
    ensures { result ≡ passes_end upper within.now key.now }
{
    match within {
        Range::Empty => false,
        Range::Between { lo, hi } => { if upper { *key <= *hi } else { *key < *lo } }
    }
}
