//! The line of a flash.

#![tactic(auto)]

ghost use Rattle.std.specs.Prelude.{◌≡◌, ◌+◌, ◌≤◌, ◌++◌, None, IsTrue, OnErr, OnOk, codes};
ghost use Rattle.std.specs.Io.KnownBytes.{append_known};
ghost use Rattle.afl_base.specs.Keeping.{Sends};
ghost use Rattle.coffee_layout.specs.Rules.{broken_image};
ghost use Rattle.coffee_layout.specs.Units.{pages_of};
ghost use Rattle.dump.specs.Appends.{AppendsText};
ghost use Rattle.run_look.specs.Looking.{OnlyLooks};
ghost use Rattle.run_look.specs.Text.{counted_words, flash_line, pages_line};
ghost use Rattle.reply_text.specs.WroteLess.{WroteLess};

use crate::counting::count_pages;
use crate::pages::PageCounts;
use afl_base::{Failed, Fault, Flash, Sink};
use coffee_layout::one_tiling;
use reply_text::{write_count, write_line_of_counts};

/// Appends the line of a flash: how many sectors it has, and how its pages are used. The flash is read
/// before, and each page of it once at most.
///
/// # Errors
///
/// `Fault::Sink` leaves a proper prefix of the line in the sink, `Fault::Flash` nothing of it.
pub fn write_flash<F: Flash, K: Sink>(flash: &mut F, out: &mut K) -> Result<(), Fault>
    ensures wrote { let image = F.image flash.old in IsTrue F.tells → broken_image image ≡ None
        → AppendsText result (K.held out.old) (K.held out.new) (flash_line image) }
    ensures reads { F.reads flash.new ≤ F.reads flash.old + pages_of (F.image flash.old) }
    ensures frame { OnlyLooks F.Flash K.Sink flash.old flash.new out.old out.new result }
{
    one_tiling();
    let sectors = flash.sectors();
    let counts = match count_pages(flash) {
        Ok(counts) => counts,
        Err(Failed) => return Err(Fault::Flash),
    };
    match write_pages_line(out, sectors, &counts) {
        Ok(()) => Ok(()),
        Err(Failed) => Err(Fault::Sink),
    }
}

#[tactic(auto, using(reply_text::proofs::Pieces::less_front, reply_text::proofs::Pieces::less_behind, reply_text::proofs::Pieces::less_third))]
fn write_pages_line<K: Sink>(out: &mut K, sectors: u16, counts: &PageCounts) -> Result<(), Failed>
    ensures written { OnOk result
        (K.held out.new ≡ append_known (K.held out.old) (pages_line sectors counts.now)) }
    ensures failed { OnErr result (WroteLess (K.held out.old) (K.held out.new) (pages_line sectors counts.now)) }
    ensures frame { Sends K.lent K.faults out.old out.new result }
{
    write_sectors(out, sectors, counts.free)?;
    write_count(out, b" in files ", u64::from(counts.files))?;
    write_line_of_counts(
        out,
        b" in logs ",
        u64::from(counts.logs),
        b" to be collected ",
        u64::from(counts.old),
    )
}

#[tactic(auto, using(reply_text::proofs::Pieces::less_front, reply_text::proofs::Pieces::less_behind))]
fn write_sectors<K: Sink>(out: &mut K, sectors: u16, free: u16) -> Result<(), Failed>
    ensures written { let text = counted_words (codes "flash sectors ") sectors ++ counted_words (codes " pages free ") free in
        OnOk result (K.held out.new ≡ append_known (K.held out.old) text) }
    ensures failed { let text = counted_words (codes "flash sectors ") sectors ++ counted_words (codes " pages free ") free in
        OnErr result (WroteLess (K.held out.old) (K.held out.new) text) }
    ensures frame { Sends K.lent K.faults out.old out.new result }
{
    write_count(out, b"flash sectors ", u64::from(sectors))?;
    write_count(out, b" pages free ", u64::from(free))
}
