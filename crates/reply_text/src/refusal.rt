ghost use Rattle.std.specs.Prelude.{◌≡◌, ◌++◌, codes, OnErr, OnOk};
ghost use Rattle.afl_base.specs.Keeping.{Sends};
ghost use Rattle.std.specs.Io.KnownBytes.{append_known};
ghost use Rattle.db_model.specs.ReplyText.{pool_text, refusal_text};
ghost use Rattle.reply_text.specs.WroteLess.{WroteLess};

use crate::bytes::{write_line, write_line_with, write_line_with_signed};
use afl_base::{Failed, Sink};
use db_model::{Pool, Refusal};

/// Appends the line of a refusal: `no`, then why. `Failed` leaves a proper prefix of it there.
#[tactic(auto, unfolding(db_model::specs::ReplyText::refusal_text))]
pub fn write_refusal<K: Sink>(out: &mut K, refusal: &Refusal) -> Result<(), Failed>
    ensures written { OnOk result
        (K.held out.new ≡ append_known (K.held out.old) (refusal_text refusal.now)) }
    ensures failed { OnErr result
        (WroteLess (K.held out.old) (K.held out.new) (refusal_text refusal.now)) }
    ensures frame { Sends K.lent K.faults out.old out.new result }
{
    match refusal {
        Refusal::Syntax { at } => write_line_with(out, b"no syntax ", u64::from(*at)),
        Refusal::Long => write_line(out, b"no long"),
        Refusal::Unfinished => write_line(out, b"no unfinished"),
        Refusal::NoRelation => write_line(out, b"no relation"),
        Refusal::NoAttribute { nth } => write_line_with(out, b"no attribute ", u64::from(*nth)),
        Refusal::Exists => write_line(out, b"no exists"),
        Refusal::NotEmpty => write_line(out, b"no empty"),
        Refusal::Value { nth } => write_line_with(out, b"no value ", u64::from(*nth)),
        Refusal::IllTyped { nth } => write_line_with(out, b"no type ", u64::from(*nth)),
        Refusal::Domain => write_line(out, b"no domain"),
        Refusal::Full { pool, limit } => write_line_with(out, full_words(pool), u64::from(*limit)),
        Refusal::NotOrdered { last } => write_line_with_signed(out, b"no ordered ", last),
        Refusal::InUse { cursor } => write_line_with(out, b"no inuse ", u64::from(*cursor)),
        Refusal::HasIndex => write_line(out, b"no indexed"),
        Refusal::NoIndex => write_line(out, b"no index"),
        Refusal::NoCursor => write_line(out, b"no cursor"),
        Refusal::CursorOpen => write_line(out, b"no open"),
        Refusal::Space { need } => write_line_with(out, b"no space ", u64::from(*need)),
        Refusal::Frame => write_line(out, b"no frame"),
    }
}

fn full_words(pool: &Pool) -> &'static [u8]
    ensures { result.now ≡ codes "no full " ++ pool_text pool.now ++ codes " " }
{
    match pool {
        Pool::Relations => b"no full relations ",
        Pool::Attributes => b"no full attributes ",
        Pool::RowBytes => b"no full rowbytes ",
        Pool::Slots => b"no full slots ",
        Pool::Indexes => b"no full indexes ",
        Pool::HashTables => b"no full hashtables ",
        Pool::HashEntries => b"no full hashentries ",
        Pool::Nodes => b"no full nodes ",
    }
}
