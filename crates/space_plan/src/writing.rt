//! What a plan writes.

#![tactic(auto)]

ghost use Rattle.std.specs.Prelude.{◌≡◌, false, IsTrue, OnErr, OnOk};
ghost use Rattle.afl_base.specs.Keeping.{Sends};
ghost use Rattle.std.specs.Io.KnownBytes.{append_known};
ghost use Rattle.reply_text.specs.WroteLess.{WroteLess};
ghost use Rattle.space_plan.specs.Lines.{plan_reply};

use crate::further::{FurtherRows, are_relations};
use crate::line::write_plan;
use crate::planning::planned;
use afl_base::{Failed, Files, Sink};
use antelope_engine::Session;
use db_model::Refusal;
use reply_text::write_refusal;

/// Appends the line of a plan for further rows in the session's database, on a flash of `present` sectors.
/// Where a named relation is none of the database, that is the refusal of a command that names it.
/// `Failed` leaves a proper prefix of the line there.
#[tactic(auto, unfolding(crate::specs::Lines::plan_reply))]
pub fn write<V: Files, K: Sink>(
    session: &Session<V>,
    rows: &FurtherRows,
    present: u16,
    out: &mut K,
) -> Result<(), Failed>
    requires running { session.now.stopped ≡ false }
    ensures written { let reply = plan_reply session.now.database rows.now present in
        IsTrue (V.state session.now.files).tells
        → OnOk result (K.held out.new ≡ append_known (K.held out.old) reply) }
    ensures failed { let reply = plan_reply session.now.database rows.now present in
        IsTrue (V.state session.now.files).tells
        → OnErr result (WroteLess (K.held out.old) (K.held out.new) reply) }
    ensures frame { Sends K.lent K.faults out.old out.new result }
{
    session.database_is_sound();
    if are_relations(session, rows) {
        write_plan(out, planned(session, rows), present)
    } else {
        write_refusal(out, &Refusal::NoRelation)
    }
}
