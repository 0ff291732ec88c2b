//! Laws of cursors. Each function does nothing: its contract is the law.

#![tactic(auto)]

ghost use Rattle.std.specs.Prelude.{◌≡◌, ◌≤◌, [], List, length};
ghost use Rattle.db_model.specs.Row.{Row};
ghost use Rattle.index_set.specs.Walks.{RowsGrow, Waits};
ghost use Rattle.cursor.specs.declared.join.JoinCursor.{JoinCursor as AnyJoin};
ghost use Rattle.cursor.specs.declared.select.SelectCursor.{SelectCursor as AnySelect};
ghost use Rattle.cursor.specs.Pairs.{pairs_left};
ghost use Rattle.cursor.specs.Remaining.{remaining, slots_to_answer};

/// What remains of a cursor's answer is the same whatever rows come after the others.
#[tactic(auto, using(crate::proofs::Waiting::remaining_kept, crate::proofs::Waiting::slots_kept))]
pub fn rows_that_come_change_no_answer()
    ensures remaining { (c : AnySelect) (old new : List Row) → RowsGrow old new
        → Waits c.candidates old → remaining c new ≡ remaining c old }
    ensures slots_left { (c : AnySelect) (old new : List Row) → RowsGrow old new
        → Waits c.candidates old → slots_to_answer c new ≡ slots_to_answer c old }
{}

/// The pairs that are left are the same whatever rows come after the others on either side.
#[tactic(auto, using(crate::proofs::Waiting::pairs_kept))]
pub fn rows_that_come_change_no_pair()
    ensures { (c : AnyJoin) (lefts lefts_now rights rights_now : List Row)
        → RowsGrow lefts lefts_now → RowsGrow rights rights_now
        → c.left_slots ≤ length lefts → c.right_slots ≤ length rights
        → pairs_left c lefts_now rights_now ≡ pairs_left c lefts rights }
{}

/// A cursor that began over a relation without slots has nothing to answer, whatever its rows are
/// read as.
#[tactic(auto, using(crate::proofs::Waiting::remaining_none, crate::proofs::Waiting::left_none, crate::proofs::Waiting::right_none))]
pub fn nothing_is_left_of_no_slots()
    ensures remaining { (c : AnySelect) (all : List Row) → c.candidates.slots ≡ 0
        → remaining c all ≡ [] }
    ensures left { (c : AnyJoin) (lefts rights : List Row) → c.left_slots ≡ 0
        → pairs_left c lefts rights ≡ [] }
    ensures right { (c : AnyJoin) (lefts rights : List Row) → c.right_slots ≡ 0
        → pairs_left c lefts rights ≡ [] }
{}
