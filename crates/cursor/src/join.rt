//! Cursors of two relations.

#![tactic(auto)]

ghost use Rattle.std.specs.Prelude.{None, ◌≡◌, ◌+◌, ◌*◌, ◌<◌, ◌≤◌, IfOk, IfSome, IsTrue, OnErr, OnOk, List, length};
ghost use Rattle.afl_base.specs.Files.{State};
ghost use Rattle.afl_base.specs.Keeping.{OnlyReads};
ghost use Rattle.db_model.specs.Row.{Row};
ghost use Rattle.index_set.specs.Complete.{AreReadable};
ghost use Rattle.tuple_file.specs.Tuples.{HoldsRows, rows, slots};
ghost use Rattle.cursor.specs.Pairs.{FailsPair, FitsPairs, HasAnswered, HasLive, IsBegunJoin, IsOver, MayReadPairs, MovesOn, PairsAt, PaysAt, StopsAt, YieldsPair, behind_pair, join_cost_ahead, join_cost_behind, matching, pairs_left, place_in, right_side_costs};

use crate::partner::{Partner, Partnered, next_partner, value_at};
use afl_base::{Failed, Files, SlotNo};
use db_model::Tuple;
use index_maxheap::Place;
use index_set::{Candidates, HashTables, Indexes};
use tuple_file::Tuples;

/// The pairs of live rows of two relations that have the same value, by left slot and then right slot.
#[derive(Drop)]
pub struct JoinCursor {
    pub left: Tuples,
    pub right: Tuples,
    pub right_indexes: Indexes,
    pub left_on: u8,
    pub right_on: u8,
    pub left_slots: u16,
    pub right_slots: u16,
    /// The left slot at which it stands, and the first right slot that is still to come there.
    pub at: u16,
    pub from: u16,
    /// Where the right side stands, within one command.
    pub inner: Option<Candidates>,
    /// Where it stood in a tree when it came to rest: nothing is asked of it.
    pub hint: Option<Place>,
}

// Where candidates stand in a tree.
fn place_in(inner: &Option<Candidates>) -> Option<Place>
    ensures { result ≡ place_in inner.now }
{
    match inner {
        Some(inner) => inner.place,
        None => None,
    }
}

impl JoinCursor {
    /// Begins over the slots that both relations have now. It reads nothing.
    pub fn begin<V: Files>(
        files: &V,
        left: Tuples,
        right: Tuples,
        right_indexes: Indexes,
        left_on: u8,
        right_on: u8,
    ) -> JoinCursor
        requires left { HoldsRows (V.state files.now) left }
        requires right { HoldsRows (V.state files.now) right }
        requires readable { let state = V.state files.now in
            AreReadable state (slots state.files right) right_indexes }
        ensures pairs { let lefts = rows (V.state files.now).files left in
            let rights = rows (V.state files.now).files right in
            pairs_left result lefts rights ≡ matching left_on right_on lefts rights }
        ensures cost { let lefts = rows (V.state files.now).files left in
            let rights = rows (V.state files.now).files right in
            join_cost_ahead result lefts rights
            ≡ 6 * (length lefts + length (matching left_on right_on lefts rights))
            + right_side_costs result rights lefts }
        ensures begun { let files = (V.state files.now).files in IsBegunJoin result left right
            right_indexes left_on right_on (slots files left) (slots files right) }
        ensures may_read { MayReadPairs (V.state files.now) result }
    {
        let left_slots = left.count(files);
        let right_slots = right.count(files);
        JoinCursor {
            left,
            right,
            right_indexes,
            left_on,
            right_on,
            left_slots,
            right_slots,
            at: 0,
            from: 0,
            inner: None,
            hint: None,
        }
    }

    /// Holds where the right side stands for a hint alone: the pairs to come are the same, and it goes on
    /// rightly whatever is inserted from now on.
    pub fn rest(&mut self)
        ensures rests { self.new ≡ record self.old { inner = None; hint = place_in self.old.inner } }
        ensures pairs { (lefts rights : List Row) → pairs_left self.new lefts rights
            ≡ pairs_left self.old lefts rights }
    {
        self.hint = place_in(&self.inner);
        self.inner = None;
    }

    // Whether the right side knows without a read that the left row at which it stands has no pair left.
    fn is_over(&self, tables: &HashTables) -> bool
        ensures { IsTrue result → (state : State) → MayReadPairs state self.now → FitsPairs self.now state tables.now
            → IsOver self.now (rows state.files self.now.left) (rows state.files self.now.right) }
    {
        match &self.inner {
            Some(inner) => inner.is_over(tables),
            None => false,
        }
    }

    // The next pair of the left row at which it stands, `None` exactly where there is none.
    fn pair_at<V: Files>(
        &self,
        files: &mut V,
        tables: &HashTables,
        left: &mut Tuple,
        right: &mut Tuple,
    ) -> Result<Option<Partnered>, Failed>
        requires may_read { MayReadPairs (V.state files.old) self.now }
        requires here { self.now.at < self.now.left_slots }
        ensures steps { let state = V.state files.old in let lefts = rows state.files self.now.left in
            let rights = rows state.files self.now.right in
            IsTrue state.tells → IfOk result (λ found.
            FitsPairs self.now state tables.now
            → PairsAt found (left.new, right.new) self.now lefts rights
            × PaysAt found self.now lefts rights (V.reads files.old) (V.reads files.new)) }
        ensures fits { IsTrue (V.state files.old).tells → IfOk result (λ found.
            FitsPairs self.now (V.state files.old) tables.now → IfSome found (λ p.
            FitsPairs (behind_pair self.now p.slot p.inner) (V.state files.old) tables.now)) }
        ensures may_read { IfOk result (λ found. IfSome found (λ p.
            MayReadPairs (V.state files.old) (behind_pair self.now p.slot p.inner))) }
        ensures left_row { let state = V.state files.old in IsTrue state.tells → IfOk result (λ found.
            IfSome found (λ _. HasLive (rows state.files self.now.left) self.now.at left.new)) }
        ensures right_row { let state = V.state files.old in IsTrue state.tells → IfOk result (λ found.
            IfSome found (λ p. HasLive (rows state.files self.now.right) p.slot right.new)) }
        ensures below { IfOk result (λ found. IfSome found (λ p. p.slot < self.now.right_slots)) }
        ensures reads_err { let state = V.state files.old in let lefts = rows state.files self.now.left in
            let rights = rows state.files self.now.right in
            IsTrue state.tells → OnErr result (FitsPairs self.now state tables.now
            → V.reads files.new + join_cost_behind self.now lefts rights
            ≤ V.reads files.old + join_cost_ahead self.now lefts rights) }
        ensures frame { OnlyReads V.state V.lent V.reads V.faults files.old files.new result }
    {
        if self.is_over(tables) {
            return Ok(None);
        }
        let slot = match SlotNo::new(self.at) {
            Some(slot) => slot,
            None => return Ok(None),
        };
        if !self.left.row(files, slot, left)? {
            return Ok(None);
        }
        if self.right_slots == 0 {
            return Ok(None);
        }
        let partner = Partner {
            value: value_at(left, self.left_on),
            on: self.right_on,
        };
        let found = next_partner(
            files,
            tables,
            &self.right,
            &self.right_indexes,
            &partner,
            &self.inner,
            self.hint,
            self.from,
            self.right_slots,
            right,
        )?;
        Ok(found)
    }

    /// Puts the next pair into `left` and `right`, and answers false exactly where there is none. Then
    /// it stands after all left slots, and answers false from now on.
    pub fn next<V: Files>(
        &mut self,
        files: &mut V,
        tables: &HashTables,
        left: &mut Tuple,
        right: &mut Tuple,
    ) -> Result<bool, Failed>
        requires may_read { MayReadPairs (V.state files.old) self.old }
        ensures yields { let state = V.state files.old in let lefts = rows state.files self.old.left in
            let rights = rows state.files self.old.right in IsTrue state.tells → IfOk result (λ found.
            FitsPairs self.old state tables.now → YieldsPair found (left.new, right.new) self.old self.new
            state tables.now lefts rights (V.reads files.old) (V.reads files.new)) }
        ensures pair { let state = V.state files.old in let lefts = rows state.files self.old.left in
            let rights = rows state.files self.old.right in
            IsTrue state.tells → IfOk result (λ found. IsTrue found
            → HasAnswered self.new lefts rights left.new right.new) }
        ensures moves { MovesOn self.old self.new }
        ensures stops { IfOk result (λ found. StopsAt found self.old self.new) }
        ensures may_read { OnOk result (MayReadPairs (V.state files.old) self.new) }
        ensures inside { OnErr result (self.new.at < self.new.left_slots) }
        ensures fails { let state = V.state files.old in let lefts = rows state.files self.old.left in
            let rights = rows state.files self.old.right in IsTrue state.tells → OnErr result (
            FitsPairs self.old state tables.now → FailsPair self.old self.new lefts rights
            (V.reads files.old) (V.reads files.new)) }
        ensures frame { OnlyReads V.state V.lent V.reads V.faults files.old files.new result }
    {
        'lefts: while self.at < self.left_slots {
            match self.pair_at(files, tables, left, right)? {
                Some(partnered) => {
                    self.from = partnered.slot.number() + 1;
                    self.inner = Some(partnered.inner);
                    return Ok(true);
                }
                None => {
                    self.at += 1;
                    self.from = 0;
                    self.inner = None;
                }
            }
        }
        Ok(false)
    }
}
