//! A join that goes by blocks of left rows.

#![tactic(auto)]

ghost use Rattle.std.specs.Prelude.{◌≡◌, ◌+◌, ◌*◌, ◌-◌, ◌<◌, ◌≤◌, IfOk, IfSome, IsTrue, OnErr, OnOk, List, true};
ghost use Rattle.afl_base.specs.Keeping.{OnlyReads};
ghost use Rattle.db_model.specs.Row.{Row};
ghost use Rattle.tuple_file.specs.Tuples.{rows};
ghost use Rattle.cursor.specs.Blocks.{HasMetRights, IsBlockFor, IsBlockOf, IsSameBlock, MayReadBy, PairsInBlock, PaysInBlock, WasRead, YieldsByBlock, cost_by_block, cost_in_blocks};
ghost use Rattle.cursor.specs.Pairs.{FitsPairs, MayReadPairs};

use crate::block::{Block, number_in};
use crate::join::JoinCursor;
use afl_base::{Failed, Files, SlotNo};
use db_model::Tuple;
use index_set::HashTables;
use tuple_file::{ROW_SIZE, get_tuple};

impl JoinCursor {
    // Sees to it that the block has the left row at which it stands.
    fn take_block<V: Files>(&self, files: &mut V, block: &mut Block) -> Result<(), Failed>
        requires may_read { MayReadPairs (V.state files.old) self.now }
        requires here { self.now.at < self.now.left_slots }
        requires block { IsBlockFor block.old self.now }
        ensures serves { OnOk result (block.new.serves ≡ block.old.serves) }
        ensures block { OnOk result (IsBlockFor block.new self.now) }
        ensures inside { OnOk result (self.now.at < block.new.end) }
        ensures read { let state = V.state files.old in let lefts = rows state.files self.now.left in
            let rights = rows state.files self.now.right in IsTrue state.tells → OnOk result (
            HasMetRights block.old self.now lefts rights → HasMetRights block.new self.now lefts rights) }
        ensures reads { OnOk result (V.reads files.new + 6 * (self.now.left_slots - block.new.end)
            ≤ V.reads files.old + 6 * (self.now.left_slots - block.old.end)) }
        ensures reads_err { OnErr result (V.reads files.new
            ≤ V.reads files.old + 6 * (self.now.left_slots - block.old.end)) }
        ensures frame { OnlyReads V.state V.lent V.reads V.faults files.old files.new result }
    {
        if self.at < block.end {
            return Ok(());
        }
        block.fill(files, self)?;
        Ok(())
    }

    // The next pair of the left row at which it stands, `None` exactly where there is none.
    fn pair_in_block<V: Files>(
        &self,
        files: &mut V,
        block: &mut Block,
        left: &mut Tuple,
        right: &mut Tuple,
    ) -> Result<Option<SlotNo>, Failed>
        requires may_read { MayReadPairs (V.state files.old) self.now }
        requires here { self.now.at < self.now.left_slots }
        requires block { IsBlockFor block.old self.now }
        requires inside { self.now.at < block.old.end }
        ensures kept { OnOk result (IsSameBlock block.old block.new) }
        ensures seen { IfOk result (λ found. IfSome found (λ slot. WasRead slot block.new self.now)) }
        ensures within { OnOk result (block.new.seen ≤ self.now.right_slots) }
        ensures pairs { let state = V.state files.old in let lefts = rows state.files self.now.left in
            let rights = rows state.files self.now.right in IsTrue state.tells → IfOk result (λ found.
            HasMetRights block.old self.now lefts rights
            → PairsInBlock found (left.new, right.new) self.now lefts rights) }
        ensures read { let state = V.state files.old in let lefts = rows state.files self.now.left in
            let rights = rows state.files self.now.right in IsTrue state.tells → OnOk result (
            HasMetRights block.old self.now lefts rights → HasMetRights block.new self.now lefts rights) }
        ensures reads { let state = V.state files.old in let lefts = rows state.files self.now.left in
            let rights = rows state.files self.now.right in IsTrue state.tells → IfOk result (λ found.
            HasMetRights block.old self.now lefts rights → PaysInBlock found block.old self.now lefts rights
            (V.reads files.old) (V.reads files.new)) }
        ensures reads_err { let state = V.state files.old in let lefts = rows state.files self.now.left in
            let rights = rows state.files self.now.right in IsTrue state.tells → OnErr result (
            HasMetRights block.old self.now lefts rights → V.reads files.new
            ≤ V.reads files.old + cost_in_blocks block.old self.now lefts rights) }
        ensures frame { OnlyReads V.state V.lent V.reads V.faults files.old files.new result }
    {
        match block.partner(files, self, right)? {
            Some(slot) => {
                let mut bytes = [0; ROW_SIZE];
                let row = &mut bytes[..self.left.length()];
                number_in(files, &self.left, self.at, self.left_on, row)?;
                get_tuple(&self.left.schema.attributes, row, left);
                Ok(Some(slot))
            }
            None => Ok(None),
        }
    }

    // As `next`, by a block that serves.
    // Not inlined: `next` would keep its rows on the stack.
    #[inline(never)]
    fn next_in_block<V: Files>(
        &mut self,
        files: &mut V,
        tables: &HashTables,
        block: &mut Block,
        left: &mut Tuple,
        right: &mut Tuple,
    ) -> Result<bool, Failed>
        requires may_read { MayReadPairs (V.state files.old) self.old }
        requires serves { IsTrue block.old.serves }
        requires block { IsBlockFor block.old self.old }
        ensures yields { let state = V.state files.old in let lefts = rows state.files self.old.left in
            let rights = rows state.files self.old.right in
            IsTrue state.tells → IfOk result (λ found. FitsPairs self.old state tables.now
            → IsBlockOf block.old self.old lefts rights → YieldsByBlock found (left.new, right.new)
            block.old block.new self.old self.new state tables.now (V.reads files.old) (V.reads files.new)) }
        ensures stands { OnOk result (self.new ≡ record self.old
            { at = self.new.at; from = self.new.from; inner = self.new.inner }) }
        ensures may_read { OnOk result (MayReadPairs (V.state files.old) self.new) }
        ensures block { OnOk result (MayReadBy block.new self.new) }
        ensures reads_err { let state = V.state files.old in
            let lefts = rows state.files self.old.left in
            let rights = rows state.files self.old.right in
            IsTrue state.tells → OnErr result (FitsPairs self.old state tables.now
            → IsBlockOf block.old self.old lefts rights → V.reads files.new
            ≤ V.reads files.old + cost_by_block block.old self.old lefts rights) }
        ensures frame { OnlyReads V.state V.lent V.reads V.faults files.old files.new result }
    {
        'lefts: while self.at < self.left_slots {
            self.take_block(files, block)?;
            match self.pair_in_block(files, block, left, right)? {
                Some(slot) => {
                    self.from = slot.number() + 1;
                    return Ok(true);
                }
                None => {
                    self.at += 1;
                    self.from = 0;
                }
            }
        }
        Ok(false)
    }

    /// As `next`, by blocks of left rows where the block serves: the right rows are read once for each block,
    /// and again from the first partner of a left row to its last. The block begins with the join.
    pub fn next_by_block<V: Files>(
        &mut self,
        files: &mut V,
        tables: &HashTables,
        block: &mut Block,
        left: &mut Tuple,
        right: &mut Tuple,
    ) -> Result<bool, Failed>
        requires may_read { MayReadPairs (V.state files.old) self.old }
        requires block { MayReadBy block.old self.old }
        ensures yields { let state = V.state files.old in let lefts = rows state.files self.old.left in
            let rights = rows state.files self.old.right in
            IsTrue state.tells → IfOk result (λ found. FitsPairs self.old state tables.now
            → IsBlockOf block.old self.old lefts rights → YieldsByBlock found (left.new, right.new)
            block.old block.new self.old self.new state tables.now (V.reads files.old) (V.reads files.new)) }
        ensures stands { OnOk result (self.new ≡ record self.old
            { at = self.new.at; from = self.new.from; inner = self.new.inner }) }
        ensures may_read { OnOk result (MayReadPairs (V.state files.old) self.new) }
        ensures block { OnOk result (MayReadBy block.new self.new) }
        ensures reads_err { let state = V.state files.old in
            let lefts = rows state.files self.old.left in
            let rights = rows state.files self.old.right in
            IsTrue state.tells → OnErr result (FitsPairs self.old state tables.now
            → IsBlockOf block.old self.old lefts rights → V.reads files.new
            ≤ V.reads files.old + cost_by_block block.old self.old lefts rights) }
        ensures frame { OnlyReads V.state V.lent V.reads V.faults files.old files.new result }
    {
        if block.serves {
            return self.next_in_block(files, tables, block, left, right);
        }
        self.next(files, tables, left, right)
    }
}
