//! What a session holds, by slots.

#![tactic(auto)]

ghost use Rattle.std.specs.Prelude.{◌≡◌, ◌+◌, ◌*◌, ◌<◌, ◌≤◌, None, Some, true, false, ℕ, IfOk, IsSome, IsTrue, OnErr, OnOk, get_or, length, option_and_then, option_map};
ghost use Rattle.afl_base.specs.Keeping.{OnlyReads};
ghost use Rattle.afl_base.specs.Causes.{HasCause};
ghost use Rattle.catalog.specs.CatalogFile.{index_in};
ghost use Rattle.db_model.specs.Catalog.{Index};
ghost use Rattle.db_model.specs.HashTree.{buckets};
ghost use Rattle.db_model.specs.Step.{slots_limit};
ghost use Rattle.index_set.specs.Plans.{access_kind};
ghost use Rattle.session_model.specs.Indexed.{index_known as index_held};
ghost use Rattle.space_model.specs.Enough.{rows_in};
ghost use Rattle.tuple_file.specs.declared.tuples.Tuples.{Tuples as AnyTuples};
ghost use Rattle.tuple_file.specs.Tuples.{HoldsRows, row, slots};
ghost use Rattle.antelope_engine.specs.Reading.{IsTreeAt, index_in_slot, keys_at_index, relation_in_slot, row_in_slot, schema_at, tree_of};

use crate::session::Session;
use afl_base::{Failed, FileId, Files, IndexId, MOST_SLOTS, RelationId, SlotNo};
use catalog::IndexEntry;
use db_model::{IndexKind, Schema, Tuple};
use index_maxheap::{BUCKET_SIZE, HEAD_SIZE};
use index_set::Access;
use session_model::Indexed;
use tuple_file::Tuples;

// How many slots a relation may have in a database of version 1.
const MOST_SLOTS_OF_VERSION_1: u16 = 16_384;

impl<V: Files> Session<V> {
    /// The schema of the relation in a slot, `None` exactly where the slot is unused.
    pub fn schema(&self, id: RelationId) -> Option<Schema>
        requires running { self.now.stopped ≡ false }
        ensures { result ≡ schema_at self.now.database id }
    {
        schema_of(&self.base.held.relations[usize::from(id.number())])
    }

    /// The index in a slot, `None` exactly where the slot is unused.
    pub fn index(&self, id: IndexId) -> Option<IndexEntry>
        requires running { self.now.stopped ≡ false }
        ensures { option_map index_in result ≡ index_in_slot self.now.database id }
    {
        entry_of(&self.base.held.indexes[usize::from(id.number())])
    }

    /// The number of slots of the relation in a slot, those of removed rows among them.
    pub fn slots(&self, id: RelationId) -> u16
        requires running { self.now.stopped ≡ false }
        requires used { IsSome (relation_in_slot self.now.database id) }
        ensures { result ≡ length (rows_in self.now.database id) }
    {
        match &self.base.held.relations[usize::from(id.number())] {
            None => 0,
            Some(tuples) => tuples.count(&self.base.files),
        }
    }

    /// The number of slots that a relation may have.
    pub fn slots_limit(&self) -> u16
        requires running { self.now.stopped ≡ false }
        ensures { result ≡ slots_limit self.now.database.version }
    {
        slots_limit(self.base.held.version)
    }

    /// The number of buckets of the hash tree in an index slot.
    pub fn buckets(&self, id: IndexId) -> u16
        requires running { self.now.stopped ≡ false }
        requires tree { IsTreeAt self.now.database id }
        ensures { IsTrue (V.state self.now.files).tells → (index : Index)
            → index_in_slot self.now.database id ≡ Some index
            → result ≡ buckets (keys_at_index self.now.database index) }
    {
        match tree_of(&self.base.held.indexes[usize::from(id.number())]) {
            None => 0,
            Some(file) => buckets_in(self.base.files.size(file)),
        }
    }

    /// Fills `into` with a row of the relation in a slot, and answers whether it is live. Where the
    /// files failed, the session is stopped.
    pub fn tuple(&mut self, id: RelationId, slot: SlotNo, into: &mut Tuple) -> Result<bool, Failed>
        requires running { self.old.stopped ≡ false }
        requires slot { slot < length (rows_in self.old.database id) }
        ensures row { IsTrue (V.state self.old.files).tells → IfOk result (λ live.
            row_in_slot self.old.database id slot ≡ record { tuple = into.new; live = live }) }
        ensures database { OnOk result (self.new.database ≡ self.old.database) }
        ensures aheads { OnOk result (self.new.aheads ≡ self.old.aheads) }
        ensures running { OnOk result ((self.new.stopped ≡ false) × (self.new.lost ≡ false)) }
        ensures lost { OnErr result ((self.new.stopped ≡ true) × (self.new.lost ≡ true)) }
        ensures reads { V.reads self.new.files ≤ V.reads self.old.files + 6 }
        ensures frame { OnlyReads V.state V.lent V.reads V.faults self.old.files self.new.files result }
    {
        match row_in(
            &mut self.base.files,
            &self.base.held.relations,
            id,
            slot,
            into,
        ) {
            Ok(live) => Ok(live),
            Err(Failed) => {
                self.stopped = true;
                self.lost = true;
                Err(Failed)
            }
        }
    }
}

fn row_in<V: Files>(
    files: &mut V,
    relations: &[Option<Tuples>; 8],
    id: RelationId,
    slot: SlotNo,
    into: &mut Tuple,
) -> Result<bool, Failed>
    requires holds { (t : AnyTuples) → get_or relations.now id None ≡ Some t
        → HoldsRows (V.state files.old) t × (slot < slots (V.state files.old).files t) }
    ensures row { let table = (V.state files.old).files in IsTrue (V.state files.old).tells
        → (t : AnyTuples) → get_or relations.now id None ≡ Some t
        → IfOk result (λ live. row table t slot ≡ record { tuple = into.new; live = live }) }
    ensures reads { V.reads files.new ≤ V.reads files.old + 6 }
    ensures frame { OnlyReads V.state V.lent V.reads V.faults files.old files.new result }
{
    match &relations[usize::from(id.number())] {
        None => Ok(false),
        Some(tuples) => match tuples.row(files, slot, into) {
            Ok(live) => Ok(live),
            Err(Failed) => Err(Failed),
        },
    }
}

fn schema_of(slot: &Option<Tuples>) -> Option<Schema>
    ensures { result ≡ option_map (λ tuples. tuples.schema) slot.now }
{
    match slot {
        None => None,
        Some(tuples) => Some(tuples.copy().schema),
    }
}

fn entry_of(slot: &Option<Indexed>) -> Option<IndexEntry>
    ensures { option_map index_in result ≡ option_map index_held slot.now }
{
    match slot {
        None => None,
        Some(index) => Some(IndexEntry {
            kind: kind_of(&index.access),
            relation: index.relation,
            attribute: index.attribute,
        }),
    }
}

fn kind_of(access: &Access) -> IndexKind
    ensures { result ≡ access_kind access.now }
{
    match access {
        Access::Order => IndexKind::Inline,
        Access::Tree(_) => IndexKind::MaxHeap,
        Access::Table(_) => IndexKind::MemHash,
    }
}

fn tree_of(slot: &Option<Indexed>) -> Option<FileId>
    ensures { result ≡ option_and_then tree_of slot.now }
{
    match slot {
        None => None,
        Some(index) => match index.access {
            Access::Order | Access::Table(_) => None,
            Access::Tree(file) => Some(file),
        },
    }
}

// The slots that a relation may have in a version.
fn slots_limit(version: u8) -> u16
    ensures { result ≡ slots_limit version }
{
    if version == 1 {
        MOST_SLOTS_OF_VERSION_1
    } else {
        MOST_SLOTS
    }
}

// The buckets of a tree's file of this many bytes.
fn buckets_in(size: u32) -> u16
    ensures { (n : ℕ) → n ≤ 1365 → size ≡ 683 + 195 * n → result ≡ n }
{
    let buckets = size.saturating_sub(HEAD_SIZE as u32) / BUCKET_SIZE as u32;
    if buckets > 65_535 {
        return 65_535;
    }
    buckets as u16
}
