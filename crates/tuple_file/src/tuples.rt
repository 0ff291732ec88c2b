//! The rows of one relation.

#![tactic(auto)]

ghost use Rattle.std.specs.Prelude.{◌≡◌, ◌+◌, ◌*◌, ◌≤◌, ◌<◌, ◌++◌, [], ◌∷◌, ◌⊎◌, ◌↔◌, IfOk, IsTrue, OnErr, OnOk, false, length, slice_get, true, ℕ, slice_set};
ghost use Rattle.afl_base.specs.CutFiles.{CutLeaves};
ghost use Rattle.afl_base.specs.Keeping.{Changes, OnlyReads};
ghost use Rattle.afl_base.specs.Files.{IsLive, State, bytes_at, file_at, size_at};
ghost use Rattle.afl_base.specs.KeyColumn.{HasField, IsWidth, key_of};
ghost use Rattle.afl_base.specs.Sparing.{SparesPages};
ghost use Rattle.db_model.specs.Row.{AllSuit, fields_length, row_bytes, row_length, rows_bytes};
ghost use Rattle.db_model.specs.Step.{key_of as key_of_value, slots_limit};
ghost use Rattle.tuple_file.specs.Column.{IsNumber, column_of};
ghost use Rattle.tuple_file.specs.CutRows.{MayAppendRow, MayMarkRow};
ghost use Rattle.tuple_file.specs.Tuples.{AppendsRow, AreRows, HoldsRows, IsInFile, IsRowFile, MarksRow, row, rows, row_slot_bytes, slots};

use crate::rows::{are_rows, get_tuple, is_live, put_row};
use afl_base::{Failed, FileId, Files, KeyColumn, MOST_SLOTS, SlotNo};
use db_model::{Attributes, Schema, Tuple, fields_length, row_length, width};

/// The most bytes of a row.
pub const ROW_SIZE: usize = 128;

// The most bytes of rows that are read at once.
const PIECE_SIZE: usize = 1_024;

/// The rows of a relation, in a file of its own that doubles. A row has at most 128 bytes: its fields
/// in attribute order and a mark, which says whether the row is live or removed. Row number i is the
/// relation's slot i, and a row keeps its slot until `pack`.
#[derive(Drop)]
pub struct Tuples {
    pub file: FileId,
    pub schema: Schema,
}

impl Tuples {
    /// The same file with the same schema.
    pub fn copy(&self) -> Tuples
        ensures { result ≡ self.now }
    {
        Tuples {
            file: self.file,
            schema: Schema {
                name: self.schema.name,
                attributes: copy_of(&self.schema.attributes),
            },
        }
    }

    /// The number of slots, at most 32,768, those of removed rows among them.
    pub fn count<V: Files>(&self, files: &V) -> u16
        requires { HoldsRows (V.state files.now) self.now }
        ensures slots { result ≡ slots (V.state files.now).files self.now }
        ensures rows { result ≡ length (rows (V.state files.now).files self.now) }
        ensures few { result ≤ 32768 }
    {
        (files.size(self.file) / row_length(&self.schema.attributes) as u32) as u16
    }

    /// Fills `into` with the row in the slot, and answers whether it is live. `into` suits the schema
    /// whatever the file holds: a field that does not decode is the least value of its domain.
    pub fn row<V: Files>(
        &self,
        files: &mut V,
        slot: SlotNo,
        into: &mut Tuple,
    ) -> Result<bool, Failed>
        requires holds { HoldsRows (V.state files.old) self.now }
        requires slot { slot < slots (V.state files.old).files self.now }
        ensures row { IsTrue (V.state files.old).tells
            → IfOk result (λ live. row (V.state files.old).files self.now slot
            ≡ record { tuple = into.new; live = live }) }
        ensures suits { OnOk result (AllSuit self.now.schema.attributes into.new) }
        ensures size { OnOk result (length into.new ≡ length self.now.schema.attributes) }
        ensures reads { V.reads files.new ≤ V.reads files.old + 6 }
        ensures frame { OnlyReads V.state V.lent V.reads V.faults files.old files.new result }
    {
        self.get(files, slot.number(), into)
    }

    /// The bytes of a row, of which there are at most 128.
    pub fn length(&self) -> usize
        ensures value { row_length self.now.schema.attributes ≤ 128
            → result ≡ row_length self.now.schema.attributes }
        ensures short { result ≤ 128 }
    {
        row_length(&self.schema.attributes).min(ROW_SIZE)
    }

    /// Fills `into` with the bytes of the row in the slot.
    pub fn row_bytes<V: Files>(
        &self,
        files: &mut V,
        slot: SlotNo,
        into: &mut [u8],
    ) -> Result<(), Failed>
        requires holds { HoldsRows (V.state files.old) self.now }
        requires slot { slot < slots (V.state files.old).files self.now }
        requires size { length into.old ≡ row_length self.now.schema.attributes }
        ensures bytes { IsTrue (V.state files.old).tells
            → OnOk result (into.new ≡ row_slot_bytes (V.state files.old).files self.now slot) }
        ensures size { length into.new ≡ length into.old }
        ensures reads { V.reads files.new ≤ V.reads files.old + 6 }
        ensures frame { OnlyReads V.state V.lent V.reads V.faults files.old files.new result }
    {
        self.read(files, slot.number(), into)
    }

    // The row in the slot of this number.
    pub(crate) fn get<V: Files>(
        &self,
        files: &mut V,
        slot: u16,
        into: &mut Tuple,
    ) -> Result<bool, Failed>
        requires holds { HoldsRows (V.state files.old) self.now }
        requires slot { slot < slots (V.state files.old).files self.now }
        ensures row { IsTrue (V.state files.old).tells
            → IfOk result (λ live. row (V.state files.old).files self.now slot
            ≡ record { tuple = into.new; live = live }) }
        ensures suits { OnOk result (AllSuit self.now.schema.attributes into.new) }
        ensures size { OnOk result (length into.new ≡ length self.now.schema.attributes) }
        ensures reads { V.reads files.new ≤ V.reads files.old + 6 }
        ensures frame { OnlyReads V.state V.lent V.reads V.faults files.old files.new result }
    {
        let mut bytes = [0; ROW_SIZE];
        let row = &mut bytes[..row_length(&self.schema.attributes)];
        self.read(files, slot, row)?;
        get_tuple(&self.schema.attributes, row, into);
        Ok(is_live(row))
    }

    // Fills `into` with the bytes of the row in the slot of this number.
    pub(crate) fn read<V: Files>(
        &self,
        files: &mut V,
        slot: u16,
        into: &mut [u8],
    ) -> Result<(), Failed>
        requires live { IsLive (V.state files.old).files self.now.file }
        requires size { length into.old ≡ row_length self.now.schema.attributes }
        requires short { row_length self.now.schema.attributes ≤ 128 }
        requires range { IsInFile (V.state files.old).files self.now slot }
        requires slot { slot < 32768 }
        ensures bytes { IsTrue (V.state files.old).tells
            → OnOk result (into.new ≡ row_slot_bytes (V.state files.old).files self.now slot) }
        ensures reads { V.reads files.new ≤ V.reads files.old + 6 }
        ensures frame { OnlyReads V.state V.lent V.reads V.faults files.old files.new result }
    {
        let at = into.len() as u32 * u32::from(slot);
        files.read(self.file, at, into)
    }

    /// Where the number attribute at this place, counted from 0, stands in the file. Its keys are the
    /// attribute's numbers, those of removed rows among them.
    pub fn column(&self, attribute: u8) -> KeyColumn
        requires short { row_length self.now.schema.attributes ≤ 128 }
        requires number { IsNumber self.now.schema.attributes attribute }
        ensures column { result ≡ column_of self.now attribute }
        ensures width { IsWidth result.width }
        ensures field { (state : State) (slot : ℕ) → HoldsRows state self.now
            → slot < slots state.files self.now → HasField state result slot }
        ensures key { (state : State) (slot : ℕ) → HoldsRows state self.now
            → IsTrue state.tells → slot < slots state.files self.now
            → key_of state result slot
            ≡ key_of_value (slice_get (row state.files self.now slot).tuple attribute) }
    {
        let place = attribute as usize;
        KeyColumn {
            file: self.file,
            row: row_length(&self.schema.attributes) as u8,
            at: fields_length(&self.schema.attributes.as_slice()[..place]) as u8,
            width: width(self.schema.attributes.get(place).domain) as u8,
        }
    }

    /// Puts the tuple, live, into the next slot. All others stay.
    pub fn append<V: Files>(&self, files: &mut V, tuple: &Tuple) -> Result<(), Failed>
        requires holds { HoldsRows (V.state files.old) self.now }
        requires suits { AllSuit self.now.schema.attributes tuple.now }
        requires room { row_length self.now.schema.attributes
            ≤ (file_at (V.state files.old).files self.now.file).room }
        ensures rows { IsTrue (V.state files.old).tells
            → OnOk result (rows (V.state files.new).files self.now
            ≡ rows (V.state files.old).files self.now ++ record { tuple = tuple.now; live = true } ∷ []) }
        ensures slots { OnOk result (slots (V.state files.new).files self.now
            ≡ slots (V.state files.old).files self.now + 1) }
        ensures holds { slots (V.state files.old).files self.now < 32768
            → OnOk result (HoldsRows (V.state files.new) self.now) }
        ensures appended { OnOk result (AppendsRow (V.state files.old) (V.state files.new) self.now
            (record { tuple = tuple.now; live = true })) }
        ensures records { OnOk result ((file_at (V.state files.new).files self.now.file).records
            ≡ (file_at (V.state files.old).files self.now.file).records) }
        ensures spares { SparesPages V.is_free V.state files.old files.new result }
        ensures cut { CutLeaves V.cuts V.mends V.state files.old files.new (OnErr result)
            (λ after. MayAppendRow (V.state files.old) after self.now tuple.now) }
        ensures frame { Changes V.state V.lent V.reads V.faults files.old files.new result }
    {
        let mut bytes = [0; ROW_SIZE];
        let row = &mut bytes[..row_length(&self.schema.attributes)];
        put_row(&self.schema.attributes, tuple, true, row);
        files.append(self.file, row)?;
        Ok(())
    }

    /// Removes the row in the slot, for which one record was prepared. Its fields stay, and so do all
    /// other rows.
    pub fn mark<V: Files>(&self, files: &mut V, slot: SlotNo) -> Result<(), Failed>
        requires holds { HoldsRows (V.state files.old) self.now }
        requires slot { slot < slots (V.state files.old).files self.now }
        requires record { 1 ≤ (file_at (V.state files.old).files self.now.file).records }
        ensures rows { IsTrue (V.state files.old).tells
            → OnOk result (rows (V.state files.new).files self.now
            ≡ slice_set (rows (V.state files.old).files self.now) slot
            (record (row (V.state files.old).files self.now slot) { live = false })) }
        ensures holds { OnOk result (HoldsRows (V.state files.new) self.now) }
        ensures slots { OnOk result (slots (V.state files.new).files self.now
            ≡ slots (V.state files.old).files self.now) }
        ensures marked { OnOk result (MarksRow (V.state files.old) (V.state files.new) self.now slot) }
        ensures records { OnOk result ((file_at (V.state files.new).files self.now.file).records + 1
            ≡ (file_at (V.state files.old).files self.now.file).records) }
        ensures room { OnOk result ((file_at (V.state files.new).files self.now.file).room
            ≡ (file_at (V.state files.old).files self.now.file).room) }
        ensures spares { SparesPages V.is_free V.state files.old files.new result }
        ensures cut { CutLeaves V.cuts V.mends V.state files.old files.new (OnErr result)
            (λ after. MayMarkRow (V.state files.old) after self.now slot) }
        ensures frame { Changes V.state V.lent V.reads V.faults files.old files.new result }
    {
        let length = row_length(&self.schema.attributes) as u32;
        files.overwrite(
            self.file,
            length * u32::from(slot.number()) + (length - 1),
            &[3],
        )?;
        Ok(())
    }

    /// Whether the file holds whole rows, at most 16,384 in version 1 and 32,768 in version 2, and none
    /// where the relation has no attribute. Each row is read once.
    pub fn valid<V: Files>(&self, files: &mut V, version: u8) -> Result<bool, Failed>
        requires file { IsRowFile (V.state files.old).files self.now }
        requires version { (version ≡ 1) ⊎ (version ≡ 2) }
        ensures valid { IsTrue (V.state files.old).tells
            → IfOk result (λ valid. IsTrue valid
            ↔ AreRows version self.now.schema.attributes (bytes_at (V.state files.old).files self.now.file)) }
        ensures holds { IfOk result (λ valid. IsTrue valid → HoldsRows (V.state files.old) self.now) }
        ensures few { IfOk result (λ valid. IsTrue valid
            → slots (V.state files.old).files self.now ≤ slots_limit version) }
        ensures reads { V.reads files.new
            ≤ V.reads files.old + 6 * slots (V.state files.old).files self.now }
        ensures frame { OnlyReads V.state V.lent V.reads V.faults files.old files.new result }
    {
        let size = files.size(self.file);
        let length = row_length(&self.schema.attributes) as u32;
        if size % length != 0 || size / length > slots_limit(version) {
            return Ok(false);
        }
        if size > 0 && self.schema.attributes.is_empty() {
            return Ok(false);
        }
        let valid = self.are_rows(files, (size / length) as u16)?;
        Ok(valid)
    }

    // Whether the first slots hold rows.
    fn are_rows<V: Files>(&self, files: &mut V, count: u16) -> Result<bool, Failed>
        requires live { IsLive (V.state files.old).files self.now.file }
        requires short { row_length self.now.schema.attributes ≤ 128 }
        requires whole { size_at (V.state files.old).files self.now.file
            ≡ row_length self.now.schema.attributes * count }
        requires few { count ≤ 32768 }
        ensures valid { IsTrue (V.state files.old).tells
            → IfOk result (λ valid. IsTrue valid ↔ (rows_bytes self.now.schema.attributes
            (rows (V.state files.old).files self.now) ≡ bytes_at (V.state files.old).files self.now.file)) }
        ensures reads { V.reads files.new ≤ V.reads files.old + 6 * count }
        ensures frame { OnlyReads V.state V.lent V.reads V.faults files.old files.new result }
    {
        let length = row_length(&self.schema.attributes);
        let mut slot = 0;
        while slot < count {
            let few = rows_at_once(length, count - slot);
            if !self.are_rows_from(files, slot, few)? {
                return Ok(false);
            }
            slot += few;
        }
        Ok(true)
    }

    // Whether this many slots from this one on hold rows, which are read at once.
    fn are_rows_from<V: Files>(&self, files: &mut V, slot: u16, count: u16) -> Result<bool, Failed>
        requires live { IsLive (V.state files.old).files self.now.file }
        requires short { row_length self.now.schema.attributes ≤ 128 }
        requires range { row_length self.now.schema.attributes * slot
            + row_length self.now.schema.attributes * count ≤ size_at (V.state files.old).files self.now.file }
        requires slot { slot < 32768 }
        requires some { 1 ≤ count }
        requires few { row_length self.now.schema.attributes * count ≤ 1024 }
        ensures valid { IsTrue (V.state files.old).tells
            → IfOk result (λ valid. IsTrue valid ↔ ((k : ℕ) → k < count
            → row_bytes self.now.schema.attributes (row (V.state files.old).files self.now (slot + k))
            ≡ row_slot_bytes (V.state files.old).files self.now (slot + k))) }
        ensures reads { V.reads files.new ≤ V.reads files.old + 6 * count }
        ensures frame { OnlyReads V.state V.lent V.reads V.faults files.old files.new result }
    {
        let length = row_length(&self.schema.attributes);
        let mut bytes = [0; PIECE_SIZE];
        let piece = &mut bytes[..length * count as usize];
        files.read(self.file, length as u32 * u32::from(slot), piece)?;
        Ok(are_rows(&self.schema.attributes, count, piece))
    }
}

// How many of the rows that are left are read at once, into 1,024 bytes.
fn rows_at_once(length: usize, left: u16) -> u16
    requires length { 1 ≤ length }
    requires short { length ≤ 128 }
    requires left { 1 ≤ left }
    ensures some { 1 ≤ result }
    ensures within { result ≤ left }
    ensures few { length * result ≤ 1024 }
{
    let most = (PIECE_SIZE / length) as u16;
    if most < left { most } else { left }
}

// How many rows a relation may have.
fn slots_limit(version: u8) -> u32
    ensures { result ≡ slots_limit version }
{
    if version == 1 {
        16_384
    } else {
        u32::from(MOST_SLOTS)
    }
}

fn copy_of(attributes: &Attributes) -> Attributes
    ensures { result ≡ attributes.now }
{
    let mut copy = Attributes::new();
    for attribute in attributes.as_slice() {
        copy.push(*attribute);
    }
    copy
}
