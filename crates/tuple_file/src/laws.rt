//! Laws of columns and rows. Each function does nothing: its contract is the law.

#![tactic(auto)]

ghost use Rattle.std.specs.Prelude.{◌≡◌, ◌<◌, ℕ, IsTrue, length, slice_get};
ghost use Rattle.afl_base.specs.Files.{State, Table};
ghost use Rattle.afl_base.specs.KeyColumn.{HasField, IsWidth, key_of};
ghost use Rattle.db_model.specs.Step.{key_of as key_of_value};
ghost use Rattle.tuple_file.specs.Column.{IsNumber, column_of};
ghost use Rattle.tuple_file.specs.Tuples.{HoldsRows, row, rows, slots};
ghost use Rattle.tuple_file.specs.declared.tuples.Tuples.{Tuples};

/// The column of a number attribute has a width of numbers, lies in each slot's row, and has the numbers
/// of the attribute as its keys.
#[tactic(auto, using(crate::proofs::Columns::column_width, crate::proofs::Columns::column_field, crate::proofs::Columns::column_key))]
pub fn columns_have_the_numbers()
    ensures width { (tuples : Tuples) (place : ℕ) → IsNumber tuples.schema.attributes place
        → IsWidth (column_of tuples place).width }
    ensures field { (state : State) (tuples : Tuples) (place slot : ℕ)
        → IsNumber tuples.schema.attributes place → HoldsRows state tuples → slot < slots state.files tuples → HasField state (column_of tuples place) slot }
    ensures key { (state : State) (tuples : Tuples) (place slot : ℕ)
        → IsNumber tuples.schema.attributes place → HoldsRows state tuples → IsTrue state.tells → slot < slots state.files tuples
        → key_of state (column_of tuples place) slot
        ≡ key_of_value (slice_get (row state.files tuples slot).tuple place) }
{}

/// Each slot has a row.
#[tactic(auto, using(crate::proofs::Columns::rows_counted))]
pub fn slots_have_rows()
    ensures { (files : Table) (tuples : Tuples) → length (rows files tuples) ≡ slots files tuples }
{}
