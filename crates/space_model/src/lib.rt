//! How much flash a database needs: which extents a command asks for, and how many sectors are enough.
//! The definitions are in `specs`; the functions here do nothing, and their contracts are laws of theirs.
#![tactic(auto)]

ghost use Rattle.std.specs.Prelude.{◌≡◌, ◌≤◌, ◌⊎◌, ℕ, ℤ, List};
ghost use Rattle.afl_base.specs.Files.{AreDistinct, IsLive, IsNamed};
ghost use Rattle.db_model.specs.declared.commands.Command.{Command};
ghost use Rattle.db_model.specs.Database.{Database};
ghost use Rattle.db_model.specs.Step.{Reads};
ghost use Rattle.space_model.specs.Enough.{enough_for, most};
ghost use Rattle.space_model.specs.FileNames.{asks_in, catalog_file, size_in};
ghost use Rattle.space_model.specs.Wants.{AsksFew, AsksLittle, IsGrowing, IsOfSixPages, IsStoreOf, Wants};

use afl_base::Files;

/// Queries, aggregates and cursors ask for no extent.
#[tactic(auto, using(crate::proofs::Queries::reads_need_nothing))]
pub fn reads_need_nothing()
    ensures { (db : Database) (command : Command) → Reads command → most db command ≡ 0 }
{}

/// No command asks the files that hold a database for an extent of more pages than are counted for it.
pub fn commands_want_at_most<V: Files>(files: &V)
    ensures { (room : ℕ → ℤ → ℕ × ℕ) (db : Database) (command : Command) (need : ℕ)
        → IsStoreOf (size_in (V.state files.now).files) db
        → AsksFew (size_in (V.state files.now).files) (asks_in (V.asks files.now) (V.state files.now).files) room
        → Wants (size_in (V.state files.now).files) (asks_in (V.asks files.now) (V.state files.now).files) room db command need
        → need ≤ most db command }
{}

/// What is asked of files with distinct names, which grow or have 6 pages as a catalog has, is as little by their names.
pub fn files_ask_for_few<V: Files>(files: &V)
    ensures { (room : ℕ → ℤ → ℕ × ℕ) → AreDistinct (V.state files.now).files
        → ((id : ℕ) → IsLive (V.state files.now).files id → IsGrowing (V.state files.now).files id
        ⊎ IsOfSixPages (V.state files.now).files id)
        → ((id : ℕ) → IsNamed (V.state files.now).files id catalog_file → IsOfSixPages (V.state files.now).files id)
        → ((slot : ℕ) (key : ℤ) → (room slot key).1 ≤ 4096) → AsksLittle (V.state files.now).files (V.asks files.now)
        → AsksFew (size_in (V.state files.now).files) (asks_in (V.asks files.now) (V.state files.now).files) room }
{}

/// More pages need no fewer sectors.
#[tactic(auto, using(crate::proofs::More::more_pages))]
pub fn more_pages_need_more()
    ensures { (sizes : List ℕ) (m n : ℕ) → m ≤ n → enough_for sizes m ≤ enough_for sizes n }
{}
