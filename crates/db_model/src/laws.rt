//! Laws of the definitions. Each function does nothing: its contract is the law.

#![tactic(auto)]

ghost use Rattle.std.specs.Prelude.{◌≡◌, ◌+◌, ◌++◌, ◌≤◌, ℕ, ℤ, List, [], ◌∷◌, Option, Result, Some, None, length};
ghost use Rattle.std.specs.List.{AllByRecursion};
ghost use Rattle.db_model.specs.declared.commands.Command.{Command as AnyCommand};
ghost use Rattle.db_model.specs.declared.commands.Node.{Node};
ghost use Rattle.db_model.specs.declared.refusals.Refusal.{Refusal as AnyRefusal};
ghost use Rattle.db_model.specs.declared.schemas.Attribute.{Attribute};
ghost use Rattle.db_model.specs.Ahead.{Aheads, AreAhead, aheads_after, no_cursors};
ghost use Rattle.db_model.specs.Catalog.{Catalog, IsCatalog, catalog_bytes, catalog_of, empty_catalog};
ghost use Rattle.db_model.specs.Cond.{Cond, condition_of, postfix};
ghost use Rattle.db_model.specs.Database.{Cursor, Database, bare, cursor_at, empty_database};
ghost use Rattle.db_model.specs.HashTree.{buckets};
ghost use Rattle.db_model.specs.Row.{AllRowsSuit, Row, rows_bytes, rows_of};
ghost use Rattle.db_model.specs.RunCost.{costs, last_aheads};
ghost use Rattle.db_model.specs.Script.{Entry, last};
ghost use Rattle.db_model.specs.Sound.{BringsNames, IsSoundDatabase};
ghost use Rattle.db_model.specs.Step.{Reads, Spares, after_all, step};

/// An open cursor has the same rows to come after any commands that neither fetch from it nor
/// close it.
#[tactic(auto, using(crate::proofs::Steps::cursor_kept))]
pub fn cursors_keep_their_rows()
    ensures { (place : ℕ) (cursor : Cursor) (db : Database) (commands : List AnyCommand)
        → AllByRecursion (Spares place) commands
        → cursor_at db place ≡ Some cursor
        → cursor_at (after_all db commands) place ≡ Some cursor }
{}

/// Databases that differ in their index slots and versions alone reply alike to every query,
/// aggregate, OPEN, FETCH and CLOSE.
#[tactic(auto, using(crate::proofs::Steps::replies_alike))]
pub fn replies_need_no_index()
    ensures { (a b : Database) (command : AnyCommand)
        → a.relations ≡ b.relations
        → a.cursors ≡ b.cursors
        → Reads command
        → (step a command).1 ≡ (step b command).1 }
{}

/// The catalog of an erased flash has version 2, no relation and no index.
pub fn erased_catalog_is_empty()
    ensures { catalog_of [] ≡ empty_catalog }
{}

/// A catalog is read back from its bytes.
pub fn catalogs_are_read_back()
    ensures { (catalog : Catalog) → IsCatalog catalog → catalog_of (catalog_bytes catalog) ≡ catalog }
{}

/// Rows are read back from their bytes.
#[tactic(auto, using(crate::proofs::Rows::rows_back))]
pub fn rows_are_read_back()
    ensures { (attributes : List Attribute) (rows : List Row)
        → AllRowsSuit attributes rows
        → rows_of attributes (rows_bytes attributes rows) ≡ rows }
{}

/// A condition is read back from its postfix list, and from no other list.
#[tactic(auto, using(crate::proofs::Conditions::condition_back, crate::proofs::Conditions::condition_only))]
pub fn conditions_are_read_back()
    ensures back { (c : Cond) → condition_of (postfix c) ≡ Some c }
    ensures only { (nodes : List Node) (c : Cond) → condition_of nodes ≡ Some c → postfix c ≡ nodes }
{}

/// The database of an erased flash is sound, and each command keeps a sound one so, where the names
/// that the command brings in are NAMEs.
#[tactic(auto, using(crate::proofs::SoundSteps::empty_sound, crate::proofs::SoundSteps::step_sound))]
pub fn sound_databases_stay_sound()
    ensures empty { IsSoundDatabase empty_database }
    ensures kept { (db : Database) (command : AnyCommand)
        → BringsNames command
        → IsSoundDatabase db
        → IsSoundDatabase ((step db command).0) }
{}

/// What is ahead of the cursors goes along with the rows that they have still to answer: none at
/// first, and after each command one stop for each row to come.
#[tactic(auto, using(crate::proofs::Moves::none_ahead, crate::proofs::Moves::ahead_kept))]
pub fn rows_to_come_are_ahead()
    ensures first { (db : Database) → AreAhead (bare db).cursors no_cursors }
    ensures kept { (db : Database) (aheads : Aheads) (command : AnyCommand)
        → AreAhead db.cursors aheads
        → AreAhead ((step db command).0).cursors (aheads_after db aheads command) }
{}

/// What entries may read is what the first of them may read, and then the others.
#[tactic(auto, using(crate::proofs::RunCosts::costs_append, crate::proofs::RunCosts::costs_front))]
pub fn costs_add_up()
    ensures sum { (read : List ℕ → Result AnyCommand AnyRefusal)
        (db : Database) (aheads : Aheads) (xs ys : List Entry)
        → costs read db aheads (xs ++ ys)
        ≡ costs read db aheads xs + costs read (last read db xs) (last_aheads read db aheads xs) ys }
    ensures front { (read : List ℕ → Result AnyCommand AnyRefusal)
        (db : Database) (aheads : Aheads) (xs ys : List Entry)
        → costs read db aheads xs ≤ costs read db aheads (xs ++ ys) }
{}

/// A hash tree has at most 853 buckets for 16,384 keys, and at most 1,365 for 32,768.
pub fn hash_trees_are_small()
    ensures small { (keys : List ℤ) → length keys ≤ 16384 → buckets keys ≤ 853 }
    ensures large { (keys : List ℤ) → length keys ≤ 32768 → buckets keys ≤ 1365 }
{}
