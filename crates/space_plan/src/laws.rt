//! Laws on the sectors that are planned. Each function does nothing: its contract is the law.

#![tactic(auto)]

ghost use Rattle.std.specs.Prelude.{◌≡◌, ◌≤◌, ◌⊎◌, ℕ, List, ◌∷◌, ◌++◌, Result, Ok};
ghost use Rattle.db_model.specs.declared.commands.Command.{Command as AnyCommand};
ghost use Rattle.db_model.specs.declared.commands.Command.TheVariants.{Insert};
ghost use Rattle.db_model.specs.declared.refusals.Refusal.{Refusal};
ghost use Rattle.db_model.specs.declared.values.Value.{Value};
ghost use Rattle.db_model.specs.Database.{Database};
ghost use Rattle.db_model.specs.Script.{Bytes, Entry, last};
ghost use Rattle.db_model.specs.Sound.{IsSoundDatabase};
ghost use Rattle.db_model.specs.Step.{after_all};
ghost use Rattle.space_model.specs.Enough.{enough, most};
ghost use Rattle.space_plan.specs.Growth.{HasFewRows, KeepsToPlan, commands_of};
ghost use Rattle.space_plan.specs.Planned.{planned};
ghost use Rattle.space_plan.specs.Rings.{KeepsToRing, KeepsToSlots};

/// No relation of a sound database has more than 32,768 rows.
#[tactic(auto, using(crate::proofs::Scripts::sound_few))]
pub fn sound_databases_have_few_rows()
    ensures { (db : Database) → IsSoundDatabase db → HasFewRows db }
{}

/// After commands that insert and read, and bring at most this many rows to each relation as were planned for
/// by its name, the sectors that are enough for one more INSERT are no more than were planned.
pub fn planned_space_suffices()
    ensures { (rows : List ℕ → ℕ) (db : Database) (commands : List AnyCommand)
        (values : List Value) (name : List ℕ) → HasFewRows db → KeepsToPlan rows db commands
        → let grown = after_all db commands in
        enough grown (most grown (Insert values name)) ≤ planned db rows }
{}

/// In a script whose commands insert and read, and bring at most this many rows to each relation as were
/// planned for by its name, each command asks for nothing, or a flash with the sectors that were planned has
/// enough for it.
pub fn planned_flash_has_enough()
    ensures { (read : List ℕ → Result AnyCommand Refusal) (db : Database) (entries : List Entry)
        (rows : List ℕ → ℕ) (sectors : ℕ) → IsSoundDatabase db
        → KeepsToPlan rows db (commands_of read entries) → planned db rows ≤ sectors
        → (front rest : List Entry) (bytes : List ℕ) (command : AnyCommand)
        → entries ≡ front ++ Bytes bytes ∷ rest → read bytes ≡ Ok command
        → (most (last read db front) command ≡ 0)
        ⊎ (enough (last read db front) (most (last read db front) command) ≤ sectors) }
{}

/// The same of scripts that take rows out again, in two kinds. In one of INSERT, REMOVE FROM, PACK and what reads, at any
/// time each relation has at most this many slots more than now as were planned for by its name; a removed row has its
/// slot until a PACK. Or no index is a hash tree and no command makes one, and at any time each slot has no relation, or
/// one, of whatever name, whose rows are no longer than those of the relation that was there for the plan, and whose
/// slots are no more than were planned for that: so relations may come and go.
pub fn planned_flash_has_enough_for_rings()
    ensures rows { (read : List ℕ → Result AnyCommand Refusal) (db : Database) (entries : List Entry)
        (rows : List ℕ → ℕ) (sectors : ℕ) → IsSoundDatabase db
        → KeepsToRing rows db (commands_of read entries) → planned db rows ≤ sectors
        → (front rest : List Entry) (bytes : List ℕ) (command : AnyCommand)
        → entries ≡ front ++ Bytes bytes ∷ rest → read bytes ≡ Ok command
        → (most (last read db front) command ≡ 0)
        ⊎ (enough (last read db front) (most (last read db front) command) ≤ sectors) }
    ensures slots { (read : List ℕ → Result AnyCommand Refusal) (db : Database) (entries : List Entry)
        (rows : List ℕ → ℕ) (sectors : ℕ) → IsSoundDatabase db
        → KeepsToSlots rows db (commands_of read entries) → planned db rows ≤ sectors
        → (front rest : List Entry) (bytes : List ℕ) (command : AnyCommand)
        → entries ≡ front ++ Bytes bytes ∷ rest → read bytes ≡ Ok command
        → (most (last read db front) command ≡ 0)
        ⊎ (enough (last read db front) (most (last read db front) command) ≤ sectors) }
{}
