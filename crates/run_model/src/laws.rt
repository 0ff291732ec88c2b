//! Laws on what a run leaves. Each function does nothing: its contract is the law.

#![tactic(auto)]

ghost use Rattle.std.specs.Prelude.{◌≡◌, ℕ, ◌++◌, List, length, Some, Result};
ghost use Rattle.db_model.specs.declared.commands.Command.{Command};
ghost use Rattle.db_model.specs.declared.refusals.Refusal.{Refusal};
ghost use Rattle.db_model.specs.Ahead.{Aheads};
ghost use Rattle.db_model.specs.Database.{Database};
ghost use Rattle.db_model.specs.RunCost as run;
ghost use Rattle.db_model.specs.Script.{Entry, commands, whole};
ghost use Rattle.db_model.specs.Script as script;
ghost use Rattle.run_model.specs.Line.{ComesInParts};
ghost use Rattle.run_model.specs.Runs.{ReplyUnsaid, World, machine_from};
ghost use Rattle.run_model.specs.Scripts.{script_cut, script_line, script_talk};
ghost use Rattle.run_model.specs.Talk.{Talk, talk_costs, last_database, talk_output};

/// What was written tells at which entry a reply was not wholly written.
pub fn one_reply_is_unsaid<E>()
    ensures { (talk : Talk E) (db : Database) (entries : List E) (old new : World) (bytes : List ℕ)
        → old.held ≡ Some bytes → (a b : ReplyUnsaid (machine_from talk db) entries old new)
        → length a.front ≡ length b.front }
{}

/// The whole commands of the first bytes of a script are the first of its entries.
pub fn first_bytes_give_first_entries()
    ensures { (came left : List ℕ) → (rest : List Entry) × (commands (came ++ left) ≡ whole came ++ rest) }
{}

/// A script may come in any parts.
#[tactic(auto, using(crate::proofs::Parts::script_parts))]
pub fn scripts_come_in_parts()
    ensures { ComesInParts script_cut script_line }
{}

/// What is written for the entries of a script, the database after them and what they may read are those of scripts.
pub fn scripts_are_answered_in_order()
    ensures output { (read : List ℕ → Result Command Refusal) (db : Database) (entries : List Entry)
        → talk_output (script_talk read) db entries ≡ script.output read db entries }
    ensures last { (read : List ℕ → Result Command Refusal) (db : Database) (entries : List Entry)
        → last_database (script_talk read) db entries ≡ script.last read db entries }
    ensures costs { (read : List ℕ → Result Command Refusal)
        (db : Database) (aheads : Aheads) (entries : List Entry)
        → talk_costs (script_talk read) db aheads entries ≡ run.costs read db aheads entries }
{}
