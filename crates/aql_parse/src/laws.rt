//! Laws of the grammar: each function does nothing, and its contract is the law.

#![tactic(auto)]

ghost use Rattle.std.specs.Prelude.{◌≡◌, ℕ, List, Result};
ghost use Rattle.db_model.specs.Cond.{Cond};
ghost use Rattle.db_model.specs.Grammar.{Disj};
ghost use Rattle.db_model.specs.Reading.{IsReader, IsReading};
ghost use Rattle.db_model.specs.Spelling.{IsSpelt};
ghost use Rattle.db_model.specs.declared.commands.Command.{Command as AnyCommand};
ghost use Rattle.db_model.specs.declared.refusals.Refusal.{Refusal as AnyRefusal};
ghost use Rattle.db_model.specs.declared.tokens.Token.{Token};

use db_model::laws::conditions_are_read_back;

/// Given bytes spell at most one command, given tokens at most one condition, and bytes are read in
/// one way alone.
pub fn readings_are_unique()
    ensures command { (bytes : List ℕ) (c d : AnyCommand) → IsSpelt c bytes → IsSpelt d bytes → c ≡ d }
    ensures reading { (bytes : List ℕ) (a b : Result AnyCommand AnyRefusal)
        → IsReading bytes a → IsReading bytes b → a ≡ b }
    ensures condition { (tokens : List Token) (c d : Cond) → Disj c tokens → Disj d tokens → c ≡ d }
{
    conditions_are_read_back();
}

/// There is a function that reads the bytes of each command as they are to be read: what is said of
/// every such function is said of exactly one.
pub fn each_command_is_read()
    ensures { (read : List ℕ → Result AnyCommand AnyRefusal) × IsReader read }
{}
