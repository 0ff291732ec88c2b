//! A law on replies. The function does nothing: its contract is the law.

#![tactic(auto)]

ghost use Rattle.std.specs.Prelude.{◌≡◌, false, IsOk};
ghost use Rattle.db_model.specs.declared.commands.Command.{Command};
ghost use Rattle.db_model.specs.Ahead.{is_refused};
ghost use Rattle.db_model.specs.Database.{Database};
ghost use Rattle.db_model.specs.Step.{outcome, step};

/// The reply to a command that is carried out is no refusal.
#[tactic(auto, using(crate::proofs::Accepted::accepted))]
pub fn accepted_commands_are_answered()
    ensures { (db : Database) (command : Command) → IsOk (outcome db command)
        → is_refused ((step db command).1) ≡ false }
{}
