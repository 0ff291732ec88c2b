//! The command that a client asks for.

#![tactic(auto)]

ghost use Rattle.std.specs.Prelude.{◌≡◌, ◌≤◌, ℕ, ℤ, List, Result, IsTrue, OnOk, length};
ghost use Rattle.aql_parse.specs.ReadAs.{read_as};
ghost use Rattle.db_model.specs.declared.commands.Command.{Command as AnyCommand};
ghost use Rattle.db_model.specs.declared.refusals.Refusal.{Refusal as AnyRefusal};
ghost use Rattle.db_model.specs.Cond.{IsCondition};
ghost use Rattle.db_model.specs.Reading.{IsReader};
ghost use Rattle.db_model.specs.Spelling.{nodes_of};
ghost use Rattle.run_frames.specs.Frames.{Asked};
ghost use Rattle.run_frames.specs.Served.{heard, numbered_cursor, own_cursor};

use aql_parse::{parse, readings_are_unique};
use db_model::{Command, Refusal};

/// Reads the bytes of a client's command into `command`, with the client's own cursor where it names one;
/// or says why it is refused.
pub fn hear(client: u8, bytes: &[u8], command: &mut Command) -> Result<(), Refusal>
    requires short { length bytes.now ≤ 512 }
    ensures heard { (read : List ℕ → Result AnyCommand AnyRefusal) → IsReader read
        → heard read (Asked client bytes.now) ≡ read_as result command.new }
    ensures condition { OnOk result (IsCondition (nodes_of command.new)) }
{
    readings_are_unique();
    parse(bytes, command)?;
    own_cursor(client, command)
}

// A client's cursor 1 is the one of its number, and it has no other.
fn own_cursor(client: u8, command: &mut Command) -> Result<(), Refusal>
    ensures own { own_cursor client command.old ≡ read_as result command.new }
    ensures condition { IsCondition (nodes_of command.old)
        → OnOk result (IsCondition (nodes_of command.new)) }
{
    match command {
        Command::OpenCursor { number, .. } => own(client, number),
        Command::FetchCursor { number } => own(client, number),
        Command::CloseCursor { number } => own(client, number),
        _ => Ok(()),
    }
}

fn own(client: u8, number: &mut i64) -> Result<(), Refusal>
    ensures { (made : ℤ → AnyCommand)
        → numbered_cursor client number.old made ≡ read_as result (made number.new) }
{
    if *number != 1 {
        return Err(Refusal::NoCursor);
    }
    *number = i64::from(client);
    Ok(())
}
