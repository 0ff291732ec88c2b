//! The database as a script that makes it again.

#![tactic(auto)]

ghost use Rattle.std.specs.Prelude.{◌≡◌, ℕ, List, Result};
ghost use Rattle.db_model.specs.Database.{Database};
ghost use Rattle.db_model.specs.Reading.{IsReader};
ghost use Rattle.db_model.specs.Sound.{IsSoundDatabase};
ghost use Rattle.db_model.specs.declared.commands.Command.{Command as AnyCommand};
ghost use Rattle.db_model.specs.declared.refusals.Refusal.{Refusal as AnyRefusal};
ghost use Rattle.dump_model.specs.Made.{MakesPacked};
ghost use Rattle.dump_model.specs.Packed.{packed};
ghost use Rattle.dump_model.specs.Script.{script};

use aql_parse::readings_are_unique;
use db_model::laws::sound_databases_stay_sound;

/// The script of a sound database makes the packed one of the database of an erased flash: each of
/// its commands has at most 512 bytes and is replied to by `ok`.
pub fn scripts_make_their_database()
    ensures { (read : List ℕ → Result AnyCommand AnyRefusal) → IsReader read
        → (db : Database) → IsSoundDatabase db → MakesPacked read db }
{
    readings_are_unique();
}

/// A packed database is sound, has the same script, and is packed already.
pub fn packed_databases_have_the_same_script()
    ensures sound { (db : Database) → IsSoundDatabase db → IsSoundDatabase (packed db) }
    ensures script { (db : Database) → IsSoundDatabase db → script (packed db) ≡ script db }
    ensures twice { (db : Database) → IsSoundDatabase db → packed (packed db) ≡ packed db }
{
    sound_databases_stay_sound();
}
