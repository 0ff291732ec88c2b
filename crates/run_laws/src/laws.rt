//! Laws on runs. Each function does nothing: its contract is the law.

#![tactic(auto)]

ghost use Rattle.std.specs.Prelude.{◌≡◌, ◌≢◌, ◌≤◌, ◌*◌, ◌/◌, ℕ, suc, List, Option, length, true, Some, Result};
ghost use Rattle.run_words.specs.declared.words.Form.TheVariants.{Run, Serve};
ghost use Rattle.antelope_run.specs.Promise.{HasSpace, KeepsPromise, LeftBy};
ghost use Rattle.run_model.specs.Moments.{Moment};
ghost use Rattle.db_model.specs.declared.commands.Command.{Command};
ghost use Rattle.db_model.specs.declared.refusals.Refusal.{Refusal};
ghost use Rattle.db_model.specs.Database.{Database, empty_database};
ghost use Rattle.db_model.specs.Reading.{IsReader};
ghost use Rattle.db_model.specs.Script.{commands};
ghost use Rattle.db_model.specs.Sound.{IsSoundDatabase};
ghost use Rattle.dump_model.specs.Script.{script};
ghost use Rattle.run_repair.specs.Mends.{StaysOrMends};
ghost use Rattle.run_repair.specs.Outcomes.{AreInterrupted};
ghost use Rattle.run_repair.specs.Repairs.{Repairs};
ghost use Rattle.run_laws.specs.Remaking.{Dumps, Remakes, RunsDump};
ghost use Rattle.run_laws.specs.Places.{unsaid_front};
ghost use Rattle.run_laws.specs.Survival.{InputRestoredAfter, InputRestores, InputSurvives};
ghost use Rattle.run_model.specs.Runs.{InputFoundNoSpace, InputUnsaid, World};
ghost use Rattle.run_model.specs.Scripts.{script_line, script_talk};
ghost use Rattle.run_frames.specs.Frames.{frame_line};
ghost use Rattle.run_frames.specs.Served.{serve_talk};
ghost use Rattle.image_model.specs.Images.{IsSound, base};
ghost use Rattle.space_plan.specs.Growth.{KeepsToPlan, commands_of};
ghost use Rattle.space_plan.specs.Planned.{planned};
ghost use Rattle.space_plan.specs.Rings.{KeepsToRing, KeepsToSlots};

use dump_model::{packed_databases_have_the_same_script, scripts_make_their_database};
use image_model::{erased_image_is_sound, sound_image_breaks_no_rule};
use run_frames::frames_come_in_parts;
use run_model::{scripts_are_answered_in_order, scripts_come_in_parts};
use run_repair::{cut_images_are_repaired, interrupted_repairs_lose_nothing};
use space_plan::{planned_flash_has_enough, planned_flash_has_enough_for_rings};
use stored::sound_files_are_a_sound_database;

/// A run of the script of a sound database over an image without relations, as an erased flash has, which
/// ends with status 0, leaves an image that stands for the packed database.
pub fn dumped_scripts_make_their_image()
    ensures { (read : List ℕ → Result Command Refusal) → IsReader read
        → (db : Database) (old new : World) → IsSoundDatabase db → old.left ≡ Some (script db)
        → base old.image ≡ empty_database → LeftBy 0 Run old new → Remakes db old new }
{
    scripts_make_their_database();
    scripts_are_answered_in_order();
}

/// What a dump wrote, run over an erased flash up to status 0, makes the packed database of the dumped
/// one, and a dump of the image that it leaves writes the same again.
pub fn dumps_are_made_again()
    ensures packed { (read : List ℕ → Result Command Refusal) → IsReader read
        → (sectors : ℕ) (dumped told old new : World) → RunsDump sectors dumped told old new
        → Remakes (base dumped.image) old new }
    ensures same { (read : List ℕ → Result Command Refusal) → IsReader read
        → (sectors : ℕ) (dumped told old new next again : World) → RunsDump sectors dumped told old new
        → next.image ≡ new.image → Dumps next again → again.held ≡ told.held }
{
    dumped_scripts_make_their_image();
    erased_image_is_sound();
    packed_databases_have_the_same_script();
    sound_files_are_a_sound_database();
}

/// A script whose commands insert and read, and bring at most this many rows to each relation as were planned
/// for by its name, finds enough space on a sound image with the sectors that were planned. So by the
/// contract of `top` its run does not end with status 3.
pub fn planned_runs_find_space()
    ensures { (read : List ℕ → Result Command Refusal) → IsReader read
        → (rows : List ℕ → ℕ) (old : World) (text : List ℕ) → IsSound old.image
        → old.left ≡ Some text → KeepsToPlan rows (base old.image) (commands_of read (commands text))
        → planned (base old.image) rows ≤ length old.image / 4096 → HasSpace Run old }
{
    planned_flash_has_enough();
    scripts_are_answered_in_order();
    sound_files_are_a_sound_database();
}

/// And so does a script that takes rows out again: one of INSERT, REMOVE FROM, PACK and what reads, in which at any time
/// each relation has at most this many slots more than now as were planned for by its name; or one without hash trees, in
/// which relations may come and go, and at any time none is larger than its slot was planned for.
pub fn planned_rings_find_space()
    ensures rows { (read : List ℕ → Result Command Refusal) → IsReader read
        → (rows : List ℕ → ℕ) (old : World) (text : List ℕ) → IsSound old.image
        → old.left ≡ Some text → KeepsToRing rows (base old.image) (commands_of read (commands text))
        → planned (base old.image) rows ≤ length old.image / 4096 → HasSpace Run old }
    ensures slots { (read : List ℕ → Result Command Refusal) → IsReader read
        → (rows : List ℕ → ℕ) (old : World) (text : List ℕ) → IsSound old.image
        → old.left ≡ Some text → KeepsToSlots rows (base old.image) (commands_of read (commands text))
        → planned (base old.image) rows ≤ length old.image / 4096 → HasSpace Run old }
{
    planned_flash_has_enough_for_rings();
    scripts_are_answered_in_order();
    sound_files_are_a_sound_database();
}

/// Where the bytes of the input and of the sink are known, what was written tells at which entry a run found
/// no space: which entries were carried out.
pub fn one_place_finds_no_space()
    ensures scripts { (read : List ℕ → Result Command Refusal) (old new : World) (text held : List ℕ)
        → old.left ≡ Some text → old.held ≡ Some held
        → (a b : InputFoundNoSpace script_line (script_talk read) old new)
        → a.found.front ≡ b.found.front }
    ensures served { (read : List ℕ → Result Command Refusal) (old new : World) (text held : List ℕ)
        → old.left ≡ Some text → old.held ≡ Some held
        → (a b : InputFoundNoSpace frame_line (serve_talk read) old new)
        → a.found.front ≡ b.found.front }
{
    scripts_come_in_parts();
    frames_come_in_parts();
}

/// Where the bytes of the input and of the sink are known, what was written tells behind which entries a run
/// ended whose reply, or line that there is no space, was not wholly written.
pub fn one_place_is_unsaid()
    ensures scripts { (read : List ℕ → Result Command Refusal) (old new : World) (text held : List ℕ)
        → old.left ≡ Some text → old.held ≡ Some held
        → (a b : InputUnsaid script_line (script_talk read) old new) → unsaid_front a ≡ unsaid_front b }
    ensures served { (read : List ℕ → Result Command Refusal) (old new : World) (text held : List ℕ)
        → old.left ≡ Some text → old.held ≡ Some held
        → (a b : InputUnsaid frame_line (serve_talk read) old new) → unsaid_front a ≡ unsaid_front b }
{
    scripts_come_in_parts();
    frames_come_in_parts();
}

/// However a run ends over a sound image, in the middle of a write too, where the failures of its flash are cuts: the
/// replies to the entries in front were written, and at most a part of the next; and the image mends to the database after
/// those entries, after the next one, too, or to one between these two.
pub fn runs_survive_cuts()
    ensures scripts { (read : List ℕ → Result Command Refusal) → IsReader read → (status : ℕ) (old new : Moment)
        → IsSound old.world.image → (sectors : ℕ) → length new.world.image ≡ 4096 * sectors
        → KeepsPromise Run true status old new → InputSurvives script_line (script_talk read) old.world new.world }
    ensures served { (read : List ℕ → Result Command Refusal) → IsReader read → (status : ℕ) (old new : Moment)
        → IsSound old.world.image → (sectors : ℕ) → length new.world.image ≡ 4096 * sectors
        → KeepsPromise Serve true status old new → InputSurvives frame_line (serve_talk read) old.world new.world }
{
    sound_image_breaks_no_rule();
}

/// And a repair of what is left ends with 0, and the image is sound and stands for such a database, put right; or it still
/// mends to that, put right, with 3, where it lacks pages, and with 4, where the failures of its flash are cuts; or it ends
/// with 6, where the database is the empty one.
pub fn repairs_restore_what_cuts_left()
    ensures scripts { (read : List ℕ → Result Command Refusal) → IsReader read → (status : ℕ) (old new : Moment)
        → IsSound old.world.image → (sectors : ℕ) → length new.world.image ≡ 4096 * sectors
        → KeepsPromise Run true status old new → (repair : ℕ) (image : List ℕ) (held now : Option (List ℕ))
        → Repairs repair new.world.image image held now
        → (repair ≡ 4 → StaysOrMends new.world.image image) → repair ≢ 5
        → InputRestores script_line (script_talk read) old.world new.world repair image }
    ensures served { (read : List ℕ → Result Command Refusal) → IsReader read → (status : ℕ) (old new : Moment)
        → IsSound old.world.image → (sectors : ℕ) → length new.world.image ≡ 4096 * sectors
        → KeepsPromise Serve true status old new → (repair : ℕ) (image : List ℕ) (held now : Option (List ℕ))
        → Repairs repair new.world.image image held now
        → (repair ≡ 4 → StaysOrMends new.world.image image) → repair ≢ 5
        → InputRestores frame_line (serve_talk read) old.world new.world repair image }
{
    runs_survive_cuts();
    cut_images_are_repaired();
}

/// So however many repairs of what is left are interrupted, one behind them that ends with 0 leaves a sound image, which
/// stands for such a database, put right once for each.
pub fn interrupted_repairs_restore_what_cuts_left()
    ensures scripts { (read : List ℕ → Result Command Refusal) → IsReader read → (status : ℕ) (old new : Moment)
        → IsSound old.world.image → (sectors : ℕ) → length new.world.image ≡ 4096 * sectors
        → KeepsPromise Run true status old new → (repairs : ℕ) (left image : List ℕ) (held now : Option (List ℕ))
        → AreInterrupted repairs new.world.image left → Repairs 0 left image held now
        → InputRestoredAfter script_line (script_talk read) old.world new.world (suc repairs) image }
    ensures served { (read : List ℕ → Result Command Refusal) → IsReader read → (status : ℕ) (old new : Moment)
        → IsSound old.world.image → (sectors : ℕ) → length new.world.image ≡ 4096 * sectors
        → KeepsPromise Serve true status old new → (repairs : ℕ) (left image : List ℕ) (held now : Option (List ℕ))
        → AreInterrupted repairs new.world.image left → Repairs 0 left image held now
        → InputRestoredAfter frame_line (serve_talk read) old.world new.world (suc repairs) image }
{
    runs_survive_cuts();
    interrupted_repairs_lose_nothing();
}
