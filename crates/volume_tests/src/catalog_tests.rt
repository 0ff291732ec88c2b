//! The order in which a catalog of version 1 is changed, seen over a flash that fails in its midst.

ghost use Rattle.std.specs.Prelude.{◌≡◌, None};

use crate::acts::{Answer, answer_of, run_in};
use crate::calls::{fetch, look};
use crate::mounted::{SIZE, calls_of_mount, erased, failing, memory, mounted};
use crate::steps::Step;
use afl_base::{FileError, Files, Flash, Kind, RelationId};
use arrayvec::ArrayVec;
use catalog::{catalog_file, put_relation, room_for};
use coffee_volume::{MountError, Volume};
use db_model::{Attribute, Attributes, Domain, Ident, Schema};

// How far a change of the second slot has come.
#[derive(Clone, Copy, Default, PartialEq, Eq, Debug)]
enum Stage {
    // The slot is unused, and no mark of version 2 stands after the slots.
    #[default]
    Before,
    // The first of the two regions that the slot touches has its new bytes.
    Half,
    // The slot has its new bytes.
    Slot,
    // The mark stands, too.
    Marked,
    // The image breaks a rule.
    Broken,
    // Neither old nor new bytes stand there.
    Other,
}

#[test]
fn a_slot_is_replaced_before_the_mark_of_version_2_is_appended(rt: HostRuntime) {
    let (cat, catalog) = (catalog_file(), version_1());
    // A catalog of version 1 that has a log.
    let steps = [
        Step::Make(cat, Kind::Fixed(6)),
        Step::Append(cat, &catalog, 1),
        Step::Overwrite(cat, 0, b"n"),
    ];
    let mut image = erased();
    let made = run_in(&mut image, &steps);
    let seen = [Stage::Before, Stage::Half, Stage::Slot, Stage::Marked];
    assert_eq!(rt;
        (made, stages(&image).as_slice()),
        (Answer::Done, seen.as_slice())
    );
}

// The stages that are found where one call of the flash after the other fails, up to the change that
// is done.
fn stages(before: &[u8; SIZE]) -> ArrayVec<Stage, 8> {
    let mounting = calls_of_mount(before);
    let mut seen: ArrayVec<Stage, 8> = ArrayVec::new();
    for call in 1..1_000u64 {
        let (stage, changed) = stage_after(before, mounting.saturating_add(call));
        if stage != Stage::Broken && seen.last() != Some(&stage) {
            if seen.is_full() {
                break;
            }
            seen.push(stage);
        }
        if changed != Answer::Failed {
            break;
        }
    }
    seen
}

// A catalog of version 1 with the relation n in its first slot.
fn version_1() -> [u8; 1472] {
    let mut bytes = [0; 1472];
    for slot in 0..8 {
        bytes[176 * slot + 175] = 1;
        bytes[1415 + 8 * slot] = 1;
    }
    for (i, byte) in slot_of(b'n').iter().enumerate() {
        bytes[i] = *byte;
    }
    bytes
}

// The slot of a relation of this name, whose one attribute v is an INT.
fn slot_of(name: u8) -> [u8; 176] {
    let mut bytes = [0; 176];
    bytes[0] = name;
    bytes[16] = b'v';
    bytes[32] = 1;
    bytes[160] = 1;
    bytes[175] = 1;
    bytes
}

// What is found once the call of this number has failed, and what the change came to.
fn stage_after(before: &[u8; SIZE], call: u64) -> (Stage, Answer) {
    let mut image = *before;
    let changed = match failing(&mut image, call) {
        Some(flash) => changed_over(flash),
        None => Answer::Undone,
    };
    if changed != Answer::Done && changed != Answer::Failed {
        return (Stage::Other, changed);
    }
    match memory(&mut image) {
        Some(flash) => (stage_over(flash), changed),
        None => (Stage::Other, changed),
    }
}

// What putting the relation m into the second slot comes to.
fn changed_over<F: Flash + Drop>(flash: F) -> Answer {
    match mounted(flash) {
        Some(mut volume) => answer_of(put_second(&mut volume)),
        None => Answer::Undone,
    }
}

fn put_second<V: Files>(files: &mut V) -> Result<bool, FileError>
    requires { (V.state files.old).draft ≡ None }
{
    match (relation(), RelationId::new(1)) {
        (Some(schema), Some(second)) => put(files, second, &schema),
        _ => Ok(false),
    }
}

fn put<V: Files>(files: &mut V, id: RelationId, schema: &Schema) -> Result<bool, FileError>
    requires { (V.state files.old).draft ≡ None }
{
    let Some(cat) = files.find(catalog_file()) else {
        return Ok(false);
    };
    match files.kind(cat) {
        Kind::Fixed(6) => {}
        _ => return Ok(false),
    }
    if files.size(cat) != 1472 {
        return Ok(false);
    }
    let (overwrites, bytes) = room_for(1472, 176 * u32::from(id.number()), 176);
    files.prepare(cat, overwrites, bytes)?;
    match put_relation(files, cat, id, schema) {
        Ok(()) => Ok(true),
        Err(_) => Err(FileError::Failed),
    }
}

fn relation() -> Option<Schema> {
    let mut attributes = Attributes::new();
    attributes.push(Attribute {
        name: Ident::new(b"v")?,
        domain: Domain::Int,
    });
    Some(Schema {
        name: Ident::new(b"m")?,
        attributes,
    })
}

// What a flash has in the second slot, where it keeps its rules.
fn stage_over<F: Flash + Drop>(flash: F) -> Stage {
    match Volume::mount(flash) {
        Ok(mut volume) => stage_on(&mut volume),
        Err(MountError::Bad { bad: _, flash: _ }) => Stage::Broken,
        Err(MountError::Failed { flash: _ }) => Stage::Other,
    }
}

// What files have in the second slot.
fn stage_on<V: Files>(files: &mut V) -> Stage {
    let Some((_, _, size)) = look(files, catalog_file()) else {
        return Stage::Other;
    };
    let mut slot = [0; 176];
    match fetch(files, catalog_file(), 176, &mut slot) {
        Ok(true) => stage_of(&slot, size),
        _ => Stage::Other,
    }
}

// The bytes of the slot from 80 on lie in a second region of the file.
fn stage_of(slot: &[u8; 176], size: u32) -> Stage {
    let new = slot_of(b'm');
    let mut half = new;
    half[160] = 0;
    let mut old = [0; 176];
    old[175] = 1;
    if slot[..] == new[..] {
        return match size {
            1472 => Stage::Slot,
            1480 => Stage::Marked,
            _ => Stage::Other,
        };
    }
    if size != 1472 {
        return Stage::Other;
    }
    if slot[..] == half[..] {
        return Stage::Half;
    }
    if slot[..] == old[..] {
        return Stage::Before;
    }
    Stage::Other
}
