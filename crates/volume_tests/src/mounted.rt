//! Flashes in memory, and their files.

ghost use Rattle.std.specs.Prelude.{◌≡◌, None, IfSome, length};

use afl_base::{Files, Flash, Name};
use afl_sim::{FaultFlash, MemFlash};
use arrayvec::ArrayVec;
use coffee_volume::{MountError, Volume};

/// The bytes of four sectors.
pub const SIZE: usize = 16384;

/// The bytes of an erased flash.
pub fn erased() -> [u8; SIZE] {
    [0; SIZE]
}

/// The name of some letters.
pub fn named(letters: &[u8]) -> Name {
    Name::new(letters).unwrap_or_default()
}

/// A flash in memory.
pub fn memory<'a>(image: &'a mut [u8; SIZE]) -> Option<MemFlash<'a>> {
    let all = &mut image[..];
    MemFlash::new(all)
}

/// A flash in memory whose call of this number fails.
pub fn failing<'a>(image: &'a mut [u8; SIZE], call: u64) -> Option<FaultFlash<MemFlash<'a>>> {
    let mut fails = ArrayVec::new();
    fails.push(call);
    Some(FaultFlash::new(memory(image)?, fails))
}

/// How often mounting calls the flash of an image that keeps its rules.
pub fn calls_of_mount(image: &[u8; SIZE]) -> u64 {
    let mut image = *image;
    match memory(&mut image) {
        Some(flash) => match mounted_once(flash) {
            Some(flash) => flash.reads(),
            None => 0,
        },
        None => 0,
    }
}

// A flash whose image keeps its rules, mounted and unmounted.
fn mounted_once<F: Flash + Drop>(flash: F) -> Option<F> {
    match Volume::mount(flash) {
        Ok(volume) => Some(volume.unmount()),
        Err(MountError::Bad { bad: _, flash: _ }) => None,
        Err(MountError::Failed { flash: _ }) => None,
    }
}

/// The files of a flash whose image keeps its rules.
pub fn mounted<F: Flash + Drop>(flash: F) -> Option<Volume<F>>
    ensures idle { IfSome result (λ v. (⟦<Volume<F> as Files>⟧.state v).draft ≡ None) }
    ensures places { IfSome result (λ v. length (⟦<Volume<F> as Files>⟧.state v).files ≡ 32) }
{
    match Volume::mount(flash) {
        Ok(volume) => Some(volume),
        Err(MountError::Bad { bad: _, flash: _ }) => None,
        Err(MountError::Failed { flash: _ }) => None,
    }
}
