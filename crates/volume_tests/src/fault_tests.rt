use crate::acts::{Answer, answer_of, run_in};
use crate::calls::{fetch, live_files, look};
use crate::mounted::{SIZE, calls_of_mount, erased, failing, mounted, named};
use crate::steps::{Step, take};
use afl_base::{Files, Flash, Kind, Name};
use coffee_volume::{MountError, Volume};

#[test]
fn a_fault_at_any_call_of_the_flash_is_told(rt: HostRuntime) {
    let (t0, a) = (named(b"T0"), named(b"A"));
    // `T0` has 200 bytes and a full log, and `A` 40 bytes and no log.
    let making = [
        Step::Make(t0, Kind::Doubling),
        Step::Append(t0, &[1; 200], 1),
        Step::Mark(t0, 30),
        Step::Make(a, Kind::Fixed(2)),
        Step::Append(a, &[2; 40], 1),
    ];
    let steps = [
        Step::Make(named(b"B"), Kind::Doubling),
        Step::Erase(t0),
        Step::Append(a, &[4; 300], 1),
        Step::Overwrite(a, 0, &[5]),
        // merges the full log
        Step::Overwrite(t0, 199, &[5]),
        Step::Replace(t0, &[6; 1000], 500),
    ];
    let mut image = erased();
    let made = run_in(&mut image, &making);
    assert_eq!(rt;
        (made, first_other_faults(&image, &steps)),
        (Answer::Done, None)
    );
}

// The number of the first step that is done by one call of the flash, or does not end, or does not
// tell each fault; and how many faults it told.
fn first_other_faults(image: &[u8; SIZE], steps: &[Step]) -> Option<(usize, u64)> {
    let mounting = calls_of_mount(image);
    for (i, step) in steps.iter().enumerate() {
        let told = told_faults(image, step, mounting);
        if told <= 1 || 999 <= told {
            return Some((i, told));
        }
    }
    None
}

// At how many calls of the flash after its mounting a step fails, each of which is told; or none.
fn told_faults(image: &[u8; SIZE], step: &Step, mounting: u64) -> u64 {
    for told in 0..999u64 {
        match answer_with_fault(image, step, mounting.saturating_add(told + 1)) {
            Answer::Failed => {}
            Answer::Done => return told,
            _ => return 0,
        }
    }
    999
}

// What a step comes to where the call of this number fails.
fn answer_with_fault(image: &[u8; SIZE], step: &Step, call: u64) -> Answer {
    let mut image = *image;
    match failing(&mut image, call) {
        Some(flash) => answer_over(flash, step),
        None => Answer::Undone,
    }
}

// What a step comes to. It is `Failed` only where further calls return, too.
fn answer_over<F: Flash + Drop>(flash: F, step: &Step) -> Answer {
    let Some(mut volume) = mounted(flash) else {
        return Answer::Undone;
    };
    let mut used = live_files(&volume);
    match answer_of(take(&mut volume, &mut used, step)) {
        Answer::Failed => {
            if goes_on(volume) {
                Answer::Failed
            } else {
                Answer::Undone
            }
        }
        answer => answer,
    }
}

// Whether further calls return, and no further one answers `Failed`.
fn goes_on<F: Flash + Drop>(volume: Volume<F>) -> bool {
    let mut volume = volume;
    if !is_read(&mut volume, named(b"T0")) || !is_read(&mut volume, named(b"A")) {
        return false;
    }
    match Volume::mount(volume.unmount()) {
        Ok(_) => true,
        Err(MountError::Bad { bad: _, flash: _ }) => true,
        Err(MountError::Failed { flash: _ }) => false,
    }
}

// Whether the last byte of a file is read, where there are one and the other.
fn is_read<V: Files>(files: &mut V, name: Name) -> bool {
    match look(files, name) {
        Some((_, _, size)) => size == 0 || fetch(files, name, size - 1, &mut [0]) == Ok(true),
        None => true,
    }
}
