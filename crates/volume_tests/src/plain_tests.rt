//! Files in arrays, by calls that know the trait alone.

ghost use Rattle.std.specs.Prelude.{◌≡◌};
ghost use Rattle.volume_tests.specs.Counts.{HasFiles};

use crate::calls::make;
use crate::mounted::named;
use crate::steps::{Step, take_all};
use afl_base::{FileError, Files, Kind, Name};
use afl_sim::PlainFiles;

// What some steps over no files come to.
fn run_plain(steps: &[Step]) -> Result<bool, FileError> {
    let mut files: PlainFiles<4064> = PlainFiles::new();
    let mut used = 0;
    take_all(&mut files, &mut used, steps)
}

#[test]
fn plain_files_hold_what_was_written(rt: HostRuntime) {
    let name = named(b"T0");
    let steps = [
        Step::Lacks(name),
        Step::Make(name, Kind::Doubling),
        Step::Stands(name, 0, Kind::Doubling, 0),
        Step::Append(name, b"hell", 1),
        Step::Change(name, 1, b"u", b"o"),
        Step::Holds(name, 0, b"hullo"),
        Step::Erase(name),
        Step::Lacks(name),
    ];
    assert_eq!(rt; run_plain(&steps), Ok(true));
}

#[test]
fn plain_files_lack_what_an_array_does_not_hold(rt: HostRuntime) {
    let name = named(b"T0");
    let fixed = named(b"CAT");
    let draft = [Step::Replace(name, &[1; 4065], 0)];
    let tail = [
        Step::Make(name, Kind::Doubling),
        Step::Append(name, &[1; 4065], 1),
    ];
    let most = [
        Step::Make(name, Kind::Doubling),
        Step::Append(name, &[1; 4064], 1),
        Step::Make(fixed, Kind::Fixed(15)),
        Step::Append(fixed, &[1; 3808], 1),
        // 29 regions
        Step::Overwrite(fixed, 127, &[2; 3584]),
        Step::Stands(fixed, 1, Kind::Fixed(15), 3808),
    ];
    let lacking = Err(FileError::Space { need: 32 });
    assert_eq!(rt;
        [run_plain(&draft), run_plain(&tail), run_plain(&most)],
        [lacking, lacking, Ok(true)]
    );
}

#[test]
fn a_draft_takes_the_place_of_its_name(rt: HostRuntime) {
    let old = named(b"T0");
    let new = named(b"X0");
    let steps = [
        Step::Make(old, Kind::Doubling),
        Step::Replace(new, &[0, 0, 99], 0),
        Step::Stands(new, 1, Kind::Doubling, 3),
        Step::Holds(new, 0, &[0, 0, 99]),
        Step::Stands(old, 0, Kind::Doubling, 0),
        Step::Replace(old, b"rows", 4),
        Step::Stands(old, 0, Kind::Doubling, 4),
        Step::Holds(old, 0, b"rows"),
    ];
    assert_eq!(rt; run_plain(&steps), Ok(true));
}

#[test]
fn a_file_is_changed_beside_another_that_is_replaced(rt: HostRuntime) {
    let first = named(b"T0");
    let second = named(b"T1");
    let steps = [
        Step::Make(first, Kind::Doubling),
        Step::Make(second, Kind::Doubling),
        Step::Append(first, b"rows", 1),
        Step::Holds(first, 0, b"rows"),
        Step::Overwrite(first, 0, &[255]),
        Step::Replace(second, b"rows", 0),
        Step::Holds(first, 0, &[255, 111, 119, 115]),
        Step::Holds(second, 0, b"rows"),
    ];
    assert_eq!(rt; run_plain(&steps), Ok(true));
}

// The same of files with names of one byte.
fn make_plain(letters: u8) -> Result<bool, FileError> {
    let mut files: PlainFiles<4064> = PlainFiles::new();
    make_letters(&mut files, letters)
}

#[test]
fn plain_files_are_32_at_most(rt: HostRuntime) {
    assert_eq!(rt; [make_plain(32), make_plain(33)], [Ok(true), Ok(false)]);
}

// Makes files with names of one byte, where no file is, and looks for the last of them.
fn make_letters<V: Files>(files: &mut V, letters: u8) -> Result<bool, FileError>
    requires { HasFiles (V.state files.old) 0 }
{
    let mut used = 0;
    let mut last = None;
    for number in 0..letters.min(60) {
        let Some(name) = Name::new(&[65 + number]) else {
            return Ok(false);
        };
        if !make(files, &mut used, name, Kind::Fixed(1))? {
            return Ok(false);
        }
        last = files.find(name);
    }
    Ok(last.is_some())
}
