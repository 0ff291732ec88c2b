ghost use Rattle.std.specs.Prelude.{◌≡◌, None, OnOk};

use crate::trees::{built_tree, finds_all, put_key};
use crate::volumes::mounted;
use afl_base::{FileError, FileId, Files, Kind};
use afl_sim::{MemFlash, PlainFiles};
use std::test::Fail;
use test_steps::{new_file, size_of};

// One of six keys; the first four share three digits of four.
fn key_for(seed: u32) -> i32 {
    match seed / 65536 % 6 {
        0 => 7,
        1 => 71,
        2 => 135,
        3 => 199,
        4 => -1,
        _ => 65543,
    }
}

fn next_seed(seed: u32) -> u32 {
    seed.wrapping_mul(1664525).wrapping_add(1013904223)
}

// A list of seeded keys.
fn seeded() -> [i32; 10_000] {
    let mut keys = [0; 10_000];
    let mut seed = 1u32;
    for at in 0..10_000usize {
        seed = next_seed(seed);
        keys[at] = key_for(seed);
    }
    keys
}

// Whether a slot is the last of this many.
fn is_last_of(slot: u16, every: u16) -> bool {
    every != 0 && slot % every == every - 1
}

// Whether searches for some keys agree with the first of a list.
fn agrees<V: Files>(
    files: &mut V,
    index: FileId,
    keys: &[i32],
    slots: u16,
    sought: &[i32],
) -> Result<bool, FileError>
    requires idle { (V.state files.old).draft ≡ None }
    ensures idle { OnOk result ((V.state files.new).draft ≡ None) }
{
    for key in sought.iter() {
        if !finds_all(files, index, keys, slots, key)? {
            return Ok(false);
        }
    }
    Ok(true)
}

// Inserts the first seeded keys. It answers whether the searches between, for the last key and
// another after each this many inserts, agree with the list.
fn grows<V: Files>(
    files: &mut V,
    index: FileId,
    keys: &[i32; 10_000],
    slots: u16,
    every: u16,
) -> Result<bool, FileError>
    requires idle { (V.state files.old).draft ≡ None }
    ensures idle { OnOk result ((V.state files.new).draft ≡ None) }
{
    let mut seed = 1u32;
    for slot in 0..slots {
        seed = next_seed(seed);
        let key = key_for(seed);
        put_key(files, index, &key, slot)?;
        if is_last_of(slot, every)
            && !agrees(files, index, keys, slot + 1, &[key, key_for(seed / 8)])?
        {
            return Ok(false);
        }
    }
    Ok(true)
}

// Whether a tree that this many inserts grew agrees with a list of their keys, in searches between and,
// at the end, for the six keys and one that is absent.
fn grows_to<V: Files>(files: &mut V, slots: u16, every: u16) -> Result<bool, FileError>
    requires idle { (V.state files.old).draft ≡ None }
{
    let keys = seeded();
    let rows = new_file(files, b"T0", Kind::Doubling)?;
    let index = built_tree(files, b"X0", rows, 0)?;
    if size_of(files, index) != 683 || !grows(files, index, &keys, slots, every)? {
        return Ok(false);
    }
    agrees(files, index, &keys, slots, &[7, 71, 135, 199, -1, 65543, 8])
}

fn grows_to_1600<V: Files>(files: &mut V) -> Result<bool, FileError>
    requires idle { (V.state files.old).draft ≡ None }
{
    grows_to(files, 1_600, 50)
}

fn grows_to_10_000<V: Files>(files: &mut V) -> Result<bool, FileError>
    requires idle { (V.state files.old).draft ≡ None }
{
    grows_to(files, 10_000, 500)
}

#[test]
fn inserts_and_queries_agree_with_a_list(rt: HostRuntime) {
    let mut files: PlainFiles<16352> = PlainFiles::new();
    assert!(rt; grows_to_1600(&mut files) == Ok(true));
}

#[test]
fn ten_thousand_inserts_agree_with_a_list(rt: HostRuntime) -> Result<(), Fail> {
    let mut image = vec![in rt.alloc(); 0u8; 1_048_576]?;
    let mut volume = mounted(MemFlash::new(&mut image).ok_or("no flash")?)?;
    assert!(rt; grows_to_10_000(&mut volume) == Ok(true));
    Ok(())
}
