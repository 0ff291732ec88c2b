//! Trees on flash that are not those of their keys.

ghost use Rattle.std.specs.Prelude.{◌≡◌, None};

use crate::cases::show;
use crate::running::copied;
use crate::strangers::{is_refused, made_of};
use afl_base::{FileError, Files, Flash, Kind, Name};
use afl_sim::MemFlash;
use coffee_volume::{MountError, Volume};
use std::alloc::Global;
use std::test::Fail;
use test_steps::{ONE, Part};

// Puts a byte into a growing file. It answers whether the file has it.
fn put_byte<V: Files>(files: &mut V, name: Name, at: u32, byte: u8) -> Result<bool, FileError>
    requires { (V.state files.old).draft ≡ None }
{
    let Some(id) = files.find(name) else {
        return Ok(false);
    };
    match files.kind(id) {
        Kind::Doubling => {}
        Kind::Fixed(_) => return Ok(false),
    }
    let size = files.size(id);
    if size > 4_194_304 || at >= size || at + 1 == size {
        return Ok(false);
    }
    files.prepare(id, 1, 0)?;
    files.overwrite(id, at, &[byte])?;
    Ok(true)
}

// Puts a byte into the tree `X0` of a flash, and answers whether the tree has it.
fn put_on<F: Flash + Drop>(flash: F, at: u32, byte: u8) -> bool {
    let Some(tree) = Name::new(b"X0") else {
        return false;
    };
    match Volume::mount(flash) {
        Ok(mut volume) => match put_byte(&mut volume, tree, at, byte) {
            Ok(done) => done,
            Err(_) => false,
        },
        Err(MountError::Bad { bad: _, flash: _ }) => false,
        Err(MountError::Failed { flash: _ }) => false,
    }
}

// Whether an image is refused because of its tree, of which some bytes are changed.
fn breaks(alloc: Global, sound: &[u8], bytes: &[(u32, u8)]) -> bool {
    let mut image = copied(alloc, sound);
    for (at, byte) in bytes {
        let Some(flash) = MemFlash::new(image.as_mut_slice()) else {
            return false;
        };
        if !put_on(flash, *at, *byte) {
            return false;
        }
    }
    is_refused(alloc, image.as_slice(), &[], "no image 20 0\n")
}

const MANY: &[Part] = &[
    Part::Once(ONE),
    Part::Once("CREATE INDEX n.v TYPE MAXHEAP;"),
    Part::Often("INSERT (7) INTO n;", 256),
];

const FEW: &[Part] = &[
    Part::Once(ONE),
    Part::Once("CREATE INDEX n.v TYPE MAXHEAP;"),
    Part::Often("INSERT (7) INTO n;", 33),
];

#[test]
fn another_key_in_a_tree_is_told(rt: HostRuntime) -> Result<(), Fail> {
    let image = made_of(rt.alloc(), MANY);
    // Eight buckets of 195 bytes after 683 bytes; a pair is its key and its slot + 1.
    show(
        breaks(rt.alloc(), image.as_slice(), &[(683, 6)]),
        "another key",
    )?;
    // Slot 0 has two pairs, and slot 1 has none.
    show(
        breaks(rt.alloc(), image.as_slice(), &[(683 + 10, 1)]),
        "two pairs of a slot",
    )?;
    // Node 1 has the bucket of the root, too.
    show(
        breaks(rt.alloc(), image.as_slice(), &[(2, 1)]),
        "a bucket of two nodes",
    )?;
    // The chain of node 293 ends before its last bucket.
    show(
        breaks(rt.alloc(), image.as_slice(), &[(683 + 195 * 6 + 192, 0)]),
        "a chain that ends",
    )
}

#[test]
fn a_bucket_off_the_path_of_its_key_is_told(rt: HostRuntime) -> Result<(), Fail> {
    let image = made_of(rt.alloc(), FEW);
    // The second bucket of key 7 is that of node 4, which is here made that of node 1.
    show(
        breaks(rt.alloc(), image.as_slice(), &[(8, 0), (2, 2)]),
        "a bucket off its path",
    )
}
