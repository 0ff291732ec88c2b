//! The files that a session hands back.

ghost use Rattle.std.specs.Prelude.{◌≡◌, None};

use crate::arrays::text;
use crate::cases::show;
use crate::filling::size_of;
use crate::told::told;
use afl_base::{Files, Name};
use afl_sim::PlainFiles;
use std::alloc::{AllocError, Global};
use std::test::Fail;
use test_steps::{ONE, Part};

// The bytes of the file of a name.
fn read_file<V: Files>(alloc: Global, files: &mut V, name: Name) -> Result<Vec<u8>, AllocError> {
    match files.find(name) {
        Some(id) if files.live(id) => {
            let mut bytes = vec![in alloc; 0u8; files.size(id) as usize]?;
            match files.read(id, 0, bytes.as_mut_slice()) {
                Ok(()) => Ok(bytes),
                Err(_) => Ok(Vec::new(alloc)),
            }
        }
        _ => Ok(Vec::new(alloc)),
    }
}

// Whether the file of a name has just these bytes.
fn has_file<V: Files>(alloc: Global, files: &mut V, name: &[u8], wanted: &[u8]) -> bool {
    let Some(name) = Name::new(name) else {
        return false;
    };
    match read_file(alloc, files, name) {
        Ok(bytes) => bytes.as_slice() == wanted,
        Err(_) => false,
    }
}

// Whether the file of the rows that a script leaves has just the bytes of a case.
fn is_stored<V: Files + Drop>(alloc: Global, files: V, case: &Stored) -> bool
    requires { (V.state files).draft ≡ None }
{
    match told(alloc, files, case.script) {
        Some((_, mut files)) => has_file(alloc, &mut files, b"T0", case.rows),
        None => false,
    }
}

// A script, and the bytes of the rows that it leaves.
struct Stored {
    shows: &'static str,
    script: &'static [u8],
    rows: &'static [u8],
}

const STORED: &[Stored] = &[
    Stored {
        shows: "rows stand in the file of their relation",
        script: b"CREATE RELATION s;CREATE ATTRIBUTE k DOMAIN LONG IN s;\
            CREATE ATTRIBUTE t DOMAIN STRING(3) IN s;\
            INSERT (5, 'abc') INTO s;INSERT (-1, '') INTO s;",
        rows: b"\x05\x00\x00\x00abc\x01\xff\xff\xff\xff\x00\x00\x00\x01",
    },
    Stored {
        shows: "packed rows take no more bytes than they need",
        script: b"CREATE RELATION n;CREATE ATTRIBUTE v DOMAIN INT IN n;INSERT (0) INTO n;\
            INSERT (1) INTO n;INSERT (2) INTO n;REMOVE FROM n WHERE v = 1;PACK n;",
        rows: b"\x00\x00\x01\x02\x00\x01",
    },
    Stored {
        shows: "rows that were removed under an index are packed",
        script: b"CREATE RELATION s;CREATE ATTRIBUTE k DOMAIN LONG IN s;\
            CREATE ATTRIBUTE t DOMAIN STRING(3) IN s;CREATE INDEX s.k TYPE MAXHEAP;\
            INSERT (1, 'a') INTO s;INSERT (2, 'b') INTO s;REMOVE FROM s WHERE k = 1;\
            REMOVE INDEX s.k;PACK s;",
        rows: b"\x02\x00\x00\x00b\x00\x00\x01",
    },
];

#[test]
fn rows_stand_in_the_file_of_their_relation(rt: HostRuntime) -> Result<(), Fail> {
    for case in STORED {
        show(
            is_stored(rt.alloc(), PlainFiles::<4064>::new(), case),
            case.shows,
        )?;
    }
    Ok(())
}

const EQUAL_KEYS: &[Part] = &[
    Part::Once(ONE),
    Part::Once("CREATE INDEX n.v TYPE MAXHEAP;"),
    Part::Often("INSERT (7) INTO n;", 256),
];

// The bytes of the hash tree of 256 equal keys.
fn tree_size<V: Files + Drop>(alloc: Global, files: V) -> Option<u32>
    requires { (V.state files).draft ≡ None }
{
    let (_, files) = told(alloc, files, text(alloc, EQUAL_KEYS).as_slice())?;
    size_of(&files, b"X0")
}

#[test]
fn a_hash_tree_of_256_equal_keys_has_8_buckets(rt: HostRuntime) -> Result<(), Fail> {
    let size = tree_size(rt.alloc(), PlainFiles::<4064>::new());
    show(size == Some(2_243), "the tree has eight buckets")
}
