//! Collections whose power goes at each write.

use crate::running::{Calls, call, call_cut, copied, erased};
use std::alloc::Global;
use std::test::Fail;

const MADE: &[u8] = b"CREATE RELATION a;CREATE ATTRIBUTE v DOMAIN INT IN a;INSERT (7) INTO a;\
    CREATE RELATION b;CREATE RELATION c;INSERT (8) INTO a;REMOVE RELATION b;REMOVE RELATION c;";

// Whether an image that a cut collection left is repaired, and its database is as it was.
fn is_put_right(alloc: Global, image: &mut [u8], dump: &[u8]) -> bool {
    let repaired = call(alloc, Calls::Repair, b"", image);
    repaired.status == 0 && call(alloc, Calls::Dump, b"", image).is(0, dump)
}

// The first of this many writes after which a cut leaves something else, and how many images were cut.
fn first_wrong(alloc: Global, made: &[u8], dump: &[u8], front: usize) -> (Option<u64>, u64) {
    for writes in 0..200u64 {
        let mut image = copied(alloc, made);
        let ended = call_cut(
            alloc,
            Calls::Collect,
            b"",
            image.as_mut_slice(),
            writes,
            front,
        );
        if ended.status == 0 {
            return (None, writes);
        }
        if !ended.is(4, b"") || !is_put_right(alloc, image.as_mut_slice(), dump) {
            return (Some(writes), writes);
        }
    }
    (None, 0)
}

#[test]
fn a_collection_may_be_cut_at_each_write(rt: HostRuntime) -> Result<(), Fail> {
    let mut image = erased(rt.alloc(), 8);
    call(rt.alloc(), Calls::Run, MADE, image.as_mut_slice());
    let dump = call(rt.alloc(), Calls::Dump, b"", image.as_mut_slice());
    for front in [0usize, 1_000] {
        let (wrong, cuts) = first_wrong(
            rt.alloc(),
            image.as_slice(),
            dump.written.as_slice(),
            front,
        );
        if let Some(write) = wrong {
            return Err(Fail::new(write));
        }
        if cuts < 10 {
            return Err(Fail::new(cuts));
        }
    }
    Ok(())
}
