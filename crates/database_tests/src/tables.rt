//! Tables beside plain lists of keys.

#![tactic(auto)]

use index_memhash::{HashPlace, HashTable};

// The first slot of a key at or after a place, and the place after it.
fn found(table: &HashTable, place: HashPlace, key: i32) -> Option<(u16, HashPlace)> {
    let (slot, behind) = table.next(place, &key)?;
    Some((slot.number(), behind))
}

// Whether the slots of a key are answered one after the other as a plain list has them.
fn has_slots(table: &HashTable, keys: &[i32; 2048], key: i32) -> bool {
    let mut place = HashTable::first();
    for slot in 0..2048u16 {
        if keys[usize::from(slot)] == key {
            let Some((number, behind)) = found(table, place, key) else {
                return false;
            };
            if number != slot {
                return false;
            }
            place = behind;
        }
    }
    found(table, place, key).is_none()
}

// The first slot of a key at or after an entry.
fn slot_from(table: &HashTable, entry: u16, key: i32) -> Option<u16> {
    let (slot, _) = found(table, HashPlace { entry }, key)?;
    Some(slot)
}

// Puts the key of the next slot in, where there is room.
fn put(table: &mut HashTable, key: i32) {
    if table.len() < 2048 {
        table.insert(&key);
    }
}

// A table of seeded keys, which are written to a plain list too.
fn seeded(keys: &mut [i32; 2048]) -> HashTable {
    let mut table = HashTable::new();
    let mut seed: u32 = 14;
    for at in 0..2048usize {
        seed = seed.wrapping_mul(1_664_525).wrapping_add(1_013_904_223);
        let key = i32::from((seed >> 24) as u8) - 128;
        keys[at] = key;
        put(&mut table, key);
    }
    table
}

// Whether a table has all keys of a byte and two beside them as a plain list has them.
fn agrees(table: &HashTable, keys: &[i32; 2048]) -> bool {
    for key in -129..129 {
        if !has_slots(table, keys, key) {
            return false;
        }
    }
    true
}

#[test]
fn seeded_keys_are_answered_as_a_plain_list_has_them(rt: HostRuntime) {
    let mut keys = [0; 2048];
    let table = seeded(&mut keys);
    assert!(rt; table.is_full());
    assert!(rt; agrees(&table, &keys));
}

// Whether a table grows entry by entry, and is full at 2,048 and not before.
fn fills(table: &mut HashTable) -> bool {
    for at in 0..2048u16 {
        if table.len() != at || table.is_full() {
            return false;
        }
        put(table, 7);
    }
    table.is_full()
}

#[test]
fn a_table_of_one_key_is_full_at_2048_and_empty_when_cleared(rt: HostRuntime) {
    let mut table = HashTable::new();
    assert!(rt; fills(&mut table));
    assert!(rt; slot_from(&table, 2047, 7) == Some(2047));
    assert!(rt; slot_from(&table, 2048, 7).is_none());
    assert!(rt; slot_from(&table, 0, -7).is_none());
    table.clear();
    assert!(rt; table.len() == 0);
    assert!(rt; slot_from(&table, 0, 7).is_none());
}

fn put_three(table: &mut HashTable) {
    put(table, i32::MIN);
    put(table, -1);
    put(table, i32::MAX);
}

#[test]
fn places_stay_good_when_keys_come_behind(rt: HostRuntime) {
    let mut table = HashTable::new();
    put(&mut table, -1);
    assert!(rt; slot_from(&table, 0, -1) == Some(0));
    assert!(rt; slot_from(&table, 1, -1).is_none());
    put_three(&mut table);
    assert!(rt; slot_from(&table, 1, -1) == Some(2));
    assert!(rt; slot_from(&table, 0, i32::MIN) == Some(1));
    assert!(rt; slot_from(&table, 0, i32::MAX) == Some(3));
}
