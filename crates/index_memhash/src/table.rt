ghost use Rattle.std.specs.Prelude.{◌++◌, ◌∷◌, ◌≡◌, ◌+◌, ◌<◌, ◌≤◌, [], ℕ, MatchOption, length, nat_eq, ◌==◌};
ghost use Rattle.afl_base.specs.Keys.{HasNone, IsFirstOf};

use crate::chains::{END, chain_of, empty, end_link, find};
use afl_base::SlotNo;
use std::marker::Model;

/// Where a search goes on: at this entry.
#[derive(Clone, Copy, PartialEq, Eq, Debug)]
pub struct HashPlace {
    pub entry: u16,
}

/// The keys of at most 2,048 slots, from slot 0 on: entry number i is the key of slot i. It has
/// 14,340 bytes, and allocates nothing.
#[derive(Drop)]
pub struct HashTable {
    keys: [i32; 2048],
    // The chains' heads, and after them the link of each entry: the entry that each leads to. Here and in
    // `last` an entry is held as its number and 1, and 0 is none: so a table of zeros is empty.
    links: [u16; 2560],
    // The last entry of each chain.
    last: [u16; 512],
    len: u16,
}

impl Model for HashTable {
    ghost use Rattle.std.specs.Prelude.{ℤ, List, take};
    ghost use Rattle.index_memhash.specs.Chains.{IsHashTable};

    ghost Value = { List ℤ };

    ghost view = { λ t. take t.len t.keys };

    ghost invariant = { λ t. IsHashTable t.keys t.links t.last t.len };
}

impl HashTable {
    /// A table with no entries.
    // Inlined, so that the zeros are written where the table is to stay.
    #[inline(always)]
    pub fn new() -> HashTable
        ensures { result ≡ [] }
    {
        HashTable {
            keys: [0; 2048],
            links: [0; 2560],
            last: [0; 512],
            len: 0,
        }
    }

    /// Takes all entries out.
    pub fn clear(&mut self)
        ensures { self.new ≡ [] }
    {
        empty(&mut self.links, &mut self.last);
        self.len = 0;
    }

    /// The number of entries.
    pub fn len(&self) -> u16
        ensures len { result ≡ length self.now }
        ensures few { result ≤ 2048 }
    {
        self.len
    }

    /// Whether there are 2,048 entries, and no more can be put in.
    pub fn is_full(&self) -> bool
        ensures { result ≡ (length self.now == 2048) }
    {
        self.len == END
    }

    /// Puts in the key of the next slot.
    pub fn insert(&mut self, key: &i32)
        requires room { length self.old < 2048 }
        ensures { self.new ≡ self.old ++ key.now ∷ [] }
    {
        let chain = chain_of(key);
        let entry = usize::from(self.len);
        let end = end_link(chain, self.last[usize::from(chain)]);
        self.links[usize::from(end)] = self.len + 1;
        self.last[usize::from(chain)] = self.len + 1;
        self.links[512 + entry] = 0;
        self.keys[entry] = *key;
        self.len += 1;
    }

    /// The place before all entries, where a search of any key begins.
    pub fn first() -> HashPlace
        ensures { result.entry ≡ 0 }
    {
        HashPlace { entry: 0 }
    }

    /// The first slot of the key at or after a place, and the place after it; None exactly where
    /// there is none. Every place is good, also after later inserts. A search touches the entries of one
    /// chain alone, and goes on from the entry that was answered last.
    pub fn next(&self, place: HashPlace, key: &i32) -> Option<(SlotNo, HashPlace)>
        ensures { MatchOption result (HasNone key.now self.now place.entry)
            (λ found. IsFirstOf key.now self.now place.entry found.0 × (found.1.entry ≡ found.0 + 1)) }
    {
        let slot = find(
            &self.keys,
            &self.links,
            &self.last,
            self.len,
            key,
            place.entry,
        )?;
        Some((
            slot,
            HashPlace {
                entry: slot.number() + 1,
            },
        ))
    }
}
