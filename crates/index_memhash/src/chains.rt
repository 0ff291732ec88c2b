ghost use Rattle.std.specs.Prelude.{◌≡◌, ◌+◌, ◌*◌, ◌-◌, ◌<◌, ◌≤◌, ◌≢◌, ℕ, get_or, take, length, true, false, nat_le, ◌&&◌};
ghost use Rattle.index_memhash.specs.Chains.{FindsKey, IsChained, chain_at, end_link, entry_held, hash};
ghost use Rattle.afl_base.specs.Keys.{is_key_at, key_in};

use afl_base::SlotNo;

/// The number of chains.
pub(crate) const CHAINS: u16 = 512;

/// The most keys that a table holds.
pub const MOST_KEYS: u16 = 2_048;

/// After all entries: where a chain ends.
pub(crate) const END: u16 = MOST_KEYS;

/// The hash of a key, below 512.
#[tactic(auto, unfolding(crate::specs::Chains::hash))]
pub(crate) fn chain_of(key: &i32) -> u16
    ensures hash { result ≡ hash key.now }
    ensures few { result < 512 }
{
    (key.cast_unsigned().wrapping_mul(2_654_435_769) >> 23) as u16
}

/// Takes all entries out of the chains: each head leads nowhere, and no chain has a last entry.
pub(crate) fn empty(links: &mut [u16; 2560], last: &mut [u16; 512])
    ensures links_size { length links.new ≡ 2560 }
    ensures last_size { length last.new ≡ 512 }
    ensures heads { (link : ℕ) → link < 512 → get_or links.new link 0 ≡ 0 }
    ensures last { (chain : ℕ) → chain < 512 → get_or last.new chain 0 ≡ 0 }
{
    for chain in 0..CHAINS {
        links[usize::from(chain)] = 0;
        last[usize::from(chain)] = 0;
    }
}

/// The last link of a chain, by its last entry as it is held.
pub(crate) fn end_link(chain: u16, held: u16) -> u16
    requires few { chain < 512 }
    requires within { held ≤ 2048 }
    ensures { result ≡ end_link chain held }
{
    if held == 0 { chain } else { 511 + held }
}

/// The first slot of a key, from one on, by the chain of its hash.
pub(crate) fn find(
    keys: &[i32; 2048],
    links: &[u16; 2560],
    last: &[u16; 512],
    len: u16,
    key: &i32,
    from: u16,
) -> Option<SlotNo>
    requires few { len ≤ 2048 }
    requires chained { IsChained (take len keys.now) links.now last.now }
    ensures { FindsKey result key.now (take len keys.now) from }
{
    let mut entry = led_to(links, link_before(keys, len, key, from));
    'chain: while entry < len {
        if is_wanted(keys, entry, key, from) {
            return SlotNo::new(entry);
        }
        entry = led_to(links, 512 + entry);
    }
    None
}

// The entry that a link leads to, END for none.
fn led_to(links: &[u16; 2560], link: u16) -> u16
    requires within { link < 2560 }
    ensures { result ≡ entry_held (get_or links.now link 0) }
{
    let held = links[usize::from(link)];
    if held == 0 { END } else { held - 1 }
}

// A link of the key's chain before all entries from one on: that of the entry before it where this
// has the key, as where it was answered last, else the chain's head.
fn link_before(keys: &[i32; 2048], len: u16, key: &i32, from: u16) -> u16
    requires few { len ≤ 2048 }
    ensures chain { chain_at (take len keys.now) result ≡ hash key.now }
    ensures within { result < 512 + len }
    ensures before { result - 511 ≤ from }
{
    if 0 < from && from <= len && has_key(keys, from - 1, key) {
        return 511 + from;
    }
    chain_of(key)
}

// Whether an entry is at or after one and has the key.
fn is_wanted(keys: &[i32; 2048], entry: u16, key: &i32, from: u16) -> bool
    requires within { entry < 2048 }
    ensures { result ≡ (nat_le from entry && is_key_at key.now keys.now entry) }
{
    from <= entry && has_key(keys, entry, key)
}

fn has_key(keys: &[i32; 2048], slot: u16, key: &i32) -> bool
    requires within { slot < 2048 }
    ensures { result ≡ is_key_at key.now keys.now slot }
{
    keys[usize::from(slot)] == *key
}
