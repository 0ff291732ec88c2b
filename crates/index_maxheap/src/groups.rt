//! Pairs on their way into a draft: those of a node go out in groups of four, so that up to three wait.

#![tactic(auto)]

ghost use Rattle.std.specs.Prelude.{◌≡◌, ◌+◌, ◌*◌, ◌/◌, ◌%◌, ◌^◌, ◌<◌, ◌≤◌, IsSome, IsTrue, OnErr, OnOk, get_or, length, slice_range};
ghost use Rattle.afl_base.specs.CutFiles.{CutKeeps};
ghost use Rattle.afl_base.specs.Files.{WritesDraft, draft_in};
ghost use Rattle.afl_base.specs.Keeping.{Changes};
ghost use Rattle.index_maxheap.specs.Builds.{Completes, HasZeros, TakesIn, place_of, with_bucket};
ghost use Rattle.index_tree.specs.Pairs.{pair};

use crate::bytes::pair_bytes;
use crate::tree::bucket_place;
use afl_base::{Failed, Files, SlotNo, put_bytes};

/// The pairs of a group, of which a bucket has eight.
pub const GROUP: u16 = 4;

/// The bytes of a pair.
pub const PAIR_SIZE: usize = 6;

/// The bytes of a group.
pub const GROUP_SIZE: usize = GROUP as usize * PAIR_SIZE;

/// The bytes of those pairs of a group that wait: the last one goes out with them.
pub const WAITING_SIZE: usize = GROUP_SIZE - PAIR_SIZE;

/// Of each node how many pairs it has, how many buckets come before its last one, and the pairs of its
/// last group: as long as that is not whole, the draft does not have them. And how many buckets there are.
#[derive(Drop)]
pub struct Nodes {
    pub loads: [u16; 341],
    pub lasts: [u16; 341],
    pub groups: [u8; 341 * WAITING_SIZE],
    pub opened: u16,
}

impl Nodes {
    /// Has one pair more of a node wait.
    pub fn take_in(&mut self, node: u16, key: &i32, slot: SlotNo)
        requires node { node < 341 }
        requires few { get_or self.old.loads node 0 < 65535 }
        requires room { get_or self.old.loads node 0 % 4 < 3 }
        ensures { TakesIn self.old self.new node (pair key.now slot) }
    {
        let n = usize::from(node);
        let load = self.loads[n];
        let bytes = pair_bytes(key, slot);
        let groups = &mut self.groups[..];
        put_bytes(
            groups,
            WAITING_SIZE * n + PAIR_SIZE * usize::from(load % GROUP),
            &bytes,
        );
        self.loads[n] = load + 1;
    }

    /// Has one pair more of a node, which is the last of its group, and answers the group.
    pub fn complete(&mut self, node: u16, key: &i32, slot: SlotNo) -> [u8; GROUP_SIZE]
        requires node { node < 341 }
        requires few { get_or self.old.loads node 0 < 65535 }
        ensures { Completes self.old self.new node (pair key.now slot) result }
    {
        let n = usize::from(node);
        let mut group = [0; GROUP_SIZE];
        let from = WAITING_SIZE * n;
        put_bytes(&mut group, 0, &self.groups[from..from + WAITING_SIZE]);
        let bytes = pair_bytes(key, slot);
        put_bytes(&mut group, WAITING_SIZE, &bytes);
        self.loads[n] += 1;
        group
    }

    /// Opens a node's next bucket after all others.
    pub fn open(&mut self, node: u16)
        requires node { node < 341 }
        requires few { self.old.opened < 65535 }
        ensures { self.new ≡ with_bucket self.old node }
    {
        self.lasts[usize::from(node)] = self.opened;
        self.opened += 1;
    }

    /// Where the last bucket of a node lies.
    pub fn place(&self, node: u16) -> u32
        requires node { node < 341 }
        ensures { result ≡ place_of self.now.lasts node }
    {
        bucket_place(self.lasts[usize::from(node)])
    }

    /// Writes this many bytes of the pairs of a node that wait, to a place of the draft.
    pub fn write<V: Files>(
        &self,
        files: &mut V,
        node: u16,
        at: u32,
        size: usize,
    ) -> Result<(), Failed>
        requires node { node < 341 }
        requires size { size ≤ 18 }
        requires begun { IsSome (V.state files.old).draft }
        requires range { at + size ≤ length (draft_in (V.state files.old)).bytes }
        requires zeros { IsTrue (V.state files.old).tells
            → HasZeros (draft_in (V.state files.old)).bytes at size }
        ensures written { OnOk result (WritesDraft (V.state files.old) (V.state files.new) at
            (slice_range self.now.groups (18 * node) (18 * node + size))) }
        ensures cut { CutKeeps V.cuts V.mends V.state files.old files.new (OnErr result) }
        ensures frame { Changes V.state V.lent V.reads V.faults files.old files.new result }
    {
        let from = WAITING_SIZE * usize::from(node);
        files.draft_write(at, &self.groups[from..from + size])?;
        Ok(())
    }
}

/// Where the last group of a node with this many pairs belongs, by where its last bucket lies.
pub fn group_place(place: u32, load: u16) -> u32
    requires { place < 2 ^ 25 }
    ensures { result ≡ place + 24 * (load % 32 / 4) }
{
    place + GROUP_SIZE as u32 * u32::from(load % 32 / GROUP)
}
