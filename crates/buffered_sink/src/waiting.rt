//! Bytes on their way to a sink.

#![tactic(auto)]

ghost use Rattle.std.specs.Prelude.{◌≡◌, ◌+◌, ◌<◌, ◌≤◌, ◌++◌, [], IfOk, OnErr, OnOk, length, min, nat_eq, take};
ghost use Rattle.afl_base.specs.Keeping.{Sends};
ghost use Rattle.std.specs.Io.KnownBytes.{append_known};
ghost use Rattle.buffered_sink.specs.Handing.{Hands};

use afl_base::{Failed, Sink};
use std::marker::Model;

/// Up to 512 bytes that a sink has not taken yet.
#[derive(Drop)]
pub struct Waiting {
    bytes: [u8; 512],
    from: usize,
    to: usize,
}

impl Model for Waiting {
    ghost use Rattle.std.specs.Prelude.{◌≤◌, ◌-◌, slice_range};
    ghost use Rattle.buffered_sink.specs.Kept.{Kept};

    ghost Value = { Kept };

    ghost view = { λ w. record { bytes = slice_range w.bytes w.from w.to; room = 512 - w.to } };

    ghost invariant = { λ w. (w.from ≤ w.to) × (w.to ≤ 512) };
}

impl Waiting {
    /// None yet.
    pub fn new() -> Waiting
        ensures none { result.bytes ≡ [] }
        ensures room { result.room ≡ 512 }
    {
        Waiting {
            bytes: [0; 512],
            from: 0,
            to: 0,
        }
    }

    /// Whether there are none.
    pub fn is_empty(&self) -> bool
        ensures { result ≡ nat_eq (length self.now.bytes) 0 }
    {
        self.from == self.to
    }

    // Whether there is room for none more.
    pub fn is_full(&self) -> bool
        ensures { result ≡ nat_eq self.now.room 0 }
    {
        self.to == 512
    }

    // Takes as many of the bytes as there is room for.
    pub fn take_in(&mut self, given: &[u8]) -> usize
        ensures count { result ≡ min (length given.now) self.old.room }
        ensures bytes { self.new.bytes ≡ self.old.bytes ++ take result given.now }
    {
        let taken = given.len().min(512 - self.to);
        let end = self.to + taken;
        self.bytes[self.to..end].copy_from_slice(&given[..taken]);
        self.to = end;
        taken
    }

    // Hands all of them on. `Failed` leaves those that the sink did not take.
    pub fn hand_on<K: Sink>(&mut self, out: &mut K) -> Result<(), Failed>
        ensures hands { Hands (K.held out.old) (K.held out.new) self.old.bytes self.new.bytes }
        ensures none { OnOk result (self.new.bytes ≡ []) }
        ensures room { OnOk result (self.new.room ≡ 512) }
        ensures some { OnErr result (0 < length self.new.bytes) }
        ensures frame { Sends K.lent K.faults out.old out.new result }
    {
        while self.from < self.to {
            match self.offer(out) {
                Ok(taken) => self.from += taken,
                Err(Failed) => return Err(Failed),
            }
        }
        self.from = 0;
        self.to = 0;
        Ok(())
    }

    // Offers all of them in one call.
    fn offer<K: Sink>(&self, out: &mut K) -> Result<usize, Failed>
        requires some { 0 < length self.now.bytes }
        ensures least { IfOk result (λ n. 1 ≤ n) }
        ensures most { IfOk result (λ n. n ≤ length self.now.bytes) }
        ensures bytes { IfOk result (λ n.
            K.held out.new ≡ append_known (K.held out.old) (take n self.now.bytes)) }
        ensures failed { OnErr result (K.held out.new ≡ K.held out.old) }
        ensures frame { Sends K.lent K.faults out.old out.new result }
    {
        out.write(&self.bytes[self.from..self.to])
    }
}
