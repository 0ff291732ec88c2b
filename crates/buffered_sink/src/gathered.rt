//! The sink that gathers.

#![tactic(auto)]

ghost use Rattle.std.specs.Prelude.{◌≡◌, ◌<◌, ℕ, List, [], Option, None, Some, OnErr, OnOk, length};
ghost use Rattle.std.specs.Io.KnownBytes.{append_known};
ghost use Rattle.afl_base.specs.Keeping.{Sends};
ghost use Rattle.buffered_sink.specs.Handing.{Hands, front_of};

use crate::waiting::Waiting;
use afl_base::{Failed, Sink};
use std::marker::{Brand, PhantomData};

/// A time that proofs speak of.
pub trait Since {
    ghost use Rattle.std.specs.Prelude.{ℕ, List, Option};

    // What a sink held then, where it is known which one is meant.
    ghost held: { Option (Option (List ℕ)) };
}

impl Since for Brand {
    ghost use Rattle.std.specs.Prelude.{None};

    ghost held = { None };
}

/// Stands before a sink and hands bytes on once 512 are there, or when it is told to. As a sink it
/// holds what the one below holds, and then what waits; a call of it fails where one of that sink fails.
/// What waits when it is let go is lost. The sink below holds what it held at the time of `S`, and what
/// was handed on since.
#[derive(Drop)]
pub struct Buffered<'a, K: Sink, S: Since> {
    /// The sink below it.
    pub out: &'a mut K,
    /// What that one has not taken yet.
    pub waiting: &'a mut Waiting,
    /// The time from which on it stands there.
    pub since: PhantomData<S>,

    pub ghost grew: { (old : Option (List ℕ)) → S.held ≡ Some old → front_of old (K.held out.now) ≡ old },
}

impl<'a, K: Sink, S: Since> Buffered<'a, K, S> {
    /// Hands on what waits. `Failed` leaves what the sink below did not take.
    pub fn flush(&mut self) -> Result<(), Failed>
        ensures hands { Hands (K.held self.old.out.now) (K.held self.new.out.now)
            self.old.waiting.now.bytes self.new.waiting.now.bytes }
        ensures none { OnOk result (self.new.waiting.now.bytes ≡ []) }
        ensures room { OnOk result (self.new.waiting.now.room ≡ 512) }
        ensures some { OnErr result (0 < length self.new.waiting.now.bytes) }
        ensures frame { Sends ⟦<Self as Sink>⟧.lent ⟦<Self as Sink>⟧.faults self.old self.new result }
    {
        self.waiting.hand_on(self.out)
    }
}

impl<'a, K: Sink, S: Since> Sink for Buffered<'a, K, S> {
    ghost use Rattle.std.specs.Prelude.{◌∷◌};
    ghost use Rattle.std.specs.Io.KnownBytes.{append_known};

    ghost held = { λ b. append_known (K.held b.out.now) b.waiting.now.bytes };

    ghost faults = { λ b. K.faults b.out.now };

    ghost lent = { λ b. b.out.ghost_name ∷ b.waiting.ghost_name ∷ K.lent b.out.now };

    fn write(&mut self, bytes: &[u8]) -> Result<usize, Failed> {
        if self.waiting.is_full() {
            self.flush()?;
        }
        Ok(self.waiting.take_in(bytes))
    }
}
