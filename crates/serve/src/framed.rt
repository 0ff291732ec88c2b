//! The sink that puts a client before its reply.

#![tactic(auto)]

ghost use Rattle.std.specs.Prelude.{◌≡◌, ◌⊎◌, ◌∷◌, [], true, None, Some, OnErr, OnOk};
ghost use Rattle.std.specs.Io.KnownBytes.{append_known};
ghost use Rattle.afl_base.specs.Keeping.{Sends};
ghost use Rattle.afl_base.specs.Causes.{HasCause};
ghost use Rattle.serve.specs.Front.{Fronted, HoldsOn, front_held, fronted};

use crate::replies::END;
use afl_base::{Failed, Sink};
use std::marker::{Brand, PhantomData};

/// A time that proofs speak of.
pub trait Begun {
    ghost use Rattle.std.specs.Prelude.{Option};
    ghost use Rattle.serve.specs.Front.{Fronted};

    // How a sink stood then, where it is known which one is meant.
    ghost start: { Option Fronted };
}

impl Begun for Brand {
    ghost use Rattle.std.specs.Prelude.{None};

    ghost start = { None };
}

/// Stands before a sink: a byte goes out with the first byte of what is written. As a sink it holds that
/// byte from the start, and it has its own count of faults.
#[derive(Drop)]
pub struct Framed<'a, K: Sink, B: Begun> {
    /// The sink below it.
    pub out: &'a mut K,
    /// The byte, until it has gone out.
    pub front: Option<u8>,
    /// Whether a call of the sink below it failed.
    pub failed: bool,
    /// The time from which on it stands there.
    pub begun: PhantomData<B>,

    pub ghost on: { (start : Fronted) → B.start ≡ Some start
        → HoldsOn start (fronted (K.held out.now) (K.faults out.now) front failed) },
}

impl<'a, K: Sink, B: Begun> Framed<'a, K, B> {
    /// The byte goes out, where it has not yet, and then END.
    pub fn finish(&mut self) -> Result<(), Failed>
        ensures written { OnOk result (K.held self.new.out.now
            ≡ append_known (front_held (K.held self.old.out.now) self.old.front) (192 ∷ [])) }
        ensures failed { OnErr result ((K.held self.new.out.now ≡ K.held self.old.out.now)
            ⊎ (K.held self.new.out.now ≡ front_held (K.held self.old.out.now) self.old.front)) }
        ensures faultless { OnOk result (K.faults self.new.out.now ≡ K.faults self.old.out.now) }
        ensures lent { ⟦<Self as Sink>⟧.lent self.new ≡ ⟦<Self as Sink>⟧.lent self.old }
        ensures cause { HasCause (K.faults self.old.out.now) (K.faults self.new.out.now) result }
    {
        match send_front(self.out, self.front) {
            Ok(()) => self.front = None,
            Err(Failed) => {
                self.failed = true;
                return Err(Failed);
            }
        }
        match self.out.write(&[END]) {
            Ok(_) => Ok(()),
            Err(Failed) => {
                self.failed = true;
                Err(Failed)
            }
        }
    }
}

// The byte goes out, where it has not yet.
fn send_front<K: Sink>(out: &mut K, front: Option<u8>) -> Result<(), Failed>
    ensures sent { OnOk result (K.held out.new ≡ front_held (K.held out.old) front) }
    ensures held { OnErr result (K.held out.new ≡ K.held out.old) }
    ensures frame { Sends K.lent K.faults out.old out.new result }
{
    let Some(byte) = front else {
        return Ok(());
    };
    out.write(&[byte])?;
    Ok(())
}

impl<'a, K: Sink, B: Begun> Sink for Framed<'a, K, B> {
    ghost use Rattle.std.specs.Prelude.{◌∷◌};
    ghost use Rattle.serve.specs.Front.{front_faults, front_held};

    ghost held = { λ s. front_held (K.held s.out.now) s.front };

    ghost faults = { λ s. front_faults s.failed };

    ghost lent = { λ s. s.out.ghost_name ∷ K.lent s.out.now };

    fn write(&mut self, bytes: &[u8]) -> Result<usize, Failed> {
        match send_front(self.out, self.front) {
            Ok(()) => self.front = None,
            Err(Failed) => {
                self.failed = true;
                return Err(Failed);
            }
        }
        match self.out.write(bytes) {
            Ok(taken) => Ok(taken),
            Err(Failed) => {
                self.failed = true;
                Err(Failed)
            }
        }
    }
}
