//! What takes the bytes of an input.

#![tactic(auto)]

use crate::ending::Ending;
use afl_base::Sink;

/// What takes the bytes of an input one by one, or together where they end nothing, carries out
/// what they ask for, and writes the replies.
pub trait Taker {
    ghost use Rattle.std.specs.Prelude.{◌≡◌, ◌⊎◌, ⊤, ℕ, ◌≤◌, List, [], ◌∷◌, ◌++◌, length, take, Result, Err, OnOk, IfErr};
    ghost use Rattle.buffered_sink.specs.Handing.{WroteFront};
    ghost use Rattle.run_input.specs.declared.ending.Ending.{Ending};
    ghost use Rattle.run_input.specs.Sent.{Sent};
    ghost use Rattle.run_input.specs.Through.{Out, out_of};

    // These bytes were taken, and what they end was carried out.
    ghost Takes: { Self × Out → List ℕ → Self × Out → Type 0 };
    // The input ended, and what is left of it was carried out.
    ghost Ends: { Self × Out → Self × Out → Type 0 };
    // It went no further within what these bytes end.
    ghost Halts: { Self × Out → List ℕ → Self × Out → Ending → Type 0 };
    // It went no further in what was left at the end.
    ghost HaltsAtEnd: { Self × Out → Self × Out → Ending → Type 0 };
    // This byte ends one entry, and so has a reply.
    ghost HasReply: { Self → ℕ → Type 0 };
    // What is left at the end is one entry.
    ghost HasReplyAtEnd: { Self → Type 0 };
    // What no call changes.
    ghost stays: { Self → Self → Type 0 };

    /// Takes the next byte.
    fn take<K: Sink>(&mut self, out: &mut K, byte: u8) -> Result<(), Ending>
        ensures takes { OnOk result (Takes (self.old, out_of (K.held out.old) (K.faults out.old)) (byte ∷ [])
            (self.new, out_of (K.held out.new) (K.faults out.new))) }
        ensures halts { IfErr result (λ halt.
            Halts (self.old, out_of (K.held out.old) (K.faults out.old)) (byte ∷ [])
            (self.new, out_of (K.held out.new) (K.faults out.new)) halt) }
        ensures silent { (out.new ≡ out.old) ⊎ HasReply self.old byte }
        ensures stays { stays self.old self.new }
        ensures lent { K.lent out.new ≡ K.lent out.old };

    /// Takes bytes in front of these that end no entry, as if one by one, and answers how many.
    fn take_plain(&mut self, bytes: &[u8]) -> usize
        ensures within { result ≤ length bytes.now }
        ensures takes { (out : Out) → Takes (self.old, out) (take result bytes.now) (self.new, out) }
        ensures stays { stays self.old self.new };

    /// Takes the end of the input.
    fn end<K: Sink>(&mut self, out: &mut K) -> Result<(), Ending>
        ensures ends { OnOk result (Ends (self.old, out_of (K.held out.old) (K.faults out.old))
            (self.new, out_of (K.held out.new) (K.faults out.new))) }
        ensures halts { IfErr result (λ halt.
            HaltsAtEnd (self.old, out_of (K.held out.old) (K.faults out.old))
            (self.new, out_of (K.held out.new) (K.faults out.new)) halt) }
        ensures silent { (out.new ≡ out.old) ⊎ HasReplyAtEnd self.old }
        ensures stays { stays self.old self.new }
        ensures lent { K.lent out.new ≡ K.lent out.old };

    ghost stayed: { (a : Self) → stays a a };

    ghost stayed_on: { (a b c : Self) → stays a b → stays b c → stays a c };

    // Bytes are taken one after the other, and where it goes no further the bytes after that play no part.
    ghost none: { (a : Self × Out) → Takes a [] a };

    ghost more: { (a b c : Self × Out) (xs ys : List ℕ)
        → Takes a xs b → Takes b ys c → Takes a (xs ++ ys) c };

    ghost halts_behind: { (a b c : Self × Out) (xs ys : List ℕ) (halt : Ending)
        → Takes a xs b → Halts b ys c halt → Halts a (xs ++ ys) c halt };

    ghost halts_before: { (a b : Self × Out) (xs ys : List ℕ) (halt : Ending)
        → Halts a xs b halt → Halts a (xs ++ ys) b halt };

    // Where the sink took a front part of a reply, it went no further than this reply.
    ghost sent: { (a b : Self × Out) (now : Out) (byte : ℕ) (answered : Result ⊤ Ending) (halt : Ending)
        → HasReply a.0 byte → OnOk answered (Takes a (byte ∷ []) b)
        → IfErr answered (λ halt. Halts a (byte ∷ []) b halt)
        → (went : WroteFront a.1.held now.held b.1.held) → b.1.faults ≤ now.faults
        → Sent answered b.1.faults now.faults went.left (Err halt) → Halts a (byte ∷ []) (b.0, now) halt };

    ghost sent_at_end: { (a b : Self × Out) (now : Out) (answered : Result ⊤ Ending) (halt : Ending)
        → HasReplyAtEnd a.0 → OnOk answered (Ends a b) → IfErr answered (λ halt. HaltsAtEnd a b halt)
        → (went : WroteFront a.1.held now.held b.1.held) → b.1.faults ≤ now.faults
        → Sent answered b.1.faults now.faults went.left (Err halt) → HaltsAtEnd a (b.0, now) halt };
}
