use crate::failed::Failed;

/// Where the bytes of a script come from.
///
/// A source may tell the bytes that it has left, as memory does, or not, as a terminal does. A call
/// that succeeds counts no fault.
pub trait Source {
    ghost use Rattle.std.specs.Prelude.{◌≡◌, ℕ, ◌≤◌, List, Option, length, take, IfOk, OnErr, OnOk};
    ghost use Rattle.std.specs.Io.KnownBytes.{prepend_known, IsAtEnd};
    ghost use Rattle.afl_base.specs.Causes.{CountsOne, HasCause};

    // The bytes that are still to come, where the source tells them.
    ghost left: { Self → Option (List ℕ) };
    // How many calls failed, up to the last number of a u64.
    ghost faults: { Self → ℕ };
    // How often `read` was called, up to the last number of a u64.
    ghost reads: { Self → ℕ };

    /// Takes some of the next bytes and puts them in front of `into`. `Ok(n)` took `n` bytes, and
    /// `Ok(0)` comes exactly where no byte is left. After `Failed` the bytes left are as before.
    fn read(&mut self, into: &mut [u8]) -> Result<usize, Failed>
        requires room { 1 ≤ length into.old }
        ensures within { IfOk result (λ n. n ≤ length into.new) }
        ensures bytes { IfOk result (λ n. left self.old ≡ prepend_known (take n into.new) (left self.new)) }
        ensures end { IfOk result (λ n. n ≡ 0 → IsAtEnd (left self.new)) }
        ensures failed { OnErr result (left self.new ≡ left self.old) }
        ensures counted { CountsOne (reads self.old) (reads self.new) }
        ensures faultless { OnOk result (faults self.new ≡ faults self.old) }
        ensures cause { HasCause (faults self.old) (faults self.new) result };
}

/// Where the bytes of replies go.
///
/// A sink may tell the bytes that it holds, as memory does, or not, as a terminal does. A call that
/// succeeds counts no fault. A sink may stand before another one that it borrows: every call leaves it
/// before the same one.
pub trait Sink {
    ghost use Rattle.std.specs.Prelude.{◌≡◌, ℕ, ◌≤◌, List, Option, length, take, IfOk, OnErr};
    ghost use Rattle.std.specs.Io.KnownBytes.{append_known};
    ghost use Rattle.afl_base.specs.Keeping.{Sends};

    // The bytes that were written so far, where the sink tells them.
    ghost held: { Self → Option (List ℕ) };
    // How many calls failed, up to the last number of a u64.
    ghost faults: { Self → ℕ };
    // What it borrows, it holds on to.
    ghost lent: { Self → List ℕ };

    /// Appends the first `n` of `bytes`, where `Ok(n)` has `n` from 1 to their number. A sink that
    /// would take nothing answers `Failed`, and after `Failed` the bytes held are as before.
    fn write(&mut self, bytes: &[u8]) -> Result<usize, Failed>
        requires some { 1 ≤ length bytes.now }
        ensures least { IfOk result (λ n. 1 ≤ n) }
        ensures most { IfOk result (λ n. n ≤ length bytes.now) }
        ensures bytes { IfOk result (λ n. held self.new ≡ append_known (held self.old) (take n bytes.now)) }
        ensures failed { OnErr result (held self.new ≡ held self.old) }
        ensures frame { Sends lent faults self.old self.new result };
}
