//! The loop over an input.

#![tactic(auto)]

ghost use Rattle.std.specs.Prelude.{◌≡◌, ◌≢◌, ℕ, ◌≤◌, List, [], ◌∷◌, Some, length, take, IfOk, OnOk, IfErr, OnErr, Err};
ghost use Rattle.std.specs.Io.KnownBytes.{prepend_known, IsAtEnd};
ghost use Rattle.afl_base.specs.Causes.{CountsOne, HasCause, Rose};
ghost use Rattle.run_input.specs.Through.{Through, out_of};

use crate::ending::{Ending, InputEnding};
use crate::sending::send;
use crate::taker::Taker;
use afl_base::{Failed, Sink, Source};
use buffered_sink::{Buffered, Since, Waiting};
use std::marker::{Brand, PhantomData};

// The most bytes that an input may have.
const LIMIT: u32 = 16_777_216;

// Takes a byte, and what waits of a reply goes out.
fn take_byte<T: Taker, K: Sink>(
    taker: &mut T,
    out: &mut K,
    waiting: &mut Waiting,
    byte: u8,
) -> Result<(), Ending>
    requires none { waiting.old.bytes ≡ [] }
    ensures takes { OnOk result (T.Takes (taker.old, out_of (K.held out.old) (K.faults out.old)) (byte ∷ [])
        (taker.new, out_of (K.held out.new) (K.faults out.new))) }
    ensures halts { IfErr result (λ halt. T.Halts
        (taker.old, out_of (K.held out.old) (K.faults out.old)) (byte ∷ [])
        (taker.new, out_of (K.held out.new) (K.faults out.new)) halt) }
    ensures none { OnOk result (waiting.new.bytes ≡ []) }
    ensures stays { T.stays taker.old taker.new }
    ensures lent { K.lent out.new ≡ K.lent out.old }
{
    take_byte_since::<T, K, Brand>(taker, out, waiting, byte)
}

// The same through a sink that gathers, from now on.
fn take_byte_since<T: Taker, K: Sink, N: Since>(
    taker: &mut T,
    out: &mut K,
    waiting: &mut Waiting,
    byte: u8,
) -> Result<(), Ending>
    requires now { N.held ≡ Some (K.held out.old) }
    requires none { waiting.old.bytes ≡ [] }
    ensures takes { OnOk result (T.Takes (taker.old, out_of (K.held out.old) (K.faults out.old)) (byte ∷ [])
        (taker.new, out_of (K.held out.new) (K.faults out.new))) }
    ensures halts { IfErr result (λ halt. T.Halts
        (taker.old, out_of (K.held out.old) (K.faults out.old)) (byte ∷ [])
        (taker.new, out_of (K.held out.new) (K.faults out.new)) halt) }
    ensures none { OnOk result (waiting.new.bytes ≡ []) }
    ensures stays { T.stays taker.old taker.new }
    ensures lent { K.lent out.new ≡ K.lent out.old }
{
    let mut gathered = Buffered {
        out,
        waiting,
        since: PhantomData::<N>,
    };
    let answered = taker.take(&mut gathered, byte);
    send(&mut gathered, answered)?;
    Ok(())
}

// Takes the end, and what waits of a reply goes out.
fn take_end<T: Taker, K: Sink>(
    taker: &mut T,
    out: &mut K,
    waiting: &mut Waiting,
) -> Result<(), Ending>
    requires none { waiting.old.bytes ≡ [] }
    ensures ends { OnOk result (T.Ends (taker.old, out_of (K.held out.old) (K.faults out.old))
        (taker.new, out_of (K.held out.new) (K.faults out.new))) }
    ensures halts { IfErr result (λ halt. T.HaltsAtEnd
        (taker.old, out_of (K.held out.old) (K.faults out.old))
        (taker.new, out_of (K.held out.new) (K.faults out.new)) halt) }
    ensures stays { T.stays taker.old taker.new }
    ensures lent { K.lent out.new ≡ K.lent out.old }
{
    take_end_since::<T, K, Brand>(taker, out, waiting)
}

// The same through a sink that gathers, from now on.
fn take_end_since<T: Taker, K: Sink, N: Since>(
    taker: &mut T,
    out: &mut K,
    waiting: &mut Waiting,
) -> Result<(), Ending>
    requires now { N.held ≡ Some (K.held out.old) }
    requires none { waiting.old.bytes ≡ [] }
    ensures ends { OnOk result (T.Ends (taker.old, out_of (K.held out.old) (K.faults out.old))
        (taker.new, out_of (K.held out.new) (K.faults out.new))) }
    ensures halts { IfErr result (λ halt. T.HaltsAtEnd
        (taker.old, out_of (K.held out.old) (K.faults out.old))
        (taker.new, out_of (K.held out.new) (K.faults out.new)) halt) }
    ensures stays { T.stays taker.old taker.new }
    ensures lent { K.lent out.new ≡ K.lent out.old }
{
    let mut gathered = Buffered {
        out,
        waiting,
        since: PhantomData::<N>,
    };
    let answered = taker.end(&mut gathered);
    send(&mut gathered, answered)?;
    Ok(())
}

// Takes some bytes.
fn take_all<T: Taker, K: Sink>(
    taker: &mut T,
    out: &mut K,
    waiting: &mut Waiting,
    bytes: &[u8],
) -> Result<(), Ending>
    requires none { waiting.old.bytes ≡ [] }
    ensures takes { OnOk result (T.Takes (taker.old, out_of (K.held out.old) (K.faults out.old)) bytes.now
        (taker.new, out_of (K.held out.new) (K.faults out.new))) }
    ensures halts { IfErr result (λ halt. T.Halts
        (taker.old, out_of (K.held out.old) (K.faults out.old)) bytes.now
        (taker.new, out_of (K.held out.new) (K.faults out.new)) halt) }
    ensures none { OnOk result (waiting.new.bytes ≡ []) }
    ensures stays { T.stays taker.old taker.new }
    ensures lent { K.lent out.new ≡ K.lent out.old }
{
    let mut taken = 0;
    while taken < bytes.len() {
        taken += take_some(taker, out, waiting, &bytes[taken..])?;
    }
    Ok(())
}

// Takes the bytes in front that end no entry, and the next one: how many they are.
fn take_some<T: Taker, K: Sink>(
    taker: &mut T,
    out: &mut K,
    waiting: &mut Waiting,
    bytes: &[u8],
) -> Result<usize, Ending>
    requires some { 1 ≤ length bytes.now }
    requires none { waiting.old.bytes ≡ [] }
    ensures some { IfOk result (λ n. 1 ≤ n) }
    ensures within { IfOk result (λ n. n ≤ length bytes.now) }
    ensures takes { IfOk result (λ n. T.Takes
        (taker.old, out_of (K.held out.old) (K.faults out.old)) (take n bytes.now)
        (taker.new, out_of (K.held out.new) (K.faults out.new))) }
    ensures halts { IfErr result (λ halt. T.Halts
        (taker.old, out_of (K.held out.old) (K.faults out.old)) bytes.now
        (taker.new, out_of (K.held out.new) (K.faults out.new)) halt) }
    ensures none { OnOk result (waiting.new.bytes ≡ []) }
    ensures stays { T.stays taker.old taker.new }
    ensures lent { K.lent out.new ≡ K.lent out.old }
{
    let plain = taker.take_plain(bytes);
    if plain == bytes.len() {
        return Ok(plain);
    }
    take_byte(taker, out, waiting, bytes[plain])?;
    Ok(plain + 1)
}

// Reads into the front of the buffer.
fn read_front<S: Source>(input: &mut S, buffer: &mut [u8], want: usize) -> Result<usize, Failed>
    requires some { 1 ≤ want }
    requires room { want ≤ length buffer.old }
    ensures within { IfOk result (λ n. n ≤ want) }
    ensures bytes { IfOk result (λ n. S.left input.old
        ≡ prepend_known (take n buffer.new) (S.left input.new)) }
    ensures end { IfOk result (λ n. n ≡ 0 → IsAtEnd (S.left input.new)) }
    ensures failed { OnErr result (S.left input.new ≡ S.left input.old) }
    ensures counted { CountsOne (S.reads input.old) (S.reads input.new) }
    ensures faultless { OnOk result (S.faults input.new ≡ S.faults input.old) }
    ensures cause { HasCause (S.faults input.old) (S.faults input.new) result }
{
    let n = input.read(&mut buffer[..want])?;
    Ok(n)
}

/// Takes an input through to its end, in parts of at most 512 bytes, however it is cut into reads: at most
/// 16,777,216 bytes, and one more to see that it has more.
pub fn take_through<S: Source, T: Taker, K: Sink>(
    input: &mut S,
    taker: &mut T,
    out: &mut K,
) -> Result<(), InputEnding>
    ensures through { Through T.Takes T.Ends T.Halts T.HaltsAtEnd result
        (taker.old, out_of (K.held out.old) (K.faults out.old))
        (taker.new, out_of (K.held out.new) (K.faults out.new))
        (S.left input.old) (S.left input.new) (S.reads input.old) (S.reads input.new) }
    ensures input { result ≡ Err InputEnding.Input → Rose (S.faults input.old) (S.faults input.new) }
    ensures faultless { result ≢ Err InputEnding.Input → S.faults input.new ≡ S.faults input.old }
    ensures later { S.faults input.old ≤ S.faults input.new }
    ensures stays { T.stays taker.old taker.new }
    ensures lent { K.lent out.new ≡ K.lent out.old }
{
    let mut waiting = Waiting::new();
    let mut buffer = [0u8; 512];
    let mut taken = 0;
    'reads: loop {
        let want = (LIMIT - taken).min(512).max(1);
        let Ok(n) = read_front(input, &mut buffer, want as usize) else {
            return Err(InputEnding::Input);
        };
        if n == 0 {
            return match take_end(taker, out, &mut waiting) {
                Ok(()) => Ok(()),
                Err(halt) => Err(InputEnding::Early(halt)),
            };
        }
        if taken == LIMIT {
            return Err(InputEnding::Long);
        }
        match take_all(taker, out, &mut waiting, &buffer[..n]) {
            Ok(()) => {}
            Err(halt) => return Err(InputEnding::Early(halt)),
        }
        taken += n as u32;
    }
}
