use afl_base::{Failed, Sink, Source};
use std::marker::Model;

/// A source in memory. It tells the bytes that it has left, and fails at one call at most.
#[derive(Drop)]
pub struct MemSource<'a> {
    left: &'a [u8],
    fails_in: Option<u64>,
    reads: u64,
    faults: u64,
}

impl<'a> Model for MemSource<'a> {
    ghost use Rattle.afl_sim.specs.Devices.{SourceInMemory};

    ghost Value = { SourceInMemory };

    ghost view = { λ s. record { left = s.left.now; fails_in = s.fails_in; reads = s.reads; faults = s.faults } };
}

impl<'a> MemSource<'a> {
    ghost use Rattle.std.specs.Prelude.{◌≡◌};

    /// A source of `bytes` that fails at the call of the number `fail_at`, counted from 1, and at no
    /// other.
    pub fn new(bytes: &'a [u8], fail_at: Option<u64>) -> MemSource<'a>
        ensures left { result.left ≡ bytes.now }
        ensures fails { result.fails_in ≡ fail_at }
        ensures reads { result.reads ≡ 0 }
        ensures faults { result.faults ≡ 0 }
    {
        MemSource {
            left: bytes,
            fails_in: fail_at,
            reads: 0,
            faults: 0,
        }
    }
}

impl Source for MemSource<'_> {
    ghost use Rattle.std.specs.Prelude.{◌≡◌, ◌≤◌, Some, is_err, length, take, IfOk, OnErr, OnOk, min};
    ghost use Rattle.std.specs.Io.KnownBytes.{prepend_known, IsAtEnd};
    ghost use Rattle.afl_base.specs.Causes.{CountsOne, HasCause};
    ghost use Rattle.afl_sim.specs.Devices.{faults_counted, nearer, is_first};

    ghost left = { λ s. Some s.left };

    ghost faults = { λ s. s.faults };

    ghost reads = { λ s. s.reads };

    fn read(&mut self, into: &mut [u8]) -> Result<usize, Failed>
        requires room { 1 ≤ length into.old }
        ensures within { IfOk result (λ n. n ≤ length into.new) }
        ensures bytes { IfOk result (λ n.
            Some self.old.left ≡ prepend_known (take n into.new) (Some self.new.left)) }
        ensures end { IfOk result (λ n. n ≡ 0 → IsAtEnd (Some self.new.left)) }
        ensures failed { OnErr result (Some self.new.left ≡ Some self.old.left) }
        ensures counted { CountsOne self.old.reads self.new.reads }
        ensures faultless { OnOk result (self.new.faults ≡ self.old.faults) }
        ensures cause { HasCause self.old.faults self.new.faults result }
        ensures counts { self.new.faults ≡ faults_counted (is_err result) self.old.faults }
        ensures most { IfOk result (λ n. n ≡ min (length into.new) (length self.old.left)) }
        ensures fails { is_err result ≡ is_first self.old.fails_in }
        ensures nearer { self.new.fails_in ≡ nearer self.old.fails_in }
    {
        self.reads = self.reads.saturating_add(1);
        let fails = self.fails_in == Some(1);
        self.fails_in = self.fails_in.map(|calls| calls.saturating_sub(1));
        if fails {
            self.faults = self.faults.saturating_add(1);
            return Err(Failed);
        }
        let n = into.len().min(self.left.len());
        into[..n].copy_from_slice(&self.left[..n]);
        self.left = &self.left[n..];
        Ok(n)
    }
}

/// A sink in memory. It tells the bytes that it holds, fails at one call at most, and fails where it
/// has no room left.
#[derive(Drop)]
pub struct MemSink<'a> {
    bytes: &'a mut [u8],
    held: usize,
    fails_in: Option<u64>,
    faults: u64,
}

impl<'a> Model for MemSink<'a> {
    ghost use Rattle.std.specs.Prelude.{◌≤◌, ◌-◌, length, take};
    ghost use Rattle.afl_sim.specs.Devices.{SinkInMemory};

    ghost Value = { SinkInMemory };

    ghost view = { λ s. record { held = take s.held s.bytes.now; room = length s.bytes.now - s.held; lent = s.bytes.ghost_name; fails_in = s.fails_in; faults = s.faults } };

    ghost invariant = { λ s. s.held ≤ length s.bytes.now };
}

impl<'a> MemSink<'a> {
    ghost use Rattle.std.specs.Prelude.{◌≡◌, ◌+◌, ◌≤◌, [], ◌++◌, length};

    /// A sink that holds nothing and has the room of `room`. It fails at the call of the number
    /// `fail_at`, counted from 1, and at each call for which no room is left.
    pub fn new(room: &'a mut [u8], fail_at: Option<u64>) -> MemSink<'a>
        ensures held { result.held ≡ [] }
        ensures room { result.room ≡ length room.entry.now }
        ensures lent { result.lent ≡ room.entry.ghost_name }
        ensures fails { result.fails_in ≡ fail_at }
        ensures faults { result.faults ≡ 0 }
    {
        MemSink {
            bytes: room,
            held: 0,
            fails_in: fail_at,
            faults: 0,
        }
    }

    /// The bytes that were written so far.
    pub fn written(&self) -> &[u8]
        ensures { result.now ≡ self.now.held }
    {
        &self.bytes[..self.held]
    }

    // Puts `given`, for which there is room, after the bytes held.
    fn take_in(&mut self, given: &[u8])
        requires { length given.now ≤ self.old.room }
        ensures held { self.new.held ≡ self.old.held ++ given.now }
        ensures room { self.new.room + length given.now ≡ self.old.room }
        ensures lent { self.new.lent ≡ self.old.lent }
        ensures fails { self.new.fails_in ≡ self.old.fails_in }
        ensures faults { self.new.faults ≡ self.old.faults }
    {
        let end = self.held + given.len();
        self.bytes[self.held..end].copy_from_slice(given);
        self.held = end;
    }
}

impl Sink for MemSink<'_> {
    ghost use Rattle.std.specs.Prelude.{◌≡◌, ◌≤◌, ◌||◌, Some, is_err, length, take, IfOk, OnErr, nat_eq, min, ◌∷◌, []};
    ghost use Rattle.std.specs.Io.KnownBytes.{append_known};
    ghost use Rattle.afl_sim.specs.Devices.{faults_counted, nearer, is_first};
    ghost use Rattle.afl_base.specs.Keeping.{Sends};

    ghost held = { λ s. Some s.held };

    ghost faults = { λ s. s.faults };

    ghost lent = { λ s. s.lent ∷ [] };

    fn write(&mut self, bytes: &[u8]) -> Result<usize, Failed>
        requires some { 1 ≤ length bytes.now }
        ensures least { IfOk result (λ n. 1 ≤ n) }
        ensures most { IfOk result (λ n. n ≤ length bytes.now) }
        ensures bytes { IfOk result (λ n.
            Some self.new.held ≡ append_known (Some self.old.held) (take n bytes.now)) }
        ensures failed { OnErr result (Some self.new.held ≡ Some self.old.held) }
        ensures frame { let sink = ⟦<Self as Sink>⟧ in Sends sink.lent sink.faults self.old self.new result }
        ensures counts { self.new.faults ≡ faults_counted (is_err result) self.old.faults }
        ensures taken { IfOk result (λ n. n ≡ min (length bytes.now) self.old.room) }
        ensures fails { is_err result ≡ (is_first self.old.fails_in || nat_eq self.old.room 0) }
        ensures nearer { self.new.fails_in ≡ nearer self.old.fails_in }
    {
        let room = self.bytes.len() - self.held;
        let fails = self.fails_in == Some(1) || room == 0;
        self.fails_in = self.fails_in.map(|calls| calls.saturating_sub(1));
        if fails {
            self.faults = self.faults.saturating_add(1);
            return Err(Failed);
        }
        let n = bytes.len().min(room);
        self.take_in(&bytes[..n]);
        Ok(n)
    }
}
