//! Frames out of bytes that come one by one.

#![tactic(auto)]

ghost use Rattle.std.specs.Prelude.{◌≡◌, ◌≤◌, ◌<◌, ℕ, Bool, false, true, not, List, [], ◌∷◌, ◌++◌, length, take, nat_lt, Option, Some, None, option_and_then};
ghost use Rattle.run_frames.specs.Frames.{Frame, decoded, ended_frames, frame_from, frame_of, is_client, part_behind};
ghost use Rattle.serve.specs.Gathers.{Decoding, GathersPart, HasFrame, HoldsPart, KeepsPart, Opened, client_in, command_in, one_more, escape_opened, told};

use crate::fed::Fed;
use crate::replies::END;
use arrayvec::ArrayVec;
use std::marker::Model;

const ESC: u8 = 0xDB;

/// Takes the bytes of a line one by one, and says which frames they end.
#[derive(Drop)]
pub struct Decoder {
    // The first decoded bytes of the frame at hand: the client, and 512 of its command.
    bytes: ArrayVec<u8, 513>,
    // There are more.
    long: bool,
    // The last byte is an ESC.
    escaped: bool,
    // An escape is broken.
    broken: bool,
    // A byte of the frame has come.
    begun: bool,
}

impl Model for Decoder {
    ghost use Rattle.serve.specs.Gathers.{Decoding};

    ghost Value = { Decoding };

    ghost view = { λ d. record { bytes = d.bytes.items; long = d.long; escaped = d.escaped; broken = d.broken; begun = d.begun } };
}

impl Decoder {
    /// A decoder of which no byte has come.
    pub fn new() -> Decoder
        ensures { GathersPart [] result }
    {
        Decoder {
            bytes: ArrayVec::new(),
            long: false,
            escaped: false,
            broken: false,
            begun: false,
        }
    }

    /// Takes one byte. `More` comes exactly where no frame that is not empty ends at it, and else what the
    /// frame is.
    pub fn feed(&mut self, byte: u8) -> Fed
        ensures frames { (part : List ℕ) → GathersPart part self.old
            → ended_frames part (byte ∷ []) ≡ told result self.new }
        ensures part { (part : List ℕ) → GathersPart part self.old
            → GathersPart (part_behind part (byte ∷ [])) self.new }
        ensures frame { result ≡ Fed.Frame → HasFrame self.new }
    {
        if byte == END {
            return self.end();
        }
        if !self.begun {
            self.begin();
            self.push(byte);
            return Fed::More;
        }
        self.push(byte);
        Fed::More
    }

    /// Whether bytes of a frame have come that has not ended.
    pub fn is_begun(&self) -> bool
        ensures { (part : List ℕ) → GathersPart part self.now → result ≡ nat_lt 0 (length part) }
    {
        self.begun
    }

    /// The client of the frame that the last byte ended, 1 to 4. Only right after `feed` answered `Frame`.
    pub fn client(&self) -> u8
        requires { HasFrame self.now }
        ensures client { result ≡ client_in self.now }
        ensures within { (1 ≤ result) × (result ≤ 4) }
    {
        self.bytes[0]
    }

    /// Its command, at most 512 bytes. Only right after `feed` answered `Frame`.
    pub fn command(&self) -> &[u8]
        requires { HasFrame self.now }
        ensures command { result.now ≡ command_in self.now }
        ensures few { length result.now ≤ 512 }
    {
        &self.bytes.as_slice()[1..]
    }

    // A part begins.
    fn begin(&mut self)
        ensures kept { KeepsPart [] self.new }
        ensures begun { self.new.begun ≡ true }
    {
        self.bytes.clear();
        self.long = false;
        self.escaped = false;
        self.broken = false;
        self.begun = true;
    }

    // A byte of the part that is no END.
    fn push(&mut self, byte: u8)
        ensures kept { (o : Option Opened)
            → HoldsPart o self.old.bytes self.old.long self.old.escaped self.old.broken
            → HoldsPart (option_and_then (one_more byte) o) self.new.bytes self.new.long self.new.escaped self.new.broken }
        ensures begun { self.new.begun ≡ self.old.begun }
    {
        if self.broken {
            return;
        }
        if !self.escaped {
            if byte == ESC {
                self.escaped = true;
                return;
            }
            self.keep(byte);
            return;
        }
        self.escaped = false;
        if byte == 0xDC {
            self.keep(END);
            return;
        }
        if byte == 0xDD {
            self.keep(ESC);
            return;
        }
        self.broken = true;
    }

    // A decoded byte.
    fn keep(&mut self, byte: u8)
        ensures bytes { (bytes : List ℕ) → self.old.bytes ≡ take 513 bytes
            → self.old.long ≡ nat_lt 513 (length bytes) → self.new.bytes ≡ take 513 (bytes ++ byte ∷ []) }
        ensures long { (bytes : List ℕ) → self.old.bytes ≡ take 513 bytes
            → self.old.long ≡ nat_lt 513 (length bytes) → self.new.long ≡ nat_lt 513 (length (bytes ++ byte ∷ [])) }
        ensures escaped { self.new.escaped ≡ self.old.escaped }
        ensures broken { self.new.broken ≡ self.old.broken }
        ensures begun { self.new.begun ≡ self.old.begun }
    {
        if self.bytes.is_full() {
            self.long = true;
            return;
        }
        self.bytes.push(byte);
    }

    // The part ends.
    fn end(&mut self) -> Fed
        ensures frames { (part : List ℕ) → GathersPart part self.old → frame_of part ≡ told result self.new }
        ensures part { GathersPart [] self.new }
        ensures frame { result ≡ Fed.Frame → HasFrame self.new }
    {
        if !self.begun {
            return Fed::More;
        }
        self.begun = false;
        self.ended()
    }

    // What the part is that has ended.
    fn ended(&self) -> Fed
        ensures frames { (part : List ℕ) → 0 < length part → KeepsPart part self.now
            → frame_from (decoded part) ∷ [] ≡ told result self.now }
        ensures frame { result ≡ Fed.Frame → HasFrame self.now }
    {
        if self.broken {
            return Fed::Bad;
        }
        if self.escaped {
            return Fed::Bad;
        }
        if self.bytes.is_empty() {
            return Fed::Bad;
        }
        let client = self.bytes[0];
        if !is_client(client) {
            return Fed::Bad;
        }
        if self.long {
            return Fed::Long { client };
        }
        Fed::Frame
    }
}

fn is_client(byte: u8) -> bool
    ensures { result ≡ is_client byte }
{
    1 <= byte && byte <= 4
}
