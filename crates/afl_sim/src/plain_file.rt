ghost use Rattle.std.specs.Prelude.{◌≡◌, ℕ, ◌+◌, ◌-◌, ◌≤◌, ◌++◌, length, replicate, slice_range};
ghost use Rattle.afl_base.specs.Fields.{put_at};
ghost use Rattle.afl_base.specs.Files.{IsKind};

use crate::bytes::read_bytes;
use afl_base::{Kind, Name, Named, put_bytes};
use std::marker::Model;

/// A file in an array of `CAP` bytes. Contracts see it as a file of the table.
#[derive(Clone, Copy)]
pub struct PlainFile<const CAP: usize> {
    name: Name,
    kind: Kind,
    bytes: [u8; CAP],
    size: usize,
    records: u16,
    room: usize,
}

impl<const CAP: usize> Model for PlainFile<CAP> {
    ghost use Rattle.std.specs.Prelude.{length, take};
    ghost use Rattle.afl_base.specs.Files.{File};
    ghost use Rattle.padded.specs.Padded.{length-front, padded};
    ghost use Rattle.afl_sim.specs.PlainFiles.{IsPlain};
    ghost use mathlib.Core.Path.{sym};

    ghost Value = { File };

    ghost view = { λ f. record { name = f.name; kind = f.kind; bytes = take f.size f.bytes; records = f.records; room = f.room } };

    ghost invariant = { λ f. IsPlain CAP f.size f.room f.kind f.bytes };

    ghost inverse = { λ f. record { name = f.name; kind = f.kind; bytes = padded CAP f.bytes; size = length f.bytes; records = f.records; room = f.room } };

    ghost inverse_ok = { λ a h i. record {
      name = a.name;
      kind = a.kind;
      bytes = sym h.padded.rest i;
      size = length-front CAP a.size a.bytes h.padded i;
      records = a.records;
      room = a.room;
    } };
}

impl<const CAP: usize> PlainFile<CAP> {
    /// A file of `size` zero bytes with no room.
    pub fn new(name: Name, kind: Kind, size: usize) -> PlainFile<CAP>
        requires size { size ≤ CAP }
        requires kind { IsKind kind }
        ensures { result
            ≡ record { name = name; kind = kind; bytes = replicate size 0; records = 0; room = 0 } }
    {
        PlainFile {
            name,
            kind,
            bytes: [0; CAP],
            size,
            records: 0,
            room: 0,
        }
    }

    pub fn kind(&self) -> Kind
        ensures value { result ≡ self.now.kind }
        ensures pages { (n : ℕ) → self.now.kind ≡ Kind.Fixed n → n ≤ 15 }
    {
        self.kind
    }

    pub fn size(&self) -> usize
        ensures value { result ≡ length self.now.bytes }
        ensures fits { result + self.now.room ≤ CAP }
    {
        self.size
    }

    /// Fills `into` with the bytes from `at` on.
    pub fn read(&self, at: usize, into: &mut [u8])
        requires { at + length into.old ≤ length self.now.bytes }
        ensures { into.new ≡ slice_range self.now.bytes at (at + length into.old) }
    {
        read_bytes(&self.bytes[..], at, into);
    }

    /// Makes room for this many records and bytes, whatever it was before.
    pub fn grant(&mut self, records: u16, room: usize)
        requires room { length self.old.bytes + room ≤ CAP }
        ensures { self.new ≡ record self.old { records = records; room = room } }
    {
        self.records = records;
        self.room = room;
    }

    /// Puts `bytes` in the place of those from `at` on, and takes `records` from the room.
    pub fn overwrite(&mut self, at: usize, bytes: &[u8], records: u16)
        requires range { at + length bytes.now ≤ length self.old.bytes }
        requires records { records ≤ self.old.records }
        ensures { let over = put_at self.old.bytes at bytes.now in
            self.new ≡ record self.old { bytes = over; records = self.old.records - records } }
    {
        let all = &mut self.bytes[..];
        put_bytes(all, at, bytes);
        self.records -= records;
    }

    /// Adds `bytes` at the end, and ends the room for bytes.
    pub fn append(&mut self, bytes: &[u8])
        requires { length bytes.now ≤ self.old.room }
        ensures { self.new ≡ record self.old { bytes = self.old.bytes ++ bytes.now; room = 0 } }
    {
        let at = self.size;
        let all = &mut self.bytes[..];
        put_bytes(all, at, bytes);
        self.size += bytes.len();
        self.room = 0;
    }
}

impl<const CAP: usize> Named for PlainFile<CAP> {
    ghost named = { λ f. f.name };

    fn name(&self) -> Name {
        self.name
    }
}
