ghost use Rattle.std.specs.Prelude.{◌≡◌, ◌<◌, ℕ, List, length, slice_index};
ghost use Rattle.coffee_header.specs.Headers.{header_bytes, header_of, IsValid};
ghost use Rattle.coffee_header.specs.declared.header.Header.{Header};

use crate::header::Header;

/// A header is read as it was written, and written as it was read.
pub fn header_both_ways()
    ensures read { (h : Header) → IsValid h → header_of (header_bytes h) ≡ Some h }
    ensures written { (bytes : List ℕ) (h : Header) → length bytes ≡ 32
        → ((i : ℕ) → slice_index bytes i < 256) → header_of bytes ≡ Some h → header_bytes h ≡ bytes }
{}
