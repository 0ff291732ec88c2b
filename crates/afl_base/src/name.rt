ghost use Rattle.std.specs.Prelude.{◌≡◌, ◌≤◌, if◌then◌else◌, drop, length, nat_eq, ◌++◌, ◌∷◌, [], true};
ghost use Rattle.std.specs.List.{list_all};
ghost use Rattle.std.specs.Cmp.{partial_equiv_from_equiv};
ghost use Rattle.std.specs.Cmp.Lexicographic.{nat_list_eq_equiv, pointwise};
ghost use Rattle.afl_base.specs.Names.{is_file_name, is_name_byte};
ghost use Rattle.padded.specs.Padded.{padded};

use padded::padded_to;
use std::marker::Model;

/// The name of a file: 1 to 15 bytes, each from 0x21 to 0x7E. Contracts see it as its list of bytes.
#[derive(Clone, Copy, Debug)]
pub struct Name {
    bytes: [u8; 15],
    len: u8,
}

impl Model for Name {
    ghost use Rattle.std.specs.Prelude.{◌≡◌, ℕ, List, length, refl, take, true};
    ghost use Rattle.afl_base.specs.Names.{is_file_name};
    ghost use Rattle.padded.specs.Padded.{IsPadded, length-front, padded};

    ghost Value = { List ℕ };

    ghost use Rattle.afl_base.specs.declared.name.Name.TheInside.{Inside};
    ghost use mathlib.Core.Path.{ap, sym, ◌∙◌};

    ghost view = { λ s. take s.len s.bytes };

    ghost invariant = { λ s. IsPadded 15 s.len s.bytes × (is_file_name (take s.len s.bytes) ≡ true) };

    ghost inverse = { λ bs. record { bytes = padded 15 bs; len = length bs } };

    ghost inverse_ok = { λ a h.
        let made : List ℕ → ℕ → Inside = λ bytes len. record { bytes = bytes; len = len } in
        let front : List ℕ = take a.len a.bytes in
        ap (λ bytes. made bytes (length front)) (sym h.0.rest) ∙ ap (made a.bytes) (length-front 15 a.len a.bytes h.0) };
}

impl Name {
    /// The name of these bytes, None exactly where they are not 1 to 15 bytes from 0x21 to 0x7E.
    pub fn new(bytes: &[u8]) -> Option<Name>
        ensures { result ≡ (if is_file_name bytes.now then Some bytes.now else None) }
    {
        if !is_file_name(bytes) {
            return None;
        }
        Some(Name {
            bytes: padded_to(bytes),
            len: bytes.len() as u8,
        })
    }

    /// The bytes of the name, 1 to 15.
    pub fn bytes(&self) -> &[u8]
        ensures value { result.now ≡ self.now }
        ensures form { is_file_name self.now ≡ true }
    {
        &self.bytes[..self.len as usize]
    }
}

// Whether the bytes are a name of a file.
fn is_file_name(bytes: &[u8]) -> bool
    ensures { result ≡ is_file_name bytes.now }
{
    bytes.len() >= 1 && bytes.len() <= 15 && are_name_bytes(bytes)
}

fn are_name_bytes(bytes: &[u8]) -> bool
    ensures { result ≡ list_all is_name_byte bytes.now }
{
    bytes.iter().all(|b| is_name_byte(*b))
}

fn is_name_byte(b: u8) -> bool
    ensures { result ≡ is_name_byte b }
{
    33 <= b && b <= 126
}

impl PartialEq for Name {
    ghost eq = { pointwise nat_eq };

    ghost laws = { partial_equiv_from_equiv nat_list_eq_equiv };

    fn eq(&self, other: &Name) -> bool {
        self.bytes() == other.bytes()
    }
}

impl Eq for Name {
    ghost laws = { nat_list_eq_equiv };
}

impl Default for Name {
    ghost is_default = { λ name. name ≡ 33 ∷ [] };

    fn default() -> Name {
        Name {
            bytes: padded_to(b"!"),
            len: 1,
        }
    }
}
