//! The names of relations and attributes.

#![tactic(auto)]

ghost use Rattle.std.specs.Prelude.{◌≡◌, IfNone, IfSome, IsFalse, IsTrue};
ghost use Rattle.std.specs.Cmp.{partial_equiv_from_equiv};
ghost use Rattle.std.specs.Cmp.Lexicographic.{nat_list_eq_equiv, pointwise};
ghost use Rattle.std.specs.List.{list_all};
ghost use Rattle.std.specs.Prelude.{nat_eq, ◌∷◌, []};
ghost use Rattle.db_model.specs.Names.{is_name, is_word, is_word_byte};

use crate::tokens::Keyword;
use padded::padded_to;
use std::marker::Model;

/// A NAME of the language: a letter, then letters, digits and `_`, 1 to 15 bytes of ASCII in all,
/// and no keyword in any letter case. Contracts see it as its list of bytes.
#[derive(Clone, Copy, Debug)]
pub struct Ident {
    bytes: [u8; 15],
    len: u8,
}

impl Model for Ident {
    ghost use Rattle.std.specs.Prelude.{◌≡◌, ℕ, List, IsTrue, length, refl, take};
    ghost use Rattle.db_model.specs.Names.{is_name};
    ghost use Rattle.padded.specs.Padded.{IsPadded, length-front, padded};

    ghost Value = { List ℕ };

    ghost use Rattle.db_model.specs.declared.names.Ident.TheInside.{Inside};
    ghost use mathlib.Core.Path.{ap, sym, ◌∙◌};

    ghost view = { λ s. take s.len s.bytes };

    ghost invariant = { λ s. IsPadded 15 s.len s.bytes × IsTrue (is_name (take s.len s.bytes)) };

    ghost inverse = { λ bs. record { bytes = padded 15 bs; len = length bs } };

    ghost inverse_ok = { λ a h.
        let made : List ℕ → ℕ → Inside = λ bytes len. record { bytes = bytes; len = len } in
        let front : List ℕ = take a.len a.bytes in
        ap (λ bytes. made bytes (length front)) (sym h.0.rest) ∙ ap (made a.bytes) (length-front 15 a.len a.bytes h.0) };
}

impl Ident {
    /// The name of these bytes, None exactly where they are no NAME.
    pub fn new(bytes: &[u8]) -> Option<Ident>
        ensures name { IfSome result (λ name. name ≡ bytes.now) }
        ensures some { IfSome result (λ _. IsTrue (is_name bytes.now)) }
        ensures none { IfNone result (IsFalse (is_name bytes.now)) }
    {
        if !is_word(bytes) || Keyword::of(bytes).is_some() {
            return None;
        }
        Some(Ident {
            bytes: padded_to(bytes),
            len: bytes.len() as u8,
        })
    }

    /// The bytes of the name, 1 to 15.
    pub fn bytes(&self) -> &[u8]
        ensures value { result.now ≡ self.now }
        ensures name { IsTrue (is_name result.now) }
    {
        &self.bytes[..self.len as usize]
    }
}

// Whether the bytes are a word of at most 15 bytes.
fn is_word(bytes: &[u8]) -> bool
    ensures { result ≡ is_word bytes.now }
{
    let [first, rest @ ..] = bytes else {
        return false;
    };
    rest.len() <= 14 && first.is_ascii_alphabetic() && are_word_bytes(rest)
}

fn are_word_bytes(bytes: &[u8]) -> bool
    ensures { result ≡ list_all is_word_byte bytes.now }
{
    bytes.iter().all(|b| is_word_byte(*b))
}

fn is_word_byte(b: u8) -> bool
    ensures { result ≡ is_word_byte b }
{
    b.is_ascii_alphanumeric() || b == b'_'
}

impl PartialEq for Ident {
    ghost eq = { pointwise nat_eq };

    ghost laws = { partial_equiv_from_equiv nat_list_eq_equiv };

    fn eq(&self, other: &Ident) -> bool {
        self.bytes() == other.bytes()
    }
}

impl Eq for Ident {
    ghost laws = { nat_list_eq_equiv };
}

impl Default for Ident {
    ghost is_default = { λ name. name ≡ 120 ∷ [] };

    #[tactic(auto, unfolding(crate::specs::Keywords::keyword_of, crate::specs::Keywords::keywords))]
    fn default() -> Ident {
        Ident {
            bytes: padded_to(b"x"),
            len: 1,
        }
    }
}
