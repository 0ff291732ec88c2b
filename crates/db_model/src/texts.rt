//! The texts that a STRING attribute may hold.

#![tactic(auto)]

ghost use Rattle.std.specs.Prelude.{◌≡◌, IfNone, IfSome, IsFalse, IsTrue, []};
ghost use Rattle.std.specs.Cmp.{partial_equiv_from_equiv};
ghost use Rattle.std.specs.Cmp.Lexicographic.{nat_list_eq_equiv, pointwise};
ghost use Rattle.std.specs.List.{list_all};
ghost use Rattle.std.specs.Prelude.{nat_eq};
ghost use Rattle.db_model.specs.Names.{is_text, is_text_byte};

use padded::padded_to;
use std::marker::Model;

/// A text: 0 to 32 bytes from 0x20 to 0x7E without the quote 0x27. Contracts see it as its list
/// of bytes.
#[derive(Clone, Copy, Debug)]
pub struct Text {
    bytes: [u8; 32],
    len: u8,
}

impl Model for Text {
    ghost use Rattle.std.specs.Prelude.{◌≡◌, ℕ, List, IsTrue, length, refl, take};
    ghost use Rattle.db_model.specs.Names.{is_text};
    ghost use Rattle.padded.specs.Padded.{IsPadded, length-front, padded};

    ghost Value = { List ℕ };

    ghost use Rattle.db_model.specs.declared.texts.Text.TheInside.{Inside};
    ghost use mathlib.Core.Path.{ap, sym, ◌∙◌};

    ghost view = { λ s. take s.len s.bytes };

    ghost invariant = { λ s. IsPadded 32 s.len s.bytes × IsTrue (is_text (take s.len s.bytes)) };

    ghost inverse = { λ bs. record { bytes = padded 32 bs; len = length bs } };

    ghost inverse_ok = { λ a h.
        let made : List ℕ → ℕ → Inside = λ bytes len. record { bytes = bytes; len = len } in
        let front : List ℕ = take a.len a.bytes in
        ap (λ bytes. made bytes (length front)) (sym h.0.rest) ∙ ap (made a.bytes) (length-front 32 a.len a.bytes h.0) };
}

impl Text {
    /// The text of these bytes, None exactly where they are none.
    pub fn new(bytes: &[u8]) -> Option<Text>
        ensures text { IfSome result (λ text. text ≡ bytes.now) }
        ensures some { IfSome result (λ _. IsTrue (is_text bytes.now)) }
        ensures none { IfNone result (IsFalse (is_text bytes.now)) }
    {
        if !is_text(bytes) {
            return None;
        }
        Some(Text {
            bytes: padded_to(bytes),
            len: bytes.len() as u8,
        })
    }

    /// The bytes of the text, 0 to 32.
    pub fn bytes(&self) -> &[u8]
        ensures value { result.now ≡ self.now }
        ensures text { IsTrue (is_text result.now) }
    {
        &self.bytes[..self.len as usize]
    }
}

// Whether the bytes are a text.
fn is_text(bytes: &[u8]) -> bool
    ensures { result ≡ is_text bytes.now }
{
    bytes.len() <= 32 && are_text_bytes(bytes)
}

fn are_text_bytes(bytes: &[u8]) -> bool
    ensures { result ≡ list_all is_text_byte bytes.now }
{
    bytes.iter().all(|b| is_text_byte(*b))
}

fn is_text_byte(b: u8) -> bool
    ensures { result ≡ is_text_byte b }
{
    (32..=126).contains(&b) && b != b'\''
}

impl PartialEq for Text {
    ghost eq = { pointwise nat_eq };

    ghost laws = { partial_equiv_from_equiv nat_list_eq_equiv };

    fn eq(&self, other: &Text) -> bool {
        self.bytes() == other.bytes()
    }
}

impl Eq for Text {
    ghost laws = { nat_list_eq_equiv };
}

impl Default for Text {
    ghost is_default = { λ text. text ≡ [] };

    fn default() -> Text {
        Text {
            bytes: [0; 32],
            len: 0,
        }
    }
}
