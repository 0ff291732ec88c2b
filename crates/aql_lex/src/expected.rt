//! A token at the front of some bytes, where it is known which kinds may come: no other is tried.

#![tactic(auto)]

ghost use Rattle.std.specs.Prelude.{◌≡◌, ◌<◌, ◌≤◌, ◌≢◌, ◌↔◌, ℕ, List, IfNone, IfSome, IsFalse, IsTrue, Some, drop, length, map};
ghost use Rattle.std.specs.Char.{is_ascii_uppercase, to_ascii_lowercase};
ghost use Rattle.std.specs.List.{list_all, prefix_len};
ghost use Rattle.aql_lex.specs.Lexed.{is_literal};
ghost use Rattle.db_model.specs.Tokens.{is_white, token_at};

use crate::scan::{byte_at, is_word_byte, number_at, quoted_at, white_len, word_len};
use db_model::{Ident, Keyword, Token};

/// The bytes from the first that is not white space.
#[inline(always)]
pub fn past_white(bytes: &[u8]) -> &[u8]
    ensures { result.now ≡ drop (prefix_len is_white bytes.now) bytes.now }
{
    &bytes[white_len(bytes)..]
}

/// How many bytes a keyword has, in any letter case, where it is the token at the front.
// Inlined, so that each keyword is compared with letters that are known.
#[inline(always)]
pub fn keyword_len(bytes: &[u8], keyword: Keyword) -> Option<usize>
    ensures token { IfSome result (λ len. token_at bytes.now ≡ Some (Token.Word keyword, len)) }
    ensures none { IfNone result ((len : ℕ) → token_at bytes.now ≢ Some (Token.Word keyword, len)) }
    ensures within { IfSome result (λ len. (0 < len) × (len ≤ length bytes.now)) }
{
    let text = keyword.text();
    let len = text.len();
    if bytes.len() < len {
        return None;
    }
    if !are_letters_of(&bytes[..len], text) {
        return None;
    }
    if is_word_byte(byte_at(bytes, len)) {
        return None;
    }
    Some(len)
}

// Whether bytes are these capitals in any case. A letter is one of two bytes: where they are known,
// that takes fewer steps than changing the case of both sides.
#[inline(always)]
fn are_letters_of(bytes: &[u8], text: &[u8]) -> bool
    requires as_many { length bytes.now ≡ length text.now }
    requires capitals { IsTrue (list_all is_ascii_uppercase text.now) }
    ensures { IsTrue result ↔ (map to_ascii_lowercase bytes.now ≡ map to_ascii_lowercase text.now) }
{
    for i in 0..text.len() {
        if bytes[i] != text[i] && bytes[i] != text[i].to_ascii_lowercase() {
            return false;
        }
    }
    true
}

/// A name and how many bytes it has, where it is the token at the front.
pub fn name_at(bytes: &[u8]) -> Option<(Ident, usize)>
    ensures token { IfSome result (λ found. token_at bytes.now ≡ Some (Token.Name found.0, found.1)) }
    ensures none { IfNone result ((name : List ℕ) (len : ℕ) → token_at bytes.now ≢ Some (Token.Name name, len)) }
    ensures within { IfSome result (λ found. (0 < found.1) × (found.1 ≤ length bytes.now)) }
{
    let len = word_len(bytes);
    match Ident::new(&bytes[..len]) {
        Some(name) => Some((name, len)),
        None => None,
    }
}

/// A number or a text and how many bytes it has, where it is the token at the front.
// Inlined, so that a number is not put into a token on the stack first.
#[inline(always)]
pub fn literal_at(bytes: &[u8]) -> Option<(Token, usize)>
    ensures token { IfSome result (λ found. token_at bytes.now ≡ Some found) }
    ensures literal { IfSome result (λ found. IsTrue (is_literal found.0)) }
    ensures none { IfNone result ((token : Token) (len : ℕ) → token_at bytes.now ≡ Some (token, len) → IsFalse (is_literal token)) }
    ensures within { IfSome result (λ found. (0 < found.1) × (found.1 ≤ length bytes.now)) }
{
    let [first, behind @ ..] = bytes else {
        return None;
    };
    if first.is_ascii_digit() {
        number_at(bytes)
    } else if *first == b'\'' {
        quoted_at(behind)
    } else {
        None
    }
}
