//! The token at a place.

#![tactic(auto)]

ghost use Rattle.std.specs.Prelude.{◌≡◌, ◌+◌, ◌-◌, ◌^◌, ◌<◌, ◌≤◌, IfSome, IsTrue, length, drop, get_or};
ghost use Rattle.std.specs.Char.{is_ascii_digit};
ghost use Rattle.std.specs.List.{list_all, prefix_len};
ghost use Rattle.std.specs.Str.Parse.{AllDigits, digits_value};
ghost use Rattle.aql_lex.specs.Lexed.{IsTokenIn, OnBad, OnEnd, OnToken, behind_white};
ghost use Rattle.db_model.specs.Names.{is_text_byte, is_word_byte};
ghost use Rattle.db_model.specs.Tokens.{is_white, number_at, number_token, quoted_at, sign_at, sign_of, token_at, word_at, word_token};

use crate::lexed::Lexed;
use db_model::{Ident, Keyword, Sign, Text, Token};

/// The longest token at the place `at` of a command's bytes, after the white space there.
/// `End` comes exactly where only white space is left, and `Bad` exactly where no token begins
/// after the white space.
pub fn next_token(bytes: &[u8], at: u16) -> Lexed
    requires within { at ≤ length bytes.now }
    requires few { length bytes.now ≤ 512 }
    ensures from { OnToken result (λ token from to. from ≡ behind_white bytes.now at) }
    ensures token { OnToken result (IsTokenIn bytes.now) }
    ensures to { OnToken result (λ token from to. (from < to) × (to ≤ length bytes.now)) }
    ensures end { OnEnd result (IsTrue (list_all is_white (drop at bytes.now))) }
    ensures bad { OnBad result (behind_white bytes.now at < length bytes.now) }
    ensures none { OnBad result (token_at (drop (behind_white bytes.now at) bytes.now) ≡ None) }
{
    let at = at as usize;
    let from = at + white_len(&bytes[at..]);
    if from == bytes.len() {
        return Lexed::End;
    }
    match token_at(&bytes[from..]) {
        Some((token, len)) => Lexed::Token {
            token,
            from: from as u16,
            to: (from + len) as u16,
        },
        None => Lexed::Bad,
    }
}

// The token that begins with the first byte, and how many bytes it has.
fn token_at(bytes: &[u8]) -> Option<(Token, usize)>
    ensures token { result ≡ token_at bytes.now }
    ensures within { IfSome result (λ found. (0 < found.1) × (found.1 ≤ length bytes.now)) }
{
    let [first, behind @ ..] = bytes else {
        return None;
    };
    if first.is_ascii_alphabetic() {
        word_at(bytes)
    } else if first.is_ascii_digit() {
        number_at(bytes)
    } else if *first == b'\'' {
        quoted_at(behind)
    } else {
        sign_at(*first, behind)
    }
}

// A keyword or a name.
fn word_at(bytes: &[u8]) -> Option<(Token, usize)>
    ensures { result ≡ word_at bytes.now }
{
    let len = word_len(bytes);
    let token = word_token(&bytes[..len])?;
    Some((token, len))
}

fn word_token(word: &[u8]) -> Option<Token>
    ensures { result ≡ word_token word.now }
{
    match Keyword::of(word) {
        Some(keyword) => Some(Token::Word(keyword)),
        None => match Ident::new(word) {
            Some(name) => Some(Token::Name(name)),
            None => None,
        },
    }
}

pub fn number_at(bytes: &[u8]) -> Option<(Token, usize)>
    ensures { result ≡ number_at bytes.now }
{
    let len = digits_len(bytes);
    let token = number_token(&bytes[..len])?;
    Some((token, len))
}

fn number_token(digits: &[u8]) -> Option<Token>
    requires { AllDigits 10 digits.now }
    ensures { result ≡ number_token digits.now }
{
    if digits.len() > 18 {
        return None;
    }
    Some(Token::Number(value_of(digits) as i64))
}

// The number that at most 18 digits write.
fn value_of(digits: &[u8]) -> u64
    requires digits { AllDigits 10 digits.now }
    requires few { length digits.now ≤ 18 }
    ensures value { result ≡ digits_value 10 digits.now }
    ensures small { result < 10 ^ 18 }
{
    let mut value = 0u64;
    for digit in digits {
        value = 10 * value + u64::from(*digit - b'0');
    }
    value
}

// A text and its closing quote, after the opening one; the length counts both quotes.
pub fn quoted_at(bytes: &[u8]) -> Option<(Token, usize)>
    ensures token { result ≡ quoted_at bytes.now }
    ensures within { IfSome result (λ found. (1 < found.1) × (found.1 ≤ 1 + length bytes.now)) }
{
    let len = text_len(bytes);
    let text = Text::new(&bytes[..len])?;
    if byte_at(bytes, len) != b'\'' {
        return None;
    }
    Some((Token::Quoted(text), len + 2))
}

// A sign by its first byte and those after it.
fn sign_at(first: u8, behind: &[u8]) -> Option<(Token, usize)>
    ensures token { result ≡ sign_at first behind.now }
    ensures within { IfSome result (λ found. (0 < found.1) × (found.1 ≤ 1 + length behind.now)) }
{
    let (sign, len) = sign_of(first, byte_at(behind, 0))?;
    Some((Token::Sign(sign), len))
}

fn sign_of(first: u8, next: u8) -> Option<(Sign, usize)>
    ensures { result ≡ sign_of first next }
{
    let sign = match first {
        b'(' => Sign::LeftBracket,
        b')' => Sign::RightBracket,
        b',' => Sign::Comma,
        b'.' => Sign::Dot,
        b'+' => Sign::Plus,
        b'-' => Sign::Minus,
        b'*' => Sign::Star,
        b'/' => Sign::Slash,
        b'=' => Sign::Equal,
        b'<' => return Some(less_than(next)),
        b'>' => return Some(greater_than(next)),
        _ => return None,
    };
    Some((sign, 1))
}

fn less_than(next: u8) -> (Sign, usize)
    ensures { Some result ≡ sign_of 60 next }
{
    match next {
        b'=' => (Sign::LessEqual, 2),
        b'>' => (Sign::Unequal, 2),
        _ => (Sign::Less, 1),
    }
}

fn greater_than(next: u8) -> (Sign, usize)
    ensures { Some result ≡ sign_of 62 next }
{
    match next {
        b'=' => (Sign::GreaterEqual, 2),
        _ => (Sign::Greater, 1),
    }
}

// The byte at a place, 0 after the last.
pub fn byte_at(bytes: &[u8], at: usize) -> u8
    ensures { result ≡ get_or bytes.now at 0 }
{
    match bytes.get(at) {
        Some(byte) => *byte,
        None => 0,
    }
}

pub fn white_len(bytes: &[u8]) -> usize
    ensures len { result ≡ prefix_len is_white bytes.now }
    ensures within { result ≤ length bytes.now }
{
    bytes.iter().take_while(|b| is_white(**b)).count()
}

// Most bytes are beyond the space, and one comparison tells them.
fn is_white(byte: u8) -> bool
    ensures { result ≡ is_white byte }
{
    if byte > b' ' {
        return false;
    }
    matches!(byte, b' ' | b'\t' | b'\n' | b'\r')
}

pub fn word_len(bytes: &[u8]) -> usize
    ensures len { result ≡ prefix_len is_word_byte bytes.now }
    ensures within { result ≤ length bytes.now }
{
    bytes
        .iter()
        .take_while(|b| b.is_ascii_alphanumeric() || **b == b'_')
        .count()
}

pub fn is_word_byte(byte: u8) -> bool
    ensures { result ≡ is_word_byte byte }
{
    byte.is_ascii_alphanumeric() || byte == b'_'
}

fn digits_len(bytes: &[u8]) -> usize
    ensures len { result ≡ prefix_len is_ascii_digit bytes.now }
    ensures within { result ≤ length bytes.now }
{
    bytes.iter().take_while(|b| b.is_ascii_digit()).count()
}

fn text_len(bytes: &[u8]) -> usize
    ensures len { result ≡ prefix_len is_text_byte bytes.now }
    ensures within { result ≤ length bytes.now }
{
    bytes
        .iter()
        .take_while(|b| (32..=126).contains(*b) && **b != b'\'')
        .count()
}
