//! An INSERT, read from its bytes without the machine: so the command that is read most often takes
//! few steps. What is no INSERT is left to the machine.

#![tactic(auto)]

ghost use Rattle.std.specs.Prelude.{◌≡◌, ◌<◌, ◌≤◌, ◌≢◌, ℕ, List, [], ◌∷◌, IfNone, IfSome, length};
ghost use Rattle.std.specs.Bool.{OnFalse, OnTrue};
ghost use Rattle.aql_parse.specs.Inserts.{AreInFront, AreNotInFront, AreTokens, HasNoList, HasNoLiteral, HasNoNumber, HasNoRelation, HasNoValue, IsNoInsert, KeepsInsert, KeepsList, KeepsNegative, KeepsValue, into, negated, opening};
ghost use Rattle.db_model.specs.Spelling.{IsSpelt, nodes_of};

use crate::built::insert_into;
use crate::conditions::minus;
use aql_lex::{keyword_len, literal_at, name_at, past_white};
use db_model::{Command, Few, Ident, Keyword, Token};

/// The values of an INSERT, each as the token that it is.
type Literals = Few<Token, 8>;

/// Reads an INSERT: true comes exactly where the bytes spell one. After false the command is as it
/// was.
// Not inlined: what it puts on the stack would stand there while the machine reads, too.
#[inline(never)]
pub fn read_insert(bytes: &[u8], command: &mut Command) -> bool
    ensures spelt { OnTrue result (IsSpelt command.new bytes.now) }
    ensures nodes { OnTrue result (nodes_of command.new ≡ []) }
    ensures no_insert { OnFalse result (IsNoInsert bytes.now) }
    ensures same { OnFalse result (command.new ≡ command.old) }
{
    let mut kept = Literals::new();
    let Some(relation) = keep_insert(bytes, &mut kept) else {
        return false;
    };
    if !insert_into(kept.as_slice(), relation, command) {
        unreachable!();
    }
    true
}

// Keeps the values of an INSERT, and answers its relation.
fn keep_insert(bytes: &[u8], kept: &mut Literals) -> Option<Ident>
    requires { kept.old ≡ [] }
    ensures kept { IfSome result (λ relation. KeepsInsert kept.new relation bytes.now) }
    ensures none { IfNone result (IsNoInsert bytes.now) }
{
    let Some(values) = behind_opening(bytes) else {
        return None;
    };
    let Some(into) = behind_values(values, kept) else {
        return None;
    };
    let Some(relation) = relation_of(into) else {
        return None;
    };
    Some(relation)
}

// What is left behind INSERT and the opening bracket.
fn behind_opening(bytes: &[u8]) -> Option<&[u8]>
    ensures behind { IfSome result (λ behind. AreInFront opening bytes.now behind.now) }
    ensures none { IfNone result (AreNotInFront opening bytes.now) }
{
    let word = past_white(bytes);
    let Some(len) = keyword_len(word, Keyword::KINSERT) else {
        return None;
    };
    let sign = past_white(&word[len..]);
    let Some(behind) = behind_byte(sign, b'(') else {
        return None;
    };
    Some(behind)
}

// Keeps the values up to the closing bracket, and answers what is left behind it.
fn behind_values<'a>(bytes: &'a [u8], kept: &mut Literals) -> Option<&'a [u8]>
    requires { kept.old ≡ [] }
    ensures kept { IfSome result (λ behind. KeepsList kept.new bytes.now behind.now) }
    ensures none { IfNone result (HasNoList bytes.now) }
{
    let mut left = bytes;
    'values: loop {
        if kept.len() == 8 {
            return None;
        }
        let Some(behind) = behind_value(left, kept) else {
            return None;
        };
        let sign = past_white(behind);
        if let Some(end) = behind_byte(sign, b')') {
            return Some(end);
        }
        let Some(more) = behind_byte(sign, b',') else {
            return None;
        };
        left = more;
    }
}

// Keeps a value, and answers what is left behind it.
fn behind_value<'a>(bytes: &'a [u8], kept: &mut Literals) -> Option<&'a [u8]>
    requires { length kept.old < 8 }
    ensures kept { IfSome result (λ behind. KeepsValue kept.old kept.new bytes.now behind.now) }
    ensures none { IfNone result (HasNoValue bytes.now) }
{
    let sign = past_white(bytes);
    let Some(digits) = behind_byte(sign, b'-') else {
        return behind_literal(bytes, kept);
    };
    let Some(behind) = behind_negative(digits, kept) else {
        return None;
    };
    Some(behind)
}

// The number after a minus, which is kept with it.
fn behind_negative<'a>(bytes: &'a [u8], kept: &mut Literals) -> Option<&'a [u8]>
    requires { length kept.old < 8 }
    ensures kept { IfSome result (λ behind. KeepsNegative kept.old kept.new bytes.now behind.now) }
    ensures none { IfNone result (HasNoNumber bytes.now) }
{
    let digits = past_white(bytes);
    let Some(found) = literal_at(digits) else {
        return None;
    };
    let Some(number) = negated(&found.0) else {
        return None;
    };
    kept.push(number);
    Some(&digits[found.1..])
}

fn negated(token: &Token) -> Option<Token>
    ensures { result ≡ negated token.now }
{
    match token {
        Token::Number(number) => Some(Token::Number(minus(*number))),
        _ => None,
    }
}

fn behind_literal<'a>(bytes: &'a [u8], kept: &mut Literals) -> Option<&'a [u8]>
    requires { length kept.old < 8 }
    ensures kept { IfSome result (λ behind. KeepsValue kept.old kept.new bytes.now behind.now) }
    ensures none { IfNone result (HasNoLiteral bytes.now) }
{
    let literal = past_white(bytes);
    match literal_at(literal) {
        Some((token, len)) => {
            kept.push(token);
            Some(&literal[len..])
        }
        None => None,
    }
}

// The relation after the values, where nothing comes behind it.
fn relation_of(bytes: &[u8]) -> Option<Ident>
    ensures relation { IfSome result (λ relation. AreTokens bytes.now (into relation)) }
    ensures none { IfNone result (HasNoRelation bytes.now) }
{
    let word = past_white(bytes);
    let Some(len) = keyword_len(word, Keyword::KINTO) else {
        return None;
    };
    let name = past_white(&word[len..]);
    let Some(found) = name_at(name) else {
        return None;
    };
    if past_white(&name[found.1..]).is_empty() {
        Some(found.0)
    } else {
        None
    }
}

// What is left behind a byte in front.
fn behind_byte(bytes: &[u8], byte: u8) -> Option<&[u8]>
    ensures behind { IfSome result (λ behind. bytes.now ≡ byte ∷ behind.now) }
    ensures none { IfNone result ((behind : List ℕ) → bytes.now ≢ byte ∷ behind) }
{
    let [first, behind @ ..] = bytes else {
        return None;
    };
    if *first == byte { Some(behind) } else { None }
}
