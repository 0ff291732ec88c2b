//! The bytes of one field.

#![tactic(auto)]

ghost use Rattle.std.specs.Prelude.{◌≡◌, ◌+◌, ◌++◌, ◌<◌, ◌≤◌, ◌↔◌, ◌∷◌, [], IsTrue, drop, length, replicate, take};
ghost use Rattle.afl_base.specs.Fields.{put_at};
ghost use Rattle.padded.specs.Padded.{padded};
ghost use Rattle.db_model.specs.declared.schemas.Domain.TheVariants.{Time};
ghost use Rattle.db_model.specs.declared.values.Value.TheVariants.{Number};
ghost use Rattle.db_model.specs.Row.{field_bytes, field_of, is_text_field, suits, text_or_empty, time_or_least, up_to_zero, width};

use afl_base::{get_i32, get_i64, get_u16, put_bytes, put_i32, put_i64, put_u16};
use db_model::{Domain, Text, Tuple, Value, up_to_zero};
use padded::is_zeros;

// Puts the field that `bytes` begin with after the values, the least value of its domain where they are
// none, and answers the bytes after it.
#[tactic(auto, unfolding(afl_base::specs::Fields::u16_at, afl_base::specs::Fields::i32_at, afl_base::specs::Fields::i64_at))]
pub fn push_field<'a>(domain: Domain, bytes: &'a [u8], into: &mut Tuple) -> &'a [u8]
    requires width { width domain ≤ length bytes.now }
    requires room { length into.old < 8 }
    ensures value { into.new ≡ into.old ++ field_of domain bytes.now ∷ [] }
    ensures rest { result.now ≡ drop (width domain) bytes.now }
{
    match domain {
        Domain::Int => {
            into.push(Value::Number(i64::from(get_u16(bytes, 0).cast_signed())));
            &bytes[2..]
        }
        Domain::Long => {
            into.push(Value::Number(i64::from(get_i32(bytes, 0))));
            &bytes[4..]
        }
        Domain::Time => {
            into.push(Value::Number(time_or_least(get_i64(bytes, 0))));
            &bytes[8..]
        }
        Domain::Str(n) => {
            let (field, rest) = bytes.split_at(n as usize);
            into.push(Value::Text(text_or_empty(field)));
            rest
        }
    }
}

// The value of the field that `bytes` begin with, the least of its domain where they are none.
#[tactic(auto, unfolding(afl_base::specs::Fields::u16_at, afl_base::specs::Fields::i32_at, afl_base::specs::Fields::i64_at))]
pub fn value_of(domain: Domain, bytes: &[u8]) -> Value
    requires { width domain ≤ length bytes.now }
    ensures { result ≡ field_of domain bytes.now }
{
    match domain {
        Domain::Int => Value::Number(i64::from(get_u16(bytes, 0).cast_signed())),
        Domain::Long => Value::Number(i64::from(get_i32(bytes, 0))),
        Domain::Time => Value::Number(time_or_least(get_i64(bytes, 0))),
        Domain::Str(n) => Value::Text(text_or_empty(&bytes[..n as usize])),
    }
}

// This number where it is a time, else the least time.
pub fn time_or_least(number: i64) -> i64
    ensures { result ≡ time_or_least number }
{
    if is_time(number) { number } else { 0 }
}

fn is_time(number: i64) -> bool
    ensures { result ≡ suits Time (Number number) }
{
    (0..=140_737_488_355_327).contains(&number)
}

// The text of a field, the empty text where it has none.
fn text_or_empty(field: &[u8]) -> Text
    ensures { result ≡ text_or_empty field.now }
{
    let front = up_to_zero(field);
    if !is_zeros(&field[front.len()..]) {
        return Text::default();
    }
    match Text::new(front) {
        Some(text) => text,
        None => Text::default(),
    }
}

// Whether the field that `bytes` begin with has the bytes of the value that it is read as. Numbers have
// these in any case.
#[tactic(auto, unfolding(afl_base::specs::Fields::i64_at))]
pub fn is_field(domain: Domain, bytes: &[u8]) -> bool
    requires { width domain ≤ length bytes.now }
    ensures { IsTrue result
        ↔ (field_bytes domain (field_of domain bytes.now) ≡ take (width domain) bytes.now) }
{
    match domain {
        Domain::Int => true,
        Domain::Long => true,
        Domain::Time => is_time(get_i64(bytes, 0)),
        Domain::Str(n) => is_text_field(&bytes[..n as usize]),
    }
}

// Whether a field is a text with zeros after it.
pub fn is_text_field(field: &[u8]) -> bool
    ensures { result ≡ is_text_field field.now }
{
    let front = up_to_zero(field);
    is_zeros(&field[front.len()..]) && Text::new(front).is_some()
}

// Puts the field of the value into the bytes from `at` on. All other bytes stay.
#[tactic(auto, unfolding(afl_base::specs::Fields::u16_bytes, afl_base::specs::Fields::i32_bytes, afl_base::specs::Fields::i64_bytes))]
pub fn put_field(bytes: &mut [u8], at: usize, domain: Domain, value: &Value)
    requires suits { IsTrue (suits domain value.now) }
    requires room { at + width domain ≤ length bytes.old }
    ensures { bytes.new ≡ put_at bytes.old at (field_bytes domain value.now) }
{
    match (domain, value) {
        (Domain::Int, Value::Number(n)) => put_u16(bytes, at, (*n as i16).cast_unsigned()),
        (Domain::Long, Value::Number(n)) => put_i32(bytes, at, *n as i32),
        (Domain::Time, Value::Number(n)) => put_i64(bytes, at, *n),
        (Domain::Str(n), Value::Text(text)) => put_text(bytes, at, n as usize, text.bytes()),
        _ => unreachable!(),
    }
}

// Puts the text and zeros after it into the `n` bytes from `at` on. All other bytes stay.
fn put_text(bytes: &mut [u8], at: usize, n: usize, text: &[u8])
    requires short { length text.now ≤ n }
    requires room { at + n ≤ length bytes.old }
    ensures { bytes.new ≡ put_at bytes.old at (padded n text.now) }
{
    put_bytes(bytes, at, text);
    put_zeros(bytes, at + text.len(), n - text.len());
}

// Puts `n` zeros in the place of the bytes from `at` on.
fn put_zeros(bytes: &mut [u8], at: usize, n: usize)
    requires { at + n ≤ length bytes.old }
    ensures { bytes.new ≡ put_at bytes.old at (replicate n 0) }
{
    bytes[at..at + n].fill(0);
}
