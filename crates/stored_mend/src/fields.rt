//! The number fields of a row of which a part is there.

#![tactic(auto)]

ghost use Rattle.std.specs.Prelude.{◌≡◌, ◌+◌, ◌-◌, ◌≤◌, ◌<◌, ◌≤ℤ◌, ◌^◌, ◌⊎◌, ℤ, pos, IfNone, IfSome, length, slice_range, take, true};
ghost use Rattle.afl_base.specs.Fields.{i64_bytes, put_at};
ghost use Rattle.db_model.specs.Row.{fields_length, width};
ghost use Rattle.stored_mend.specs.Filled.{FillsField, FillsFields, FillsNumber, IsAlike, IsLeast, least_number, most_number, number_before, field_number};
ghost use Rattle.tuple_file.specs.Column.{is_number};

use afl_base::{get_i32, get_i64, get_u16, put_bytes, put_i64};
use db_model::{Attribute, Domain, width};

/// Fills the number fields of a row of which so many bytes are there, with zeros behind them. No number falls below
/// that of the row before, which has no bytes where there is none.
pub fn fill_fields(attributes: &[Attribute], before: &[u8], row: &mut [u8], have: usize)
    requires room { fields_length attributes.now ≤ length row.old }
    requires short { length row.old ≤ 128 }
    requires before { 1 ≤ length before.now → fields_length attributes.now ≤ length before.now }
    ensures filled { FillsFields attributes.now before.now 0 have row.old row.new }
    ensures kept { take have row.new ≡ take have row.old }
    ensures size { length row.new ≡ length row.old }
{
    let mut at = 0;
    for attribute in attributes {
        fill_field(attribute.domain, before, row, at, have);
        at += width(attribute.domain);
    }
}

// Fills the field at a place.
fn fill_field(domain: Domain, before: &[u8], row: &mut [u8], at: usize, have: usize)
    requires room { at + width domain ≤ length row.old }
    requires before { 1 ≤ length before.now → at + width domain ≤ length before.now }
    ensures filled { FillsField domain before.now at have row.old row.new }
    ensures kept { take have row.new ≡ take have row.old }
    ensures size { length row.new ≡ length row.old }
{
    if is_number(domain) && have < at + width(domain) {
        let least = number_before(domain, before, at);
        fill_number(domain, &least, row, at, have.saturating_sub(at));
    }
}

// Fills a number field of which so many bytes are there. It stays where no number of the domain can be.
fn fill_number(domain: Domain, before: &i64, row: &mut [u8], at: usize, there: usize)
    requires number { is_number domain ≡ true }
    requires room { at + width domain ≤ length row.old }
    requires there { there < width domain }
    ensures filled { FillsNumber domain before.now there at row.old row.new }
    ensures kept { take (at + there) row.new ≡ take (at + there) row.old }
    ensures size { length row.new ≡ length row.old }
{
    let wanted = Wanted {
        before: *before,
        base: base_of(there),
        low: number_in(domain, row, at).cast_unsigned(),
    };
    if let Some(number) = least_of(domain, &wanted) {
        put_rest(row, at + there, &number, there, width(domain));
    }
}

// Puts the bytes of a number from one up to another at a place.
fn put_rest(row: &mut [u8], at: usize, number: &i64, from: usize, to: usize)
    requires order { from ≤ to }
    requires short { to ≤ 8 }
    requires room { at + to ≤ length row.old + from }
    ensures put { row.new ≡ put_at row.old at (slice_range (i64_bytes number.now) from to) }
    ensures kept { take at row.new ≡ take at row.old }
    ensures size { length row.new ≡ length row.old }
{
    let mut bytes = [0; 8];
    put_i64(&mut bytes, 0, *number);
    put_bytes(row, at, &bytes[from..to]);
}

// Whether a domain is one of numbers.
fn is_number(domain: Domain) -> bool
    ensures { result ≡ is_number domain }
{
    match domain {
        Domain::Int => true,
        Domain::Long => true,
        Domain::Time => true,
        Domain::Str(_) => false,
    }
}

// The number in the field at a place.
fn number_in(domain: Domain, row: &[u8], at: usize) -> i64
    requires room { at + width domain ≤ length row.now }
    ensures { result ≡ field_number domain row.now at }
{
    match domain {
        Domain::Int => i64::from(get_u16(row, at).cast_signed()),
        Domain::Long => i64::from(get_i32(row, at)),
        Domain::Time => get_i64(row, at),
        Domain::Str(_) => 0,
    }
}

// That of the row before, the least of its domain where there is none.
fn number_before(domain: Domain, before: &[u8], at: usize) -> i64
    requires room { 1 ≤ length before.now → at + width domain ≤ length before.now }
    ensures { result ≡ number_before domain before.now at }
{
    if before.is_empty() {
        least_number(domain)
    } else {
        number_in(domain, before, at)
    }
}

fn least_number(domain: Domain) -> i64
    ensures { result ≡ least_number domain }
{
    match domain {
        Domain::Int => -32_768,
        Domain::Long => -2_147_483_648,
        Domain::Time => 0,
        Domain::Str(_) => 0,
    }
}

fn most_number(domain: Domain) -> i64
    ensures { result ≡ most_number domain }
{
    match domain {
        Domain::Int => 32_767,
        Domain::Long => 2_147_483_647,
        Domain::Time => 140_737_488_355_327,
        Domain::Str(_) => 0,
    }
}

// What so many bytes are counted by.
fn base_of(bytes: usize) -> u64
    requires { bytes < 8 }
    ensures power { result ≡ 256 ^ bytes }
    ensures some { 1 ≤ result }
    ensures most { result ≤ 2 ^ 56 }
{
    match bytes {
        0 => 1,
        1 => 256,
        2 => 65_536,
        3 => 16_777_216,
        4 => 4_294_967_296,
        5 => 1_099_511_627_776,
        6 => 281_474_976_710_656,
        _ => 72_057_594_037_927_936,
    }
}

/// What is looked for: a number that is not below another, and is `low` but for multiples of `base`.
#[derive(Drop)]
struct Wanted {
    before: i64,
    base: u64,
    low: u64,
}

// The least such number of a domain, None where it has none.
fn least_of(domain: Domain, wanted: &Wanted) -> Option<i64>
    requires some { 1 ≤ wanted.now.base }
    requires most { wanted.now.base ≤ 2 ^ 56 }
    ensures least { IfSome result (IsLeast wanted.now.before wanted.now.base wanted.now.low) }
    ensures within { IfSome result (λ z. z ≤ℤ most_number domain) }
    ensures none { IfNone result ((z : ℤ) → wanted.now.before ≤ℤ z → z ≤ℤ most_number domain
        → IsAlike wanted.now.base wanted.now.low z → ⊥) }
{
    let number = least(wanted)?;
    if number > most_number(domain) {
        return None;
    }
    Some(number)
}

// The least such number, None where none fits 64 bits.
fn least(wanted: &Wanted) -> Option<i64>
    requires some { 1 ≤ wanted.now.base }
    requires most { wanted.now.base ≤ 2 ^ 56 }
    ensures least { IfSome result (IsLeast wanted.now.before wanted.now.base wanted.now.low) }
    ensures none { IfNone result ((z : ℤ) → wanted.now.before ≤ℤ z → z ≤ℤ pos 9223372036854775807
        → IsAlike wanted.now.base wanted.now.low z → ⊥) }
{
    if wanted.low >= wanted.base {
        return None;
    }
    let here = wanted.before.rem_euclid(wanted.base as i64) as u64;
    let step = step_to(here, wanted.low, wanted.base);
    wanted.before.checked_add(step as i64)
}

// How far it is from one place of a ring to another.
fn step_to(from: u64, to: u64, around: u64) -> u64
    requires from { from < around }
    requires to { to < around }
    requires most { around ≤ 2 ^ 56 }
    ensures less { result < around }
    ensures there { (from + result ≡ to) ⊎ (from + result ≡ to + around) }
{
    if from <= to {
        to - from
    } else {
        to + around - from
    }
}
