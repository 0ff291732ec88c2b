//! One comparison of a condition, evaluated without a stack.

#![tactic(auto)]

ghost use Rattle.std.specs.Prelude.{◌≡◌, ◌<◌, ◌≤◌, ◌+◌, IfSome, List, Some, ◌∷◌, length, slice_get};
ghost use Rattle.db_model.specs.Item.{calculated};
ghost use Rattle.lvm.specs.Evaluate as spec;
ghost use Rattle.lvm.specs.Evaluate.{Number, PutsItem, Truth};
ghost use Rattle.lvm.specs.Instruction.{arithmetic};
ghost use Rattle.lvm.specs.Lent.{IsRead, item_of};

use crate::arithmetic::calculated;
use crate::instruction::{Arithmetic, Instruction};
use crate::item::{Item, comparison, numbers_compare};
use crate::values::Values;

/// The number that was read last, and its place.
#[derive(Clone, Copy)]
pub struct Last {
    pub place: u8,
    pub number: i64,
}

/// What a comparison is, and the place of the step behind it.
#[derive(Clone, Copy)]
pub struct Compared {
    pub truth: bool,
    pub next: usize,
}

// A number, and the place of the step behind those that make it.
#[derive(Clone, Copy)]
struct Sum {
    number: i64,
    next: usize,
}

/// The comparison that begins at a place; None where a number is undefined, or more than two numbers
/// wait for their signs.
pub fn compared_from<V: Values>(
    instructions: &[Instruction],
    from: usize,
    values: &V,
    last: &mut Option<Last>,
) -> Option<Compared>
    requires from { from < length instructions.now }
    requires readable { V.readable values.now }
    requires read { IsRead (V.values values.now) last.old }
    ensures value { IfSome result (λ c.
        PutsItem instructions.now (V.values values.now) from c.next (Truth c.truth)) }
    ensures next { IfSome result (λ c. (from < c.next) × (c.next ≤ length instructions.now)) }
    ensures read { IsRead (V.values values.now) last.new }
{
    match numbers_compared_from(instructions, from, values, last) {
        Some(found) => Some(found),
        None => operands_compared_from(instructions, from, values),
    }
}

// The same of numbers.
fn numbers_compared_from<V: Values>(
    instructions: &[Instruction],
    from: usize,
    values: &V,
    last: &mut Option<Last>,
) -> Option<Compared>
    requires from { from < length instructions.now }
    requires readable { V.readable values.now }
    requires read { IsRead (V.values values.now) last.old }
    ensures value { IfSome result (λ c.
        PutsItem instructions.now (V.values values.now) from c.next (Truth c.truth)) }
    ensures next { IfSome result (λ c. (from < c.next) × (c.next ≤ length instructions.now)) }
    ensures read { IsRead (V.values values.now) last.new }
{
    let mut left = sum_from(instructions, from, values, last)?;
    while left.next < instructions.len() {
        let right = sum_from(instructions, left.next, values, last)?;
        if right.next >= instructions.len() {
            return None;
        }
        match &instructions[right.next] {
            Instruction::Calculate(sign) => {
                left = joined(*sign, left, right, right.next + 1)?;
            }
            Instruction::Compare(how) => {
                return Some(Compared {
                    truth: numbers_compare(*how, left.number, right.number),
                    next: right.next + 1,
                });
            }
            _ => return None,
        }
    }
    None
}

// Two numbers under a sign, with the place of the step behind it; None where the result is undefined.
fn joined(sign: Arithmetic, left: Sum, right: Sum, next: usize) -> Option<Sum>
    ensures value { IfSome result (λ c.
        calculated (arithmetic sign) left.number right.number ≡ Some c.number) }
    ensures next { IfSome result (λ c. c.next ≡ next) }
{
    Some(Sum {
        number: calculated(sign, left.number, right.number)?,
        next,
    })
}

// The number that begins at a place, joined with the operands behind it that are followed by a sign.
// Inlined, as what it calls: results in registers are what makes it fast.
#[inline(always)]
fn sum_from<V: Values>(
    instructions: &[Instruction],
    from: usize,
    values: &V,
    last: &mut Option<Last>,
) -> Option<Sum>
    requires from { from < length instructions.now }
    requires readable { V.readable values.now }
    requires read { IsRead (V.values values.now) last.old }
    ensures value { IfSome result (λ c.
        PutsItem instructions.now (V.values values.now) from c.next (Number (Some c.number))) }
    ensures next { IfSome result (λ c. (from < c.next) × (c.next ≤ length instructions.now)) }
    ensures read { IsRead (V.values values.now) last.new }
{
    let mut sum = number_at(instructions, from, values, last)?;
    while sum.next + 1 < instructions.len() {
        let Instruction::Calculate(sign) = &instructions[sum.next + 1] else {
            return Some(sum);
        };
        let other = number_at(instructions, sum.next, values, last)?;
        sum = joined(*sign, sum, other, other.next + 1)?;
    }
    Some(sum)
}

// The same of two operands, which may be texts.
fn operands_compared_from<V: Values>(
    instructions: &[Instruction],
    from: usize,
    values: &V,
) -> Option<Compared>
    requires readable { V.readable values.now }
    ensures value { IfSome result (λ c.
        PutsItem instructions.now (V.values values.now) from c.next (Truth c.truth)) }
    ensures next { IfSome result (λ c. (from < c.next) × (c.next ≤ length instructions.now)) }
{
    if instructions.len() < 3 || from > instructions.len() - 3 {
        return None;
    }
    let Instruction::Compare(how) = &instructions[from + 2] else {
        return None;
    };
    let a = operand(&instructions[from], values)?;
    let b = operand(&instructions[from + 1], values)?;
    Some(Compared {
        truth: comparison(*how, a, b),
        next: from + 3,
    })
}

// The number that stands at a place, None where there is none.
#[inline(always)]
fn number_at<V: Values>(
    instructions: &[Instruction],
    at: usize,
    values: &V,
    last: &mut Option<Last>,
) -> Option<Sum>
    requires at { at < length instructions.now }
    requires readable { V.readable values.now }
    requires read { IsRead (V.values values.now) last.old }
    ensures value { IfSome result (λ c.
        PutsItem instructions.now (V.values values.now) at c.next (Number (Some c.number))) }
    ensures next { IfSome result (λ c. c.next ≡ at + 1) }
    ensures read { IsRead (V.values values.now) last.new }
{
    let number = match &instructions[at] {
        Instruction::Number(number) => *number,
        Instruction::Attribute(place) => read(values, *place, last)?,
        _ => return None,
    };
    Some(Sum {
        number,
        next: at + 1,
    })
}

// The item that a step puts on the stack, None where it takes some from there.
fn operand<'a, V: Values>(instruction: &'a Instruction, values: &'a V) -> Option<Item<'a>>
    requires { V.readable values.now }
    ensures { IfSome result (λ item. (stack : List spec.Item)
        → spec.stepped instruction.now (V.values values.now) stack ≡ item_of item ∷ stack) }
{
    match instruction {
        Instruction::Number(number) => Some(Item::Number(*number)),
        Instruction::Text(text) => Some(Item::Text(text.bytes())),
        Instruction::Attribute(place) => Some(values.item(*place)),
        _ => None,
    }
}

// The number of the attribute at a place, None where it is none. It is not read again where it was
// read last.
#[inline(always)]
fn read<V: Values>(values: &V, place: u8, last: &mut Option<Last>) -> Option<i64>
    requires readable { V.readable values.now }
    requires read { IsRead (V.values values.now) last.old }
    ensures value { IfSome result (λ z.
        spec.item_of_value (slice_get (V.values values.now) place) ≡ Number (Some z)) }
    ensures read { IsRead (V.values values.now) last.new }
{
    if let Some(last) = *last {
        if last.place == place {
            return Some(last.number);
        }
    }
    match values.item(place) {
        Item::Number(number) => {
            *last = Some(Last { place, number });
            Some(number)
        }
        _ => None,
    }
}
