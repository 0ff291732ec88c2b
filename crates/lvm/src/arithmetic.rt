//! Arithmetic of signed 64 bits, None where a result is undefined.

#![tactic(auto)]

ghost use Rattle.std.specs.Prelude.{◌≡◌, ◌+ℤ◌, ◌-ℤ◌, ◌*ℤ◌};
ghost use Rattle.db_model.specs.Cond.{Over};
ghost use Rattle.db_model.specs.Item as spec;
ghost use Rattle.lvm.specs.Instruction.{arithmetic};

use crate::instruction::Arithmetic;

/// Two numbers under a sign, None where the result does not fit or is divided by zero.
pub fn calculated(sign: Arithmetic, x: i64, y: i64) -> Option<i64>
    ensures { result ≡ spec.calculated (arithmetic sign) x y }
{
    match sign {
        Arithmetic::Add => sum(x, y),
        Arithmetic::Sub => difference(x, y),
        Arithmetic::Mul => product(x, y),
        Arithmetic::Div => quotient(x, y),
    }
}

fn sum(x: i64, y: i64) -> Option<i64>
    ensures { result ≡ spec.fitting (x +ℤ y) }
{
    x.checked_add(y)
}

fn difference(x: i64, y: i64) -> Option<i64>
    ensures { result ≡ spec.fitting (x -ℤ y) }
{
    x.checked_sub(y)
}

fn product(x: i64, y: i64) -> Option<i64>
    ensures { result ≡ spec.fitting (x *ℤ y) }
{
    x.checked_mul(y)
}

// Rounded toward zero.
fn quotient(x: i64, y: i64) -> Option<i64>
    ensures { result ≡ spec.calculated Over x y }
{
    if y == 0 {
        return None;
    }
    x.checked_div(y)
}
