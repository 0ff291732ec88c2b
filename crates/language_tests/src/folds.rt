//! Aggregates of few values, and medians of one value, of equal ones and of 32,768.

#![tactic(auto)]

ghost use Rattle.std.specs.Prelude.{◌≡◌, ◌≤◌, IsTrue};
ghost use Rattle.db_model.specs.declared.commands.Agg.TheVariants.{Median};

use aggregate::Fold;
use db_model::{Agg, Text, Value};

// The aggregate of two numbers, found in one pass.
fn of_two(agg: Agg, x: i32, y: i32) -> Option<i64> {
    let mut fold = Fold::new(agg);
    fold.push(&Value::Number(i64::from(x)));
    fold.push(&Value::Number(i64::from(y)));
    fold.end_pass();
    fold.answer()
}

// One pass over `count` numbers, `low` for the first `lows` of them and `high` for the others.
fn pass(fold: &mut Fold, count: u32, lows: u32, low: i32, high: i32) -> bool
    requires median { fold.old.agg ≡ Median }
    requires fresh { fold.old.pushed ≡ 0 }
    requires few { count ≤ 32768 }
    ensures median { fold.new.agg ≡ Median }
    ensures fresh { fold.new.pushed ≡ 0 }
{
    for k in 0..count {
        let number = if k < lows { low } else { high };
        fold.push(&Value::Number(i64::from(number)));
    }
    fold.end_pass()
}

// The median of such numbers, None where 9 passes are not enough.
fn median(count: u32, lows: u32, low: i32, high: i32) -> Option<i64>
    requires { count ≤ 32768 }
{
    let mut fold = Fold::new(Agg::Median);
    for _ in 0..9 {
        if !pass(&mut fold, count, lows, low, high) {
            return fold.answer();
        }
    }
    None
}

#[test]
fn each_aggregate_has_its_value(rt: HostRuntime) {
    for (agg, x, y, wanted) in [
        (Agg::Count, -7, 0, 2),
        (Agg::Sum, i32::MIN, i32::MIN, -4294967296),
        (Agg::Min, 3, -7, -7),
        (Agg::Max, 3, -7, 3),
        (Agg::Mean, -7, 0, -3),
        (Agg::Median, 5, 5, 5),
    ] {
        assert!(rt; of_two(agg, x, y) == Some(wanted));
    }
}

// The number of texts, of which there is one.
fn counted_text() -> Option<i64> {
    let mut fold = Fold::new(Agg::Count);
    fold.push(&Value::Text(Text::new(b"a")?));
    fold.end_pass();
    fold.answer()
}

#[test]
fn texts_are_counted(rt: HostRuntime) {
    assert!(rt; counted_text() == Some(1));
}

#[test]
fn a_median_is_the_lower_middle(rt: HostRuntime) {
    assert!(rt; median(1, 0, 0, 8) == Some(8));
    assert!(rt; median(4, 1, 3, 4) == Some(4));
    assert!(rt; median(4, 2, 3, 4) == Some(3));
    assert!(rt; median(9, 4, 7, 7) == Some(7));
    assert!(rt; median(0, 0, 0, 0).is_none());
}

#[test]
fn the_median_of_32768_ends_of_long_comes_within_9_passes(rt: HostRuntime) {
    assert!(rt; median(32768, 16384, i32::MIN, i32::MAX) == Some(-2147483648));
    assert!(rt; median(32768, 16383, i32::MIN, i32::MAX) == Some(2147483647));
}
