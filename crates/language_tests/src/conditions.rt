//! Conditions at the ends of 64 bits, over texts, and of 32 nodes; refusals and ranges.

#![tactic(auto)]

ghost use Rattle.std.specs.Prelude.{◌≡◌, ◌≤◌, length};
ghost use Rattle.db_model.specs.Cond.{IsCondition};

use db_model::{
    Attribute, Attributes, Compare, Condition, Domain, Ident, Node, Range, Refusal, Schema, Text,
    Tuple, Value,
};
use lvm::Code;

fn name(bytes: &[u8]) -> Ident {
    Ident::new(bytes).unwrap_or_default()
}

fn text(bytes: &[u8]) -> Text {
    Text::new(bytes).unwrap_or_default()
}

// A relation of a number v, a text t and a time at.
fn schema() -> Schema {
    let mut attributes = Attributes::new();
    attributes.push(Attribute {
        name: name(b"v"),
        domain: Domain::Long,
    });
    attributes.push(Attribute {
        name: name(b"t"),
        domain: Domain::Str(4),
    });
    attributes.push(Attribute {
        name: name(b"at"),
        domain: Domain::Time,
    });
    Schema {
        name: name(b"r"),
        attributes,
    }
}

fn condition(nodes: &[Node]) -> Condition
    requires { length nodes.now ≤ 32 }
    ensures { result ≡ nodes.now }
{
    let mut condition = Condition::new();
    for node in nodes {
        condition.push(*node);
    }
    condition
}

// What a condition after this many names of a list is compiled to.
fn compiled(nodes: &[Node], names: u8) -> Result<Code, Refusal>
    requires condition { IsCondition nodes.now }
    requires few { length nodes.now ≤ 32 }
    requires names { names ≤ 8 }
{
    let mut code = Code::none();
    code.compile(&condition(nodes), &schema(), names)?;
    Ok(code)
}

// A row with this number, the text 'ba' and the time 9.
fn row(v: i64) -> Tuple {
    let mut tuple = Tuple::new();
    tuple.push(Value::Number(v));
    tuple.push(Value::Text(text(b"ba")));
    tuple.push(Value::Number(9));
    tuple
}

// Whether the row with this number satisfies a condition, where it is accepted.
fn verdict(nodes: &[Node], v: i64) -> Option<bool>
    requires condition { IsCondition nodes.now }
    requires few { length nodes.now ≤ 32 }
{
    match compiled(nodes, 0) {
        Ok(code) => Some(code.eval(&row(v))),
        Err(_) => None,
    }
}

// The signs between two numbers.
#[derive(Clone, Copy)]
enum Sign {
    Plus,
    Minus,
    Times,
    Over,
}

// Whether two numbers that a sign joins compare so with a third.
fn joined(x: i64, sign: Sign, y: i64, how: Compare, z: i64) -> Option<bool> {
    let (x, y, z) = (Node::Number(x), Node::Number(y), Node::Number(z));
    let how = Node::Compare(how);
    match sign {
        Sign::Plus => verdict(&[x, y, Node::Add, z, how], 0),
        Sign::Minus => verdict(&[x, y, Node::Sub, z, how], 0),
        Sign::Times => verdict(&[x, y, Node::Mul, z, how], 0),
        Sign::Over => verdict(&[x, y, Node::Div, z, how], 0),
    }
}

#[test]
fn arithmetic_is_defined_up_to_the_ends_of_64_bits(rt: HostRuntime) {
    for (x, sign, y, wanted) in [
        (i64::MAX, Sign::Plus, 0, i64::MAX),
        (i64::MIN, Sign::Minus, 0, i64::MIN),
        (i64::MIN, Sign::Times, 1, i64::MIN),
        (i64::MIN, Sign::Over, 1, i64::MIN),
        (-7, Sign::Over, 2, -3),
    ] {
        assert!(rt; joined(x, sign, y, Compare::Eq, wanted) == Some(true));
    }
}

// NOT x + y <> 0
fn negated_sum(x: i64, y: i64) -> Option<bool> {
    let (x, y, none) = (Node::Number(x), Node::Number(y), Node::Number(0));
    let unequal = Node::Compare(Compare::Ne);
    verdict(&[x, y, Node::Add, none, unequal, Node::Not], 0)
}

// NOT x / y <> 0
fn negated_quotient(x: i64, y: i64) -> Option<bool> {
    let (x, y, none) = (Node::Number(x), Node::Number(y), Node::Number(0));
    let unequal = Node::Compare(Compare::Ne);
    verdict(&[x, y, Node::Div, none, unequal, Node::Not], 0)
}

#[test]
fn a_comparison_with_an_undefined_side_is_false(rt: HostRuntime) {
    for (x, sign, y) in [
        (i64::MAX, Sign::Plus, 1),
        (i64::MIN, Sign::Minus, 1),
        (i64::MIN, Sign::Times, -1),
        (i64::MIN, Sign::Over, -1),
        (1, Sign::Over, 0),
    ] {
        assert!(rt; joined(x, sign, y, Compare::Ne, 0) == Some(false));
    }
    assert!(rt; negated_quotient(1, 0) == Some(true));
    assert!(rt; negated_sum(i64::MAX, 1) == Some(true));
}

// Whether two numbers compare so.
fn compared(x: i64, how: Compare, y: i64) -> Option<bool> {
    verdict(&[Node::Number(x), Node::Number(y), Node::Compare(how)], 0)
}

#[test]
fn numbers_compare_at_the_ends_of_64_bits(rt: HostRuntime) {
    for (x, how, y, wanted) in [
        (i64::MIN, Compare::Lt, i64::MAX, true),
        (i64::MIN, Compare::Le, i64::MAX, true),
        (i64::MAX, Compare::Le, i64::MAX, true),
        (i64::MAX, Compare::Gt, i64::MIN, true),
        (i64::MIN, Compare::Ge, i64::MIN, true),
        (i64::MIN, Compare::Eq, i64::MAX, false),
        (i64::MIN, Compare::Ne, i64::MAX, true),
    ] {
        assert!(rt; compared(x, how, y) == Some(wanted));
    }
}

// Whether two texts compare so.
fn texts_compared(left: &[u8], how: Compare, right: &[u8]) -> Option<bool> {
    let (left, right) = (Node::Text(text(left)), Node::Text(text(right)));
    verdict(&[left, right, Node::Compare(how)], 0)
}

// Whether the row's text, 'ba', compares so.
fn own_text_compared(how: Compare, right: &[u8]) -> Option<bool> {
    let (t, right) = (Node::Attribute(name(b"t")), Node::Text(text(right)));
    verdict(&[t, right, Node::Compare(how)], 0)
}

#[test]
fn a_proper_prefix_is_less(rt: HostRuntime) {
    assert!(rt; texts_compared(b"b", Compare::Lt, b"ba") == Some(true));
    assert!(rt; texts_compared(b"ba", Compare::Le, b"b") == Some(false));
    assert!(rt; texts_compared(b"", Compare::Lt, b"b") == Some(true));
    assert!(rt; own_text_compared(Compare::Eq, b"ba") == Some(true));
    assert!(rt; own_text_compared(Compare::Gt, b"b") == Some(true));
}

// v * v - 1 = 3 OR NOT v < 3
fn is_two_or_not_below_three(number: i64) -> Option<bool> {
    let v = Node::Attribute(Ident::new(b"v")?);
    let (one, three) = (Node::Number(1), Node::Number(3));
    let nodes = [
        v,
        v,
        Node::Mul,
        one,
        Node::Sub,
        three,
        Node::Compare(Compare::Eq),
        v,
        three,
        Node::Compare(Compare::Lt),
        Node::Not,
        Node::Or,
    ];
    verdict(&nodes, number)
}

#[test]
fn operators_join_the_latest_operands(rt: HostRuntime) {
    for (number, wanted) in [(1, false), (2, true), (3, true)] {
        assert!(rt; is_two_or_not_below_three(number) == Some(wanted));
    }
}

// eight times `v <> k`, for k from 0, joined by AND, and then NOT
fn is_below_eight(number: i64) -> Option<bool> {
    let v = Node::Attribute(Ident::new(b"v")?);
    let ne = Node::Compare(Compare::Ne);
    let nodes = [
        v,
        Node::Number(0),
        ne,
        v,
        Node::Number(1),
        ne,
        Node::And,
        v,
        Node::Number(2),
        ne,
        Node::And,
        v,
        Node::Number(3),
        ne,
        Node::And,
        v,
        Node::Number(4),
        ne,
        Node::And,
        v,
        Node::Number(5),
        ne,
        Node::And,
        v,
        Node::Number(6),
        ne,
        Node::And,
        v,
        Node::Number(7),
        ne,
        Node::And,
        Node::Not,
    ];
    verdict(&nodes, number)
}

#[test]
fn a_condition_has_32_nodes(rt: HostRuntime) {
    assert!(rt; is_below_eight(7) == Some(true));
    assert!(rt; is_below_eight(8) == Some(false));
}

// v = 't' AND x = 1
fn of_missing() -> Result<Code, Refusal> {
    let (v, x) = (Node::Attribute(name(b"v")), Node::Attribute(name(b"x")));
    let (t, one) = (Node::Text(text(b"t")), Node::Number(1));
    let (same, equal) = (Node::Compare(Compare::Eq), Node::Compare(Compare::Eq));
    compiled(&[v, t, same, x, one, equal, Node::And], 2)
}

// v = 't'
fn of_mixed() -> Result<Code, Refusal> {
    let (v, t) = (Node::Attribute(name(b"v")), Node::Text(text(b"t")));
    compiled(&[v, t, Node::Compare(Compare::Eq)], 2)
}

#[test]
fn missing_names_come_before_ill_typed_comparisons(rt: HostRuntime) {
    assert!(rt; matches!(of_missing(), Err(Refusal::NoAttribute { nth: 4 })));
    assert!(rt; matches!(of_mixed(), Err(Refusal::IllTyped { nth: 3 })));
}

// The range that a condition gives the attribute at a place, where it is accepted.
fn range(nodes: &[Node], attribute: u8) -> Option<Range>
    requires condition { IsCondition nodes.now }
    requires few { length nodes.now ≤ 32 }
{
    match compiled(nodes, 0) {
        Ok(code) => Some(code.derive(attribute)),
        Err(_) => None,
    }
}

// 3 <= v AND v < 7
fn range_of_both() -> Option<Range> {
    let v = Node::Attribute(Ident::new(b"v")?);
    let (three, seven) = (Node::Number(3), Node::Number(7));
    let (le, lt) = (Node::Compare(Compare::Le), Node::Compare(Compare::Lt));
    range(&[three, v, le, v, seven, lt, Node::And], 0)
}

// v = 9 OR v = 1
fn range_of_either() -> Option<Range> {
    let v = Node::Attribute(Ident::new(b"v")?);
    let (one, nine) = (Node::Number(1), Node::Number(9));
    let eq = Node::Compare(Compare::Eq);
    range(&[v, nine, eq, v, one, eq, Node::Or], 0)
}

// v < 1 AND v > 1
fn range_of_neither(attribute: u8) -> Option<Range> {
    let v = Node::Attribute(Ident::new(b"v")?);
    let one = Node::Number(1);
    let (lt, gt) = (Node::Compare(Compare::Lt), Node::Compare(Compare::Gt));
    range(&[v, one, lt, v, one, gt, Node::And], attribute)
}

// NOT v = 1
fn range_of_unequal() -> Option<Range> {
    let (v, one) = (Node::Attribute(name(b"v")), Node::Number(1));
    range(&[v, one, Node::Compare(Compare::Eq), Node::Not], 0)
}

#[test]
fn ranges_are_derived(rt: HostRuntime) {
    let all = Range::Between {
        lo: i64::MIN,
        hi: i64::MAX,
    };
    assert!(rt; range_of_both() == Some(Range::Between { lo: 3, hi: 6 }));
    assert!(rt; range_of_either() == Some(Range::Between { lo: 1, hi: 9 }));
    assert!(rt; range_of_neither(0) == Some(Range::Empty));
    assert!(rt; range_of_neither(2) == Some(all));
    assert!(rt; range_of_unequal() == Some(all));
    assert!(rt; range(&[], 0) == Some(all));
}
