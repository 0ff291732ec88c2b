//! What is asked of a relation, as ranges of its attributes and as a condition.

ghost use Rattle.std.specs.Prelude.{◌≡◌, ◌+◌, ◌++◌, ◌∷◌, [], ◌≤◌, OnSome, length};
ghost use Rattle.db_model.specs.Cond.{IsCondition};
ghost use Rattle.db_model.specs.declared.commands.Node.TheVariants as Nodes;

use db_model::{Compare, Condition, Ident, Node, Range};
use index_set::Search;

/// Which rows are asked for.
#[derive(Clone, Copy)]
pub enum Asked {
    Nothing,
    Everything,
    /// Those whose k is 2 to 9.
    MiddleK,
    /// Those whose l is 3.
    ThreeL,
    /// Those whose r is -3.
    LeastR,
    /// Those whose l is 3 and whose r is above -2. Its ranges are those of the l alone.
    ThreeLMoreR,
}

impl Asked {
    /// Whether a row of these keys is asked for.
    pub fn takes(&self, keys: &[i16; 3]) -> bool {
        let [k, l, r] = *keys;
        match *self {
            Asked::Nothing => false,
            Asked::Everything => true,
            Asked::MiddleK => 2 <= k && k <= 9,
            Asked::ThreeL => l == 3,
            Asked::LeastR => r == -3,
            Asked::ThreeLMoreR => l == 3 && r > -2,
        }
    }

    /// The ranges of the attributes.
    pub fn ranges(&self) -> [Range; 8] {
        let all = Range::Between {
            lo: i64::MIN,
            hi: i64::MAX,
        };
        let mut ranges = [all; 8];
        match *self {
            Asked::Nothing => ranges[1] = Range::Empty,
            Asked::Everything => {}
            Asked::MiddleK => ranges[0] = Range::Between { lo: 2, hi: 9 },
            Asked::LeastR => ranges[2] = Range::Between { lo: -3, hi: -3 },
            Asked::ThreeL | Asked::ThreeLMoreR => ranges[1] = Range::Between { lo: 3, hi: 3 },
        }
        ranges
    }

    /// Whether a search is the one for these ranges.
    pub fn is_for(&self, search: &Search) -> bool {
        match *self {
            Asked::Nothing => *search == Search::Nothing,
            Asked::Everything => *search == Search::Scan,
            Asked::MiddleK => matches!(search, Search::Order { .. }),
            Asked::LeastR => matches!(search, Search::Table { .. }),
            Asked::ThreeL | Asked::ThreeLMoreR => matches!(search, Search::Tree { .. }),
        }
    }

    /// The condition.
    pub fn condition(&self) -> Condition
        ensures { IsCondition result }
    {
        match *self {
            Asked::Nothing => both((b"l", Compare::Eq, 3), (b"l", Compare::Lt, 3)),
            Asked::Everything => Condition::new(),
            Asked::MiddleK => both((b"k", Compare::Ge, 2), (b"k", Compare::Le, 9)),
            Asked::ThreeL => one((b"l", Compare::Eq, 3)),
            Asked::LeastR => one((b"r", Compare::Eq, -3)),
            Asked::ThreeLMoreR => both((b"l", Compare::Eq, 3), (b"r", Compare::Gt, -2)),
        }
    }
}

fn attribute(name: &[u8]) -> Ident {
    Ident::new(name).unwrap_or_default()
}

// The comparison of an attribute with a number.
fn one(compared: (&[u8], Compare, i64)) -> Condition
    ensures { IsCondition result }
{
    let (name, sign, number) = compared;
    let mut nodes = Condition::new();
    nodes.push(Node::Attribute(attribute(name)));
    nodes.push(Node::Number(number));
    nodes.push(Node::Compare(sign));
    nodes
}

// Two comparisons, joined by AND.
fn both(first: (&[u8], Compare, i64), second: (&[u8], Compare, i64)) -> Condition
    ensures { IsCondition result }
{
    let mut nodes = Condition::new();
    let (name, sign, number) = first;
    nodes.push(Node::Attribute(attribute(name)));
    nodes.push(Node::Number(number));
    nodes.push(Node::Compare(sign));
    let (name, sign, number) = second;
    nodes.push(Node::Attribute(attribute(name)));
    nodes.push(Node::Number(number));
    nodes.push(Node::Compare(sign));
    nodes.push(Node::And);
    nodes
}
