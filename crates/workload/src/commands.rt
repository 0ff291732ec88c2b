//! Commands by their numbers.

#![tactic(auto)]

ghost use Rattle.std.specs.Prelude.{◌≡◌, IsTrue, ℕ, [], ◌∷◌, ◌++◌, codes};
ghost use Rattle.db_model.specs.Cond.{IsCondition};
ghost use Rattle.db_model.specs.Names.{is_name};
ghost use Rattle.db_model.specs.Spelling.{nodes_of};
ghost use Rattle.db_model.specs.Workload.{command_at, counting, drawn, inserting};

use db_model::{
    Agg, AggList, Command, Compare, Condition, DomainAsked, Ident, IndexKind, Node, Tuple, Value,
};

/// Puts command number `k` of a seed, from 0, into `command`. The first four make the relation `w`
/// with the attributes `k` and `v` and an index on `k`; the rest insert rows, and each 64th counts.
pub fn nth_command(seed: u32, k: u32, command: &mut Command)
    ensures command { command.new ≡ command_at seed k }
    ensures condition { IsCondition (nodes_of command.new) }
{
    *command = match k {
        0 => Command::CreateRelation { name: name_w() },
        1 => Command::CreateAttribute {
            name: name_k(),
            domain: DomainAsked::Long,
            relation: name_w(),
        },
        2 => Command::CreateAttribute {
            name: name_v(),
            domain: DomainAsked::Int,
            relation: name_w(),
        },
        3 => Command::CreateIndex {
            relation: name_w(),
            attribute: name_k(),
            kind: IndexKind::MaxHeap,
        },
        _ if k % 64 == 63 => counting(drawn(seed, k)),
        _ => inserting(drawn(seed, k), k),
    };
}

// The number of command `k`, 0 to 511.
fn drawn(seed: u32, k: u32) -> u32
    ensures { result ≡ drawn seed k }
{
    let mixed = seed ^ k.wrapping_mul(2_654_435_761);
    mixed.wrapping_mul(1_664_525).wrapping_add(1_013_904_223) / 65_536 % 512
}

// SELECT COUNT(v) FROM w WHERE k = x
fn counting(x: u32) -> Command
    ensures { result ≡ counting x }
{
    let mut list = AggList::new();
    list.push((Agg::Count, name_v()));
    let mut condition = Condition::new();
    condition.push(Node::Attribute(name_k()));
    condition.push(Node::Number(i64::from(x)));
    condition.push(Node::Compare(Compare::Eq));
    Command::Aggregate {
        list,
        relation: name_w(),
        condition,
    }
}

// INSERT (x, k mod 1000) INTO w
fn inserting(x: u32, k: u32) -> Command
    ensures { result ≡ inserting x k }
{
    let mut values = Tuple::new();
    values.push(Value::Number(i64::from(x)));
    values.push(Value::Number(i64::from(k % 1000)));
    Command::Insert {
        values,
        relation: name_w(),
    }
}

#[tactic(auto, unfolding(db_model::specs::Keywords::keyword_of, db_model::specs::Keywords::keywords))]
fn name_w() -> Ident
    ensures { result ≡ codes "w" }
{
    name(b"w")
}

#[tactic(auto, unfolding(db_model::specs::Keywords::keyword_of, db_model::specs::Keywords::keywords))]
fn name_k() -> Ident
    ensures { result ≡ codes "k" }
{
    name(b"k")
}

#[tactic(auto, unfolding(db_model::specs::Keywords::keyword_of, db_model::specs::Keywords::keywords))]
fn name_v() -> Ident
    ensures { result ≡ codes "v" }
{
    name(b"v")
}

// The name of these bytes.
fn name(bytes: &[u8]) -> Ident
    requires { IsTrue (is_name bytes.now) }
    ensures { result ≡ bytes.now }
{
    match Ident::new(bytes) {
        Some(name) => name,
        None => unreachable!(),
    }
}
