//! Commands of worked examples; the places of refusals are counted by hand.

use aql_parse::parse;
use db_model::{Command, Ident, Node, Pool, Query, Refusal};

const LONG: &[u8; 58] = b"SELECT k FROM s WHERE k = 1 AND NOT ( t < 'a' ) OR k <> -2";

fn answer(bytes: &[u8], command: &mut Command) -> Result<(), Refusal> {
    if bytes.len() > 512 {
        return Err(Refusal::Long);
    }
    parse(bytes, command)
}

fn read(bytes: &[u8]) -> (Command, Result<(), Refusal>) {
    let mut command = Command::FetchCursor { number: 0 };
    let answer = answer(bytes, &mut command);
    (command, answer)
}

fn is_accepted(bytes: &[u8]) -> bool {
    read(bytes).1.is_ok()
}

// The place of a Syntax refusal.
fn refused_at(bytes: &[u8]) -> Option<u16> {
    match read(bytes).1 {
        Err(Refusal::Syntax { at }) => Some(at),
        _ => None,
    }
}

#[test]
fn refusals_stand_at_the_end_of_the_longest_front(rt: HostRuntime) {
    for (bytes, at) in [
        (&b"SELECT FROM s"[..], 6),
        (&b"CREATE TABLE s"[..], 6),
        (&b"SELECT k FROM s WHERE k = "[..], 25),
        (&b"INSERT (1234567890123456789) INTO s"[..], 8),
        (&b"  "[..], 0),
        (&b"1a"[..], 0),
        (&b"REMOVE FROM s WHERE 1 + ( a = 2 )"[..], 27),
        (&b"REMOVE FROM s WHERE (a) AND b = 1"[..], 23),
        (&b"SELECT a,a,a,a,a,a,a,a,a FROM s"[..], 22),
    ] {
        assert!(rt; refused_at(bytes) == Some(at));
    }
}

// The first of some bytes.
fn front(bytes: &[u8], end: u16) -> &[u8] {
    let end = usize::from(end);
    if end <= bytes.len() {
        &bytes[..end]
    } else {
        bytes
    }
}

#[test]
fn each_front_of_a_long_command_is_refused_at_its_end(rt: HostRuntime) {
    for end in [6, 8, 13, 21, 23, 25, 31, 35, 37, 39, 41, 45, 50, 52, 55, 57] {
        assert!(rt; refused_at(front(LONG, end)) == Some(end));
    }
    for end in [15, 27, 47, 58] {
        assert!(rt; is_accepted(front(LONG, end)));
    }
}

// The place of the refusal where one of the bytes begins no token.
fn refused_with_no_token_at(bytes: &[u8; 58], place: u16) -> Option<u16> {
    let mut bytes = *bytes;
    if place < 58 {
        bytes[usize::from(place)] = b'?';
    }
    refused_at(&bytes)
}

#[test]
fn each_front_is_refused_at_its_end_where_no_token_follows(rt: HostRuntime) {
    for end in [
        6, 8, 13, 15, 21, 23, 25, 27, 31, 35, 37, 39, 41, 45, 47, 50, 52, 55, 57,
    ] {
        assert!(rt; refused_with_no_token_at(LONG, end) == Some(end));
    }
}

// A SELECT whose condition is an opening bracket again and again.
fn opened() -> [u8; 512] {
    let mut bytes = [b'('; 512];
    bytes[..22].copy_from_slice(b"SELECT k FROM s WHERE ");
    bytes
}

// A SELECT of `k=1` in 243 pairs of brackets.
fn nested() -> [u8; 512] {
    let mut bytes = [b' '; 512];
    bytes[..22].copy_from_slice(b"SELECT k FROM s WHERE ");
    for i in 22..265usize {
        bytes[i] = b'(';
        bytes[i + 246] = b')';
    }
    bytes[265..268].copy_from_slice(b"k=1");
    bytes
}

// How many nodes the condition of a SELECT has.
fn nodes_of(command: &Command) -> Option<usize> {
    match command {
        Command::Ask(Query::Select { condition, .. }) => Some(condition.as_slice().len()),
        _ => None,
    }
}

// How many nodes the condition of a SELECT that is accepted has.
fn accepted_nodes(bytes: &[u8]) -> Option<usize> {
    let (command, answer) = read(bytes);
    match answer {
        Ok(()) => nodes_of(&command),
        Err(_) => None,
    }
}

// Whether a SELECT is accepted whose condition has OR as its last operator.
fn ends_with_or(bytes: &[u8]) -> bool {
    let (command, answer) = read(bytes);
    match &command {
        Command::Ask(Query::Select { condition, .. }) => {
            answer.is_ok() && matches!(condition.as_slice(), [.., Node::Or])
        }
        _ => false,
    }
}

#[test]
fn and_binds_tighter_than_or(rt: HostRuntime) {
    assert!(rt; ends_with_or(b"SELECT k FROM s WHERE a = 1 OR b = 2 AND c = 3"));
    assert!(rt; ends_with_or(b"SELECT k FROM s WHERE a = 1 AND b = 2 OR c = 3"));
    assert!(rt; !ends_with_or(b"SELECT k FROM s WHERE ( a = 1 OR b = 2 ) AND c = 3"));
}

#[test]
fn brackets_nest_as_deep_as_the_bytes_allow(rt: HostRuntime) {
    assert!(rt; refused_at(&opened()) == Some(512));
    assert!(rt; accepted_nodes(&nested()) == Some(3));
}

// A condition of 32 nodes, with 29 times NOT.
const MOST: &[u8] = b"REMOVE FROM s WHERE \
    NOT NOT NOT NOT NOT NOT NOT NOT NOT NOT NOT NOT NOT NOT NOT \
    NOT NOT NOT NOT NOT NOT NOT NOT NOT NOT NOT NOT NOT NOT k = 1";

// A condition of 33 nodes, with 30 times NOT.
const TOO_MANY: &[u8] = b"REMOVE FROM s WHERE \
    NOT NOT NOT NOT NOT NOT NOT NOT NOT NOT NOT NOT NOT NOT NOT \
    NOT NOT NOT NOT NOT NOT NOT NOT NOT NOT NOT NOT NOT NOT NOT k = 1";

fn is_refused(bytes: &[u8], refusal: Refusal) -> bool {
    read(bytes).1 == Err(refusal)
}

#[test]
fn a_condition_has_at_most_32_nodes(rt: HostRuntime) {
    let full = Refusal::Full {
        pool: Pool::Nodes,
        limit: 32,
    };
    assert!(rt; is_refused(TOO_MANY, full));
    assert!(rt; is_accepted(MOST));
}

fn is_named(name: &Ident, bytes: &[u8]) -> bool {
    name.bytes() == bytes
}

// Whether a command inserts one value into `log`.
fn inserts_into_log(command: &Command) -> bool {
    match command {
        Command::Insert { values, relation } => values.len() == 1 && is_named(relation, b"log"),
        _ => false,
    }
}

// The names of two relations, and of what they are joined on.
fn joined(query: &Query) -> Option<[Ident; 3]> {
    match query {
        Query::Join {
            left,
            right,
            on,
            ..
        } => Some([*left, *right, *on]),
        _ => None,
    }
}

// The names in a command that opens a join.
fn opened_join(command: &Command) -> Option<[Ident; 3]> {
    match command {
        Command::OpenCursor { query, .. } => joined(query),
        _ => None,
    }
}

fn are_a_b_k(names: &[Ident; 3]) -> bool {
    is_named(&names[0], b"a") && is_named(&names[1], b"b") && is_named(&names[2], b"k")
}

// Whether a command opens a join of `a` and `b` on `k`.
fn opens_a_join(command: &Command) -> bool {
    match opened_join(command) {
        Some(names) => are_a_b_k(&names),
        None => false,
    }
}

#[test]
fn commands_are_read_with_their_parts(rt: HostRuntime) {
    assert!(rt; inserts_into_log(&read(b"insert ( -3 )into log").0));
    assert!(rt; opens_a_join(&read(b"open 2 join a, b on k project x, k").0));
    assert!(rt; is_accepted(b"CREATE ATTRIBUTE t DOMAIN tImE IN log"));
    assert!(rt; refused_at(b"CREATE ATTRIBUTE t DOMAIN TIMES IN log") == Some(25));
}

// Reads a command into the place of an earlier one.
fn next(bytes: &[u8], command: &mut Command) -> Result<(), Refusal> {
    if bytes.len() > 512 {
        return Err(Refusal::Long);
    }
    parse(bytes, command)
}

#[test]
fn a_command_is_read_into_the_place_of_any_other(rt: HostRuntime) {
    let mut command = Command::FetchCursor { number: 0 };
    assert!(rt; next(LONG, &mut command).is_ok());
    let refused = next(b"INSERT (1, 2, 3 INTO s", &mut command);
    assert!(rt; refused == Err(Refusal::Syntax { at: 15 }));
    assert!(rt; nodes_of(&command) == Some(12));
    assert!(rt; next(b"INSERT (1, 2, 3) INTO s", &mut command).is_ok());
    assert!(rt; next(b"INSERT (4) INTO log", &mut command).is_ok());
    assert!(rt; inserts_into_log(&command));
    assert!(rt; next(b"SELECT k FROM s", &mut command).is_ok());
    assert!(rt; nodes_of(&command) == Some(0));
}
