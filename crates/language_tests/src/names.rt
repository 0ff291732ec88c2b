//! Names, texts, keywords and lists: each public call once, on values from outside.

use db_model::{Attributes, Condition, Ident, Keyword, Node, Text, Tuple, Value};

// Whether the bytes make a name.
fn makes_name(bytes: &[u8]) -> bool {
    Ident::new(bytes).is_some()
}

// Whether the bytes make a name that gives them back.
fn is_name(bytes: &[u8]) -> bool {
    match Ident::new(bytes) {
        Some(name) => name.bytes() == bytes,
        None => false,
    }
}

// Whether the text that the bytes make gives them back, where they make one.
fn is_text(bytes: &[u8]) -> Option<bool> {
    match Text::new(bytes) {
        Some(text) => Some(text.bytes() == bytes),
        None => None,
    }
}

#[test]
fn names_are_words_that_are_no_keywords(rt: HostRuntime) {
    for (bytes, wanted) in [
        (&b"minute_2"[..], true),
        (&b"abcdefghijklmno"[..], true),
        (&b"abcdefghijklmnop"[..], false),
        (&b"2nd"[..], false),
        (&b"_a"[..], false),
        (&b""[..], false),
        (&b"Select"[..], false),
        (&b"TIME"[..], true),
    ] {
        assert!(rt; makes_name(bytes) == wanted);
    }
}

#[test]
fn names_and_texts_give_their_bytes_back(rt: HostRuntime) {
    assert!(rt; is_name(b"k"));
    for (bytes, wanted) in [
        (&b"it is 7"[..], Some(true)),
        (&b"it's"[..], None),
        (&[b'a'; 33][..], None),
    ] {
        assert!(rt; is_text(bytes) == wanted);
    }
}

// Whether these bytes are this keyword.
fn is_keyword(bytes: &[u8], keyword: Option<Keyword>) -> bool {
    Keyword::of(bytes) == keyword
}

fn is_written(keyword: Keyword, bytes: &[u8]) -> bool {
    keyword.text() == bytes
}

#[test]
fn keywords_are_read_in_any_letter_case(rt: HostRuntime) {
    assert!(rt; is_keyword(b"mEdIaN", Some(Keyword::KMEDIAN)));
    assert!(rt; is_keyword(b"time", None));
    assert!(rt; is_written(Keyword::KINDEX, b"INDEX"));
}

// A tuple of the number 7 and an empty text.
fn seven_and_text() -> Tuple {
    let mut tuple = Tuple::new();
    tuple.push(Value::Number(7));
    tuple.push(Value::Text(Text::default()));
    tuple
}

// Whether a tuple has two values, of which the first is the number 7.
fn begins_with_seven(tuple: &Tuple) -> bool {
    tuple.len() == 2 && tuple.as_slice().len() == 2 && *tuple.get(0) == Value::Number(7)
}

// A condition of one node.
fn one_node() -> Condition {
    let mut condition = Condition::new();
    condition.push(Node::Not);
    condition
}

#[test]
fn lists_hold_what_was_pushed(rt: HostRuntime) {
    assert!(rt; Tuple::new().is_empty());
    let mut tuple = seven_and_text();
    assert!(rt; begins_with_seven(&tuple));
    tuple.clear();
    assert!(rt; tuple.len() == 0);
    assert!(rt; Attributes::default().is_empty());
    assert!(rt; one_node().len() == 1);
}
