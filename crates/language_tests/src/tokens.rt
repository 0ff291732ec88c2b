//! Tokens of worked examples, whose expected values are counted by hand.

use aql_lex::{Lexed, next_token};
use db_model::{Keyword, Sign, Token};

// What stands at a place of few bytes.
fn lexed(bytes: &[u8], at: u16) -> Option<Lexed> {
    if bytes.len() > 512 || usize::from(at) > bytes.len() {
        return None;
    }
    Some(next_token(bytes, at))
}

// The first token, and where it ends.
fn token(bytes: &[u8]) -> Option<(Token, u16)> {
    match lexed(bytes, 0) {
        Some(Lexed::Token { token, to, .. }) => Some((token, to)),
        _ => None,
    }
}

fn has_no_token(bytes: &[u8]) -> bool {
    token(bytes).is_none()
}

#[test]
fn keywords_are_read_in_any_letter_case(rt: HostRuntime) {
    for (bytes, keyword, len) in [
        (&b"cReAtE"[..], Keyword::KCREATE, 6),
        (&b"Relation"[..], Keyword::KRELATION, 8),
        (&b"aTTRIBUTE"[..], Keyword::KATTRIBUTE, 9),
        (&b"index"[..], Keyword::KINDEX, 5),
        (&b"DOMAIn"[..], Keyword::KDOMAIN, 6),
        (&b"Int"[..], Keyword::KINT, 3),
        (&b"lONg"[..], Keyword::KLONG, 4),
        (&b"stRING"[..], Keyword::KSTRING, 6),
        (&b"iN"[..], Keyword::KIN, 2),
        (&b"Type"[..], Keyword::KTYPE, 4),
        (&b"inLine"[..], Keyword::KINLINE, 6),
        (&b"MaxHeap"[..], Keyword::KMAXHEAP, 7),
        (&b"memHASH"[..], Keyword::KMEMHASH, 7),
        (&b"InSeRt"[..], Keyword::KINSERT, 6),
        (&b"intO"[..], Keyword::KINTO, 4),
        (&b"SElect"[..], Keyword::KSELECT, 6),
        (&b"froM"[..], Keyword::KFROM, 4),
        (&b"wHERE"[..], Keyword::KWHERE, 5),
        (&b"joIN"[..], Keyword::KJOIN, 4),
        (&b"On"[..], Keyword::KON, 2),
        (&b"proJECT"[..], Keyword::KPROJECT, 7),
        (&b"reMOVE"[..], Keyword::KREMOVE, 6),
        (&b"Pack"[..], Keyword::KPACK, 4),
        (&b"oPEN"[..], Keyword::KOPEN, 4),
        (&b"fetCH"[..], Keyword::KFETCH, 5),
        (&b"clOSE"[..], Keyword::KCLOSE, 5),
        (&b"And"[..], Keyword::KAND, 3),
        (&b"oR"[..], Keyword::KOR, 2),
        (&b"nOt"[..], Keyword::KNOT, 3),
        (&b"Count"[..], Keyword::KCOUNT, 5),
        (&b"suM"[..], Keyword::KSUM, 3),
        (&b"miN"[..], Keyword::KMIN, 3),
        (&b"Max"[..], Keyword::KMAX, 3),
        (&b"mEaN"[..], Keyword::KMEAN, 4),
        (&b"mediaN"[..], Keyword::KMEDIAN, 6),
    ] {
        assert!(rt; token(bytes) == Some((Token::Word(keyword), len)));
    }
}

#[test]
fn the_longest_token_is_taken(rt: HostRuntime) {
    for (bytes, wanted, len) in [
        (&b"<="[..], Token::Sign(Sign::LessEqual), 2),
        (&b"<>"[..], Token::Sign(Sign::Unequal), 2),
        (&b"< ="[..], Token::Sign(Sign::Less), 1),
        (&b" \t\r\n>=1"[..], Token::Sign(Sign::GreaterEqual), 6),
        (&b"1a"[..], Token::Number(1), 1),
        (
            &b"123456789012345678"[..],
            Token::Number(123_456_789_012_345_678),
            18,
        ),
    ] {
        assert!(rt; token(bytes) == Some((wanted, len)));
    }
}

#[test]
fn what_is_too_long_or_open_is_no_token(rt: HostRuntime) {
    for bytes in [
        &b"1234567890123456789"[..],
        &b"abcdefghijklmnop"[..],
        &b"'a"[..],
        &b"'a\nb'"[..],
        &b"\x0b"[..],
        &b"_a"[..],
    ] {
        assert!(rt; has_no_token(bytes));
    }
    for (bytes, wanted) in [(b"PACK  ", Lexed::End), (b"PACK ?", Lexed::Bad)] {
        assert!(rt; lexed(bytes, 4) == Some(wanted));
    }
}
