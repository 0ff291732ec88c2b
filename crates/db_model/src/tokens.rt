//! The tokens of the language.

#![tactic(auto)]

ghost use Rattle.std.specs.Prelude.{◌≡◌};
ghost use Rattle.std.specs.Str.{str_eq_ignore_ascii_case};
ghost use Rattle.db_model.specs.Keywords.{keyword_among, keyword_of, keyword_text, keywords_of_length};

use crate::names::Ident;
use crate::texts::Text;

/// A token of a command.
#[derive(Clone, Copy, Debug, PartialEq, Eq)]
pub enum Token {
    /// A number of 1 to 18 digits, without a sign.
    // The default comes first, so that an empty list is zeros, which are written where the list stays.
    Number(i64),
    /// A keyword, written in any letter case.
    Word(Keyword),
    /// A name, whose letter case counts.
    Name(Ident),
    /// A text between quotes.
    Quoted(Text),
    /// A sign.
    Sign(Sign),
}

impl Default for Token {
    fn default() -> Token {
        Token::Number(0)
    }
}

/// A sign of the language.
#[derive(Clone, Copy, Debug, PartialEq, Eq)]
pub enum Sign {
    LeftBracket,
    RightBracket,
    Comma,
    Dot,
    Plus,
    Minus,
    Star,
    Slash,
    Equal,
    Unequal,
    Less,
    LessEqual,
    Greater,
    GreaterEqual,
}

/// A keyword: K and its capitals.
#[derive(Clone, Copy, Debug, PartialEq, Eq)]
pub enum Keyword {
    KCREATE,
    KRELATION,
    KATTRIBUTE,
    KINDEX,
    KDOMAIN,
    KINT,
    KLONG,
    KSTRING,
    KIN,
    KTYPE,
    KINLINE,
    KMAXHEAP,
    KMEMHASH,
    KINSERT,
    KINTO,
    KSELECT,
    KFROM,
    KWHERE,
    KJOIN,
    KON,
    KPROJECT,
    KREMOVE,
    KPACK,
    KOPEN,
    KFETCH,
    KCLOSE,
    KAND,
    KOR,
    KNOT,
    KCOUNT,
    KSUM,
    KMIN,
    KMAX,
    KMEAN,
    KMEDIAN,
}

// The keywords by the number of their letters, those of INSERT and SELECT first.
const OF_TWO: [Keyword; 3] = [Keyword::KIN, Keyword::KON, Keyword::KOR];

const OF_THREE: [Keyword; 6] = [
    Keyword::KINT,
    Keyword::KAND,
    Keyword::KNOT,
    Keyword::KSUM,
    Keyword::KMIN,
    Keyword::KMAX,
];

const OF_FOUR: [Keyword; 8] = [
    Keyword::KINTO,
    Keyword::KFROM,
    Keyword::KLONG,
    Keyword::KTYPE,
    Keyword::KJOIN,
    Keyword::KPACK,
    Keyword::KOPEN,
    Keyword::KMEAN,
];

const OF_FIVE: [Keyword; 5] = [
    Keyword::KWHERE,
    Keyword::KINDEX,
    Keyword::KFETCH,
    Keyword::KCLOSE,
    Keyword::KCOUNT,
];

const OF_SIX: [Keyword; 8] = [
    Keyword::KINSERT,
    Keyword::KSELECT,
    Keyword::KCREATE,
    Keyword::KDOMAIN,
    Keyword::KSTRING,
    Keyword::KINLINE,
    Keyword::KREMOVE,
    Keyword::KMEDIAN,
];

const OF_SEVEN: [Keyword; 3] = [Keyword::KMAXHEAP, Keyword::KMEMHASH, Keyword::KPROJECT];

const OF_EIGHT: [Keyword; 1] = [Keyword::KRELATION];

const OF_NINE: [Keyword; 1] = [Keyword::KATTRIBUTE];

impl Keyword {
    /// The keyword that a word is, in any letter case; None where it is none.
    pub fn of(word: &[u8]) -> Option<Keyword>
        ensures { result ≡ keyword_of word.now }
    {
        keyword_among(of_length(word.len()), word)
    }

    /// The keyword in capitals.
    pub fn text(self) -> &'static [u8]
        ensures { result.now ≡ keyword_text self }
    {
        match self {
            Keyword::KCREATE => b"CREATE",
            Keyword::KRELATION => b"RELATION",
            Keyword::KATTRIBUTE => b"ATTRIBUTE",
            Keyword::KINDEX => b"INDEX",
            Keyword::KDOMAIN => b"DOMAIN",
            Keyword::KINT => b"INT",
            Keyword::KLONG => b"LONG",
            Keyword::KSTRING => b"STRING",
            Keyword::KIN => b"IN",
            Keyword::KTYPE => b"TYPE",
            Keyword::KINLINE => b"INLINE",
            Keyword::KMAXHEAP => b"MAXHEAP",
            Keyword::KMEMHASH => b"MEMHASH",
            Keyword::KINSERT => b"INSERT",
            Keyword::KINTO => b"INTO",
            Keyword::KSELECT => b"SELECT",
            Keyword::KFROM => b"FROM",
            Keyword::KWHERE => b"WHERE",
            Keyword::KJOIN => b"JOIN",
            Keyword::KON => b"ON",
            Keyword::KPROJECT => b"PROJECT",
            Keyword::KREMOVE => b"REMOVE",
            Keyword::KPACK => b"PACK",
            Keyword::KOPEN => b"OPEN",
            Keyword::KFETCH => b"FETCH",
            Keyword::KCLOSE => b"CLOSE",
            Keyword::KAND => b"AND",
            Keyword::KOR => b"OR",
            Keyword::KNOT => b"NOT",
            Keyword::KCOUNT => b"COUNT",
            Keyword::KSUM => b"SUM",
            Keyword::KMIN => b"MIN",
            Keyword::KMAX => b"MAX",
            Keyword::KMEAN => b"MEAN",
            Keyword::KMEDIAN => b"MEDIAN",
        }
    }
}

// The keywords of this many letters: a word is compared with no others.
#[tactic(auto, unfolding(crate::specs::Keywords::keywords), using(crate::proofs::Lengths::none_of_length))]
fn of_length(len: usize) -> &'static [Keyword]
    ensures { result.now ≡ keywords_of_length len }
{
    match len {
        2 => &OF_TWO,
        3 => &OF_THREE,
        4 => &OF_FOUR,
        5 => &OF_FIVE,
        6 => &OF_SIX,
        7 => &OF_SEVEN,
        8 => &OF_EIGHT,
        9 => &OF_NINE,
        _ => &[],
    }
}

// The first of the keywords `known` that the word is.
fn keyword_among(known: &[Keyword], word: &[u8]) -> Option<Keyword>
    ensures { result ≡ keyword_among known.now word.now }
{
    for k in known {
        if is_spelt(*k, word) {
            return Some(*k);
        }
    }
    None
}

// Whether a word is the keyword `k`, in any letter case.
fn is_spelt(k: Keyword, word: &[u8]) -> bool
    ensures { result ≡ str_eq_ignore_ascii_case word.now (keyword_text k) }
{
    word.eq_ignore_ascii_case(k.text())
}
