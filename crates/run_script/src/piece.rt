//! The piece of a script at hand.

#![tactic(auto)]

ghost use Rattle.std.specs.Prelude.{◌≡◌, ℕ, ◌+◌, ◌≤◌, List, [], ◌∷◌, ◌++◌, false, true, length, take, nat_lt};
ghost use Rattle.std.specs.List.{prefix_len};
ghost use Rattle.db_model.specs.Script.{ends_piece, past_white, quoted_after};
ghost use Rattle.db_model.specs.Tokens.{is_white};
ghost use Rattle.run_script.specs.Gathers.{GathersPiece, is_plain};

use arrayvec::ArrayVec;

/// What is kept of the piece of a script at hand: no command has more than 512 bytes.
#[derive(Drop)]
pub struct Piece {
    /// The first 512 bytes, without white space in front.
    pub bytes: ArrayVec<u8, 512>,
    /// Whether there are more.
    pub long: bool,
    /// Whether the piece stands inside quotes.
    pub quoted: bool,
}

impl Piece {
    /// A piece of which no byte has come.
    pub fn new() -> Piece
        ensures gathers { GathersPiece [] result.bytes.items result.long }
        ensures outside { result.quoted ≡ false }
    {
        Piece {
            bytes: ArrayVec::new(),
            long: false,
            quoted: false,
        }
    }

    /// Forgets what came: the next piece begins.
    pub fn clear(&mut self)
        ensures gathers { GathersPiece [] self.new.bytes.items self.new.long }
        ensures outside { self.new.quoted ≡ false }
    {
        self.bytes.clear();
        self.long = false;
        self.quoted = false;
    }

    /// Whether the piece ends at this byte.
    pub fn ends_at(&self, byte: u8) -> bool
        ensures { result ≡ ends_piece self.now.quoted byte }
    {
        if self.quoted { false } else { byte == b';' }
    }

    /// Takes the next byte of the piece.
    pub fn push(&mut self, byte: u8)
        ensures gathers { (p : List ℕ) → GathersPiece p self.old.bytes.items self.old.long
            → GathersPiece (p ++ byte ∷ []) self.new.bytes.items self.new.long }
        ensures quoted { self.new.quoted ≡ quoted_after self.old.quoted byte }
    {
        self.quoted = quoted_after(self.quoted, byte);
        self.keep(&[byte]);
    }

    /// Takes the bytes in front that neither end the piece nor begin or end a quote, and answers how many.
    pub fn push_plain(&mut self, bytes: &[u8]) -> usize
        ensures plain { result ≡ prefix_len (is_plain self.old.quoted) bytes.now }
        ensures within { result ≤ length bytes.now }
        ensures gathers { (p : List ℕ) → GathersPiece p self.old.bytes.items self.old.long
            → GathersPiece (p ++ take result bytes.now) self.new.bytes.items self.new.long }
        ensures quoted { self.new.quoted ≡ self.old.quoted }
    {
        let n = plain_len(bytes, self.quoted);
        self.keep(&bytes[..n]);
        n
    }

    fn keep(&mut self, bytes: &[u8])
        ensures gathers { (p : List ℕ) → GathersPiece p self.old.bytes.items self.old.long
            → GathersPiece (p ++ bytes.now) self.new.bytes.items self.new.long }
        ensures quoted { self.new.quoted ≡ self.old.quoted }
    {
        if self.bytes.is_empty() {
            self.keep_first(past_white(bytes));
        } else {
            self.keep_first(bytes);
        }
    }

    // Keeps of some bytes the first ones, as far as there is room.
    fn keep_first(&mut self, bytes: &[u8])
        ensures bytes { (t : List ℕ) → self.old.bytes.items ≡ take 512 t
            → self.new.bytes.items ≡ take 512 (t ++ bytes.now) }
        ensures long { (t : List ℕ) → self.old.bytes.items ≡ take 512 t → self.old.long ≡ nat_lt 512 (length t)
            → self.new.long ≡ nat_lt 512 (length (t ++ bytes.now)) }
        ensures quoted { self.new.quoted ≡ self.old.quoted }
    {
        let room = self.bytes.remaining_capacity();
        if room < bytes.len() {
            self.long = true;
            self.append(&bytes[..room]);
        } else {
            self.append(bytes);
        }
    }

    fn append(&mut self, bytes: &[u8])
        requires room { length self.old.bytes.items + length bytes.now ≤ 512 }
        ensures bytes { self.new.bytes.items ≡ self.old.bytes.items ++ bytes.now }
        ensures long { self.new.long ≡ self.old.long }
        ensures quoted { self.new.quoted ≡ self.old.quoted }
    {
        if self.bytes.try_extend_from_slice(bytes).is_err() {
            unreachable!();
        }
    }
}

// White space of scripts.
fn is_white(byte: u8) -> bool
    ensures { result ≡ is_white byte }
{
    byte == b' ' || byte == b'\t' || byte == b'\n' || byte == b'\r'
}

// The bytes from the first that is not white space.
fn past_white(bytes: &[u8]) -> &[u8]
    ensures { result.now ≡ past_white bytes.now }
{
    &bytes[white_len(bytes)..]
}

fn white_len(bytes: &[u8]) -> usize
    ensures len { result ≡ prefix_len is_white bytes.now }
    ensures within { result ≤ length bytes.now }
{
    bytes.iter().take_while(|b| is_white(**b)).count()
}

// How many bytes in front neither end a piece nor begin or end a quote.
fn plain_len(bytes: &[u8], quoted: bool) -> usize
    ensures len { result ≡ prefix_len (is_plain quoted) bytes.now }
    ensures within { result ≤ length bytes.now }
{
    if quoted {
        inside_len(bytes)
    } else {
        outside_len(bytes)
    }
}

fn inside_len(bytes: &[u8]) -> usize
    ensures len { result ≡ prefix_len (is_plain true) bytes.now }
    ensures within { result ≤ length bytes.now }
{
    bytes
        .iter()
        .take_while(|b| !matches!(**b, b'\'' | b'\n'))
        .count()
}

fn outside_len(bytes: &[u8]) -> usize
    ensures len { result ≡ prefix_len (is_plain false) bytes.now }
    ensures within { result ≤ length bytes.now }
{
    bytes
        .iter()
        .take_while(|b| !matches!(**b, b';' | b'\''))
        .count()
}

// A quote ends at the next one, or at the end of its line.
fn quoted_after(quoted: bool, byte: u8) -> bool
    ensures { result ≡ quoted_after quoted byte }
{
    if quoted {
        !(byte == b'\'' || byte == b'\n')
    } else {
        byte == b'\''
    }
}
