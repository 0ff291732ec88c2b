#![tactic(auto, using(crate::proofs::Pieces::less_front, crate::proofs::Pieces::less_behind, crate::proofs::Pieces::less_third))]

ghost use Rattle.std.specs.Prelude.{◌≡◌, [], ◌∷◌, ◌++◌, decimal, OnErr, OnOk};
ghost use Rattle.afl_base.specs.Keeping.{Sends};
ghost use Rattle.std.specs.Fmt.{signed_decimal};
ghost use Rattle.std.specs.Io.KnownBytes.{append_known};
ghost use Rattle.db_model.specs.ReplyText.{line};
ghost use Rattle.reply_text.specs.WroteLess.{WroteLess};

use afl_base::{Failed, Sink};
use itoa::Buffer;

/// Appends `bytes` to what the sink holds. `Failed` leaves a proper prefix of them there.
pub fn write_all<K: Sink>(out: &mut K, bytes: &[u8]) -> Result<(), Failed>
    ensures written { OnOk result (K.held out.new ≡ append_known (K.held out.old) bytes.now) }
    ensures failed { OnErr result (WroteLess (K.held out.old) (K.held out.new) bytes.now) }
    ensures frame { Sends K.lent K.faults out.old out.new result }
{
    let mut done = 0;
    while done < bytes.len() {
        done += out.write(&bytes[done..])?;
    }
    Ok(())
}

// Appends one byte.
pub fn write_byte<K: Sink>(out: &mut K, byte: u8) -> Result<(), Failed>
    ensures written { OnOk result (K.held out.new ≡ append_known (K.held out.old) (byte ∷ [])) }
    ensures failed { OnErr result (WroteLess (K.held out.old) (K.held out.new) (byte ∷ [])) }
    ensures frame { Sends K.lent K.faults out.old out.new result }
{
    out.write(&[byte])?;
    Ok(())
}

/// Appends a number in decimal. `Failed` leaves a proper prefix of it there.
pub fn write_number<K: Sink>(out: &mut K, number: u64) -> Result<(), Failed>
    ensures written { OnOk result
        (K.held out.new ≡ append_known (K.held out.old) (decimal number)) }
    ensures failed { OnErr result (WroteLess (K.held out.old) (K.held out.new) (decimal number)) }
    ensures frame { Sends K.lent K.faults out.old out.new result }
{
    let mut buffer = Buffer::new();
    write_all(out, buffer.format(number).as_bytes())
}

/// Appends a number in decimal, with `-` before it where it is negative. `Failed` leaves a proper prefix of
/// it there.
pub fn write_signed<K: Sink>(out: &mut K, number: &i64) -> Result<(), Failed>
    ensures written { OnOk result
        (K.held out.new ≡ append_known (K.held out.old) (signed_decimal number.now)) }
    ensures failed { OnErr result
        (WroteLess (K.held out.old) (K.held out.new) (signed_decimal number.now)) }
    ensures frame { Sends K.lent K.faults out.old out.new result }
{
    let mut buffer = Buffer::new();
    write_all(out, buffer.format(*number).as_bytes())
}

/// Appends words and a number in decimal. `Failed` leaves a proper prefix of both there.
pub fn write_count<K: Sink>(out: &mut K, words: &[u8], count: u64) -> Result<(), Failed>
    ensures written { OnOk result
        (K.held out.new ≡ append_known (K.held out.old) (words.now ++ decimal count)) }
    ensures failed { OnErr result
        (WroteLess (K.held out.old) (K.held out.new) (words.now ++ decimal count)) }
    ensures frame { Sends K.lent K.faults out.old out.new result }
{
    write_all(out, words)?;
    write_number(out, count)
}

/// Appends a line of words and a number, and others after. `Failed` leaves a proper prefix of it there.
pub fn write_line_of_counts<K: Sink>(
    out: &mut K,
    words: &[u8],
    count: u64,
    next_words: &[u8],
    next_count: u64,
) -> Result<(), Failed>
    ensures written { OnOk result (K.held out.new ≡ append_known (K.held out.old)
        (line (words.now ++ decimal count ++ (next_words.now ++ decimal next_count)))) }
    ensures failed { OnErr result (WroteLess (K.held out.old) (K.held out.new)
        (line (words.now ++ decimal count ++ (next_words.now ++ decimal next_count)))) }
    ensures frame { Sends K.lent K.faults out.old out.new result }
{
    write_count(out, words, count)?;
    write_count(out, next_words, next_count)?;
    write_byte(out, b'\n')
}

// A line of these words.
pub fn write_line<K: Sink>(out: &mut K, words: &[u8]) -> Result<(), Failed>
    ensures written { OnOk result
        (K.held out.new ≡ append_known (K.held out.old) (line words.now)) }
    ensures failed { OnErr result (WroteLess (K.held out.old) (K.held out.new) (line words.now)) }
    ensures frame { Sends K.lent K.faults out.old out.new result }
{
    write_all(out, words)?;
    write_byte(out, b'\n')
}

// A line of these words and a number in decimal.
pub fn write_line_with<K: Sink>(out: &mut K, words: &[u8], count: u64) -> Result<(), Failed>
    ensures written { OnOk result
        (K.held out.new ≡ append_known (K.held out.old) (line (words.now ++ decimal count))) }
    ensures failed { OnErr result
        (WroteLess (K.held out.old) (K.held out.new) (line (words.now ++ decimal count))) }
    ensures frame { Sends K.lent K.faults out.old out.new result }
{
    write_all(out, words)?;
    write_number(out, count)?;
    write_byte(out, b'\n')
}

// A line of these words and a number in decimal, with `-` before it where it is negative.
pub fn write_line_with_signed<K: Sink>(
    out: &mut K,
    words: &[u8],
    number: &i64,
) -> Result<(), Failed>
    ensures written { OnOk result
        (K.held out.new ≡ append_known (K.held out.old) (line (words.now ++ signed_decimal number.now))) }
    ensures failed { OnErr result
        (WroteLess (K.held out.old) (K.held out.new) (line (words.now ++ signed_decimal number.now))) }
    ensures frame { Sends K.lent K.faults out.old out.new result }
{
    write_all(out, words)?;
    write_signed(out, number)?;
    write_byte(out, b'\n')
}
