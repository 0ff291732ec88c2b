//! Numbers in decimal among the words.

#![tactic(auto)]

ghost use Rattle.std.specs.Prelude.{◌≡◌, ◌≤◌, IfSome, IsTrue};
ghost use Rattle.std.specs.Char.{is_ascii_digit};
ghost use Rattle.std.specs.List.{list_all};
ghost use Rattle.run_words.specs.Words.{at_most, number_word, value_from};

/// A number of 1 to this many digits, in this range.
pub fn number(word: &[u8], digits: usize, least: u32, most: u32) -> Option<u32>
    ensures number { result ≡ number_word digits least most word.now }
    ensures within { IfSome result (λ n. n ≤ most) }
{
    if word.is_empty() || word.len() > digits || !is_digits(word) {
        return None;
    }
    let value = value_within(word, most)?;
    if value < least { None } else { Some(value) }
}

fn is_digits(word: &[u8]) -> bool
    ensures { result ≡ list_all is_ascii_digit word.now }
{
    word.iter().all(|byte| byte.is_ascii_digit())
}

// The number that digits write, where it is at most this one.
fn value_within(word: &[u8], most: u32) -> Option<u32>
    requires digits { IsTrue (list_all is_ascii_digit word.now) }
    ensures number { result ≡ at_most most (value_from 0 word.now) }
    ensures within { IfSome result (λ n. n ≤ most) }
{
    let mut value = 0u32;
    for byte in word {
        let next = 10 * u64::from(value) + u64::from(*byte - b'0');
        if next > u64::from(most) {
            return None;
        }
        value = next as u32;
    }
    Some(value)
}
