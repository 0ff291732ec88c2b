//! How the words that the program is called with are read.

#![tactic(auto)]

ghost use Rattle.std.specs.Prelude.{◌≡◌, IfSome};
ghost use Rattle.run_words.specs.Words.{HasFewCommands, alone, form_of, generated_by, unplanned, with_one, with_two};

use crate::digits::number;
use crate::planned::planned;
use crate::words::Form;

/// What the words after the program's name ask for. `None` comes exactly where they are none of the forms.
pub fn form(words: &[String]) -> Option<Form>
    ensures form { result ≡ form_of words.now }
    ensures commands { IfSome result (λ form. HasFewCommands form) }
{
    let [name, _, rest @ ..] = words else {
        return None;
    };
    if name.as_bytes() == b"plan".as_slice() {
        planned(rest)
    } else {
        unplanned(name.as_bytes(), rest)
    }
}

fn unplanned(name: &[u8], words: &[String]) -> Option<Form>
    ensures form { result ≡ unplanned name.now words.now }
    ensures commands { IfSome result (λ form. HasFewCommands form) }
{
    match words {
        [] => alone(name),
        [_input] => with_one(name),
        [one, other] => with_two(name, one.as_bytes(), other.as_bytes()),
        _ => None,
    }
}

fn alone(name: &[u8]) -> Option<Form>
    ensures form { result ≡ alone name.now }
    ensures commands { IfSome result (λ form. HasFewCommands form) }
{
    if name == b"dump".as_slice() {
        return Some(Form::Dump);
    }
    if name == b"look".as_slice() {
        Some(Form::Look)
    } else {
        None
    }
}

fn with_one(name: &[u8]) -> Option<Form>
    ensures form { result ≡ with_one name.now }
    ensures commands { IfSome result (λ form. HasFewCommands form) }
{
    if name == b"run".as_slice() {
        return Some(Form::Run);
    }
    if name == b"serve".as_slice() {
        Some(Form::Serve)
    } else {
        None
    }
}

fn with_two(name: &[u8], one: &[u8], other: &[u8]) -> Option<Form>
    ensures form { result ≡ with_two name.now one.now other.now }
    ensures commands { IfSome result (λ form. HasFewCommands form) }
{
    if name == b"gen".as_slice() {
        generated(one, other)
    } else {
        None
    }
}

fn generated(seed: &[u8], count: &[u8]) -> Option<Form>
    ensures form { result ≡ generated_by seed.now count.now }
    ensures commands { IfSome result (λ form. HasFewCommands form) }
{
    let seed = number(seed, 10, 0, u32::MAX)?;
    let count = number(count, 6, 1, 100_000)?;
    Some(Form::Gen { seed, count })
}
