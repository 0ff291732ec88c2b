//! The words after a program's name, and the image and the input that they name.

#![tactic(auto)]

ghost use Rattle.std.specs.Prelude.{◌≡◌, ◌↔◌, None, IfErr};
ghost use Rattle.run_words.specs.Words.{form_of};
ghost use Rattle.program_run.specs.Upkeep.{upkeep_named, upkeep_of};
ghost use Rattle.program_run.specs.declared.failure.Failure.TheVariants.{Memory};

use crate::failure::Failure;
use run_words::{Form, form};
use std::env;
use std::env::Env;
use std::io::ErrorKind;

/// What is done to an image that is no run on it.
#[derive(Clone, Copy, PartialEq, Eq, Debug)]
pub enum Upkeep {
    /// It is repaired.
    Repair,
    /// Writes what a repair would change.
    Check,
    /// What a collection takes is erased.
    Collect,
}

/// What words name: an image, and an input. `-` is standard input, and stands for none, too.
#[derive(Drop)]
pub struct Named<'w> {
    pub image: &'w str,
    pub input: &'w str,
}

/// The words after the program's name. Where one of them is no text, there are none, so that they
/// are wrong arguments.
///
/// # Errors
///
/// `Memory`, where there is none for them.
pub fn words<R: Env + AllocGlobal>(rt: &R) -> Result<Vec<String>, Failure>
    ensures { IfErr result (λ failure. failure ≡ Memory) }
{
    let mut words = Vec::new(rt.alloc());
    let args = match env::args(rt) {
        Ok(args) => args,
        Err(error) if error.kind() == ErrorKind::OutOfMemory => return Err(Failure::Memory),
        Err(_) => return Ok(words),
    };
    for word in args.skip(1) {
        words.push(word).map_err(|_| Failure::Memory)?;
    }
    Ok(words)
}

/// What the arguments of a form, or of upkeep, name. Wrong arguments name nothing.
pub fn names(words: &[String]) -> Option<Named<'_>>
    ensures none { (result ≡ None) ↔ ((form_of words.now ≡ None) × (upkeep_of words.now ≡ None)) }
{
    match (form(words), words) {
        (Some(Form::Run | Form::Serve), [_, image, input]) => Some(Named {
            image: image.as_str(),
            input: input.as_str(),
        }),
        (Some(_), [_, image, ..]) => Some(alone(image)),
        (None, [_, image]) if upkeep_of(words).is_some() => Some(alone(image)),
        _ => None,
    }
}

// An image alone.
fn alone(image: &String) -> Named<'_> {
    Named {
        image: image.as_str(),
        input: "-",
    }
}

/// The upkeep that the words ask for: `repair IMAGE`, `check IMAGE` or `collect IMAGE`.
pub fn upkeep_of(words: &[String]) -> Option<Upkeep>
    ensures { result ≡ upkeep_of words.now }
{
    match words {
        [word, _] => upkeep_named(word.as_bytes()),
        _ => None,
    }
}

fn upkeep_named(name: &[u8]) -> Option<Upkeep>
    ensures { result ≡ upkeep_named name.now }
{
    if name == b"repair".as_slice() {
        return Some(Upkeep::Repair);
    }
    if name == b"check".as_slice() {
        return Some(Upkeep::Check);
    }
    if name == b"collect".as_slice() {
        return Some(Upkeep::Collect);
    }
    None
}
