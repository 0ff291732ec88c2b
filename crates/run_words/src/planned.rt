//! How the words are read that say how many rows are planned for.

#![tactic(auto)]

ghost use Rattle.std.specs.Prelude.{◌≡◌, ◌≤◌, IfSome, length};
ghost use Rattle.std.specs.List.{prefix_len};
ghost use Rattle.run_words.specs.Words.{HasFewCommands, all_named, is_listed_among, is_no_sign, named_by, named_rows, names_differ, planned_by, rows_alone, rows_word};

use crate::digits::number;
use crate::words::Form;
use db_model::{Few, Ident};
use space_plan::{FurtherRows, NamedRows};

/// This many rows in each relation, or in those that are named.
pub fn planned(words: &[String]) -> Option<Form>
    ensures form { result ≡ planned_by words.now }
    ensures commands { IfSome result (λ form. HasFewCommands form) }
{
    match rows_alone(words) {
        Some(rows) => Some(Form::Plan {
            rows: FurtherRows::Each(rows),
        }),
        None => named(words),
    }
}

fn rows_alone(words: &[String]) -> Option<u16>
    ensures { result ≡ rows_alone words.now }
{
    match words {
        [word] => rows_word(word.as_bytes()),
        _ => None,
    }
}

// A number of rows.
fn rows_word(word: &[u8]) -> Option<u16>
    ensures { result ≡ rows_word word.now }
{
    let rows = number(word, 5, 0, 32_767)?;
    Some(rows as u16)
}

// This many rows in each relation that is named.
fn named(words: &[String]) -> Option<Form>
    ensures form { result ≡ named_by words.now }
    ensures commands { IfSome result (λ form. HasFewCommands form) }
{
    if words.is_empty() || words.len() > 8 {
        return None;
    }
    let all = all_named(words)?;
    if names_differ(all.as_slice()) {
        Some(Form::Plan {
            rows: FurtherRows::Named(all),
        })
    } else {
        None
    }
}

fn all_named(words: &[String]) -> Option<Few<NamedRows, 8>>
    requires { length words.now ≤ 8 }
    ensures { result ≡ all_named words.now }
{
    let mut all = Few::new();
    for word in words {
        all.push(named_rows(word.as_bytes())?);
    }
    Some(all)
}

// A name and a number of rows, with `=` between them.
fn named_rows(word: &[u8]) -> Option<NamedRows>
    ensures { result ≡ named_rows word.now }
{
    let len = name_len(word);
    let [_sign, digits @ ..] = &word[len..] else {
        return None;
    };
    let relation = Ident::new(&word[..len])?;
    let rows = rows_word(digits)?;
    Some(NamedRows { relation, rows })
}

// How many bytes come before the first `=`.
fn name_len(word: &[u8]) -> usize
    ensures len { result ≡ prefix_len is_no_sign word.now }
    ensures within { result ≤ length word.now }
{
    word.iter().take_while(|byte| **byte != b'=').count()
}

// Whether no name is there twice.
fn names_differ(all: &[NamedRows]) -> bool
    ensures { result ≡ names_differ all.now }
{
    for (at, named) in all.iter().enumerate() {
        if is_listed_among(named.relation.bytes(), &all[at + 1..]) {
            return false;
        }
    }
    true
}

// Whether a name is among those of some.
fn is_listed_among(name: &[u8], all: &[NamedRows]) -> bool
    ensures { result ≡ is_listed_among name.now all.now }
{
    for named in all {
        if named.relation.bytes() == name {
            return true;
        }
    }
    false
}
