//! Rows of relations, over any files.

ghost use Rattle.std.specs.Prelude.{◌≡◌, ◌+◌, ◌<◌, ◌≤◌, List, None, IfSome, OnOk, length};
ghost use Rattle.afl_base.specs.FileErrors.{UnlessFailed};
ghost use Rattle.afl_base.specs.Files.{used};
ghost use Rattle.db_model.specs.Row.{AllSuit, row_length};
ghost use Rattle.db_model.specs.declared.schemas.Attribute.{Attribute};
ghost use Rattle.tuple_file.specs.Tuples.{HoldsRows, slots};
ghost use Rattle.volume_tests.specs.LongRows.{AreLong};

use crate::calls::{change, live_files, make};
use crate::mounted::{SIZE, memory, mounted, named};
use afl_base::{FileError, FileId, Files, Kind, Name, SlotNo};
use db_model::{Attribute, Attributes, Domain, Ident, Schema, Text, Tuple, Value};
use tuple_file::Tuples;

/// The rows of a relation with the attributes k LONG, a, b and c STRING(32), and d STRING(27): 128
/// bytes each.
pub fn long_rows(file: FileId) -> Tuples
    ensures file { result.file ≡ file }
    ensures long { AreLong result.schema.attributes }
{
    let mut attributes = Attributes::new();
    attributes.push(Attribute {
        name: Ident::new(b"k").unwrap_or_default(),
        domain: Domain::Long,
    });
    attributes.push(Attribute {
        name: Ident::new(b"a").unwrap_or_default(),
        domain: Domain::Str(32),
    });
    attributes.push(Attribute {
        name: Ident::new(b"b").unwrap_or_default(),
        domain: Domain::Str(32),
    });
    attributes.push(Attribute {
        name: Ident::new(b"c").unwrap_or_default(),
        domain: Domain::Str(32),
    });
    attributes.push(Attribute {
        name: Ident::new(b"d").unwrap_or_default(),
        domain: Domain::Str(27),
    });
    let name = Ident::new(b"s").unwrap_or_default();
    Tuples {
        file,
        schema: Schema { name, attributes },
    }
}

/// The tuple of such a row, which its number decides.
pub fn long_row(number: u8) -> Option<Tuple>
    ensures { IfSome result (λ tuple. (attributes : List Attribute) → AreLong attributes → AllSuit attributes tuple) }
{
    let text = Text::new(&[65 + number % 26; 32])?;
    let last = Text::new(&[65 + number / 26; 27])?;
    let mut tuple = Tuple::new();
    tuple.push(Value::Number(-7));
    tuple.push(Value::Text(text));
    tuple.push(Value::Text(text));
    tuple.push(Value::Text(text));
    tuple.push(Value::Text(last));
    Some(tuple)
}

/// Appends this many of these rows. It answers whether all were.
pub fn insert_long_rows<V: Files>(
    files: &mut V,
    tuples: &Tuples,
    rows: u8,
) -> Result<bool, FileError>
    requires holds { HoldsRows (V.state files.old) tuples.now }
    requires idle { (V.state files.old).draft ≡ None }
    requires long { AreLong tuples.now.schema.attributes }
    requires none { slots (V.state files.old).files tuples.now ≡ 0 }
    ensures holds { OnOk result (HoldsRows (V.state files.new) tuples.now) }
{
    for number in 0..rows {
        let Some(row) = long_row(number) else {
            return Ok(false);
        };
        insert(files, tuples, &row)?;
    }
    Ok(true)
}

// Prepares and appends a row.
fn insert<V: Files>(files: &mut V, tuples: &Tuples, tuple: &Tuple) -> Result<(), FileError>
    requires holds { HoldsRows (V.state files.old) tuples.now }
    requires idle { (V.state files.old).draft ≡ None }
    requires free { slots (V.state files.old).files tuples.now < 32768 }
    requires suits { AllSuit tuples.now.schema.attributes tuple.now }
    ensures holds { OnOk result (HoldsRows (V.state files.new) tuples.now) }
    ensures idle { OnOk result ((V.state files.new).draft ≡ None) }
    ensures slots { OnOk result (slots (V.state files.new).files tuples.now ≡ slots (V.state files.old).files tuples.now + 1) }
{
    files.prepare(tuples.file, 0, 128)?;
    tuples.append(files, tuple)?;
    Ok(())
}

/// Whether the first of the rows are these.
pub fn are_long_rows<V: Files>(files: &mut V, tuples: &Tuples, rows: u8) -> Result<bool, FileError>
    requires holds { HoldsRows (V.state files.old) tuples.now }
    requires some { rows ≤ slots (V.state files.old).files tuples.now }
{
    for number in 0..rows {
        let Some(row) = long_row(number) else {
            return Ok(false);
        };
        let Some(slot) = SlotNo::new(u16::from(number)) else {
            return Ok(false);
        };
        let mut tuple = Tuple::new();
        if !tuples.row(files, slot, &mut tuple)? || tuple.as_slice() != row.as_slice() {
            return Ok(false);
        }
    }
    Ok(true)
}

/// The rows of a relation with the one attribute v INT: 3 bytes each.
pub fn short_rows(file: FileId) -> Tuples
    ensures file { result.file ≡ file }
    ensures short { row_length result.schema.attributes ≡ 3 }
{
    let mut attributes = Attributes::new();
    attributes.push(Attribute {
        name: Ident::new(b"v").unwrap_or_default(),
        domain: Domain::Int,
    });
    let name = Ident::new(b"s").unwrap_or_default();
    Tuples {
        file,
        schema: Schema { name, attributes },
    }
}

/// Appends the bytes of the live rows of the numbers 0 to 32,767, some at a time. It answers whether
/// all were.
pub fn append_short_rows<V: Files>(files: &mut V, name: Name) -> Result<bool, FileError>
    requires { (V.state files.old).draft ≡ None }
    ensures { UnlessFailed result ((V.state files.new).draft ≡ None) }
{
    for turn in 0..32u16 {
        if !change(files, name, 0, &[], &short_row_bytes(1_024 * turn))? {
            return Ok(false);
        }
    }
    Ok(true)
}

/// Makes a file T0 with the first 300 of these rows on an erased flash. It answers whether it did.
pub fn make_short_rows(image: &mut [u8; SIZE]) -> bool {
    let Some(flash) = memory(image) else {
        return false;
    };
    let Some(mut volume) = mounted(flash) else {
        return false;
    };
    let name = named(b"T0");
    let rows = short_row_bytes(0);
    let Some(front) = rows.get(..900) else {
        return false;
    };
    let mut used = live_files(&volume);
    match make(&mut volume, &mut used, name, Kind::Doubling) {
        Ok(true) => change(&mut volume, name, 0, &[], front) == Ok(true),
        _ => false,
    }
}

// The bytes of the rows of 1,024 numbers.
fn short_row_bytes(first: u16) -> [u8; 3_072]
    requires { first ≤ 31744 }
{
    let mut bytes = [0; 3_072];
    for i in 0..1_024u16 {
        let number = first + i;
        let at = 3 * i as usize;
        bytes[at] = (number % 256) as u8;
        bytes[at + 1] = (number / 256) as u8;
        bytes[at + 2] = 1;
    }
    bytes
}
