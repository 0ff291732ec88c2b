ghost use Rattle.std.specs.Prelude.{◌≡◌, ◌≤◌, ℕ, ℤ, List, [], ◌∷◌, IfOk, IsTrue, OnOk, None, length};
ghost use Rattle.db_model.specs.Row.{AllSuit, fields_length, suits};
ghost use Rattle.tuple_file.specs.Tuples.{HoldsRows};

use afl_base::{FileError, FileId, Files, Kind, SlotNo};
use afl_sim::PlainFiles;
use db_model::{Attribute, Attributes, Domain, Ident, Schema, Text, Tuple, Value, row_length};
use test_steps::{appended, new_file, read_from, size_of};
use tuple_file::{Span, Tuples, get_tuple};

// Whether the file has rows of the relation, each as it may be.
fn holds<V: Files>(tuples: &Tuples, files: &mut V) -> Result<bool, FileError>
    requires idle { (V.state files.old).draft ≡ None }
    ensures holds { IfOk result (λ valid. IsTrue valid → HoldsRows (V.state files.new) tuples.now) }
    ensures idle { OnOk result ((V.state files.new).draft ≡ None) }
{
    if !files.live(tuples.file) || files.kind(tuples.file) != Kind::Doubling {
        return Ok(false);
    }
    if row_length(&tuples.schema.attributes) > 128 {
        return Ok(false);
    }
    Ok(tuples.valid(files, 2)?)
}

// Prepares and appends a row that suits the attributes.
fn insert_suiting<V: Files>(tuples: &Tuples, files: &mut V, tuple: &Tuple) -> Result<(), FileError>
    requires idle { (V.state files.old).draft ≡ None }
    requires suits { AllSuit tuples.now.schema.attributes tuple.now }
    ensures idle { OnOk result ((V.state files.new).draft ≡ None) }
{
    if !holds(tuples, files)? || tuples.count(files) >= 32_768 {
        return Err(FileError::Failed);
    }
    files.prepare(tuples.file, 0, 128)?;
    tuples.append(files, tuple)?;
    Ok(())
}

// Prepares a record and removes a row.
fn remove<V: Files>(tuples: &Tuples, files: &mut V, slot: SlotNo) -> Result<(), FileError>
    requires idle { (V.state files.old).draft ≡ None }
    ensures idle { OnOk result ((V.state files.new).draft ≡ None) }
{
    if !holds(tuples, files)? || slot.number() >= tuples.count(files) {
        return Err(FileError::Failed);
    }
    files.prepare(tuples.file, 1, 0)?;
    tuples.mark(files, slot)?;
    Ok(())
}

// The number of rows, 0 where the file has other bytes.
fn count<V: Files>(tuples: &Tuples, files: &mut V) -> Result<u16, FileError>
    requires idle { (V.state files.old).draft ≡ None }
    ensures idle { OnOk result ((V.state files.new).draft ≡ None) }
{
    if !holds(tuples, files)? {
        return Ok(0);
    }
    Ok(tuples.count(files))
}

// Reads the row of a slot. It answers whether there is one, which is live.
fn has_row<V: Files>(
    tuples: &Tuples,
    files: &mut V,
    slot: SlotNo,
    tuple: &mut Tuple,
) -> Result<bool, FileError>
    requires idle { (V.state files.old).draft ≡ None }
    ensures idle { OnOk result ((V.state files.new).draft ≡ None) }
{
    if !holds(tuples, files)? || slot.number() >= tuples.count(files) {
        return Ok(false);
    }
    Ok(tuples.row(files, slot, tuple)?)
}

fn begins_with(tuple: &Tuple, key: i64) -> bool {
    !tuple.is_empty() && *tuple.get(0) == Value::Number(key)
}

// Whether a slot has a live row that begins with this number.
fn has_key<V: Files>(
    tuples: &Tuples,
    files: &mut V,
    number: u16,
    key: i64,
) -> Result<bool, FileError>
    requires idle { (V.state files.old).draft ≡ None }
    ensures idle { OnOk result ((V.state files.new).draft ≡ None) }
{
    let Some(slot) = SlotNo::new(number) else {
        return Ok(false);
    };
    let mut tuple = Tuple::new();
    Ok(has_row(tuples, files, slot, &mut tuple)? && begins_with(&tuple, key))
}

// Takes all rows that have this number away.
fn rewrite<V: Files>(tuples: &Tuples, files: &mut V, key: i64) -> Result<(), FileError>
    requires idle { (V.state files.old).draft ≡ None }
    ensures idle { OnOk result ((V.state files.new).draft ≡ None) }
{
    if !holds(tuples, files)? {
        return Err(FileError::Failed);
    }
    let all = Span {
        first: 0,
        end: tuples.count(files),
    };
    tuples.rewrite(
        files,
        &all,
        |row: &[u8]|
            requires { fields_length tuples.now.schema.attributes ≤ length row.now }
        { has_number(&tuples.schema.attributes, row, key) },
    )
}

// Whether a row has this number.
fn has_number(attributes: &Attributes, row: &[u8], key: i64) -> bool
    requires { fields_length attributes.now ≤ length row.now }
{
    let mut tuple = Tuple::new();
    get_tuple(attributes, row, &mut tuple);
    tuple
        .as_slice()
        .iter()
        .any(|value| *value == Value::Number(key))
}

fn pack<V: Files>(tuples: &Tuples, files: &mut V) -> Result<(), FileError>
    requires idle { (V.state files.old).draft ≡ None }
    ensures idle { OnOk result ((V.state files.new).draft ≡ None) }
{
    if !holds(tuples, files)? {
        return Err(FileError::Failed);
    }
    tuples.pack(files)
}

fn attribute(name: &[u8], domain: Domain) -> Attribute
    ensures { result.domain ≡ domain }
{
    Attribute {
        name: Ident::new(name).unwrap_or_default(),
        domain,
    }
}

// The rows of a relation with the attributes k LONG and t STRING(3).
fn keys_and_texts(file: FileId) -> Tuples
    ensures suits { (k : ℤ) (t : List ℕ) → IsTrue (suits Domain.Long (Value.Number k))
        → IsTrue (suits (Domain.Str 3) (Value.Text t))
        → AllSuit result.schema.attributes (Value.Number k ∷ Value.Text t ∷ []) }
{
    let mut attributes = Attributes::new();
    attributes.push(attribute(b"k", Domain::Long));
    attributes.push(attribute(b"t", Domain::Str(3)));
    let name = Ident::default();
    Tuples {
        file,
        schema: Schema { name, attributes },
    }
}

// The tuple of a key and a text.
fn key_and_text(k: i64, t: Text) -> Tuple
    ensures { result ≡ Value.Number k ∷ Value.Text t ∷ [] }
{
    let mut tuple = Tuple::new();
    tuple.push(Value::Number(k));
    tuple.push(Value::Text(t));
    tuple
}

// Rows of a new file.
fn new_tuples<V: Files>(files: &mut V) -> Result<Tuples, FileError>
    requires idle { (V.state files.old).draft ≡ None }
    ensures idle { OnOk result ((V.state files.new).draft ≡ None) }
{
    let file = new_file(files, b"T0", Kind::Doubling)?;
    Ok(keys_and_texts(file))
}

// Adds a row of a key and a text of at most 3 bytes.
fn insert<V: Files>(files: &mut V, file: FileId, k: i32, text: &[u8]) -> Result<(), FileError>
    requires idle { (V.state files.old).draft ≡ None }
    ensures idle { OnOk result ((V.state files.new).draft ≡ None) }
{
    let Some(t) = Text::new(text) else {
        return Err(FileError::Failed);
    };
    if text.len() > 3 {
        return Err(FileError::Failed);
    }
    insert_suiting(&keys_and_texts(file), files, &key_and_text(i64::from(k), t))
}

// Whether two rows are counted, have their bytes and are read back.
fn writes_two<V: Files>(files: &mut V) -> Result<bool, FileError>
    requires idle { (V.state files.old).draft ≡ None }
{
    let tuples = new_tuples(files)?;
    insert(files, tuples.file, 5, b"abc")?;
    insert(files, tuples.file, -1, b"")?;
    if count(&tuples, files)? != 2 || !has_key(&tuples, files, 1, -1)? {
        return Ok(false);
    }
    let mut bytes = [0; 16];
    read_from(files, tuples.file, 0, &mut bytes)?;
    Ok(bytes == [5, 0, 0, 0, 97, 98, 99, 1, 255, 255, 255, 255, 0, 0, 0, 1])
}

#[test]
fn two_rows_have_their_sixteen_bytes(rt: HostRuntime) {
    let mut files: PlainFiles<4064> = PlainFiles::new();
    assert!(rt; writes_two(&mut files) == Ok(true));
}

// Rows of the keys 5, 6 and 7.
fn three_rows<V: Files>(files: &mut V) -> Result<Tuples, FileError>
    requires idle { (V.state files.old).draft ≡ None }
    ensures idle { OnOk result ((V.state files.new).draft ≡ None) }
{
    let tuples = new_tuples(files)?;
    insert(files, tuples.file, 5, b"")?;
    insert(files, tuples.file, 6, b"")?;
    insert(files, tuples.file, 7, b"")?;
    Ok(tuples)
}

// Whether three rows keep their slots when the first and the last are removed, and the second alone
// is left after `pack`.
fn removes_two<V: Files>(files: &mut V) -> Result<bool, FileError>
    requires idle { (V.state files.old).draft ≡ None }
{
    let tuples = three_rows(files)?;
    remove(&tuples, files, SlotNo::default())?;
    rewrite(&tuples, files, 7)?;
    if count(&tuples, files)? != 3 || size_of(files, tuples.file) != 24 {
        return Ok(false);
    }
    let mut bytes = [0; 24];
    read_from(files, tuples.file, 0, &mut bytes)?;
    let rows = [
        5, 0, 0, 0, 0, 0, 0, 3, 6, 0, 0, 0, 0, 0, 0, 1, 7, 0, 0, 0, 0, 0, 0, 3,
    ];
    if bytes != rows {
        return Ok(false);
    }
    pack(&tuples, files)?;
    Ok(count(&tuples, files)? == 1 && has_key(&tuples, files, 0, 6)?)
}

#[test]
fn removed_rows_keep_their_slots_until_pack(rt: HostRuntime) {
    let mut files: PlainFiles<4064> = PlainFiles::new();
    assert!(rt; removes_two(&mut files) == Ok(true));
}

// Puts two bytes of a file in the place of those at 6, and prepares for it.
fn overwrite_end<V: Files>(files: &mut V, id: FileId, end: [u8; 2]) -> Result<(), FileError>
    requires idle { (V.state files.old).draft ≡ None }
    ensures idle { OnOk result ((V.state files.new).draft ≡ None) }
{
    if !files.live(id) || files.kind(id) != Kind::Doubling || files.size(id) != 8 || end[1] == 0 {
        return Err(FileError::Failed);
    }
    files.prepare(id, 1, 0)?;
    files.overwrite(id, 6, &end)?;
    Ok(())
}

// Whether bytes after a text's end, and a mark of no kind, are refused.
fn refuses_no_rows<V: Files>(files: &mut V) -> Result<bool, FileError>
    requires idle { (V.state files.old).draft ≡ None }
{
    let tuples = new_tuples(files)?;
    appended(files, tuples.file, &[5, 0, 0, 0, 97, 0, 98, 1])?;
    if holds(&tuples, files)? {
        return Ok(false);
    }
    overwrite_end(files, tuples.file, [0, 3])?;
    if !holds(&tuples, files)? {
        return Ok(false);
    }
    overwrite_end(files, tuples.file, [0, 2])?;
    Ok(!holds(&tuples, files)?)
}

#[test]
fn bytes_of_no_row_are_not_valid(rt: HostRuntime) {
    let mut files: PlainFiles<4064> = PlainFiles::new();
    assert!(rt; refuses_no_rows(&mut files) == Ok(true));
}
