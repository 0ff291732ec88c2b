//! The keys of an index.

#![tactic(auto)]

ghost use Rattle.std.specs.Prelude.{◌≡◌, ℕ, Some, IfNone, IfSome, false, length, slice_get, true};
ghost use Rattle.std.specs.Bool.{Decides};
ghost use Rattle.afl_base.specs.Files.{IsLive, IsNamed};
ghost use Rattle.afl_base.specs.KeyColumn.{IsWidth};
ghost use Rattle.db_model.specs.declared.schemas.Attribute.{Attribute as AnyAttribute};
ghost use Rattle.db_model.specs.declared.schemas.IndexKind.{IndexKind as AnyKind};
ghost use Rattle.db_model.specs.declared.schemas.IndexKind.TheVariants.{MaxHeap as OfHeap};
ghost use Rattle.db_model.specs.declared.schemas.Schema.{Schema as AnySchema};
ghost use Rattle.db_model.specs.Row.{width};
ghost use Rattle.db_model.specs.Step.{allows};
ghost use Rattle.space_model.specs.FileNames.{rows_file};
ghost use Rattle.stored_mend.specs.Keys.{AreKeys, HasTooMany, IsKeysOf, IsNumbersOf, MayHaveKeys};

use afl_base::{FileId, Files, KeyColumn};
use catalog::{Catalog, IndexEntry, rows_file};
use db_model::{Domain, IndexKind, Schema, fields_length, row_length};

/// Where the keys of an index stand, and how many they are.
#[derive(Drop)]
pub struct Keyed {
    pub column: KeyColumn,
    pub slots: u16,
}

/// Whether an index of the kind has a tree.
pub fn is_heap(kind: IndexKind) -> bool
    ensures { Decides result (kind ≡ OfHeap) }
{
    kind == IndexKind::MaxHeap
}

/// The keys of an index, None where its relation has none.
pub fn keys_of<V: Files>(files: &V, catalog: &Catalog, entry: &IndexEntry) -> Option<Keyed>
    requires relations { length catalog.now.relations ≡ 8 }
    ensures keys { IfSome result (λ keys. AreKeys (V.state files.now) keys.column keys.slots) }
    ensures read { let table = (V.state files.now).files in IfSome result
        (λ keys. IsKeysOf table catalog.now.relations entry.now keys.column keys.slots) }
    ensures none { let table = (V.state files.now).files in IfNone result ((schema : AnySchema) (file : ℕ)
        → MayHaveKeys table catalog.now.relations entry.now schema file
        → HasTooMany table file schema.attributes) }
{
    match &catalog.relations[entry.relation.number() as usize] {
        Some(schema) => {
            let file = files.find(rows_file(entry.relation))?;
            keys_at(files, file, schema, entry.attribute)
        }
        None => None,
    }
}

// The keys of an attribute in the file of a relation's rows, of which the last may be there in part.
fn keys_at<V: Files>(files: &V, file: FileId, schema: &Schema, attribute: u8) -> Option<Keyed>
    requires live { IsLive (V.state files.now).files file }
    ensures keys { IfSome result (λ keys. AreKeys (V.state files.now) keys.column keys.slots) }
    ensures file { IfSome result (λ keys. keys.column.file ≡ file) }
    ensures numbers { IfSome result (λ keys. IsNumbersOf (V.state files.now).files schema.now.attributes
        attribute keys.column keys.slots) }
    ensures none { IfNone result ((kind : AnyKind) (a : AnyAttribute)
        → slice_get schema.now.attributes attribute ≡ Some a → allows kind a.domain ≡ true
        → HasTooMany (V.state files.now).files file schema.now.attributes) }
{
    let place = attribute as usize;
    let attributes = schema.attributes.as_slice();
    if place >= attributes.len() {
        return None;
    }
    let width = number_width(attributes[place].domain)?;
    let length = row_length(&schema.attributes);
    let slots = files.size(file) / length as u32;
    if length > 128 || slots > 32_768 {
        return None;
    }
    let column = KeyColumn {
        file,
        row: length as u8,
        at: fields_length(&attributes[..place]) as u8,
        width,
    };
    Some(Keyed {
        column,
        slots: slots as u16,
    })
}

// The bytes of a number of the domain.
fn number_width(domain: Domain) -> Option<u8>
    ensures same { IfSome result (λ n. n ≡ width domain) }
    ensures width { IfSome result (λ n. IsWidth n) }
    ensures none { IfNone result ((kind : AnyKind) → allows kind domain ≡ false) }
{
    match domain {
        Domain::Int => Some(2),
        Domain::Long => Some(4),
        Domain::Time => Some(8),
        Domain::Str(_) => None,
    }
}
