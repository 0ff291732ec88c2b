//! Laws of changes. Each function does nothing: its contract is the law.

#![tactic(auto)]

ghost use Rattle.std.specs.Prelude.{◌≡◌, ◌<◌, ℕ, List, Option, length};
ghost use Rattle.db_model.specs.declared.schemas.Schema.{Schema};
ghost use Rattle.db_model.specs.Catalog.{Index, IsRelation, catalog_of, with_index_slot, with_relation_slot};
ghost use Rattle.catalog.specs.CatalogFile.{IsCatalogSize};
ghost use Rattle.catalog.specs.Catalogs.{index_replaced, relation_replaced};

/// Bytes in which a relation slot is replaced stand for the catalog with that slot replaced, in version
/// 2: all other slots stay.
pub fn one_relation_is_replaced()
    ensures { (bytes : List ℕ) (slot : ℕ) (relation : Option Schema) → IsCatalogSize (length bytes)
        → slot < 8 → IsRelation relation
        → catalog_of (with_relation_slot bytes slot relation) ≡ relation_replaced (catalog_of bytes) slot relation }
{}

/// Bytes in which an index slot is replaced stand for the catalog with that slot replaced, in version
/// 2: all other slots stay.
pub fn one_index_is_replaced()
    ensures { (bytes : List ℕ) (slot : ℕ) (index : Option Index) → IsCatalogSize (length bytes)
        → slot < 8 → catalog_of (with_index_slot bytes slot index) ≡ index_replaced (catalog_of bytes) slot index }
{}
