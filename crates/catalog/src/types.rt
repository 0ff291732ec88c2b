use afl_base::RelationId;
use db_model::{IndexKind, Schema};

/// An index: its kind, the slot of its relation, and the place of its attribute, counted from 0.
#[derive(Clone, Copy, Debug, PartialEq, Eq)]
pub struct IndexEntry {
    pub kind: IndexKind,
    pub relation: RelationId,
    pub attribute: u8,
}

/// The relations and indexes of a database, by their slots.
#[derive(Drop)]
pub struct Catalog {
    /// 1 or 2.
    pub version: u8,
    pub relations: [Option<Schema>; 8],
    pub indexes: [Option<IndexEntry>; 8],
}

impl Catalog {
    ghost use Rattle.std.specs.Prelude.{◌≡◌, []};
    ghost use Rattle.catalog.specs.Catalogs.{catalog_slots};
    ghost use Rattle.catalog.specs.Formed.{IsFormed};
    ghost use Rattle.db_model.specs.Catalog.{catalog_of};

    /// No relation and no index, in version 2: the catalog of an absent or empty file.
    pub fn empty() -> Catalog
        ensures slots { catalog_slots result ≡ catalog_of [] }
        ensures formed { IsFormed result }
    {
        Catalog {
            version: 2,
            relations: [None, None, None, None, None, None, None, None],
            indexes: [None; 8],
        }
    }

    /// Makes it a catalog with no relation and no index, in version 2.
    // Not inlined, so that its caller has no second catalog on its stack.
    #[inline(never)]
    pub fn clear(&mut self)
        ensures slots { catalog_slots self.new ≡ catalog_of [] }
        ensures formed { IsFormed self.new }
    {
        *self = Catalog::empty();
    }
}

/// The first broken rule, 14 to 18, and its place: a file, a slot, or 8 more than an index slot.
#[derive(Clone, Copy, Debug, PartialEq, Eq)]
pub struct BadCatalog {
    pub rule: u8,
    pub place: u16,
}
