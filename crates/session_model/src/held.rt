use afl_base::{FileId, RelationId};
use cursor::{JoinCursor, SelectCursor};
use db_model::Few;
use index_set::Access;
use tuple_file::Tuples;

/// An index in its catalog slot: the slot of its relation, the place of its attribute, and how it finds the slots of
/// a key. Where the keys stand follows from the relation's schema, which may still grow, and is kept by nobody.
#[derive(Clone, Copy, Debug, PartialEq, Eq)]
pub struct Indexed {
    pub relation: RelationId,
    pub attribute: u8,
    pub access: Access,
}

/// What a session knows of its files: the catalog, and the file of each relation and index.
#[derive(Drop)]
pub struct Held {
    pub version: u8,
    pub cat: Option<FileId>,
    pub relations: [Option<Tuples>; 8],
    pub indexes: [Option<Indexed>; 8],
}

/// Of which relation of a join an attribute is, and its place there.
#[derive(Clone, Copy, Debug, PartialEq, Eq)]
pub enum Side {
    Left(u8),
    Right(u8),
}

impl Default for Side {
    fn default() -> Side {
        Side::Left(0)
    }
}

/// An open cursor of a SELECT: what it has still to answer, and the places of the attributes of its list.
#[derive(Drop)]
pub struct OpenSelect {
    pub cursor: SelectCursor,
    pub places: Few<u8, 8>,
}

/// An open cursor of a JOIN.
#[derive(Drop)]
pub struct OpenJoin {
    pub cursor: JoinCursor,
    pub places: Few<Side, 8>,
}

/// An open cursor.
#[derive(Drop)]
pub enum Open {
    Select(OpenSelect),
    Join(OpenJoin),
}
