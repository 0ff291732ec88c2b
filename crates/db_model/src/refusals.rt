//! Why a command is refused.

#![tactic(auto)]

/// What may be full, and what its number counts.
#[derive(Clone, Copy, Debug, PartialEq, Eq)]
pub enum Pool {
    /// Relations of the database, 8.
    Relations,
    /// Attributes of a relation, 8.
    Attributes,
    /// Bytes of a row with its mark, 128.
    RowBytes,
    /// Slots of a relation, removed rows among them: 16,384 in version 1 and 32,768 in version 2.
    Slots,
    /// Indexes of the database, 8.
    Indexes,
    /// Hash tables in memory, 2.
    HashTables,
    /// Entries of a hash table in memory, 2,048.
    HashEntries,
    /// Nodes of a condition, 32.
    Nodes,
}

/// Why a command was not carried out. A refused command changes nothing.
#[derive(Clone, Copy, Debug, PartialEq, Eq)]
pub enum Refusal {
    /// The bytes spell no command; the longest prefix of tokens that begins one ends at byte `at`.
    Syntax { at: u16 },
    /// The command has more than 512 bytes.
    Long,
    /// The script's last piece has no `;`.
    Unfinished,
    /// A named relation does not exist.
    NoRelation,
    /// The nth name is no attribute, counted from 1.
    NoAttribute { nth: u8 },
    /// The relation, attribute or index is there already.
    Exists,
    /// An attribute is added to a relation that has slots.
    NotEmpty,
    /// The nth value does not suit the nth attribute, or one of them is missing, counted from 1.
    Value { nth: u8 },
    /// The nth part mixes numbers and texts, or is a median of times, counted from 1.
    IllTyped { nth: u8 },
    /// A STRING of no length from 1 to 32, or an index of a kind that its domain does not allow.
    Domain,
    /// The pool's count is at its limit.
    Full { pool: Pool, limit: u16 },
    /// A key under an INLINE index would be less than its predecessor's, which is `last`.
    NotOrdered { last: i64 },
    /// The least cursor that reads the relation has the number `cursor`.
    InUse { cursor: u8 },
    /// The relation has an index.
    HasIndex,
    /// The attribute has no index.
    NoIndex,
    /// The number is not 1 to 4, or that cursor is not open.
    NoCursor,
    /// That cursor is open already.
    CursorOpen,
    /// The flash is cramped for an extent of `need` pages.
    Space { need: u16 },
    /// The bytes between two ends are no frame.
    Frame,
}
