//! What a command can have left half done.

#![tactic(auto)]

/// What was under way in the files of a database when a run ended, or a repair. Slots are below 8.
#[derive(Clone, Copy, PartialEq, Eq)]
pub enum Half {
    /// Nothing was.
    Nothing,
    /// The slot of a relation was being emptied.
    Emptying(u16),
    /// A relation was being given one more attribute, or that was being taken back.
    Growing(u16),
    /// The rows of a slot without a relation: it was to be made, or was removed.
    LoneRows(u16),
    /// An index stands in its slot, and its tree is not there yet.
    Treeless(u16),
    /// The tree of an index that was removed, or was to be made.
    LoneTree(u16),
    /// A row was being appended to a relation.
    AddingRow(u16),
    /// A row was appended to a relation, and its key was being put into the trees.
    AddingKey(u16),
}
