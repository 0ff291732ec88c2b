use db_model::Refusal;

/// The result of a change of the database.
#[derive(Clone, Copy, Debug, PartialEq, Eq)]
pub enum Answer {
    Fine,
    /// This many rows were removed.
    Removed(u16),
    Refused(Refusal),
    /// There was no room for an extent of this many pages.
    NoSpace(u16),
}
