//! Laws of candidates. Each function does nothing: its contract is the law.

#![tactic(auto)]

ghost use Rattle.std.specs.Prelude.{◌≡◌, List};
ghost use Rattle.afl_base.specs.Files.{State};
ghost use Rattle.db_model.specs.Row.{Row};
ghost use Rattle.index_set.specs.declared.candidates.Candidates.{Candidates as AnyCandidates};
ghost use Rattle.index_set.specs.declared.candidates.Search.{Search as AnySearch};
ghost use Rattle.index_set.specs.declared.info.IndexInfo.{IndexInfo as AnyInfo};
ghost use Rattle.index_set.specs.Complete.{AreComplete};
ghost use Rattle.index_set.specs.Inserts.{AllKeepBuckets};
ghost use Rattle.index_set.specs.Tables.{Tables};
ghost use Rattle.index_set.specs.Walks.{Fits, HasGrown, IsChosen, RowsGrow, Waits, ahead};

/// The slots to come are the same where rows come after the others.
#[tactic(auto, using(crate::proofs::Grown::ahead_kept))]
pub fn ahead_where_rows_come()
    ensures { (c : AnyCandidates) (old new : List Row) → RowsGrow old new → Waits c old
        → ahead c new ≡ ahead c old }
{}

/// What candidates know of the rows alone stays where rows come after the others.
#[tactic(auto, using(crate::proofs::Grown::waits_kept))]
pub fn waits_where_rows_come()
    ensures { (c : AnyCandidates) (old new : List Row) → RowsGrow old new → Waits c old
        → Waits c new }
{}

/// The index that a search uses has grown, where all of its list are complete and their trees have kept
/// the numbers of their buckets, as inserts leave them.
#[tactic(auto, using(crate::proofs::Grown::grown_chosen))]
pub fn grown_where_all_are_complete()
    ensures { (search : AnySearch) (infos : List AnyInfo) (before now : State) (tables : Tables)
        (all : List Row) → IsChosen search infos → AreComplete now tables all infos → AllKeepBuckets before now infos
        → HasGrown search before now tables all }
{}

/// Candidates stand where they should, and have the same slots to come, after inserts into their index.
#[tactic(auto, using(crate::proofs::Grown::fits_kept))]
pub fn fits_where_rows_are_inserted()
    ensures { (c : AnyCandidates) (before now : State) (tables tables_now : Tables) (old new : List Row)
        → RowsGrow old new → HasGrown c.search before now tables_now new → Fits c before tables old
        → Fits c now tables_now new }
{}
