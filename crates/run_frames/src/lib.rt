//! Four clients on one line: their frames, the commands that these ask for, and the reply frames. The
//! definitions are in `specs`; the functions here do nothing, and their contracts are laws of theirs.
#![tactic(auto)]

ghost use Rattle.std.specs.Prelude.{◌≡◌, ◌≤◌, ◌++◌, ◌∷◌, ℕ, List, [], Some, Result, length};
ghost use Rattle.std.specs.List.{AllByRecursion, slice_split};
ghost use Rattle.db_model.specs.declared.commands.Command.{Command};
ghost use Rattle.db_model.specs.declared.refusals.Refusal.{Refusal};
ghost use Rattle.db_model.specs.declared.values.Value.{Value};
ghost use Rattle.db_model.specs.Database.{Database, bare};
ghost use Rattle.db_model.specs.ReplyText.{text};
ghost use Rattle.db_model.specs.Sound.{IsSoundDatabase};
ghost use Rattle.db_model.specs.Step.{Refused};
ghost use Rattle.run_model.specs.Line.{ComesInParts};
ghost use Rattle.run_frames.specs.Fetching.{FetchesItsAnswer, OpensQuery};
ghost use Rattle.run_frames.specs.Frames.{Frame, decoded, ended_frames, finished_frames, frame_cut, frame_line, frames, is_end, part_behind, unended_frame};
ghost use Rattle.run_frames.specs.Served.{IsOfClient, client_of, framed, parts, served};

/// The frames of some bytes are those that the bytes end one by one, and then one that is unfinished
/// where bytes are left.
#[tactic(auto, using(crate::proofs::Ending::frames_ended, crate::proofs::Ending::frames_finished))]
pub fn frames_end_one_by_one()
    ensures all { (bytes : List ℕ)
        → frames bytes ≡ ended_frames [] bytes ++ unended_frame (part_behind [] bytes) }
    ensures finished { (bytes : List ℕ) → finished_frames (frames bytes) ≡ ended_frames [] bytes }
{}

/// The bytes of a line of frames may come in any parts.
#[tactic(auto, using(crate::proofs::Ending::frame_parts))]
pub fn frames_come_in_parts()
    ensures { ComesInParts frame_cut frame_line }
{}

/// The whole frames of the first bytes of a line are the first of its frames.
#[tactic(auto, using(crate::proofs::Ending::whole_is_front))]
pub fn first_bytes_give_first_frames()
    ensures { (came left : List ℕ) → (rest : List Frame)
        × (frames (came ++ left) ≡ finished_frames (frames came) ++ rest) }
{}

/// A client fetches the rows of its own answer in order, whatever stands between.
#[tactic(auto, using(crate::proofs::Fetching::fetches))]
pub fn clients_fetch_their_answers()
    ensures { (read : List ℕ → Result Command Refusal)
        (client : ℕ) (rows : List (List Value)) (db : Database) (frame : Frame)
        → length db.cursors ≡ 4
        → OpensQuery read client rows db frame
        → FetchesItsAnswer read client rows db frame }
{}

/// Cut at each END, what is served from a sound database on is one part for each frame, whatever comes
/// after, and nothing in a part is escaped.
#[tactic(auto, using(crate::proofs::Parts::clients_of_frames, crate::proofs::Parts::served_parts, crate::proofs::Parts::parts_plain, crate::proofs::Parts::refused_part))]
pub fn each_reply_is_one_part()
    ensures clients { (bytes : List ℕ) → AllByRecursion IsOfClient (frames bytes) }
    ensures served { (read : List ℕ → Result Command Refusal)
        (db : Database) (all : List Frame) (rest : List ℕ)
        → IsSoundDatabase db → AllByRecursion IsOfClient all
        → slice_split is_end (served read (bare db) all ++ rest)
        ≡ parts read (bare db) all ++ slice_split is_end rest }
    ensures plain { (read : List ℕ → Result Command Refusal) (db : Database) (all : List Frame)
        → IsSoundDatabase db → AllByRecursion IsOfClient all
        → AllByRecursion (λ part. decoded part ≡ Some part) (parts read (bare db) all) }
    ensures refused { (frame : Frame) (refusal : Refusal) (rest : List ℕ)
        → IsOfClient frame
        → slice_split is_end (framed frame (text (Refused refusal)) ++ rest)
        ≡ (client_of frame ∷ text (Refused refusal)) ∷ slice_split is_end rest }
{}
