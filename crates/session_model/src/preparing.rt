//! Room for a change of the catalog.

#![tactic(auto)]

ghost use Rattle.std.specs.Prelude.{◌≡◌, ◌+◌, ◌≤◌, None, OnOk};
ghost use Rattle.afl_base.specs.CutFiles.{CutKeeps};
ghost use Rattle.afl_base.specs.Keeping.{ChangesOrLacks};
ghost use Rattle.afl_base.specs.declared.kind.Kind.TheVariants.{Fixed};
ghost use Rattle.afl_base.specs.Asked.{asks_few};
ghost use Rattle.afl_base.specs.FileErrors.{OnSpace, UnlessFailed, WhereFailed};
ghost use Rattle.afl_base.specs.Files.{IsLive, KeepsBytes, file_at, size_at};
ghost use Rattle.afl_base.specs.Sparing.{StandsStill};
ghost use Rattle.catalog.specs.CatalogFile.{IsCatalogSize, IsPrepared};
ghost use Rattle.session_model.specs.Frames.{AsksNoExtent};
ghost use Rattle.space_model.specs.Wants.{room_for};

use afl_base::{FileError, FileId, Files};
use catalog::room_for;

/// Makes room in the catalog for a change of the `len` bytes from `at` on. No byte changes, and what
/// all is kept in stays where no extent is asked for.
#[tactic(auto, using(afl_base::proofs::AskedLaws::asked_few))]
pub fn prepare_catalog<V: Files>(
    files: &mut V,
    cat: FileId,
    at: u32,
    len: u32,
) -> Result<(), FileError>
    requires idle { (V.state files.old).draft ≡ None }
    requires live { IsLive (V.state files.old).files cat }
    requires size { IsCatalogSize (size_at (V.state files.old).files cat) }
    requires kind { (file_at (V.state files.old).files cat).kind ≡ Fixed 6 }
    requires inside { at + len ≤ 1472 }
    requires short { len ≤ 176 }
    ensures contents { UnlessFailed result (KeepsBytes (V.state files.old) (V.state files.new) cat) }
    ensures prepared { OnOk result (IsPrepared (file_at (V.state files.new).files cat) at len) }
    ensures asked { let size = size_at (V.state files.old).files cat in OnSpace result (λ need.
        asks_few (V.asks files.new) (V.state files.new).files cat ((room_for size at len).0) ((room_for size at len).1) need) }
    ensures still { AsksNoExtent (V.asks files.old) (V.state files.old).files cat at len
        → OnOk result (StandsStill V.state V.asks files.old files.new) }
    ensures cut { CutKeeps V.cuts V.mends V.state files.old files.new (WhereFailed result) }
    ensures frame { ChangesOrLacks V.state V.lent V.reads V.faults V.lacks files.old files.new result }
{
    let (overwrites, bytes) = room_for(files.size(cat), at, len);
    match files.prepare(cat, overwrites, bytes) {
        Ok(()) => Ok(()),
        Err(FileError::Space { need }) => Err(FileError::Space { need }),
        Err(FileError::Failed) => Err(FileError::Failed),
    }
}
