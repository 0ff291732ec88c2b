//! The files of a flash, and new ones.

ghost use Rattle.std.specs.Prelude.{◌≡◌, IfOk, None, OnOk};
ghost use Rattle.afl_base.specs.Files.{IsLive, file_at, place, size_at};
ghost use Rattle.afl_base.specs.declared.kind.Kind.TheVariants.{Doubling};
ghost use Rattle.database_tests.specs.Standing.{KeepsEachFile};

use afl_base::{Failed, FileId, Files, Flash, Kind, Name};
use coffee_volume::{MountError, Volume};
use std::test::Fail;
use test_steps::is_free;

/// The files of a flash whose image keeps its rules.
pub fn mounted<F: Flash + Drop>(flash: F) -> Result<Volume<F>, Fail>
    ensures idle { IfOk result (λ v. (⟦<Volume<F> as Files>⟧.state v).draft ≡ None) }
{
    match Volume::mount(flash) {
        Ok(volume) => Ok(volume),
        Err(MountError::Bad { bad, flash: _ }) => Err(Fail::from(bad)),
        Err(MountError::Failed { flash: _ }) => Err(Fail::from(Failed)),
    }
}

/// A new file of this name.
pub fn empty_file<V: Files>(files: &mut V, name: Name) -> Result<FileId, Fail>
    requires idle { (V.state files.old).draft ≡ None }
    ensures live { IfOk result (λ id. IsLive (V.state files.new).files id) }
    ensures kind { IfOk result (λ id. (file_at (V.state files.new).files id).kind ≡ Doubling) }
    ensures empty { IfOk result (λ id. size_at (V.state files.new).files id ≡ 0) }
    ensures new { IfOk result (λ id. place (V.state files.old).files id ≡ None) }
    ensures keeps { OnOk result (KeepsEachFile (V.state files.old) (V.state files.new)) }
{
    if !is_free(files, name) {
        return Err(Fail::new("there is no place for a file"));
    }
    Ok(files.create(name, Kind::Doubling)?)
}
