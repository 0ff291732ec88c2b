//! The files of slots.

#![tactic(auto)]

ghost use Rattle.std.specs.Prelude.{◌≡◌, ◌<◌, IfSome, is_some};
ghost use Rattle.afl_base.specs.Files.{IsLive, bytes_at};
ghost use Rattle.space_model.specs.FileNames.{bytes_named, is_there, rows_file, tree_file};

use afl_base::{FileId, Files, IndexId, Name, RelationId};
use catalog::{rows_file, tree_file};

/// The file of the rows of a relation slot.
pub fn rows_at<V: Files>(files: &V, slot: u16) -> Option<FileId>
    requires slot { slot < 8 }
    ensures there { is_some result ≡ is_there (rows_file slot) (V.state files.now).files }
    ensures live { IfSome result (λ file. IsLive (V.state files.now).files file) }
    ensures bytes { IfSome result (λ file.
        bytes_at (V.state files.now).files file ≡ bytes_named (rows_file slot) (V.state files.now).files) }
{
    match RelationId::new(slot) {
        Some(id) => named(files, rows_file(id)),
        None => unreachable!(),
    }
}

/// The file of the tree of an index slot.
pub fn tree_at<V: Files>(files: &V, slot: u16) -> Option<FileId>
    requires slot { slot < 8 }
    ensures there { is_some result ≡ is_there (tree_file slot) (V.state files.now).files }
    ensures live { IfSome result (λ file. IsLive (V.state files.now).files file) }
    ensures bytes { IfSome result (λ file.
        bytes_at (V.state files.now).files file ≡ bytes_named (tree_file slot) (V.state files.now).files) }
{
    match IndexId::new(slot) {
        Some(id) => named(files, tree_file(id)),
        None => unreachable!(),
    }
}

// The file of a name.
fn named<V: Files>(files: &V, name: Name) -> Option<FileId>
    ensures there { is_some result ≡ is_there name (V.state files.now).files }
    ensures live { IfSome result (λ file. IsLive (V.state files.now).files file) }
    ensures bytes { IfSome result (λ file.
        bytes_at (V.state files.now).files file ≡ bytes_named name (V.state files.now).files) }
{
    files.find(name)
}
