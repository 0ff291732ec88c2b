ghost use Rattle.std.specs.Prelude.{◌<◌, IsTrue};
ghost use Rattle.afl_base.specs.Files.{IsUnnamed, used};

use afl_base::{FileId, Files, Name};

// Whether the last place for a file is free.
fn has_place<V: Files>(files: &V) -> bool
    ensures place { IsTrue result → used (V.state files.now).files < 32 }
{
    match FileId::new(31) {
        Some(last) => !files.live(last),
        None => false,
    }
}

/// Whether there is no file of this name, and a place for one.
pub fn is_free<V: Files>(files: &V, name: Name) -> bool
    ensures unnamed { IsTrue result → IsUnnamed (V.state files.now).files name }
    ensures place { IsTrue result → used (V.state files.now).files < 32 }
{
    if files.find(name).is_some() {
        return false;
    }
    has_place(files)
}
