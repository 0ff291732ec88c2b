//! What stands in a catalog that has all slots.

#![tactic(auto)]

ghost use Rattle.std.specs.Prelude.{◌≡◌, ◌≤◌, ◌<◌, [], IfNone, IfOk, IfSome, IsTrue};
ghost use Rattle.afl_base.specs.Files.{IsLive, size_at};
ghost use Rattle.afl_base.specs.Keeping.{OnlyReads};
ghost use Rattle.stored.specs.Mended.{whole_catalog};
ghost use Rattle.stored_mend.specs.Mending.{HasInSlot, IsStrangeSlot, IsWholeCatalog};

use crate::decoding::mended_relation;
use afl_base::{Failed, FileId, Files};
use catalog::catalog_file;
use db_model::Schema;

/// The bytes of a catalog of version 1.
pub const SIZE_OF_VERSION_1: u32 = 1_472;

/// What makes a catalog of version 1 one of version 2.
pub const VERSION_MARK: [u8; 8] = [2, 0, 0, 0, 0, 0, 0, 1];

/// The file of a catalog that has all slots.
pub fn whole_catalog<V: Files>(files: &V) -> Option<FileId>
    ensures live { IfSome result (λ cat. IsLive (V.state files.now).files cat) }
    ensures size { IfSome result (λ cat. 1472 ≤ size_at (V.state files.now).files cat) }
    ensures found { IfSome result (λ cat. IsWholeCatalog (V.state files.now).files cat) }
    ensures none { IfNone result (whole_catalog (V.state files.now).files ≡ []) }
{
    let cat = files.find(catalog_file())?;
    if files.size(cat) < SIZE_OF_VERSION_1 {
        return None;
    }
    Some(cat)
}

/// What the slot of a relation is read as.
pub fn relation_in<V: Files>(
    files: &mut V,
    cat: FileId,
    slot: u16,
) -> Result<Option<Option<Schema>>, Failed>
    requires live { IsLive (V.state files.old).files cat }
    requires size { 1472 ≤ size_at (V.state files.old).files cat }
    requires slot { slot < 8 }
    ensures read { IsWholeCatalog (V.state files.old).files cat
        → IfOk result (λ r. IfSome r (HasInSlot (V.state files.old) slot)) }
    ensures strange { IsTrue (V.state files.old).tells → IsWholeCatalog (V.state files.old).files cat
        → IfOk result (λ r. IfNone r (IsStrangeSlot (V.state files.old).files slot)) }
    ensures frame { OnlyReads V.state V.lent V.reads V.faults files.old files.new result }
{
    let mut bytes = [0; 176];
    files.read(cat, 176 * u32::from(slot), &mut bytes)?;
    Ok(mended_relation(&bytes))
}
