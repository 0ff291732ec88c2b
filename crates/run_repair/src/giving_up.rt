ghost use Rattle.std.specs.Prelude.{◌≡◌, ◌≢◌, ◌⊎◌, ◌<◌, ℕ, IfNone, IfOk, IfSome, IsTrue, None, OnErr, Some, false, length, true};
ghost use Rattle.std.specs.Bool.{Decides};
ghost use Rattle.afl_base.specs.Causes.{HasCause};
ghost use Rattle.afl_base.specs.Keeping.{OnlyReads};
ghost use Rattle.catalog.specs.Rules.{is_tree};
ghost use Rattle.coffee_find.specs.Found.{HasRecord};
ghost use Rattle.coffee_find.specs.declared.trouble.TornRecord.{TornRecord as Torn};
ghost use Rattle.coffee_layout.specs.Rules.{broken_image};
ghost use Rattle.coffee_mend.specs.Discarded.{discarded};
ghost use Rattle.flash_views.specs.Views.{FitsImage, overlaid};
ghost use Rattle.image_model.specs.Images.{files_of_image};
ghost use Rattle.run_repair.specs.GivenUp.{IsBeingGivenUp, IsGivenUp, IsStillTorn, MayLack, NoneToGiveUp};
ghost use Rattle.space_model.specs.FileNames.{tree_file};
ghost use Rattle.stored_mend.specs.Reported.{index_seen};

use afl_base::{Failed, Files, Flash, Name, PageId};
use coffee_find::{TornRecord, Trouble};
use coffee_layout::FileAt;
use coffee_mend::{discard, torn_file};
use coffee_volume::{Unlisted, Volume, list};
use flash_views::{Handed, Mark, Overlay, View};
use stored_mend::whole_catalog;
use stored_survey::may_be_cut;

/// Gives up the tree of an index, where the thirtieth record of its log is torn and a cut can have left the files without it:
/// it can be made of the rows. It answers whether it did; else the image is as it was, and there was none to give up.
#[inline(never)]
pub fn give_up_tree<F: Flash>(flash: &mut F, trouble: &Trouble) -> Result<bool, Failed>
    requires inside { HasRecord (length (F.image flash.old)) trouble.now.torn }
    ensures given { IsTrue F.tells → IsStillTorn (F.image flash.old) trouble.now
        → IfOk result (λ given. given ≡ true → IsGivenUp (F.image flash.old) (F.image flash.new)) }
    ensures stays { IfOk result (λ given. given ≡ false → F.image flash.new ≡ F.image flash.old) }
    ensures needed { IsTrue F.tells → IsStillTorn (F.image flash.old) trouble.now
        → IfOk result (λ given. given ≡ false → NoneToGiveUp (F.image flash.old) trouble.now) }
    ensures cut { IsTrue F.tells → IsTrue F.cuts → IsStillTorn (F.image flash.old) trouble.now → OnErr result
        ((F.image flash.new ≡ F.image flash.old) ⊎ IsBeingGivenUp (F.image flash.old) (F.image flash.new)) }
    ensures size { length (F.image flash.new) ≡ length (F.image flash.old) }
    ensures lent { F.lent flash.new ≡ F.lent flash.old }
    ensures cause { HasCause (F.faults flash.old) (F.faults flash.new) result }
{
    flash.sectors();
    let Some(torn) = last_torn(trouble) else {
        return Ok(false);
    };
    let Some(file) = torn_file(flash, &torn)? else {
        return Ok(false);
    };
    if !may_lack(flash, &file, torn.log)? {
        return Ok(false);
    }
    discard(flash, &file, torn.log)?;
    Ok(true)
}

// The record that was found torn, where it is the thirtieth of its log.
fn last_torn(trouble: &Trouble) -> Option<TornRecord>
    ensures torn { IfSome result (λ r. trouble.now.torn ≡ Some r) }
    ensures last { IfSome result (λ r. r.used ≡ 29) }
    ensures none { IfNone result ((r : Torn) → trouble.now.torn ≡ Some r → r.used ≢ 29) }
{
    match trouble.torn {
        Some(torn) => if torn.used == 29 { Some(torn) } else { None },
        None => None,
    }
}

// Whether a file is the tree of an index, and a cut can have left the files without it.
fn may_lack<F: Flash>(flash: &mut F, file: &FileAt, log: PageId) -> Result<bool, Failed>
    ensures lacks { IsTrue F.tells → broken_image (discarded (F.image flash.old) file.now log) ≡ None
        → IfOk result (λ lacks. Decides lacks
        (MayLack (files_of_image (discarded (F.image flash.old) file.now log)) file.now.name)) }
    ensures same { F.image flash.new ≡ F.image flash.old }
    ensures lent { F.lent flash.new ≡ F.lent flash.old }
    ensures cause { HasCause (F.faults flash.old) (F.faults flash.new) result }
{
    let overlay = without(file.page, log);
    let mut lacks = Err(Failed);
    let _handed = may_lack_settled(Handed { flash }, overlay, file.name, &mut lacks);
    lacks
}

// The marks that make a file and its log obsolete.
fn without(page: PageId, log: PageId) -> Overlay
    ensures { result ≡ record {
      first = Some (record { page = page; bits = 4 });
      second = Some (record { page = log; bits = 4 });
      sector = None;
      blank = None;
      two = None;
    } }
{
    let mut overlay = Overlay::nothing();
    overlay.first = Some(Mark { page, bits: 4 });
    overlay.second = Some(Mark { page: log, bits: 4 });
    overlay
}

// The same through a view.
#[inline(never)]
fn may_lack_settled<F: Flash>(
    flash: F,
    overlay: Overlay,
    tree: Name,
    lacks: &mut Result<bool, Failed>,
) -> F
    requires inside { FitsImage (length (F.image flash)) overlay }
    ensures lacks { IsTrue F.tells → broken_image (overlaid (F.image flash) overlay) ≡ None → IfOk lacks.new
        (λ l. Decides l (MayLack (files_of_image (overlaid (F.image flash) overlay)) tree)) }
    ensures same { F.image result ≡ F.image flash }
    ensures lent { F.lent result ≡ F.lent flash }
    ensures cause { HasCause (F.faults flash) (F.faults result) lacks.new }
{
    let mut view = View::new(flash, overlay);
    *lacks = may_lack_in(&mut view, tree);
    view.into_flash()
}

// The same of an image as it reads now.
fn may_lack_in<F: Flash>(flash: &mut F, tree: Name) -> Result<bool, Failed>
    ensures lacks { IsTrue F.tells → broken_image (F.image flash.old) ≡ None
        → IfOk result (λ l. Decides l (MayLack (files_of_image (F.image flash.old)) tree)) }
    ensures same { F.image flash.new ≡ F.image flash.old }
    ensures lent { F.lent flash.new ≡ F.lent flash.old }
    ensures cause { HasCause (F.faults flash.old) (F.faults flash.new) result }
{
    let listed = match list(flash) {
        Ok(listed) => listed,
        Err(Unlisted::Bad(_)) => return Ok(false),
        Err(Unlisted::Failed) => return Err(Failed),
    };
    let mut volume = Volume::over(Handed { flash }, listed);
    may_lack_tree(&mut volume, tree)
}

// The same of files.
fn may_lack_tree<V: Files>(files: &mut V, tree: Name) -> Result<bool, Failed>
    ensures lacks { IsTrue (V.state files.old).tells
        → IfOk result (λ l. Decides l (MayLack (V.state files.old).files tree)) }
    ensures frame { OnlyReads V.state V.lent V.reads V.faults files.old files.new result }
{
    let Some(slot) = slot_of(tree.bytes()) else {
        return Ok(false);
    };
    if !has_tree(files, slot)? {
        return Ok(false);
    }
    let cut = may_be_cut(files)?;
    Ok(cut)
}

// The slot of the index whose tree has the name.
fn slot_of(name: &[u8]) -> Option<u16>
    ensures slot { IfSome result (λ slot. slot < 8) }
    ensures named { IfSome result (λ slot. name.now ≡ tree_file slot) }
    ensures none { IfNone result ((slot : ℕ) → slot < 8 → name.now ≢ tree_file slot) }
{
    match name {
        [b'X', digit] => if b'0' <= *digit && *digit <= b'7' {
            Some(u16::from(*digit - b'0'))
        } else {
            None
        },
        _ => None,
    }
}

// Whether the index in a slot has a tree.
fn has_tree<V: Files>(files: &mut V, slot: u16) -> Result<bool, Failed>
    requires slot { slot < 8 }
    ensures has { IsTrue (V.state files.old).tells
        → IfOk result (λ has. has ≡ is_tree (index_seen (V.state files.old).files slot)) }
    ensures frame { OnlyReads V.state V.lent V.reads V.faults files.old files.new result }
{
    let Some(cat) = whole_catalog(files) else {
        return Ok(false);
    };
    let mut bytes = [0; 8];
    files.read(cat, 1_408 + 8 * u32::from(slot), &mut bytes)?;
    Ok(bytes[0] == 2)
}
