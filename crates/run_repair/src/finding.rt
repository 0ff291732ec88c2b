ghost use Rattle.std.specs.Prelude.{◌≡◌, ◌≤◌, IfNone, IfOk, IfSome, IsTrue, List, length, ℕ};
ghost use Rattle.afl_base.specs.Causes.{HasCause};
ghost use Rattle.coffee_find.specs.Found.{IsCutBy, IsJudged, IsJudgedInside, IsTroubleInside, MendsToNone};
ghost use Rattle.run_repair.specs.Findings.{IsFindingInside, IsTrueOf};

use crate::judging::judge_image;
use crate::surveying::survey_image;
use afl_base::{Failed, Flash};
use coffee_find::{Judgement, Trouble, UnderWay, judge};
use coffee_layout::BadImage;
use image_model::sound_image_breaks_no_rule;

/// What an image is.
#[derive(Clone, Copy, PartialEq, Eq, Debug)]
pub enum Finding {
    /// It is sound.
    Sound,
    /// A cut can have left it, and of its files this. It has this first broken rule.
    Cut { trouble: Trouble, bad: BadImage },
    /// No cut leaves such an image, of which this is the first broken rule.
    Strange(BadImage),
}

/// Finds by reading alone what an image is: a repair writes exactly where a cut can have left it, and a check says so.
#[inline(never)]
pub fn find_out<F: Flash>(flash: &mut F) -> Result<Finding, Failed>
    ensures found { IsTrue F.tells → IfOk result (IsTrueOf (F.image flash.old)) }
    ensures inside { IfOk result (IsFindingInside (length (F.image flash.old))) }
    ensures same { F.image flash.new ≡ F.image flash.old }
    ensures lent { F.lent flash.new ≡ F.lent flash.old }
    ensures cause { HasCause (F.faults flash.old) (F.faults flash.new) result }
{
    sound_image_breaks_no_rule();
    flash.sectors();
    let Err(bad) = judge_image(flash)? else {
        return Ok(Finding::Sound);
    };
    let Some(trouble) = trouble_of(judge(flash)?) else {
        return Ok(Finding::Strange(bad));
    };
    if !survey_image(flash, &trouble)? {
        return Ok(Finding::Strange(bad));
    }
    Ok(Finding::Cut { trouble, bad })
}

// What a cut left of the files: nothing where they are sound. None where no cut leaves such files.
fn trouble_of(judgement: Judgement) -> Option<Trouble>
    ensures cut { IfSome result (λ t. (image : List ℕ) → IsJudged image judgement → IsCutBy image t) }
    ensures inside { IfSome result (λ t. (size : ℕ) → IsJudgedInside size judgement → IsTroubleInside size t) }
    ensures none { IfNone result ((image : List ℕ) → IsJudged image judgement → MendsToNone image) }
{
    match judgement {
        Judgement::Sound => Some(Trouble {
            under_way: UnderWay::Nothing,
            torn: None,
        }),
        Judgement::Cut(trouble) => Some(trouble),
        Judgement::Strange(_) => None,
    }
}
