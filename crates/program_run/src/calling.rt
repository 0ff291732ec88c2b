//! A run or upkeep on a flash, as the words ask.

#![tactic(auto)]

ghost use Rattle.std.specs.Prelude.{◌≡◌, ◌⊎◌, ◌↔◌, IfSome, IsTrue, None, Some};
ghost use Rattle.antelope_run.specs.Promise.{KeepsPromise, IsStatus};
ghost use Rattle.run_model.specs.Moments.{moment};
ghost use Rattle.run_collect.specs.Collects.{BreaksCollectionOff, Collects, IsCollectStatus};
ghost use Rattle.program_run.specs.Upkeep.{BreaksOffUpkeep, IsUpkeepStatus, UpkeepLeaves, upkeep_of};
ghost use Rattle.run_repair.specs.Checks.{Checks, IsCheckStatus};
ghost use Rattle.run_repair.specs.Mends.{StaysOrMends};
ghost use Rattle.run_repair.specs.Repairs.{IsRepairStatus, Repairs};
ghost use Rattle.run_words.specs.declared.words.Form.{Form};
ghost use Rattle.run_words.specs.Words.{form_of};

use crate::naming::{Upkeep, upkeep_of};
use afl_base::{Flash, Sink, Source};
use antelope_run::top;
use run_collect::collect;
use run_repair::{check, repair};

/// Does the upkeep of a flash that the words ask for, or runs on it as they ask. The answer is the status that the program
/// ends with, and the flash. What was written, and what the flash holds, is what `repair`, `check`, `collect` or `top` promises.
pub fn carry_out<F: Flash, S: Source, K: Sink>(
    words: &[String],
    script: &mut S,
    out: &mut K,
    flash: F,
) -> (u8, F)
    ensures only { IsStatus result.0 ⊎ IsUpkeepStatus result.0 }
    ensures words { (result.0 ≡ 1) ↔ ((form_of words.now ≡ None) × (upkeep_of words.now ≡ None)) }
    ensures ran { IsTrue F.tells → upkeep_of words.now ≡ None
        → (form : Form) → form_of words.now ≡ Some form → KeepsPromise form F.cuts result.0
        (moment F.Flash S.Source K.Sink flash script.old out.old)
        (moment F.Flash S.Source K.Sink result.1 script.new out.new) }
    ensures kept { IsTrue F.tells → IfSome (upkeep_of words.now) (λ upkeep.
        UpkeepLeaves upkeep result.0 (F.image flash) (F.image result.1) (K.held out.old) (K.held out.new)) }
    ensures cut { IsTrue F.tells → IsTrue F.cuts → result.0 ≡ 4 → IfSome (upkeep_of words.now) (λ upkeep.
        BreaksOffUpkeep upkeep (F.image flash) (F.image result.1)) }
{
    match upkeep_of(words) {
        Some(upkeep) => {
            let mut flash = flash;
            let status = keep(upkeep, out, &mut flash);
            (status, flash)
        }
        None => run(words, script, out, flash),
    }
}

// Each has a frame of its own on the stack.
#[inline(never)]
fn run<F: Flash, S: Source, K: Sink>(
    words: &[String],
    script: &mut S,
    out: &mut K,
    flash: F,
) -> (u8, F)
    ensures only { IsStatus result.0 }
    ensures words { (result.0 ≡ 1) ↔ (form_of words.now ≡ None) }
    ensures ran { IsTrue F.tells → (form : Form) → form_of words.now ≡ Some form → KeepsPromise form F.cuts result.0
        (moment F.Flash S.Source K.Sink flash script.old out.old)
        (moment F.Flash S.Source K.Sink result.1 script.new out.new) }
{
    top(words, script, out, flash)
}

// The upkeep of a flash.
fn keep<F: Flash, K: Sink>(upkeep: Upkeep, out: &mut K, flash: &mut F) -> u8
    ensures only { IsUpkeepStatus result }
    ensures kept { IsTrue F.tells → UpkeepLeaves upkeep result
        (F.image flash.old) (F.image flash.new) (K.held out.old) (K.held out.new) }
    ensures cut { IsTrue F.tells → IsTrue F.cuts → result ≡ 4
        → BreaksOffUpkeep upkeep (F.image flash.old) (F.image flash.new) }
{
    match upkeep {
        Upkeep::Repair => repaired(out, flash),
        Upkeep::Check => checked(out, flash),
        Upkeep::Collect => collected(out, flash),
    }
}

#[inline(never)]
fn repaired<F: Flash, K: Sink>(out: &mut K, flash: &mut F) -> u8
    ensures only { IsRepairStatus result }
    ensures repaired { IsTrue F.tells
        → Repairs result (F.image flash.old) (F.image flash.new) (K.held out.old) (K.held out.new) }
    ensures cut { IsTrue F.tells → IsTrue F.cuts → result ≡ 4
        → StaysOrMends (F.image flash.old) (F.image flash.new) }
{
    repair(out, flash)
}

#[inline(never)]
fn checked<F: Flash, K: Sink>(out: &mut K, flash: &mut F) -> u8
    ensures only { IsCheckStatus result }
    ensures checked { IsTrue F.tells → Checks result (F.image flash.old) (K.held out.old) (K.held out.new) }
    ensures same { F.image flash.new ≡ F.image flash.old }
{
    check(out, flash)
}

#[inline(never)]
fn collected<F: Flash, K: Sink>(out: &mut K, flash: &mut F) -> u8
    ensures only { IsCollectStatus result }
    ensures collected { IsTrue F.tells
        → Collects result (F.image flash.old) (F.image flash.new) (K.held out.old) (K.held out.new) }
    ensures broken_off { IsTrue F.tells → IsTrue F.cuts → result ≡ 4
        → BreaksCollectionOff (F.image flash.old) (F.image flash.new) }
{
    collect(out, flash)
}
