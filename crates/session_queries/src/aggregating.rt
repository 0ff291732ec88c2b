//! SELECT of aggregates.

#![tactic(auto)]

ghost use Rattle.std.specs.Prelude.{◌≡◌, ◌+◌, ◌*◌, ◌≤◌, List, Option, IfErr, IfOk, IsTrue, OnErr, OnOk, if◌then◌else◌};
ghost use Rattle.afl_base.specs.Keeping.{OnlyReads, Sends};
ghost use Rattle.std.specs.Io.KnownBytes.{append_known};
ghost use Rattle.afl_base.specs.Files.{Table};
ghost use Rattle.db_model.specs.declared.commands.Command.TheVariants as command;
ghost use Rattle.db_model.specs.Answers.{selected};
ghost use Rattle.db_model.specs.Cond.{Cond, IsCondition, condition_of};
ghost use Rattle.db_model.specs.Cost.{aggregate_cost, chosen_cost};
ghost use Rattle.db_model.specs.Plan.{ranges_of};
ghost use Rattle.db_model.specs.ReplyText.{text};
ghost use Rattle.db_model.specs.Step.{Numbers, Refused, step};
ghost use Rattle.index_set.specs.Plans.{kinds};
ghost use Rattle.lvm.specs.Code.{IsCodeOf};
ghost use Rattle.reply_text.specs.WroteLess.{WroteLess};
ghost use Rattle.tuple_file.specs.Tuples.{rows};
ghost use Rattle.session_model.specs.declared.held.Open.{Open as AnyOpen};
ghost use Rattle.session_model.specs.Carried.{AnswersRows, Runs};
ghost use Rattle.session_model.specs.View.{view};
ghost use Rattle.session_plans.specs.Aggregates.{AllSuitFolds, answers, medians};
ghost use Rattle.session_queries.specs.Finds.{HasEightSlots, IsRelationFound, IsReadableBy};
ghost use Rattle.session_queries.specs.Replies.{ReadsNoMore};

use crate::finding::{Found, find};
use crate::folding::{answers_of, new_tallies};
use crate::passing::fold_all;
use afl_base::{Failed, Fault, Files, Sink};
use cursor::{SelectCursor, none_begun};
use db_model::{AggList, Condition, Few, Ident, Refusal};
use index_set::HashTables;
use reply_text::{write_numbers, write_refusal, write_rows};
use session_model::{Base, Held, Outcome};
use session_plans::{AggregatePlan, plan_aggregates};

/// Writes one row with the aggregates of a list, or the refusal. A MEDIAN takes several passes over the
/// rows, and no buffer.
// Not inlined, so that what it keeps is on the stack of no other query.
#[inline(never)]
pub fn aggregate<V: Files, K: Sink>(
    base: &mut Base<V>,
    list: &AggList,
    relation: &Ident,
    condition: &Condition,
    out: &mut K,
) -> Result<Outcome, Fault>
    requires running { Runs V.Files base.old }
    requires condition { IsCondition condition.now }
    ensures written { AnswersRows V.Files K.Sink (command.Aggregate list.now relation.now condition.now)
        base.old base.new out.old out.new result }
    ensures reads { ReadsNoMore V.Files (command.Aggregate list.now relation.now condition.now)
        base.old base.new }
    ensures files_only { base.new ≡ record base.old { files = base.new.files } }
{
    let aggregating = match plan_folds(&base.held, list, relation, condition) {
        Ok(aggregating) => aggregating,
        Err(refusal) => {
            return match write_refusal(out, &refusal) {
                Ok(()) => Ok(Outcome::Refused),
                Err(_) => Err(Fault::Sink),
            };
        }
    };
    let numbers = match folded(&mut base.files, &base.tables, aggregating) {
        Ok(numbers) => numbers,
        Err(_) => return Err(Fault::Flash),
    };
    match write_answers(numbers.as_slice(), out) {
        Ok(()) => Ok(Outcome::Rows(1)),
        Err(_) => Err(Fault::Sink),
    }
}

/// A relation, and what a list of aggregates asks of it.
#[derive(Drop)]
struct Aggregating {
    found: Found,
    plan: AggregatePlan,
}

// The relation of the aggregates and what is asked of it, or how they are refused.
// Not inlined, so that the copies of a plan are gone when rows are read.
#[inline(never)]
fn plan_folds(
    held: &Held,
    list: &AggList,
    relation: &Ident,
    condition: &Condition,
) -> Result<Aggregating, Refusal>
    requires slots { HasEightSlots held.now }
    requires condition { IsCondition condition.now }
    ensures found { IfOk result (λ a. IsRelationFound held.now relation.now a.found) }
    ensures code { IfOk result (λ a.
        IsCodeOf a.found.tuples.schema.attributes (condition_of condition.now) a.plan.code) }
    ensures suit { IfOk result (λ a. AllSuitFolds a.found.tuples.schema.attributes a.plan.items) }
    ensures numbers { let tree = condition_of condition.now in IfOk result (λ a.
        (files : Table) (opens : List (Option AnyOpen)) → (step (view files held.now opens)
        (command.Aggregate list.now relation.now condition.now)).1 ≡ Numbers (answers a.plan.items
        (selected a.found.tuples.schema.attributes tree (rows files a.found.tuples)))) }
    ensures cost { let tree = condition_of condition.now in IfOk result (λ a.
        (files : Table) (opens : List (Option AnyOpen))
        → aggregate_cost (view files held.now opens) list.now relation.now condition.now
        ≡ (if medians a.plan.items then 10 else 1) * chosen_cost (kinds a.found.indexes)
        (ranges_of a.found.tuples.schema.attributes tree) (rows files a.found.tuples)) }
    ensures refused { IfErr result (λ refusal. (files : Table) (opens : List (Option AnyOpen))
        → (step (view files held.now opens)
        (command.Aggregate list.now relation.now condition.now)).1 ≡ Refused refusal) }
{
    let found = match find(held, relation) {
        Some(found) => found,
        None => return Err(Refusal::NoRelation),
    };
    match plan_aggregates(list, condition, &found.tuples.schema) {
        Ok(plan) => Ok(Aggregating { found, plan }),
        Err(refusal) => Err(refusal),
    }
}

// What the aggregates come to.
fn folded<V: Files>(
    files: &mut V,
    tables: &HashTables,
    aggregating: Aggregating,
) -> Result<Few<Option<i64>, 8>, Failed>
    requires ready { IsReadableBy (V.state files.old) tables.now aggregating.found }
    requires suit { AllSuitFolds aggregating.found.tuples.schema.attributes aggregating.plan.items }
    ensures numbers { let tuples = aggregating.found.tuples in
        let all = rows (V.state files.old).files tuples in
        IsTrue (V.state files.old).tells → IfOk result (λ numbers. (condition : Option Cond)
        → IsCodeOf tuples.schema.attributes condition aggregating.plan.code
        → numbers ≡ answers aggregating.plan.items (selected tuples.schema.attributes condition all)) }
    ensures reads { let tuples = aggregating.found.tuples in
        let all = rows (V.state files.old).files tuples in
        IsTrue (V.state files.old).tells → (condition : Option Cond)
        → IsCodeOf tuples.schema.attributes condition aggregating.plan.code
        → V.reads files.new ≤ V.reads files.old
        + (if medians aggregating.plan.items then 10 else 1) * chosen_cost (kinds aggregating.found.indexes)
        (ranges_of tuples.schema.attributes condition) all }
    ensures frame { OnlyReads V.state V.lent V.reads V.faults files.old files.new result }
{
    let Aggregating { found, plan } = aggregating;
    let AggregatePlan { items, code } = plan;
    let Found {
        tuples,
        indexes,
        ..
    } = found;
    let mut cursor = SelectCursor {
        tuples,
        code,
        candidates: none_begun(),
    };
    cursor.begin(files, tables, &indexes)?;
    let mut tallies = new_tallies(items.as_slice());
    fold_all(files, tables, &mut cursor, items.as_slice(), &mut tallies)?;
    Ok(answers_of(items.as_slice(), &tallies))
}

// Writes the row of these numbers.
fn write_answers<K: Sink>(numbers: &[Option<i64>], out: &mut K) -> Result<(), Failed>
    ensures written { OnOk result
        (K.held out.new ≡ append_known (K.held out.old) (text (Numbers numbers.now))) }
    ensures failed { OnErr result
        (WroteLess (K.held out.old) (K.held out.new) (text (Numbers numbers.now))) }
    ensures frame { Sends K.lent K.faults out.old out.new result }
{
    write_numbers(out, numbers)?;
    write_rows(out, 1)?;
    Ok(())
}
