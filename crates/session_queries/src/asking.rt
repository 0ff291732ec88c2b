//! SELECT of names, and JOIN.

#![tactic(auto)]

ghost use Rattle.std.specs.Prelude.{◌≡◌};
ghost use Rattle.db_model.specs.declared.commands.Command.TheVariants as command;
ghost use Rattle.db_model.specs.declared.commands.Query.TheVariants as query;
ghost use Rattle.db_model.specs.Cond.{IsCondition};
ghost use Rattle.session_model.specs.Carried.{AnswersRows, Runs};
ghost use Rattle.session_model.specs.Queries.{HasConditions};
ghost use Rattle.session_queries.specs.Replies.{ReadsNoMore};

use crate::joining::{join, plan_pairs};
use crate::selecting::{plan, select};
use afl_base::{Fault, Files, Sink};
use db_model::{Condition, Ident, Idents, Query};
use reply_text::write_refusal;
use session_model::{Base, Outcome};

/// Writes the rows of a query, each as it is found, and then their number; or the query's refusal.
pub fn ask<V: Files, K: Sink>(
    base: &mut Base<V>,
    query: &Query,
    out: &mut K,
) -> Result<Outcome, Fault>
    requires running { Runs V.Files base.old }
    requires condition { HasConditions query.now }
    ensures written { AnswersRows V.Files K.Sink (command.Ask query.now) base.old base.new
        out.old out.new result }
    ensures reads { ReadsNoMore V.Files (command.Ask query.now) base.old base.new }
    ensures files_only { base.new ≡ record base.old { files = base.new.files } }
{
    match query {
        Query::Select {
            list,
            relation,
            condition,
        } => ask_select(base, list, relation, condition, out),
        Query::Join {
            left,
            right,
            on,
            list,
        } => ask_join(base, left, right, on, list, out),
    }
}

// Not inlined, so that what it keeps is on the stack of no JOIN.
#[inline(never)]
fn ask_select<V: Files, K: Sink>(
    base: &mut Base<V>,
    list: &Idents,
    relation: &Ident,
    condition: &Condition,
    out: &mut K,
) -> Result<Outcome, Fault>
    requires running { Runs V.Files base.old }
    requires condition { IsCondition condition.now }
    ensures written { let asked = query.Select list.now relation.now condition.now in
        AnswersRows V.Files K.Sink (command.Ask asked) base.old base.new out.old out.new result }
    ensures reads { let asked = query.Select list.now relation.now condition.now in
        ReadsNoMore V.Files (command.Ask asked) base.old base.new }
    ensures files_only { base.new ≡ record base.old { files = base.new.files } }
{
    match plan(&base.held, list, relation, condition) {
        Ok(selecting) => select(&mut base.files, &base.tables, selecting, out),
        Err(refusal) => match write_refusal(out, &refusal) {
            Ok(()) => Ok(Outcome::Refused),
            Err(_) => Err(Fault::Sink),
        },
    }
}

// Not inlined, so that what it keeps is on the stack of no SELECT.
#[inline(never)]
fn ask_join<V: Files, K: Sink>(
    base: &mut Base<V>,
    left: &Ident,
    right: &Ident,
    on: &Ident,
    list: &Idents,
    out: &mut K,
) -> Result<Outcome, Fault>
    requires running { Runs V.Files base.old }
    ensures written { let asked = query.Join left.now right.now on.now list.now in
        AnswersRows V.Files K.Sink (command.Ask asked) base.old base.new out.old out.new result }
    ensures reads { let asked = query.Join left.now right.now on.now list.now in
        ReadsNoMore V.Files (command.Ask asked) base.old base.new }
    ensures files_only { base.new ≡ record base.old { files = base.new.files } }
{
    match plan_pairs(&base.held, left, right, on, list) {
        Ok(joining) => join(&mut base.files, &base.tables, joining, out),
        Err(refusal) => match write_refusal(out, &refusal) {
            Ok(()) => Ok(Outcome::Refused),
            Err(_) => Err(Fault::Sink),
        },
    }
}
