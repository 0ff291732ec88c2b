//! A compiled condition.

#![tactic(auto)]

ghost use Rattle.std.specs.Prelude.{◌≡◌, ◌≤◌, List, [], Option, Some, None, OnOk, IfErr, length, map};
ghost use Rattle.db_model.specs.declared.schemas.Attribute.{Attribute};
ghost use Rattle.db_model.specs.Cond.{Cond, IsCondition, condition_of};
ghost use Rattle.db_model.specs.Item.{selects};
ghost use Rattle.db_model.specs.Ranges.{range_of};
ghost use Rattle.db_model.specs.Typing.{first_false, is_attribute};
ghost use Rattle.lvm.specs.Code.{IsCodeOf, refusal};
ghost use Rattle.lvm.specs.Evaluate.{evaluated, verdict};
ghost use Rattle.lvm.specs.Instruction.{instructions_for, names_among};
ghost use Rattle.lvm.specs.Within.{HoldsWithin};

use crate::evaluate::evaluated;
use crate::instruction::{Instruction, instruction_for};
use crate::kind::ill_typed;
use crate::side::derived;
use crate::values::Values;
use db_model::{Attribute, Condition, Few, Node, Range, Refusal, Schema, Tuple};
use std::marker::Model;

/// A condition, compiled over the attributes of a schema. Contracts see it as its steps.
#[derive(Drop)]
pub struct Code {
    instructions: Few<Instruction, 32>,
}

impl Model for Code {
    ghost use Rattle.std.specs.Prelude.{List};
    ghost use Rattle.lvm.specs.declared.instruction.Instruction.{Instruction};

    ghost Value = { List Instruction };

    ghost view = { λ code. code.instructions };
}

impl Code {
    /// The code of no condition, which each tuple satisfies.
    pub fn none() -> Code
        ensures { result ≡ [] }
    {
        Code {
            instructions: Few::new(),
        }
    }

    /// Puts the code of a condition over a schema in the place of the code of no condition, where
    /// `list_names` items, at most 8, stand in the command's list before it. It is made there since
    /// each copy of a code takes 1.3 KB of the stack. A code that was refused is of no use.
    ///
    /// # Errors
    ///
    /// `NoAttribute` counts the names from the left, those of the list first. `IllTyped` counts
    /// the items of the list, then the comparisons from the left, and comes where each name is an
    /// attribute.
    pub fn compile(
        &mut self,
        condition: &Condition,
        schema: &Schema,
        list_names: u8,
    ) -> Result<(), Refusal>
        requires condition { IsCondition condition.now }
        requires few { list_names ≤ 8 }
        requires empty { self.old ≡ [] }
        ensures code { let tree = condition_of condition.now in
            OnOk result (IsCodeOf schema.now.attributes tree self.new) }
        ensures accepted { let tree = condition_of condition.now in
            OnOk result (refusal list_names schema.now.attributes tree ≡ None) }
        ensures refused { let tree = condition_of condition.now in
            IfErr result (λ no. refusal list_names schema.now.attributes tree ≡ Some no) }
    {
        let attributes = schema.attributes.as_slice();
        let into = &mut self.instructions;
        if let Err(nth) = translate(condition.as_slice(), attributes, list_names, into) {
            return Err(Refusal::NoAttribute { nth });
        }
        let items = self.instructions.as_slice();
        if let Some(nth) = ill_typed(items, attributes, list_names) {
            return Err(Refusal::IllTyped { nth });
        }
        Ok(())
    }

    /// Whether the tuple satisfies the condition. Where there is no condition, each does.
    pub fn eval(&self, tuple: &Tuple) -> bool
        ensures steps { result ≡ verdict (evaluated self.now tuple.now []) }
        ensures told { (attributes : List Attribute) (condition : Option Cond)
            → IsCodeOf attributes condition self.now
            → result ≡ selects attributes condition tuple.now }
    {
        evaluated(self.instructions.as_slice(), tuple)
    }

    /// The same of values that are read as they are asked for.
    pub fn eval_on<V: Values>(&self, values: &V) -> bool
        requires { V.readable values.now }
        ensures { result ≡ verdict (evaluated self.now (V.values values.now) []) }
    {
        evaluated(self.instructions.as_slice(), values)
    }

    /// The range of the numbers of the attribute at a place, counted from 0. Each tuple that
    /// satisfies the condition has its number there in it.
    pub fn derive(&self, attribute: u8) -> Range
        ensures range { (attributes : List Attribute) (condition : Option Cond)
            → IsCodeOf attributes condition self.now
            → result ≡ range_of attributes attribute condition }
        ensures within { (attributes : List Attribute) (condition : Option Cond)
            → IsCodeOf attributes condition self.now
            → HoldsWithin attributes condition attribute result }
    {
        derived(self.instructions.as_slice(), attribute)
    }
}

// Puts the steps of the nodes into an empty list, or tells the number of the first name that is no attribute.
fn translate(
    nodes: &[Node],
    attributes: &[Attribute],
    list_names: u8,
    into: &mut Few<Instruction, 32>,
) -> Result<(), u8>
    requires nodes { length nodes.now ≤ 32 }
    requires attributes { length attributes.now ≤ 8 }
    requires few { list_names ≤ 8 }
    requires empty { into.old ≡ [] }
    ensures code { OnOk result (instructions_for attributes.now nodes.now ≡ Some into.new) }
    ensures known { let are = map (is_attribute attributes.now) (names_among nodes.now) in
        OnOk result (first_false list_names are ≡ None) }
    ensures missing { let are = map (is_attribute attributes.now) (names_among nodes.now) in
        IfErr result (λ nth. first_false list_names are ≡ Some nth) }
{
    let mut names = list_names;
    for node in nodes {
        let Some(instruction) = instruction_for(node, attributes) else {
            return Err(names + 1);
        };
        names += u8::from(matches!(node, Node::Attribute(_)));
        into.push(instruction);
    }
    Ok(())
}
