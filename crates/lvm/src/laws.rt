//! Laws of the code. Each function does nothing: its contract is the law.

#![tactic(auto)]

ghost use Rattle.std.specs.Prelude.{◌≡◌, List, [], Option};
ghost use Rattle.db_model.specs.declared.schemas.Attribute.{Attribute};
ghost use Rattle.db_model.specs.declared.values.Value.{Value};
ghost use Rattle.db_model.specs.Cond.{Cond};
ghost use Rattle.db_model.specs.Item.{selects};
ghost use Rattle.lvm.specs.declared.instruction.Instruction.{Instruction};
ghost use Rattle.lvm.specs.Code.{IsCodeOf};
ghost use Rattle.lvm.specs.Evaluate.{evaluated, verdict};

/// The code of a condition is true of a tuple exactly where the condition selects the tuple.
pub fn codes_mean_conditions()
    ensures { (attributes : List Attribute) (condition : Option Cond) (code : List Instruction)
        → IsCodeOf attributes condition code
        → (tuple : List Value)
        → verdict (evaluated code tuple []) ≡ selects attributes condition tuple }
{}
