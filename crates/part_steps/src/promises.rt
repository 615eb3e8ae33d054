//! Laws of parts.

ghost use Rattle.std.specs.Prelude.{◌≡◌, ℕ, ℤ, List, Option, true};
ghost use Rattle.machine_steps.specs.Layout.{Layout};
ghost use Rattle.code_meaning.specs.Anchors.{anchor_in};
ghost use Rattle.code_meaning.specs.Instructions.{ArrayTable, meaning_of};
ghost use Rattle.node_code.specs.Anchors.{FlatAnchor};
ghost use Rattle.node_code.specs.Forms.{Sub};
ghost use Rattle.node_code.specs.Instructions.{Instruction};
ghost use Rattle.part_steps.specs.Agreement.{agree_on, agree_on_beside, agree_on_subs};
ghost use Rattle.part_steps.specs.InstructionParts.{instruction_part};

/// By slots that agree on all that an instruction mentions, it is the same part.
pub fn same_parts()
    ensures { (nodes : ℕ) (layouts : List Layout) (table : ArrayTable) (i : Instruction) (old new : List ℤ) → agree_on old new i ≡ true
        → instruction_part nodes layouts old (meaning_of table i) ≡ instruction_part nodes layouts new (meaning_of table i) }
{}

/// By slots that agree on what copies lie beside and on the space of these, they lie beside the same.
pub fn same_anchors()
    ensures { (over : List Sub) (beside : Option FlatAnchor) (old new : List ℤ) → agree_on_subs old new over ≡ true → agree_on_beside old new beside ≡ true
        → anchor_in old over beside ≡ anchor_in new over beside }
{}
