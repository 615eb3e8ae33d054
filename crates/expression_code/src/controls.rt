//! The three values of a control or of a triplet, in three slots after those that their code takes. An `Err` is want of memory here.

ghost use Rattle.std.specs.Prelude.{◌≡◌, ◌+◌, IfOk, OnOk, [], ◌∷◌, ◌++◌};
ghost use Rattle.program_code.specs.ExpressionCode.{control_slots, flat_of, slots_of, triplet};
ghost use Rattle.node_code.specs.Instructions.{Set};
ghost use Rattle.node_code.specs.Texts.{instructions};
ghost use Rattle.resolved_program.specs.Resolved.{term};

use crate::slots::slots_of;
use crate::sums::plus;
use crate::values::flat_of;
use hpf_base::OutOfMemory;
use node_code::Instruction;
use resolved_program::Term;
use std::alloc::Global;

/// The slots of the three values, whose code takes those from some `b` on.
#[derive(Drop)]
pub(crate) struct ThreeSlots {
    /// The first slot of the code of the last value, and of that of the step.
    pub last_from: usize,
    pub step_from: usize,
    /// The first of the three slots that get the values.
    pub slot: usize,
}

/// Those of the values of these expressions.
pub(crate) fn three_slots(
    b: usize,
    first: &Term,
    last: &Term,
    step: &Term,
) -> Result<ThreeSlots, OutOfMemory>
    ensures last_from { IfOk result (λ v. v.last_from ≡ b + slots_of (term first.now)) }
    ensures step_from { IfOk result (λ v. v.step_from ≡ b + slots_of (term first.now) + slots_of (term last.now)) }
    ensures slot { IfOk result (λ v. v.slot ≡ b + control_slots (triplet (term first.now) (term last.now) (term step.now))) }
{
    let last_from = plus(b, slots_of(first)?)?;
    let step_from = plus(last_from, slots_of(last)?)?;
    let slot = plus(step_from, slots_of(step)?)?;
    Ok(ThreeSlots {
        last_from,
        step_from,
        slot,
    })
}

/// Puts the three values into their slots, after their code.
pub(crate) fn push_three(
    alloc: Global,
    code: &mut Vec<Instruction>,
    line: u32,
    b: usize,
    slots: ThreeSlots,
    first: &Term,
    last: &Term,
    step: &Term,
) -> Result<(), OutOfMemory>
    ensures { OnOk result (instructions code.new.items ≡ instructions code.old.items
        ++ Set line slots.slot (flat_of b (term first.now))
        ∷ Set line (slots.slot + 1) (flat_of slots.last_from (term last.now))
        ∷ Set line (slots.slot + 2) (flat_of slots.step_from (term step.now)) ∷ []) }
{
    let second = plus(slots.slot, 1)?;
    let third = plus(slots.slot, 2)?;
    push_value(alloc, code, line, slots.slot, b, first)?;
    push_value(alloc, code, line, second, slots.last_from, last)?;
    push_value(alloc, code, line, third, slots.step_from, step)
}

/// Puts the value of an expression into a slot, after its code.
fn push_value(
    alloc: Global,
    code: &mut Vec<Instruction>,
    line: u32,
    slot: usize,
    b: usize,
    t: &Term,
) -> Result<(), OutOfMemory>
    ensures { OnOk result (instructions code.new.items ≡ instructions code.old.items ++ Set line slot (flat_of b (term t.now)) ∷ []) }
{
    code.push(Instruction::Set {
        line,
        slot,
        value: flat_of(alloc, b, t)?,
    })?;
    Ok(())
}
