//! WHERE (Fortran 95, 7.5.3).

ghost use Rattle.std.specs.Prelude.{◌≡◌, [], ◌∷◌, ◌++◌, IfOk, OnOk, map, option_map};
ghost use Rattle.node_code.specs.Instructions.{MakeCopy, OwnLimits, ParCopy, Verdict};
ghost use Rattle.node_code.specs.Texts.{evaluation, flat_anchor, instructions};
ghost use Rattle.resolved_program.specs.Resolved.{section_assignment, term};
ghost use Rattle.program_code.specs.ExpressionCode.{copied_evaluation, form_of, parts_code, parts_slots};
ghost use Rattle.program_code.specs.StatementCode.{masked_code, masked_slots, where_code};
ghost use Rattle.node_codegen.specs.Maskings.{masking};

use crate::array_assignments::add_masked_assignment;
use anchor_code::{copied, where_beside};
use expression_code::{form_of, own_space, parts_code, parts_slots, plus, subscripts_slots};
use hpf_base::OutOfMemory;
use node_code::{Evaluation, FlatAnchor, Instruction, When};
use resolved_program::{SectionAssignment, Term};
use std::alloc::Global;

/// How many slots the code of the assignments of a WHERE takes.
pub(crate) fn masked_slots(body: &[SectionAssignment]) -> Result<usize, OutOfMemory>
    ensures { IfOk result (λ n. n ≡ masked_slots (map section_assignment body.now)) }
{
    let mut most = 0;
    for x in body {
        let here = plus(subscripts_slots(&x.subscripts)?, parts_slots(&x.right)?)?;
        most = most.max(here);
    }
    Ok(most)
}

/// The code of a WHERE: the values of the mask into the copy, and then each assignment where they are true, or, after ELSEWHERE, where
/// they are false.
pub(crate) fn where_code(
    alloc: Global,
    copy: usize,
    line: u32,
    b: usize,
    mask: &Term,
    body: &[SectionAssignment],
    others: &[SectionAssignment],
) -> Result<Vec<Instruction>, OutOfMemory>
    ensures { IfOk result (λ v. instructions v.items ≡ where_code copy line b (term mask.now) (map section_assignment body.now) (map section_assignment others.now)) }
{
    let beside = &where_beside(alloc, body, others)?;
    let b1 = plus(b, parts_slots(mask)?)?;
    let mut code = parts_code(alloc, line, b, mask)?;
    push_mask(alloc, &mut code, copy, line, b, mask, beside)?;
    add_masked(
        alloc,
        &mut code,
        b1,
        b,
        mask,
        When { copy, value: true },
        beside,
        body,
    )?;
    add_masked(
        alloc,
        &mut code,
        b1,
        b,
        mask,
        When { copy, value: false },
        beside,
        others,
    )?;
    Ok(code)
}

/// Puts the values of a mask into a copy, after the code of its parts.
fn push_mask(
    alloc: Global,
    code: &mut Vec<Instruction>,
    copy: usize,
    line: u32,
    b: usize,
    mask: &Term,
    beside: &Option<FlatAnchor>,
) -> Result<(), OutOfMemory>
    ensures { OnOk result (instructions code.new.items ≡ instructions code.old.items
        ++ OwnLimits (copied_evaluation line (form_of b (term mask.now)) (option_map flat_anchor beside.now))
        ∷ MakeCopy copy (copied_evaluation line (form_of b (term mask.now)) (option_map flat_anchor beside.now))
        ∷ ParCopy copy (copied_evaluation line (form_of b (term mask.now)) (option_map flat_anchor beside.now))
        ∷ Verdict ∷ []) }
{
    code.push(Instruction::OwnLimits(mask_evaluation(alloc, line, b, mask, beside)?))?;
    code.push(Instruction::MakeCopy {
        copy,
        evaluation: mask_evaluation(alloc, line, b, mask, beside)?,
    })?;
    code.push(Instruction::ParCopy {
        copy,
        evaluation: mask_evaluation(alloc, line, b, mask, beside)?,
    })?;
    code.push(Instruction::Verdict)?;
    Ok(())
}

/// The mask over its own space.
fn mask_evaluation(
    alloc: Global,
    line: u32,
    b: usize,
    mask: &Term,
    beside: &Option<FlatAnchor>,
) -> Result<Evaluation, OutOfMemory>
    ensures { IfOk result (λ e. evaluation e ≡ copied_evaluation line (form_of b (term mask.now)) (option_map flat_anchor beside.now)) }
{
    Ok(Evaluation {
        line,
        over: own_space(alloc, b, mask)?,
        form: form_of(alloc, b, mask)?,
        beside: copied(alloc, beside)?,
    })
}

/// Puts the code of the assignments, one after another, over the space of the mask, whose slots stand from `free` on.
fn add_masked(
    alloc: Global,
    code: &mut Vec<Instruction>,
    b: usize,
    free: usize,
    mask: &Term,
    branch: When,
    beside: &Option<FlatAnchor>,
    body: &[SectionAssignment],
) -> Result<(), OutOfMemory>
    ensures { OnOk result (instructions code.new.items ≡ instructions code.old.items
        ++ masked_code b (masking (form_of free (term mask.now)) branch beside.now) (map section_assignment body.now)) }
{
    for x in body {
        add_masked_assignment(alloc, code, b, x, free, mask, branch, beside)?;
    }
    Ok(())
}
