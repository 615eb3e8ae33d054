//! Array assignments (Fortran 95, 7.5.1.5), by themselves and under the mask of a WHERE.

ghost use Rattle.std.specs.Prelude.{◌≡◌, ◌+◌, [], ◌∷◌, ◌++◌, None, Some, IfOk, OnOk};
ghost use Rattle.node_code.specs.Instructions.{Limits, Par, Verdict};
ghost use Rattle.node_code.specs.Texts as text;
ghost use Rattle.node_code.specs.Texts.{instructions};
ghost use Rattle.resolved_program.specs.Resolved.{subscripts_of, term};
ghost use Rattle.program_code.specs.ExpressionCode.{form_of, parts_code, subscripts_code, subscripts_slots};
ghost use Rattle.program_code.specs.StatementCode.{assignment, assignment_code};
ghost use Rattle.node_codegen.specs.Maskings.{masking};

use anchor_code::copied;
use expression_code::{
    form_of, joined, own_space, parts_code, plus, subs_of, subscripts_code, subscripts_slots,
};
use hpf_base::OutOfMemory;
use node_code::{Assignment, FlatAnchor, Instruction, When};
use resolved_program::{SectionAssignment, SectionSubscript, Term};
use std::alloc::Global;

/// The code of an array assignment.
pub(crate) fn assignment_code(
    alloc: Global,
    line: u32,
    b: usize,
    array: usize,
    subscripts: &[SectionSubscript],
    right: &Term,
) -> Result<Vec<Instruction>, OutOfMemory>
    ensures { IfOk result (λ v. instructions v.items ≡ assignment_code line b array (subscripts_of subscripts.now) (term right.now) None) }
{
    let mut code = subscripts_code(alloc, line, b, subscripts)?;
    joined(&mut code, right_code(alloc, line, b, subscripts, right)?)?;
    push_stores(alloc, &mut code, line, b, array, subscripts, right)?;
    Ok(code)
}

/// Puts the stores of an array assignment, once its limits are kept.
fn push_stores(
    alloc: Global,
    code: &mut Vec<Instruction>,
    line: u32,
    b: usize,
    array: usize,
    subscripts: &[SectionSubscript],
    right: &Term,
) -> Result<(), OutOfMemory>
    ensures { OnOk result (instructions code.new.items ≡ instructions code.old.items
        ++ Limits (assignment line b array (subscripts_of subscripts.now) (term right.now) None)
        ∷ Par (assignment line b array (subscripts_of subscripts.now) (term right.now) None)
        ∷ Verdict ∷ []) }
{
    code.push(Instruction::Limits(assignment(alloc, line, b, array, subscripts, right)?))?;
    code.push(Instruction::Par(assignment(alloc, line, b, array, subscripts, right)?))?;
    code.push(Instruction::Verdict)?;
    Ok(())
}

/// Puts the code of an assignment of a WHERE, whose mask has its slots from `free` on.
pub(crate) fn add_masked_assignment(
    alloc: Global,
    code: &mut Vec<Instruction>,
    b: usize,
    x: &SectionAssignment,
    free: usize,
    mask: &Term,
    branch: When,
    beside: &Option<FlatAnchor>,
) -> Result<(), OutOfMemory>
    ensures { OnOk result (instructions code.new.items ≡ instructions code.old.items
        ++ assignment_code x.now.line b x.now.array (subscripts_of x.now.subscripts.items) (term x.now.right)
        (Some (masking (form_of free (term mask.now)) branch beside.now))) }
{
    joined(code, subscripts_code(alloc, x.line, b, &x.subscripts)?)?;
    joined(code, right_code(alloc, x.line, b, &x.subscripts, &x.right)?)?;
    code.push(Instruction::Limits(masked_assignment(alloc, b, x, free, mask, branch, beside)?))?;
    code.push(Instruction::Par(masked_assignment(alloc, b, x, free, mask, branch, beside)?))?;
    code.push(Instruction::Verdict)?;
    Ok(())
}

/// The code of a right side, whose slots stand after those of the left side.
fn right_code(
    alloc: Global,
    line: u32,
    b: usize,
    subscripts: &[SectionSubscript],
    right: &Term,
) -> Result<Vec<Instruction>, OutOfMemory>
    ensures { IfOk result (λ v. instructions v.items ≡ parts_code line (b + subscripts_slots (subscripts_of subscripts.now)) (term right.now)) }
{
    parts_code(alloc, line, plus(b, subscripts_slots(subscripts)?)?, right)
}

/// An assignment over its left side's own space.
fn assignment(
    alloc: Global,
    line: u32,
    b: usize,
    array: usize,
    subscripts: &[SectionSubscript],
    right: &Term,
) -> Result<Assignment, OutOfMemory>
    ensures { IfOk result (λ p. text.assignment p ≡ assignment line b array (subscripts_of subscripts.now) (term right.now) None) }
{
    let b1 = plus(b, subscripts_slots(subscripts)?)?;
    Ok(Assignment {
        line,
        array,
        left: subs_of(alloc, b, subscripts)?,
        over: subs_of(alloc, b, subscripts)?,
        right: form_of(alloc, b1, right)?,
        mask: None,
        beside: None,
    })
}

/// One over the space of a mask.
fn masked_assignment(
    alloc: Global,
    b: usize,
    x: &SectionAssignment,
    free: usize,
    mask: &Term,
    branch: When,
    beside: &Option<FlatAnchor>,
) -> Result<Assignment, OutOfMemory>
    ensures { IfOk result (λ p. text.assignment p
        ≡ assignment x.now.line b x.now.array (subscripts_of x.now.subscripts.items) (term x.now.right)
        (Some (masking (form_of free (term mask.now)) branch beside.now))) }
{
    let b1 = plus(b, subscripts_slots(&x.subscripts)?)?;
    Ok(Assignment {
        line: x.line,
        array: x.array,
        left: subs_of(alloc, b, &x.subscripts)?,
        over: own_space(alloc, free, mask)?,
        right: form_of(alloc, b1, &x.right)?,
        mask: Some(branch),
        beside: copied(alloc, beside)?,
    })
}
