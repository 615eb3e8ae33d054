//! FORALL (Fortran 95, 7.5.4).

ghost use Rattle.std.specs.Prelude.{◌≡◌, [], ◌∷◌, ◌++◌, IfOk, OnOk, map, option_map, true};
ghost use Rattle.array_meaning.specs.Forall.{all_subscripts};
ghost use Rattle.node_code.specs.Instructions.{ForallLimits};
ghost use Rattle.node_code.specs.Texts as text;
ghost use Rattle.node_code.specs.Texts.{flat_anchor, instructions, when};
ghost use Rattle.resolved_program.specs.Resolved.{control, element_assignment, term};
ghost use Rattle.program_code.specs.ExpressionCode.{index_flat, index_form, subs_of};
ghost use Rattle.program_code.specs.StatementCode as definition;
ghost use Rattle.program_code.specs.StatementCode.{forall_assignments_code, forall_code, forall_mask_code, one_to_one_code, triplets, where_true};

use crate::forall_header::{add_header, header_subs};
use crate::forall_subscripts::all_subscripts;
use anchor_code::{copied, forall_beside};
use expression_code::{all_index_flats, index_form, index_subs};
use hpf_base::OutOfMemory;
use node_code::{Assignment, Evaluation, FlatAnchor, Instruction, When};
use resolved_program::{Control, ElementAssignment, Term};
use std::alloc::Global;

/// The code of a FORALL: the header, the limits, the values of the mask into the copy, and the assignments one after another.
pub(crate) fn forall_code(
    alloc: Global,
    copy: usize,
    line: u32,
    b: usize,
    controls: &[Control],
    mask: &Option<Term>,
    body: &[ElementAssignment],
) -> Result<Vec<Instruction>, OutOfMemory>
    ensures { IfOk result (λ v. instructions v.items ≡ forall_code copy line b (map control controls.now) (option_map term mask.now) (map element_assignment body.now)) }
{
    let beside = &forall_beside(alloc, body)?;
    let mut code = Vec::new(alloc);
    add_header(alloc, &mut code, line, b, controls)?;
    push_limits(alloc, &mut code, line, b, controls, mask, body)?;
    add_tests(alloc, &mut code, b, controls, body)?;
    add_mask(alloc, &mut code, copy, line, b, controls, mask, beside)?;
    let branch = branch_of(copy, mask);
    add_assignments(alloc, &mut code, b, controls, branch, beside, body)?;
    Ok(code)
}

/// Puts the limits of its space and of all its subscripts.
fn push_limits(
    alloc: Global,
    code: &mut Vec<Instruction>,
    line: u32,
    b: usize,
    controls: &[Control],
    mask: &Option<Term>,
    body: &[ElementAssignment],
) -> Result<(), OutOfMemory>
    ensures { OnOk result (instructions code.new.items ≡ instructions code.old.items
        ++ ForallLimits line (subs_of b (triplets (map control controls.now))) (map index_flat (all_subscripts (option_map term mask.now) (map element_assignment body.now))) ∷ []) }
{
    code.push(Instruction::ForallLimits {
        line,
        over: header_subs(alloc, b, controls)?,
        subscripts: all_subscripts(alloc, mask, body)?,
    })?;
    Ok(())
}

/// Puts a test of each assignment, that it is one to one.
fn add_tests(
    alloc: Global,
    code: &mut Vec<Instruction>,
    b: usize,
    controls: &[Control],
    body: &[ElementAssignment],
) -> Result<(), OutOfMemory>
    ensures { OnOk result (instructions code.new.items
        ≡ instructions code.old.items ++ one_to_one_code (subs_of b (triplets (map control controls.now))) (map element_assignment body.now)) }
{
    for x in body {
        code.push(Instruction::OneToOne {
            line: x.line,
            over: header_subs(alloc, b, controls)?,
            left: all_index_flats(alloc, &x.subscripts)?,
        })?;
    }
    Ok(())
}

/// Puts the values of the mask into the copy.
fn add_mask(
    alloc: Global,
    code: &mut Vec<Instruction>,
    copy: usize,
    line: u32,
    b: usize,
    controls: &[Control],
    mask: &Option<Term>,
    beside: &Option<FlatAnchor>,
) -> Result<(), OutOfMemory>
    ensures { OnOk result (instructions code.new.items
        ≡ instructions code.old.items ++ forall_mask_code copy line (subs_of b (triplets (map control controls.now))) (option_map flat_anchor beside.now) (option_map term mask.now)) }
{
    match mask {
        None => Ok(()),
        Some(t) => {
            code.push(Instruction::MakeCopy {
                copy,
                evaluation: mask_evaluation(alloc, line, b, controls, t, beside)?,
            })?;
            code.push(Instruction::ParForallCopy {
                copy,
                evaluation: mask_evaluation(alloc, line, b, controls, t, beside)?,
            })?;
            code.push(Instruction::Verdict)?;
            Ok(())
        }
    }
}

/// The mask over the space of the indices.
fn mask_evaluation(
    alloc: Global,
    line: u32,
    b: usize,
    controls: &[Control],
    mask: &Term,
    beside: &Option<FlatAnchor>,
) -> Result<Evaluation, OutOfMemory>
    ensures { IfOk result (λ e. text.evaluation e ≡ record {
      line = line;
      form = index_form (term mask.now);
      over = subs_of b (triplets (map control controls.now));
      beside = option_map flat_anchor beside.now;
    }) }
{
    Ok(Evaluation {
        line,
        over: header_subs(alloc, b, controls)?,
        form: index_form(alloc, mask)?,
        beside: copied(alloc, beside)?,
    })
}

/// Where the assignments are done: where the mask is true, if there is one.
fn branch_of(copy: usize, mask: &Option<Term>) -> Option<When>
    ensures { option_map when result ≡ option_map (λ t. where_true copy true) (option_map term mask.now) }
{
    match mask {
        None => None,
        Some(_) => Some(When { copy, value: true }),
    }
}

/// Puts the assignments, one after another.
fn add_assignments(
    alloc: Global,
    code: &mut Vec<Instruction>,
    b: usize,
    controls: &[Control],
    branch: Option<When>,
    beside: &Option<FlatAnchor>,
    body: &[ElementAssignment],
) -> Result<(), OutOfMemory>
    ensures { OnOk result (instructions code.new.items ≡ instructions code.old.items
        ++ forall_assignments_code (subs_of b (triplets (map control controls.now))) (option_map when branch) (option_map flat_anchor beside.now) (map element_assignment body.now)) }
{
    for x in body {
        code.push(Instruction::ParForall(forall_assignment(
            alloc, b, controls, branch, beside, x,
        )?))?;
        code.push(Instruction::Verdict)?;
    }
    Ok(())
}

/// An assignment.
fn forall_assignment(
    alloc: Global,
    b: usize,
    controls: &[Control],
    branch: Option<When>,
    beside: &Option<FlatAnchor>,
    x: &ElementAssignment,
) -> Result<Assignment, OutOfMemory>
    ensures { IfOk result (λ p. text.assignment p ≡ definition.forall_assignment (subs_of b (triplets (map control controls.now))) (option_map when branch) (option_map flat_anchor beside.now) (element_assignment x.now)) }
{
    Ok(Assignment {
        line: x.line,
        array: x.array,
        left: index_subs(alloc, &x.subscripts)?,
        over: header_subs(alloc, b, controls)?,
        right: index_form(alloc, &x.right)?,
        mask: branch,
        beside: copied(alloc, beside)?,
    })
}
