//! Prefix sums of whole arrays (HPF 2.0, 7.4). An `Err` is want of memory here.

ghost use Rattle.std.specs.Prelude.{◌≡◌, ◌+◌, [], ◌∷◌, ◌++◌, IfOk, OnOk};
ghost use Rattle.array_meaning.specs.Resolution.{whole};
ghost use Rattle.op_tables.specs.declared.join.Join.TheVariants.{Sum};
ghost use Rattle.node_code.specs.Instructions.{MakeCopy, ParCopy, ScanCopy};
ghost use Rattle.node_code.specs.Texts as text;
ghost use Rattle.node_code.specs.Texts.{instructions};
ghost use Rattle.resolved_program.specs.Resolved.{whole_array};
ghost use Rattle.program_code.specs.ExpressionCode.{subscripts_slots};
ghost use Rattle.program_code.specs.StatementCode.{copy_assignment, prefix_code, whole_evaluation};

use crate::array_bounds::{add_bounds, bounds_slots, bounds_subs};
use crate::source_subs::left_subs;
use expression_code::plus;
use hpf_base::OutOfMemory;
use node_code::{ArrayForm, Evaluation, Flat, Instruction, NestLeft, NestRole, NestStatement};
use op_tables::Join;
use resolved_program::WholeArray;
use std::alloc::Global;

/// Puts the code of a prefix sum, after that of the bounds of the target: the bounds of the source, its sums in the copy, and the copy into the
/// target.
pub(crate) fn add_prefix(
    alloc: Global,
    code: &mut Vec<Instruction>,
    copy: usize,
    line: u32,
    b1: usize,
    target: &WholeArray,
    source: &WholeArray,
) -> Result<(), OutOfMemory>
    ensures { OnOk result (instructions code.new.items ≡ instructions code.old.items
        ++ prefix_code copy line b1 (b1 + subscripts_slots (whole target.now.dims)) (whole_array target.now) (whole_array source.now)) }
{
    let b2 = plus(b1, bounds_slots(target.dims.as_slice())?)?;
    add_bounds(alloc, code, line, b2, source.dims.as_slice())?;
    push_sums(alloc, code, copy, line, b2, source)?;
    code.push(Instruction::ParNest(copy_assignment(alloc, copy, line, b1, target)?))?;
    Ok(())
}

/// Puts the source into the copy, and joins each element there with those before it.
fn push_sums(
    alloc: Global,
    code: &mut Vec<Instruction>,
    copy: usize,
    line: u32,
    b: usize,
    source: &WholeArray,
) -> Result<(), OutOfMemory>
    ensures { OnOk result (instructions code.new.items ≡ instructions code.old.items
        ++ MakeCopy copy (whole_evaluation line b (whole_array source.now))
        ∷ ParCopy copy (whole_evaluation line b (whole_array source.now))
        ∷ ScanCopy copy Sum ∷ []) }
{
    code.push(Instruction::MakeCopy {
        copy,
        evaluation: whole_evaluation(alloc, line, b, source)?,
    })?;
    code.push(Instruction::ParCopy {
        copy,
        evaluation: whole_evaluation(alloc, line, b, source)?,
    })?;
    code.push(Instruction::ScanCopy {
        copy,
        join: Join::Sum,
    })?;
    Ok(())
}

/// All elements of the source, in its own space.
fn whole_evaluation(
    alloc: Global,
    line: u32,
    b: usize,
    source: &WholeArray,
) -> Result<Evaluation, OutOfMemory>
    ensures { IfOk result (λ e. text.evaluation e ≡ whole_evaluation line b (whole_array source.now)) }
{
    Ok(Evaluation {
        line,
        over: bounds_subs(alloc, b, source.dims.as_slice())?,
        form: ArrayForm::Section(source.array, bounds_subs(alloc, b, source.dims.as_slice())?),
        beside: None,
    })
}

/// The elements of the target get those of the copy.
fn copy_assignment(
    alloc: Global,
    copy: usize,
    line: u32,
    b: usize,
    target: &WholeArray,
) -> Result<NestStatement, OutOfMemory>
    ensures { IfOk result (λ p. text.nest_statement p ≡ copy_assignment copy line b (whole_array target.now)) }
{
    Ok(NestStatement {
        line,
        over: bounds_subs(alloc, b, target.dims.as_slice())?,
        left: NestLeft::Element(target.array, left_subs(alloc, target.dims.as_slice())?),
        copies: vec![in alloc; copy]?,
        names: Vec::new(alloc),
        whens: Vec::new(alloc),
        right: ArrayForm::Flat(Flat::Axis(target.dims.as_slice().len())),
        role: NestRole::Assigns,
        beside: None,
    })
}
