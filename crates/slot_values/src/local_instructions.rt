//! All instructions that touch no array.

ghost use Rattle.std.specs.Prelude.{◌≡◌, ◌<◌, ◌^◌, OnOk, OnErr};
ghost use Rattle.node_code.specs.Texts.{instruction};
ghost use Rattle.slot_values.specs.Controls.{control_of};
ghost use Rattle.slot_values.specs.LocalInstructions.{is_local, local_control};

use crate::control::{Control, halt, jump, jump_if_zero};
use crate::forall_tests::{forall_limits, one_to_one};
use crate::nest_checks::check;
use crate::scalar_instructions::{set, test_bounds, test_stride, trips};
use crate::section_bounds::inside;
use crate::space_tests::{limits, own_limits};
use expression_rules::Dims;
use hpf_base::OutOfMemory;
use node_code::Instruction;
use std::alloc::Global;

/// Whether an instruction touches no array.
pub fn is_local(i: &Instruction) -> bool
    ensures { result ≡ is_local (instruction i.now) }
{
    match i {
        Instruction::Set { .. } => true,
        Instruction::Fetch { .. } => false,
        Instruction::Store { .. } => false,
        Instruction::TestBounds { .. } => true,
        Instruction::TestStride { .. } => true,
        Instruction::Trips { .. } => true,
        Instruction::Jump { .. } => true,
        Instruction::JumpIfZero { .. } => true,
        Instruction::Halt => true,
        Instruction::Limits(_) => true,
        Instruction::OwnLimits(_) => true,
        Instruction::ForallLimits { .. } => true,
        Instruction::OneToOne { .. } => true,
        Instruction::Check { .. } => true,
        Instruction::Par(_) => false,
        Instruction::ParForall(_) => false,
        Instruction::ParNest(_) => false,
        Instruction::MakeCopies { .. } => false,
        Instruction::MakeCopy { .. } => false,
        Instruction::ParCopy { .. } => false,
        Instruction::ParForallCopy { .. } => false,
        Instruction::Verdict => false,
        Instruction::Reduce { .. } => false,
        Instruction::Inside { .. } => true,
        Instruction::Print(_) => false,
        Instruction::FoldCopy { .. } => false,
        Instruction::LastCopy { .. } => false,
        Instruction::ScanCopy { .. } => false,
        Instruction::Remap { .. } => false,
    }
}

/// Runs an instruction that touches no array; any other one changes nothing. `shapes` has the dimensions of the declared arrays, by the
/// places of their names. After want of memory nothing has changed.
pub fn run_local(
    alloc: Global,
    shapes: &[Dims],
    i: &Instruction,
    c: &mut Control,
) -> Result<(), OutOfMemory>
    requires in_code { c.old.at < 2 ^ 63 }
    ensures done { OnOk result (control_of c.new ≡ local_control shapes.now (instruction i.now) (control_of c.old)) }
    ensures unchanged { OnErr result (c.new ≡ c.old) }
{
    match i {
        Instruction::Set { line, slot, value } => set(*line, *slot, value, c),
        Instruction::TestBounds {
            line,
            array,
            subscripts,
        } => test_bounds(shapes, *line, *array, subscripts, c),
        Instruction::TestStride { line, slot } => test_stride(*line, *slot, c),
        Instruction::Trips {
            line,
            first,
            last,
            step,
            left,
            target,
        } => trips(*line, *first, *last, *step, *left, *target, c),
        Instruction::Limits(p) => limits(alloc, p, c),
        Instruction::OwnLimits(p) => own_limits(alloc, p, c),
        Instruction::ForallLimits {
            line,
            over,
            subscripts,
        } => forall_limits(alloc, *line, over, subscripts, c),
        Instruction::OneToOne { line, over, left } => one_to_one(alloc, *line, over, left, c),
        Instruction::Check {
            line,
            nest,
            outermost,
            body,
        } => check(alloc, shapes, *line, nest, outermost, body, c),
        Instruction::Inside {
            line,
            array,
            subscripts,
        } => inside(alloc, shapes, *line, *array, subscripts, c),
        Instruction::Jump { target } => Ok(jump(*target, c)),
        Instruction::JumpIfZero { target, slot } => Ok(jump_if_zero(*target, *slot, c)),
        Instruction::Halt => Ok(halt(c)),
        _ => Ok(()),
    }
}
