//! What the instruction at a place has a node do.

ghost use Rattle.std.specs.Prelude.{◌≡◌, ◌==◌, List, length, true};
ghost use Rattle.std.specs.List.{list_all};
ghost use Rattle.hpf_base.specs.declared.index.Shape.{Shape};
ghost use Rattle.code_meaning.specs.Instructions.{meaning_of};
ghost use Rattle.code_meaning.specs.ProgramText.{table_on};
ghost use Rattle.node_code.specs.Texts.{instruction, instructions};
ghost use Rattle.node_program.specs.Fits.{fits_rows};
ghost use Rattle.node_program.specs.Programs.{code_of, mappings_of};
ghost use Rattle.node_machine.specs.Steps.{IsInCode, IsStepAt, StepFits, TextDoes};

use crate::copies::{Copying, NestCopies};
use crate::elements::{Fetching, Storing};
use crate::folds::Folding;
use crate::last_values::LastValue;
use crate::parts::{ParStep, Parallel};
use crate::prints::{PrintedText, print_step};
use crate::reductions::Reducing;
use crate::remaps::NewMappings;
use crate::scans::Scanning;
use crate::sections::PrintedSection;
use crate::trees::Reduction;
use node_code::Instruction;
use node_program::NodeProgram;

/// What is to be done next, with the contents of the instruction.
#[derive(Clone, Copy)]
pub(crate) enum Step<'a> {
    /// Nothing: the code is at its end.
    End,
    /// An instruction that touches no array.
    Local,
    Fetch(Fetching<'a>),
    Store(Storing<'a>),
    Par(ParStep<'a>),
    Verdict,
    /// The values of a reduction, each node's joined.
    ReduceValues(Reducing<'a>),
    /// Its verdict.
    ReduceVerdict,
    /// The values of all nodes, joined.
    ReduceTree(Reduction),
    MakeCopy(Copying<'a>),
    /// Copies of a nest.
    MakeCopies(NestCopies<'a>),
    /// Bytes of a PRINT.
    PrintText(PrintedText<'a>),
    /// The elements of a section of it.
    PrintSection(PrintedSection<'a>),
    /// The end of its line.
    PrintLine,
    FoldCopy(Folding),
    LastCopy(LastValue),
    ScanCopy(Scanning),
    Remap(NewMappings<'a>),
}

/// What is to be done at a place of a program, after so many steps of its instruction.
pub(crate) fn step_at(program: &NodeProgram, at: usize, substep: usize) -> Step<'_>
    ensures is { IsStepAt (code_of program.now) at program.now.nodes substep result }
    ensures few { IsInCode at result }
    ensures fits { (rows : List Shape) → list_all (λ t. t.nodes == program.now.nodes) program.now.tables.items ≡ true
        → list_all (fits_rows (length program.now.shapes.items) program.now.tables.items rows) (instructions program.now.code.items) ≡ true → StepFits program.now.nodes rows result }
{
    if at < program.code.len() {
        step_of(program, &program.code[at], substep)
    } else {
        Step::End
    }
}

/// What an instruction has done.
fn step_of<'a>(program: &'a NodeProgram, i: &'a Instruction, substep: usize) -> Step<'a>
    ensures does { TextDoes (meaning_of (table_on program.now.nodes (mappings_of program.now.tables.items) program.now.shapes.items) (instruction i.now)) (instruction i.now) program.now.nodes substep result }
    ensures fits { (rows : List Shape) → list_all (λ t. t.nodes == program.now.nodes) program.now.tables.items ≡ true
        → fits_rows (length program.now.shapes.items) program.now.tables.items rows (instruction i.now) ≡ true → StepFits program.now.nodes rows result }
{
    let shapes = &program.shapes;
    match i {
        Instruction::Set { .. } => Step::Local,
        Instruction::Fetch {
            line,
            array,
            subscripts,
            slot,
        } => Step::Fetch(Fetching {
            shapes,
            line: *line,
            array: *array,
            subscripts,
            slot: *slot,
        }),
        Instruction::Store {
            line,
            array,
            subscripts,
            value,
        } => Step::Store(Storing {
            shapes,
            line: *line,
            array: *array,
            subscripts,
            value,
        }),
        Instruction::TestBounds { .. } => Step::Local,
        Instruction::TestStride { .. } => Step::Local,
        Instruction::Trips { .. } => Step::Local,
        Instruction::Jump { .. } => Step::Local,
        Instruction::JumpIfZero { .. } => Step::Local,
        Instruction::Halt => Step::Local,
        Instruction::Limits(_) => Step::Local,
        Instruction::OwnLimits(_) => Step::Local,
        Instruction::ForallLimits { .. } => Step::Local,
        Instruction::OneToOne { .. } => Step::Local,
        Instruction::Check { .. } => Step::Local,
        Instruction::Par(p) => Step::Par(ParStep {
            i,
            shapes,
            statement: Parallel::Assignment(p),
        }),
        Instruction::ParForall(p) => Step::Par(ParStep {
            i,
            shapes,
            statement: Parallel::Forall(p),
        }),
        Instruction::ParNest(p) => Step::Par(ParStep {
            i,
            shapes,
            statement: Parallel::Nest(p),
        }),
        Instruction::MakeCopies {
            copy,
            over,
            start,
            beside,
        } => Step::MakeCopies(NestCopies {
            copy: *copy,
            over,
            start,
            beside,
        }),
        Instruction::MakeCopy { copy, evaluation } => Step::MakeCopy(Copying {
            copy: *copy,
            evaluation,
        }),
        Instruction::ParCopy { copy, evaluation } => Step::Par(ParStep {
            i,
            shapes,
            statement: Parallel::Copy(Copying {
                copy: *copy,
                evaluation,
            }),
        }),
        Instruction::ParForallCopy { copy, evaluation } => Step::Par(ParStep {
            i,
            shapes,
            statement: Parallel::ForallCopy(Copying {
                copy: *copy,
                evaluation,
            }),
        }),
        Instruction::Verdict => Step::Verdict,
        Instruction::Reduce {
            evaluation,
            reduction,
            slot,
        } => {
            if substep == 0 {
                Step::ReduceValues(Reducing {
                    i,
                    shapes,
                    evaluation,
                    reduction: *reduction,
                    slot: *slot,
                })
            } else if substep == 1 {
                Step::ReduceVerdict
            } else {
                Step::ReduceTree(Reduction {
                    op: reduction.join,
                    slot: *slot,
                })
            }
        }
        Instruction::Inside { .. } => Step::Local,
        Instruction::Print(items) => print_step(program, items, substep),
        Instruction::FoldCopy { copy, join, slot } => Step::FoldCopy(Folding {
            copy: *copy,
            op: *join,
            slot: *slot,
        }),
        Instruction::LastCopy { copy, set, slot } => Step::LastCopy(LastValue {
            copy: *copy,
            set: *set,
            slot: *slot,
        }),
        Instruction::ScanCopy { copy, join } => Step::ScanCopy(Scanning {
            copy: *copy,
            op: *join,
        }),
        Instruction::Remap { new, .. } => Step::Remap(NewMappings {
            tables: &program.tables,
            new,
        }),
    }
}
