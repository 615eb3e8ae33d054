//! The steps of the machine.

ghost use Rattle.std.specs.Prelude.{◌≡◌, ◌==◌, ◌<◌, ◌^◌, OnOk, OnErr, length, true};
ghost use Rattle.std.specs.List.{list_all};
ghost use Rattle.machine_steps.specs.Machine.{instr_at, step, step_by};
ghost use Rattle.code_meaning.specs.ProgramText.{text_meaning};
ghost use Rattle.node_code.specs.Texts.{instruction};
ghost use Rattle.node_program.specs.Fits.{fits_rows, shapes_of};
ghost use Rattle.whole_machine.specs.Places.{IsFor, instr_of};

use crate::element_steps::Subscripted;
use crate::machine::WholeMachine;
use crate::parts::Parallel;
use crate::reductions::Reducing;
use hpf_base::OutOfMemory;
use node_code::Instruction;
use node_program::NodeProgram;
use slot_values::Status;
use std::sync::Arc;

impl WholeMachine {
    /// Makes a step, if the run goes on. For want of memory nothing changes.
    pub fn step(&mut self) -> Result<(), OutOfMemory>
        ensures ok { OnOk result (self.new ≡ step text_meaning self.old) }
        ensures err { OnErr result (self.new ≡ self.old) }
    {
        match self.status() {
            Status::Running => self.step_on(),
            Status::Finished => Ok(()),
            Status::Faulted(_) => Ok(()),
        }
    }

    /// Makes a step of the instruction at the place. For want of memory nothing changes.
    fn step_on(&mut self) -> Result<(), OutOfMemory>
        ensures ok { OnOk result (self.new ≡ step_by (instr_at text_meaning self.old.code self.old.control.at) self.old) }
        ensures err { OnErr result (self.new ≡ self.old) }
    {
        let program = Arc::try_clone(&self.program)?;
        let at = self.place();
        if at < program.code.len() {
            self.run(&program, &program.code[at])?;
            Ok(())
        } else {
            self.finish_run();
            Ok(())
        }
    }

    /// Makes a step of an instruction of the program, which stands at the place and fits the rows. For want of memory nothing changes.
    fn run(&mut self, program: &NodeProgram, i: &Instruction) -> Result<(), OutOfMemory>
        requires nodes { IsFor self.old.code self.old.control.at program.now.nodes }
        requires is { instr_at text_meaning self.old.code self.old.control.at ≡ instr_of program.now i.now }
        requires tables { list_all (λ t. t.nodes == program.now.nodes) program.now.tables.items ≡ true }
        requires fits { fits_rows (length program.now.shapes.items) program.now.tables.items (shapes_of self.old.layouts) (instruction i.now) ≡ true }
        requires in_code { self.old.control.at < 2 ^ 63 }
        ensures ok { OnOk result (self.new ≡ step_by (instr_of program.now i.now) self.old) }
        ensures err { OnErr result (self.new ≡ self.old) }
    {
        let shapes = &program.shapes;
        match i {
            Instruction::Fetch {
                line,
                array,
                subscripts,
                slot,
            } => {
                let element = Subscripted {
                    line: *line,
                    array: *array,
                    subscripts,
                };
                self.fetch(shapes, element, *slot)
            }
            Instruction::Store {
                line,
                array,
                subscripts,
                value,
            } => {
                let element = Subscripted {
                    line: *line,
                    array: *array,
                    subscripts,
                };
                self.store(shapes, element, value)
            }
            Instruction::Par(p) => self.par(shapes, Parallel::Assignment(p)),
            Instruction::ParForall(p) => self.par(shapes, Parallel::Forall(p)),
            Instruction::ParNest(p) => self.par(shapes, Parallel::Nest(p)),
            Instruction::MakeCopies {
                copy,
                over,
                start,
                beside,
            } => self.make_copies(program.nodes, *copy, over, start, beside),
            Instruction::MakeCopy { copy, evaluation } => {
                self.make_copy(program.nodes, *copy, evaluation)
            }
            Instruction::ParCopy { copy, evaluation } => {
                self.par(shapes, Parallel::Copy(*copy, evaluation))
            }
            Instruction::ParForallCopy { copy, evaluation } => {
                self.par(shapes, Parallel::ForallCopy(*copy, evaluation))
            }
            Instruction::Verdict => {
                self.verdict();
                Ok(())
            }
            Instruction::Reduce {
                evaluation,
                reduction,
                slot,
            } => {
                let reducing = Reducing {
                    evaluation,
                    reduction: *reduction,
                    slot: *slot,
                };
                self.reduce(shapes, reducing)
            }
            Instruction::Print(items) => self.print(shapes, items),
            Instruction::FoldCopy { copy, join, slot } => {
                self.fold_copy(*copy, *join, *slot);
                Ok(())
            }
            Instruction::LastCopy { copy, set, slot } => {
                self.last_copy(*copy, *set, *slot);
                Ok(())
            }
            Instruction::ScanCopy { copy, join } => self.scan_copy(program.nodes, *copy, *join),
            Instruction::Remap { new, .. } => self.remap(&program.tables, new),
            _ => self.run_local(program, i),
        }
    }
}
