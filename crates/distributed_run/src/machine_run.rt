//! The run whose lines are listed.

ghost use Rattle.std.specs.Prelude.{◌≡◌, ◌↔◌, ◌<◌, ◌++◌, ℕ, IsTrue, List, OnOk, Some, length};
ghost use Rattle.std.specs.List.{slice_get};
ghost use Rattle.syntax_tree.specs.MainProgram.{main_program};
ghost use Rattle.name_table.specs.KnownSymbols.{AllAreKnown};
ghost use Rattle.machine_steps.specs.Agrees.{IsOver};
ghost use Rattle.machine_steps.specs.Instr.{Remapping, Running};
ghost use Rattle.code_meaning.specs.ProgramText.{Text};
ghost use Rattle.node_program.specs.Fits.{FitsRows};
ghost use Rattle.node_program.specs.Programs.{code_of};
ghost use Rattle.fitting_states.specs.FitProps.{program-prop};
ghost use Rattle.fitting_states.specs.FittingStates.{ProgramFits};
ghost use Rattle.compiled_program.specs.GridRuns.{grid_opening};
ghost use Rattle.message_lines.specs.KeptLines.{AreKeptLines};
ghost use Rattle.message_lines.specs.TextLines.{text_lines};
ghost use Rattle.distributed_run.specs.StepLines.{IsListed, lines_now};

use accepted_program::AcceptedProgram;
use hpf_base::OutOfMemory;
use message_lines::{KeptLines, push_lines};
use name_table::Names;
use node_program::NodeProgram;
use slot_values::Status;
use std::alloc::Global;
use whole_machine::WholeMachine;

/// A program whose machine comes to an end: its numbers are of 64 bits, and all that it declares is known.
#[derive(Drop)]
pub(crate) struct EndingProgram<'a> {
    pub accepted: &'a AcceptedProgram<'a>,
    pub ghost numbers: { ProgramFits (main_program accepted.now.program.tree) } by { program-prop (main_program accepted.now.program.tree) },
    pub ghost known: { AllAreKnown (main_program accepted.now.program.tree) },
}

/// Runs the machine of a program to its end, and puts the lines of the messages of its steps after the others. An `Err` is want of memory.
pub(crate) fn run_machine(
    alloc: Global,
    program: &EndingProgram<'_>,
    machine: &mut WholeMachine,
    text: &mut Vec<u8>,
) -> Result<(), OutOfMemory>
    requires { machine.old ≡ grid_opening program.now.accepted.now.grid.now (main_program program.now.accepted.now.program.tree) }
    ensures lines { OnOk result (IsListed program.now.accepted.now.program.names machine.old machine.new text.old.items text.new.items) }
    ensures over { OnOk result (IsOver machine.new.control.status) }
{
    let mut kept = KeptLines::new(alloc);
    'steps: while is_running(machine) {
        push_next(
            alloc,
            &program.accepted.program.names,
            machine,
            &mut kept,
            text,
        )?;
        machine.step()?;
    }
    Ok(())
}

/// Whether the run goes on.
fn is_running(machine: &WholeMachine) -> bool
    ensures { IsTrue result ↔ (machine.now.control.status ≡ Running) }
{
    matches!(machine.status(), Status::Running)
}

/// Puts the lines of the instruction at the place after the others, if it is before its first step, and keeps them.
fn push_next(
    alloc: Global,
    names: &Names,
    machine: &WholeMachine,
    kept: &mut KeptLines,
    text: &mut Vec<u8>,
) -> Result<(), OutOfMemory>
    requires running { machine.now.control.status ≡ Running }
    requires kept { AreKeptLines machine.now.code names.now kept.old }
    ensures lines { (moves : ℕ → List Remapping) → OnOk result (text.new.items ≡ text.old.items ++ lines_now names.now moves machine.now) }
    ensures kept { OnOk result (AreKeptLines machine.now.code names.now kept.new) }
{
    let done = machine.substep();
    if done > 0 {
        return Ok(());
    }
    let program = machine.program();
    let at = machine.place();
    if at < program.code.len() {
        push_at(alloc, names, machine, program, kept, at, text)
    } else {
        Ok(())
    }
}

/// Puts the lines of the instruction at a place of the machine's program after the others: those that are kept where they serve, else new ones, which are
/// kept.
fn push_at(
    alloc: Global,
    names: &Names,
    machine: &WholeMachine,
    program: &NodeProgram,
    kept: &mut KeptLines,
    at: usize,
    text: &mut Vec<u8>,
) -> Result<(), OutOfMemory>
    requires code { code_of program.now ≡ machine.now.code }
    requires fits { FitsRows program.now machine.now.layouts }
    requires at { at < length program.now.code.items }
    requires kept { AreKeptLines machine.now.code names.now kept.old }
    ensures lines { (t : Text) (moves : ℕ → List Remapping) → slice_get machine.now.code at ≡ Some t
        → OnOk result (text.new.items ≡ text.old.items ++ text_lines names.now moves t machine.now.layouts machine.now.control.slots) }
    ensures kept { OnOk result (AreKeptLines machine.now.code names.now kept.new) }
{
    let owners = machine.owners();
    let slots = machine.slots();
    let i = &program.code[at];
    if let Some(lines) = kept.find(at, i, slots, owners) {
        text.extend_from_slice(lines)?;
        return Ok(());
    }
    let mut lines = Vec::new(alloc);
    push_lines(alloc, program, names, owners, i, slots, &mut lines)?;
    text.extend_from_slice(&lines)?;
    kept.keep(alloc, at, slots, owners, lines);
    Ok(())
}
