//! Instructions without arrays, and the end of the code.

ghost use Rattle.std.specs.Prelude.{◌≡◌, ◌<◌, ◌^◌, OnOk, OnErr, true};
ghost use Rattle.machine_steps.specs.Machine.{finish, step_by};
ghost use Rattle.code_meaning.specs.ProgramText.{text_meaning};
ghost use Rattle.node_code.specs.Texts.{instruction};
ghost use Rattle.slot_values.specs.LocalInstructions.{is_local};
ghost use Rattle.whole_machine.specs.Places.{instr_of};

use crate::machine::WholeMachine;
use hpf_base::OutOfMemory;
use node_code::Instruction;
use node_program::NodeProgram;
use slot_values::{halt, run_local};

impl WholeMachine {
    /// Past the end of the code the run is finished. It takes no memory.
    pub(crate) fn finish_run(&mut self)
        ensures { self.new ≡ record self.old { control = finish text_meaning self.old.control; substep = 0 } }
    {
        halt(&mut self.control);
        self.substep = 0;
    }

    /// Runs an instruction that touches no array. For want of memory nothing changes.
    pub(crate) fn run_local(
        &mut self,
        program: &NodeProgram,
        i: &Instruction,
    ) -> Result<(), OutOfMemory>
        requires local { is_local (instruction i.now) ≡ true }
        requires in_code { self.old.control.at < 2 ^ 63 }
        ensures ok { OnOk result (self.new ≡ step_by (instr_of program.now i.now) self.old) }
        ensures err { OnErr result (self.new ≡ self.old) }
    {
        run_local(self.alloc, &program.shapes, i, &mut self.control)?;
        self.substep = 0;
        Ok(())
    }
}
