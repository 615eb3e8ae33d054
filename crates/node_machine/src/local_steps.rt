//! Instructions without arrays, one or several in a call, and the end of the code.

ghost use Rattle.std.specs.Prelude.{◌≡◌, ◌<◌, ◌^◌, OnOk, OnErr};
ghost use Rattle.node_law.specs.LocalSteps.{AreLocalSteps};
ghost use Rattle.machine_steps.specs.Instr.{Local, Running};
ghost use Rattle.machine_steps.specs.Machine.{finish};
ghost use Rattle.machine_steps.specs.Node.{Ready, node_steps};
ghost use Rattle.code_meaning.specs.FaultValues.{fault_values};
ghost use Rattle.code_meaning.specs.ProgramText.{text_meaning};
ghost use Rattle.node_machine.specs.Steps.{IsLocalAt, begun, instr_here};

use crate::node::Node;
use crate::stage::Stage;
use hpf_base::OutOfMemory;
use node_law::LocalRuns;
use slot_runs::run_known;
use slot_values::{Status, halt, run_local};

impl LocalRuns for Node {
    fn run(&mut self) {
        if self.stage == Stage::Ready
            && self.substep == 0
            && matches!(self.control.status, Status::Running)
        {
            self.run_instructions();
        }
    }
}

impl Node {
    /// Past the end of the code the run is finished. It takes no memory.
    pub(crate) fn finish_run(&mut self)
        requires { instr_here self.old ≡ Local (finish text_meaning) }
        ensures { self.new ≡ begun self.old }
    {
        halt(&mut self.control);
        self.substep = 0;
    }

    /// Runs the instruction at the node's place, which touches no array. For want of memory nothing changes.
    pub(crate) fn run_local(&mut self) -> Result<(), OutOfMemory>
        requires local { IsLocalAt self.old.code self.old.control.at }
        requires in_code { self.old.control.at < 2 ^ 63 }
        ensures ok { OnOk result (self.new ≡ begun self.old) }
        ensures err { OnErr result (self.new ≡ self.old) }
    {
        let program = &*self.program;
        let i = &program.code[self.control.at];
        run_local(self.alloc, &program.shapes, i, &mut self.control)?;
        self.substep = 0;
        Ok(())
    }

    /// Runs instructions that touch no array from the node's place on, as many as it likes. It takes no memory.
    fn run_instructions(&mut self)
        requires running { self.old.control.status ≡ Running }
        requires stage { self.old.stage ≡ Ready }
        requires substep { self.old.substep ≡ 0 }
        ensures { AreLocalSteps (node_steps fault_values text_meaning) self.old self.new }
    {
        let program = &*self.program;
        run_known(&program.code, &mut self.control);
    }
}
