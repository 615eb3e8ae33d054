//! Verdicts on what is kept.

ghost use Rattle.std.specs.Prelude.{◌≡◌, ◌<◌, ◌^◌};
ghost use Rattle.machine_steps.specs.Machine.{on, stay, verdict_step};

use crate::machine::WholeMachine;
use slot_values::Status;

impl WholeMachine {
    /// The run ends with the kept fault, or goes on with the next instruction. It takes no memory.
    pub(crate) fn verdict(&mut self)
        requires in_code { self.old.control.at < 2 ^ 63 }
        ensures { self.new ≡ verdict_step on 0 self.old }
    {
        match self.kept.take() {
            Some(kept) => self.control.status = Status::Faulted(kept.fault),
            None => self.control.at += 1,
        }
        self.substep = 0;
        self.parts = 0;
    }

    /// The run ends with the kept fault, or goes on in the reduction. It takes no memory.
    pub(crate) fn reduce_verdict(&mut self)
        ensures { self.new ≡ verdict_step stay 2 self.old }
    {
        if let Some(kept) = self.kept.take() {
            self.control.status = Status::Faulted(kept.fault);
        }
        self.substep = 2;
        self.parts = 0;
    }
}
