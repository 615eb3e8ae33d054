//! The place, the slots, and what is kept.

ghost use Rattle.std.specs.Prelude.{◌≡◌, ◌<◌, ◌+◌, ◌^◌, IfOk};
ghost use Rattle.machine_steps.specs.Machine.{earlier, faulted, on, set_slot};
ghost use Rattle.slot_values.specs.KeptFaults.{kepts};
ghost use Rattle.term_values.specs.Faults.{fault};

use crate::machine::WholeMachine;
use hpf_base::OutOfMemory;
use slot_values::{Fault, Kept, Status, earlier};

impl WholeMachine {
    /// Ends the run with a fault. It takes no memory.
    pub(crate) fn fail(&mut self, last: Fault)
        ensures { self.new ≡ record self.old { control = faulted self.old.control (fault last); substep = 0 } }
    {
        self.control.status = Status::Faulted(last);
        self.substep = 0;
    }

    /// Goes on with the next instruction. It takes no memory.
    pub(crate) fn go_on(&mut self)
        requires { self.old.control.at < 2 ^ 63 }
        ensures { self.new ≡ record self.old { control = on self.old.control; substep = 0 } }
    {
        self.control.at += 1;
        self.substep = 0;
    }

    /// A slot gets a value, and the run goes on with the next instruction. It takes no memory.
    pub(crate) fn set_slot(&mut self, slot: usize, value: &i64)
        requires { self.old.control.at < 2 ^ 63 }
        ensures { self.new ≡ record self.old { control = set_slot self.old.control slot value.now; substep = 0 } }
    {
        if slot < self.control.slots.len() {
            self.control.slots[slot] = *value;
        }
        self.control.at += 1;
        self.substep = 0;
    }

    /// The number of parts after one more.
    pub(crate) fn next_part(&self) -> Result<u64, OutOfMemory>
        ensures { IfOk result (λ n. n ≡ self.now.parts + 1) }
    {
        match self.parts.checked_add(1) {
            Some(parts) => Ok(parts),
            // a number past its type
            None => Err(OutOfMemory),
        }
    }

    /// Keeps a fault, if there is none that comes before it. It takes no memory.
    pub(crate) fn keep(&mut self, fault: Option<Kept>)
        ensures { self.new ≡ record self.old { kept = earlier self.old.kept (kepts fault) } }
    {
        self.kept = earlier(self.kept.take(), fault);
    }
}
