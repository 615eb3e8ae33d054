//! Instructions that store an element.

ghost use Rattle.std.specs.Prelude.{◌≡◌, ◌<◌, ◌^◌};
ghost use Rattle.machine_steps.specs.Machine.{faulted, on, store_control, store_in};
ghost use Rattle.machine_steps.specs.Node.{local_write};
ghost use Rattle.term_values.specs.Faults.{fault};
ghost use Rattle.node_program.specs.Results.{spot_result, value_result};

use crate::node::Node;
use slot_values::{Fault, Spot, Status};

impl Node {
    /// Ends the run with a fault. It takes no memory.
    pub(crate) fn fail(&mut self, last: Fault)
        ensures { self.new ≡ record self.old { control = faulted self.old.control (fault last); substep = 0 } }
    {
        self.control.status = Status::Faulted(last);
        self.substep = 0;
    }

    /// Goes on with the next instruction. It takes no memory.
    pub(crate) fn go_on(&mut self)
        requires { self.old.control.at < 2 ^ 63 }
        ensures { self.new ≡ record self.old { control = on self.old.control; substep = 0 } }
    {
        self.control.at += 1;
        self.substep = 0;
    }

    /// Stores a value in an element, or ends the run with the fault of the element or of the value. It takes no memory.
    pub(crate) fn store(&mut self, element: Result<Spot, Fault>, value: Result<i64, Fault>)
        requires { self.old.control.at < 2 ^ 63 }
        ensures { self.new ≡ record self.old {
          control = store_control (spot_result element) (value_result value) self.old.control;
          substep = 0;
          pieces = store_in (local_write self.old.layouts self.old.id) (spot_result element) (value_result value) self.old.pieces;
        } }
    {
        match element {
            Ok(spot) => match value {
                Ok(value) => {
                    self.write_local(spot, &value);
                    self.go_on();
                }
                Err(last) => self.fail(last),
            },
            Err(last) => self.fail(last),
        }
    }
}
