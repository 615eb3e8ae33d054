//! Where a run of node code stands.

ghost use Rattle.std.specs.Prelude.{◌≡◌, ◌<◌, ◌^◌, OnOk, OnErr};
ghost use Rattle.op_tables.specs.Operators.{is_true};
ghost use Rattle.machine_steps.specs.Instr.{Finished};
ghost use Rattle.machine_steps.specs.Machine.{on, set_slot, slot_of};
ghost use Rattle.code_meaning.specs.Instructions.{go_if};
ghost use Rattle.slot_values.specs.Controls.{control_of};
ghost use Rattle.slot_values.specs.Tested.{IsStopped, IsTested};

use crate::expressions::slot;
use hpf_base::OutOfMemory;
use term_values::{Fault, Stop};

/// How a run stands: it goes on, is finished, or ended with a fault.
#[derive(Drop)]
pub enum Status {
    Running,
    Finished,
    Faulted(Fault),
}

/// The place of the next instruction, from 0, and the slots: scalars and hidden numbers.
#[derive(Drop)]
pub struct Control {
    pub at: usize,
    pub slots: Vec<i64>,
    pub status: Status,
}

/// Goes on with the next instruction.
pub(crate) fn on(c: &mut Control)
    requires in_code { c.old.at < 2 ^ 63 }
    ensures { control_of c.new ≡ on (control_of c.old) }
{
    c.at += 1;
}

/// Gives a slot a value, and goes on with the next instruction.
pub(crate) fn set_slot(slot: usize, value: i64, c: &mut Control)
    requires in_code { c.old.at < 2 ^ 63 }
    ensures { control_of c.new ≡ set_slot (control_of c.old) slot value }
{
    if slot < c.slots.len() {
        c.slots[slot] = value;
    }
    c.at += 1;
}

/// Ends the run with a fault at a line; nothing changes where the stop is want of memory.
pub(crate) fn stop_at(line: u32, stop: Stop, c: &mut Control) -> Result<(), OutOfMemory>
    ensures done { OnOk result (IsStopped line stop (control_of c.old) (control_of c.new)) }
    ensures unchanged { OnErr result (c.new ≡ c.old) }
{
    match stop {
        Stop::Fault(cause) => {
            c.status = Status::Faulted(Fault { line, cause });
            Ok(())
        }
        Stop::Memory => Err(OutOfMemory),
    }
}

/// Goes on with the next instruction after a test that is passed, and else ends the run at a line; nothing changes where memory wants.
pub(crate) fn go_on_if(
    line: u32,
    test: Result<(), Stop>,
    c: &mut Control,
) -> Result<(), OutOfMemory>
    requires in_code { c.old.at < 2 ^ 63 }
    ensures done { OnOk result (IsTested line test (control_of c.old) (control_of c.new)) }
    ensures unchanged { OnErr result (c.new ≡ c.old) }
{
    match test {
        Ok(()) => {
            on(c);
            Ok(())
        }
        Err(stop) => stop_at(line, stop, c),
    }
}

/// Goes on at a target.
pub fn jump(target: usize, c: &mut Control)
    ensures { control_of c.new ≡ record (control_of c.old) { at = target } }
{
    c.at = target;
}

/// Goes on at a target where a slot is 0, and else with the next instruction.
pub fn jump_if_zero(target: usize, x: usize, c: &mut Control)
    requires in_code { c.old.at < 2 ^ 63 }
    ensures { control_of c.new ≡ go_if (is_true (slot_of (control_of c.old) x)) target (control_of c.old) }
{
    if slot(&c.slots, x) == 0 {
        c.at = target;
    } else {
        c.at += 1;
    }
}

/// Finishes the run.
pub fn halt(c: &mut Control)
    ensures { control_of c.new ≡ record (control_of c.old) { status = Finished } }
{
    c.status = Status::Finished;
}
