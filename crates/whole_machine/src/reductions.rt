//! Reductions.

ghost use Rattle.std.specs.Prelude.{◌≡◌, ◌<◌, ◌^◌, IfOk, OnOk, OnErr};
ghost use Rattle.machine_steps.specs.Instr.{Reduce};
ghost use Rattle.machine_steps.specs.Machine.{earlier, reduce_step, set_slot, step_by};
ghost use Rattle.code_meaning.specs.Parallel.{fold_of, reduction_tuples};
ghost use Rattle.node_code.specs.Texts.{evaluation};
ghost use Rattle.slot_values.specs.KeptFaults.{kepts};
ghost use Rattle.whole_machine.specs.Parts.{IsReduceResult};

use crate::machine::WholeMachine;
use crate::reduction_values::{ReduceValues, reduce_values};
use expression_rules::Dims;
use hpf_base::OutOfMemory;
use node_code::Evaluation;
use op_tables::Reduction;
use tuple_values::ParallelStatement;

/// A reduction of an array expression, and the slot that gets its value.
#[derive(Clone, Copy)]
pub(crate) struct Reducing<'a> {
    pub(crate) evaluation: &'a Evaluation,
    pub(crate) reduction: Reduction,
    pub(crate) slot: usize,
}

impl WholeMachine {
    /// What the reduction comes to.
    fn reduce_values(&self, shapes: &[Dims], r: Reducing<'_>) -> Result<ReduceValues, OutOfMemory>
        ensures { IfOk result (IsReduceResult (reduction_tuples shapes.now (evaluation r.entry.evaluation.now) r.entry.reduction.made) r.entry.reduction.join self.now) }
    {
        let w = ParallelStatement::of_reduction(
            self.alloc,
            shapes,
            self.slots(),
            r.evaluation,
            r.reduction.made,
        )?;
        let values = reduce_values(&w, self.rows(), r.reduction.join, self.parts)?;
        Ok(values)
    }

    /// Makes the next step of a reduction: the values, then the verdict, then the slot. For want of memory nothing changes.
    pub(crate) fn reduce(&mut self, shapes: &[Dims], r: Reducing<'_>) -> Result<(), OutOfMemory>
        requires in_code { self.old.control.at < 2 ^ 63 }
        ensures ok { OnOk result (self.new ≡ step_by (Reduce (reduction_tuples shapes.now (evaluation r.entry.evaluation.now) r.entry.reduction.made) (fold_of r.entry.reduction.join) r.entry.slot) self.old) }
        ensures err { OnErr result (self.new ≡ self.old) }
    {
        if self.substep() == 0 {
            self.begin_reduce(shapes, r)?;
            Ok(())
        } else if self.substep() == 1 {
            self.reduce_verdict();
            Ok(())
        } else {
            self.end_reduce(r.slot);
            Ok(())
        }
    }

    /// Joins the values of a reduction, and keeps the first fault. For want of memory nothing changes.
    fn begin_reduce(&mut self, shapes: &[Dims], r: Reducing<'_>) -> Result<(), OutOfMemory>
        ensures ok { OnOk result (self.new ≡ reduce_step 0 (reduction_tuples shapes.now (evaluation r.entry.evaluation.now) r.entry.reduction.made) (fold_of r.entry.reduction.join) r.entry.slot self.old) }
        ensures err { OnErr result (self.new ≡ self.old) }
    {
        let values = self.reduce_values(shapes, r)?;
        let parts = self.next_part()?;
        self.put_reduced(values, parts);
        Ok(())
    }

    /// Keeps a value and a fault. It takes no memory.
    fn put_reduced(&mut self, values: ReduceValues, parts: u64)
        ensures { self.new ≡ record self.old { substep = 1; kept = earlier self.old.kept (kepts values.fault); parts = parts; joined = values.joined } }
    {
        self.keep(values.fault);
        self.joined = values.joined;
        self.parts = parts;
        self.substep = 1;
    }

    /// The slot gets the value. It takes no memory.
    fn end_reduce(&mut self, slot: usize)
        requires in_code { self.old.control.at < 2 ^ 63 }
        ensures { self.new ≡ record self.old { control = set_slot self.old.control slot self.old.joined; substep = 0 } }
    {
        let value = [self.joined];
        self.set_slot(slot, &value[0]);
    }
}
