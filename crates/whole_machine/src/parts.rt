//! Parallel statements.

ghost use Rattle.std.specs.Prelude.{◌≡◌, ◌<◌, ◌^◌, IfOk, OnOk, OnErr};
ghost use Rattle.machine_steps.specs.Machine.{earlier, on, step_by};
ghost use Rattle.tuple_values.specs.Statements.{IsParallel};
ghost use Rattle.slot_values.specs.KeptFaults.{kepts};
ghost use Rattle.tuple_values.specs.Views.{statement as statement_of};
ghost use Rattle.whole_machine.specs.Parts.{IsParResult, par_instr};
ghost use Rattle.whole_machine.specs.Stores.{stored};

use crate::machine::WholeMachine;
use crate::part_values::{ParValues, par_values};
use expression_rules::Dims;
use hpf_base::OutOfMemory;
use node_code::{Assignment, Evaluation, NestStatement};
use tuple_values::ParallelStatement;

/// The contents of a parallel statement; of values that go into a copy its row.
#[derive(Clone, Copy)]
pub(crate) enum Parallel<'a> {
    Assignment(&'a Assignment),
    Forall(&'a Assignment),
    Nest(&'a NestStatement),
    Copy(usize, &'a Evaluation),
    ForallCopy(usize, &'a Evaluation),
}

impl WholeMachine {
    /// The parallel statement, by the slots.
    fn parallel<'a>(
        &'a self,
        shapes: &'a [Dims],
        statement: Parallel<'a>,
    ) -> Result<ParallelStatement<'a>, OutOfMemory>
        ensures { IfOk result (λ w. IsParallel (par_instr shapes.now statement.entry) self.now.control.slots (statement_of w)) }
    {
        let slots = self.slots();
        match statement {
            Parallel::Assignment(p) => ParallelStatement::of_assignment(
                self.alloc, shapes, slots, p,
            ),
            Parallel::Forall(p) => ParallelStatement::of_forall_assignment(
                self.alloc, shapes, slots, p,
            ),
            Parallel::Nest(p) => ParallelStatement::of_nest(self.alloc, shapes, slots, p),
            Parallel::Copy(copy, p) => ParallelStatement::of_evaluation(
                self.alloc, shapes, slots, p, copy,
            ),
            Parallel::ForallCopy(copy, p) => ParallelStatement::of_forall_mask(
                self.alloc, shapes, slots, p, copy,
            ),
        }
    }

    /// What the parallel statement comes to.
    fn par_values(&self, shapes: &[Dims], statement: Parallel<'_>) -> Result<ParValues, OutOfMemory>
        ensures { IfOk result (IsParResult (par_instr shapes.now statement.entry) self.now) }
    {
        let w = self.parallel(shapes, statement)?;
        let values = par_values(self.alloc, &w, self.rows(), self.parts)?;
        Ok(values)
    }

    /// Runs a parallel statement: takes the values at all tuples, stores them, and keeps the first fault. For want of memory nothing changes.
    pub(crate) fn par(
        &mut self,
        shapes: &[Dims],
        statement: Parallel<'_>,
    ) -> Result<(), OutOfMemory>
        requires in_code { self.old.control.at < 2 ^ 63 }
        ensures ok { OnOk result (self.new ≡ step_by (par_instr shapes.now statement.entry) self.old) }
        ensures err { OnErr result (self.new ≡ self.old) }
    {
        let values = self.par_values(shapes, statement)?;
        let parts = self.next_part()?;
        self.put_values(values, parts);
        Ok(())
    }

    /// Stores values, keeps a fault, and goes on. It takes no memory.
    fn put_values(&mut self, values: ParValues, parts: u64)
        requires in_code { self.old.control.at < 2 ^ 63 }
        ensures { self.new ≡ record self.old {
          control = on self.old.control;
          substep = 0;
          rows = stored values.stores self.old.rows;
          kept = earlier self.old.kept (kepts values.fault);
          parts = parts;
        } }
    {
        values.stores.apply(&mut self.rows);
        self.keep(values.fault);
        self.parts = parts;
        self.go_on();
    }
}
