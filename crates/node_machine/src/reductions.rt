//! The first step of reductions: the values that the node computes, joined.

ghost use Rattle.std.specs.Prelude.{◌≡◌, IfOk, OnOk, OnErr};
ghost use Rattle.machine_steps.specs.Instr.{Reduce};
ghost use Rattle.machine_steps.specs.Machine.{earlier};
ghost use Rattle.machine_steps.specs.Node.{ready};
ghost use Rattle.code_meaning.specs.Parallel.{fold_of, reduction_tuples};
ghost use Rattle.node_code.specs.Texts.{evaluation as evaluation_of};
ghost use Rattle.slot_values.specs.KeptFaults.{kepts};
ghost use Rattle.tuple_values.specs.Views.{statement as statement_of};
ghost use Rattle.node_machine.specs.Parts.{IsPhase};
ghost use Rattle.node_machine.specs.Reductions.{IsReduced, IsReduceResult, IsReducing};
ghost use Rattle.node_machine.specs.Steps.{done, instr_here};

use crate::node::Node;
use crate::phases::PartPhase;
use expression_rules::Dims;
use hpf_base::OutOfMemory;
use node_code::{Evaluation, Instruction};
use op_tables::Reduction;
use part_steps::{Part, ReduceValues, Who, reduce_values};
use tuple_values::ParallelStatement;

/// A reduction, with its instruction and the dimensions of the arrays.
#[derive(Clone, Copy)]
pub(crate) struct Reducing<'a> {
    pub(crate) i: &'a Instruction,
    pub(crate) shapes: &'a Vec<Dims>,
    pub(crate) evaluation: &'a Evaluation,
    pub(crate) reduction: Reduction,
    pub(crate) slot: usize,
}

impl Node {
    /// The statement of the reduction at the node's place, by the slots.
    fn reduced<'a>(&'a self, r: Reducing<'a>) -> Result<ParallelStatement<'a>, OutOfMemory>
        requires { instr_here self.now ≡ Reduce (reduction_tuples r.shapes.now.items (evaluation_of r.evaluation.now) r.reduction.made) (fold_of r.reduction.join) r.slot }
        ensures { IfOk result (λ w. IsReduced (instr_here self.now) self.now.control.slots r.entry.reduction.join (statement_of w)) }
    {
        let statement = ParallelStatement::of_reduction(
            self.alloc,
            r.shapes,
            &self.control.slots,
            r.evaluation,
            r.reduction.made,
        )?;
        Ok(statement)
    }

    /// The phase of the reduction at the node's place.
    pub(crate) fn reduce_phase(&self, r: Reducing<'_>) -> Result<PartPhase, OutOfMemory>
        requires { IsReducing (instr_here self.now) self.now.substep r }
        ensures { IfOk result (IsPhase self.now) }
    {
        let statement = self.reduced(r)?;
        let phase = self.part_phase(r.i, &statement, Who::First)?;
        Ok(phase)
    }

    /// What the reduction at the node's place comes to after its phase.
    pub(crate) fn reduce_result(&self, r: Reducing<'_>) -> Result<ReduceValues, OutOfMemory>
        requires { IsReducing (instr_here self.now) self.now.substep r }
        ensures { IfOk result (IsReduceResult (instr_here self.now) self.now) }
    {
        let statement = self.reduced(r)?;
        let found = self.exchange_here(r.i, &statement, Who::First)?;
        let exchange = &*found.exchange;
        let part = Part::new(&statement, &self.owners, Who::First);
        let received = self.post.all_received();
        let values = reduce_values(
            &part,
            self.id,
            &self.pieces,
            received,
            exchange,
            r.reduction.join,
            self.parts,
        )?;
        Ok(values)
    }

    /// After the phase of the reduction at the node's place: keeps the values, joined, and the first fault. For want of memory nothing
    /// changes.
    pub(crate) fn finish_reduce_values(&mut self, values: ReduceValues) -> Result<(), OutOfMemory>
        requires { IsReduceResult (instr_here self.old) self.old values }
        ensures ok { OnOk result (self.new ≡ done self.old) }
        ensures err { OnErr result (self.new ≡ self.old) }
    {
        let parts = self.next_part()?;
        self.put_reduced(values, parts);
        Ok(())
    }

    /// Keeps a value and a fault. It takes no memory.
    fn put_reduced(&mut self, values: ReduceValues, parts: u64)
        ensures { self.new ≡ ready self.old.nodes (record self.old { substep = 1; kept = earlier self.old.kept (kepts values.fault); parts = parts; joined = values.value }) }
    {
        self.keep(values.fault);
        self.joined = values.value;
        self.parts = parts;
        self.substep = 1;
        self.reset();
    }
}
