//! Parallel statements.

ghost use Rattle.std.specs.Prelude.{◌≡◌, ◌<◌, ◌^◌, IfOk, OnOk, OnErr};
ghost use Rattle.machine_steps.specs.Machine.{earlier, on};
ghost use Rattle.machine_steps.specs.Node.{ready};
ghost use Rattle.part_steps.specs.Stores.{stored};
ghost use Rattle.slot_values.specs.KeptFaults.{kepts};
ghost use Rattle.tuple_values.specs.Views.{statement as statement_of};
ghost use Rattle.node_machine.specs.Parts.{IsPar, IsParResult, IsPhase, par_instr};
ghost use Rattle.tuple_values.specs.Statements.{IsParallel};
ghost use Rattle.node_machine.specs.Steps.{done, instr_here};

use crate::copies::Copying;
use crate::node::Node;
use crate::phases::PartPhase;
use expression_rules::Dims;
use hpf_base::OutOfMemory;
use letters::Parcel;
use node_code::{Assignment, Instruction, NestStatement};
use part_steps::{ParValues, Part, Stores, Who, par_values};
use std::collections::VecDeque;
use tuple_values::ParallelStatement;

/// What a node sends in a phase, and from whom it takes.
#[derive(Drop)]
pub(crate) struct Opening {
    pub(crate) outbox: VecDeque<Parcel>,
    pub(crate) inbox: VecDeque<u32>,
}

/// The contents of a parallel statement.
#[derive(Clone, Copy)]
pub(crate) enum Parallel<'a> {
    Assignment(&'a Assignment),
    Forall(&'a Assignment),
    Nest(&'a NestStatement),
    Copy(Copying<'a>),
    ForallCopy(Copying<'a>),
}

/// A parallel statement, with its instruction and the dimensions of the arrays.
#[derive(Clone, Copy)]
pub(crate) struct ParStep<'a> {
    pub(crate) i: &'a Instruction,
    pub(crate) shapes: &'a Vec<Dims>,
    pub(crate) statement: Parallel<'a>,
}

impl Node {
    /// The parallel statement at the node's place, by the slots.
    fn parallel<'a>(
        &'a self,
        shapes: &'a Vec<Dims>,
        statement: Parallel<'a>,
    ) -> Result<ParallelStatement<'a>, OutOfMemory>
        requires { instr_here self.now ≡ par_instr shapes.now.items statement }
        ensures { IfOk result (λ w. IsParallel (instr_here self.now) self.now.control.slots (statement_of w)) }
    {
        let slots = &self.control.slots;
        match statement {
            Parallel::Assignment(p) => ParallelStatement::of_assignment(
                self.alloc, shapes, slots, p,
            ),
            Parallel::Forall(p) => ParallelStatement::of_forall_assignment(
                self.alloc, shapes, slots, p,
            ),
            Parallel::Nest(p) => ParallelStatement::of_nest(self.alloc, shapes, slots, p),
            Parallel::Copy(p) => ParallelStatement::of_evaluation(
                self.alloc,
                shapes,
                slots,
                p.evaluation,
                p.copy,
            ),
            Parallel::ForallCopy(p) => ParallelStatement::of_forall_mask(
                self.alloc,
                shapes,
                slots,
                p.evaluation,
                p.copy,
            ),
        }
    }

    /// The phase of the parallel statement at the node's place.
    pub(crate) fn par_phase(&self, p: ParStep<'_>) -> Result<PartPhase, OutOfMemory>
        requires { IsPar (instr_here self.now) p }
        ensures { IfOk result (IsPhase self.now) }
    {
        let statement = self.parallel(p.shapes, p.statement)?;
        let phase = self.part_phase(p.i, &statement, Who::Left)?;
        Ok(phase)
    }

    /// What the parallel statement at the node's place comes to after its phase.
    pub(crate) fn par_result(&self, p: ParStep<'_>) -> Result<ParValues, OutOfMemory>
        requires { IsPar (instr_here self.now) p }
        ensures { IfOk result (IsParResult (instr_here self.now) self.now) }
    {
        let statement = self.parallel(p.shapes, p.statement)?;
        let found = self.exchange_here(p.i, &statement, Who::Left)?;
        let exchange = &*found.exchange;
        let part = Part::new(&statement, &self.owners, Who::Left);
        let received = self.post.all_received();
        let values = par_values(
            self.alloc,
            &part,
            self.id,
            &self.pieces,
            received,
            exchange,
            self.parts,
        )?;
        Ok(values)
    }

    /// After the phase of the parallel statement at the node's place: stores the values, and keeps the first fault. For want of memory
    /// nothing changes.
    pub(crate) fn finish_par(&mut self, values: ParValues) -> Result<(), OutOfMemory>
        requires is { IsParResult (instr_here self.old) self.old values }
        requires in_code { self.old.control.at < 2 ^ 63 }
        ensures ok { OnOk result (self.new ≡ done self.old) }
        ensures err { OnErr result (self.new ≡ self.old) }
    {
        let parts = self.next_part()?;
        self.put_values(values, parts);
        Ok(())
    }

    /// Stores values, keeps a fault, and goes on. It takes no memory.
    fn put_values(&mut self, values: ParValues, parts: u64)
        requires in_code { self.old.control.at < 2 ^ 63 }
        ensures { self.new ≡ ready self.old.nodes (record self.old {
          control = on self.old.control;
          substep = 0;
          pieces = stored values.stores self.old.pieces;
          kept = earlier self.old.kept (kepts values.fault);
          parts = parts;
        }) }
    {
        self.put_stores(&values.stores);
        self.keep(values.fault);
        self.parts = parts;
        self.go_on();
        self.reset();
    }

    /// Stores values.
    fn put_stores(&mut self, stores: &Stores)
        ensures { self.new ≡ record self.old { pieces = stored stores.now self.old.pieces } }
    {
        stores.apply(&mut self.pieces);
    }
}
