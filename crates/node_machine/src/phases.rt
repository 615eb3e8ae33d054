//! The phases of parts: of parallel statements, and of the first step of reductions.

ghost use Rattle.std.specs.Prelude.{◌≡◌, ◌<◌, ◌+◌, All, IfOk};
ghost use Rattle.machine_steps.specs.Machine.{earlier};
ghost use Rattle.machine_steps.specs.Message.{Part as PartOf};
ghost use Rattle.node_code.specs.Texts.{instruction};
ghost use Rattle.part_steps.specs.Parts.{part_of};
ghost use Rattle.slot_values.specs.KeptFaults.{kepts};
ghost use Rattle.tuple_values.specs.Views.{statement as statement_of};
ghost use Rattle.node_machine.specs.Exchanges.{IsExchangeBy, part_on};
ghost use Rattle.node_machine.specs.Parts.{IsCode, IsOpening, IsPhase, OpensPart};
ghost use Rattle.node_machine.specs.Steps.{begun, instr_here};

use crate::exchanges::FoundExchange;
use crate::node::Node;
use crate::parts::Opening;
use comm_sets::Exchange;
use hpf_base::OutOfMemory;
use letters::Body;
use node_code::Instruction;
use part_steps::{Part, Who, inbox, outbox};
use slot_values::{Kept, earlier};
use tuple_values::ParallelStatement;

/// A phase that isn't open yet: what a node sends in it and from whom it takes, room for what it receives, and what it exchanges.
#[derive(Drop)]
pub(crate) struct PartPhase {
    pub(crate) opening: Opening,
    pub(crate) received: Vec<Body>,
    pub(crate) found: FoundExchange,
}

impl Node {
    /// The phase of the part at the node's place, whose statement this is.
    pub(crate) fn part_phase(
        &self,
        i: &Instruction,
        statement: &ParallelStatement<'_>,
        who: Who,
    ) -> Result<PartPhase, OutOfMemory>
        requires code { IsCode (instr_here self.now) (instruction i.now) }
        requires opens { OpensPart self.now (part_of (part_on self.now who (statement_of statement.now))) }
        ensures { IfOk result (IsPhase self.now) }
    {
        let found = self.exchange_here(i, statement, who)?;
        let exchange = &*found.exchange;
        let opening = self.opening_of(statement, who, exchange)?;
        let received = self.room()?;
        Ok(PartPhase {
            opening,
            received,
            found,
        })
    }

    /// What opens the phase of a statement, by what the node exchanges in it.
    pub(crate) fn opening_of(
        &self,
        statement: &ParallelStatement<'_>,
        who: Who,
        exchange: &Exchange,
    ) -> Result<Opening, OutOfMemory>
        requires { IsExchangeBy self.now who (statement_of statement.now) exchange.now }
        ensures is { (p : PartOf) → part_of (record { who = who; nodes = self.now.nodes; layouts = self.now.layouts; statement = statement_of statement.now }) ≡ p → IfOk result (IsOpening p self.now) }
        ensures targets { IfOk result (λ o. All (λ parcel. parcel.to < self.now.nodes) o.outbox.items) }
        ensures sources { IfOk result (λ o. All (λ source. source < self.now.nodes) o.inbox.items) }
    {
        let part = Part::new(statement, &self.owners, who);
        let outbox = outbox(self.alloc, &part, self.id, &self.pieces, exchange)?;
        let inbox = inbox(self.alloc, &part, self.id, exchange)?;
        Ok(Opening { outbox, inbox })
    }

    /// Opens the phase of the part at the node's place.
    pub(crate) fn open_part(&mut self, phase: PartPhase)
        requires { IsPhase self.old phase }
        ensures { self.new ≡ begun self.old }
    {
        self.keep_exchange(&phase.found);
        self.open(phase.opening.outbox, phase.opening.inbox, phase.received);
    }

    /// The number of the next part.
    pub(crate) fn next_part(&self) -> Result<u64, OutOfMemory>
        ensures { IfOk result (λ n. n ≡ self.now.parts + 1) }
    {
        match self.parts.checked_add(1) {
            Some(parts) => Ok(parts),
            // a number past its type
            None => Err(OutOfMemory),
        }
    }

    /// Keeps a fault, if there is none that comes before it.
    pub(crate) fn keep(&mut self, fault: Option<Kept>)
        ensures { self.new ≡ record self.old { kept = earlier self.old.kept (kepts fault) } }
    {
        self.kept = earlier(self.kept.take(), fault);
    }
}
