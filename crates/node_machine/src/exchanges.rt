//! What a node exchanges for the part at its place: found among what it keeps, or made anew.

ghost use Rattle.std.specs.Prelude.{◌≡◌, Some, IfOk, IfSome};
ghost use Rattle.std.specs.Arc.{arc_value};
ghost use Rattle.part_steps.specs.InstructionExchange.{HasLists};
ghost use Rattle.part_steps.specs.InstructionParts.{instruction_part};
ghost use Rattle.node_code.specs.Texts.{instruction};
ghost use Rattle.part_steps.specs.Parts.{part_of};
ghost use Rattle.tuple_values.specs.Views.{statement as statement_of};
ghost use Rattle.node_machine.specs.Exchanges.{IsExchangeBy, IsExchangeHere, part_on};
ghost use Rattle.node_machine.specs.Parts.{IsCode};
ghost use Rattle.node_machine.specs.Steps.{instr_here};

use crate::node::Node;
use comm_sets::Exchange;
use hpf_base::OutOfMemory;
use node_code::Instruction;
use owner_tables::Row;
use part_steps::{Part, Who, exchange_of};
use std::sync::Arc;
use tuple_values::ParallelStatement;

/// How many words what is kept may take in any case.
const LEAST_ROOM: usize = 65536;

/// How many words it may take for each element that the node has.
const WORDS_AN_ELEMENT: usize = 4;

/// What a node exchanges in a phase, and whether it was made for this phase, so that it isn't kept yet.
#[derive(Drop)]
pub(crate) struct FoundExchange {
    pub(crate) exchange: Arc<Exchange>,
    pub(crate) is_new: bool,
}

impl Node {
    /// What the node exchanges for the part at its place, whose statement this is: what is kept, if there is that, and else it is made anew.
    pub(crate) fn exchange_here(
        &self,
        i: &Instruction,
        statement: &ParallelStatement<'_>,
        who: Who,
    ) -> Result<FoundExchange, OutOfMemory>
        requires code { IsCode (instr_here self.now) (instruction i.now) }
        requires part { instruction_part self.now.nodes self.now.layouts self.now.control.slots (instr_here self.now) ≡ Some (part_of (part_on self.now who (statement_of statement.now))) }
        ensures { IfOk result (λ f. IsExchangeHere self.now (arc_value f.exchange)) }
    {
        if let Some(kept) = self.kept_exchange(i) {
            let again = Arc::try_clone(kept)?;
            return Ok(FoundExchange {
                exchange: again,
                is_new: false,
            });
        }
        let made = self.made_exchange(statement, who)?;
        let exchange = Arc::new(self.alloc, made)?;
        Ok(FoundExchange {
            exchange,
            is_new: true,
        })
    }

    /// What the node exchanges for the part at its place, whose statement this is, made anew.
    fn made_exchange(
        &self,
        statement: &ParallelStatement<'_>,
        who: Who,
    ) -> Result<Exchange, OutOfMemory>
        requires { instruction_part self.now.nodes self.now.layouts self.now.control.slots (instr_here self.now) ≡ Some (part_of (part_on self.now who (statement_of statement.now))) }
        ensures { IfOk result (IsExchangeHere self.now) }
    {
        let exchange = self.exchange_by(statement, who)?;
        Ok(exchange)
    }

    /// What is kept of that. It takes no memory.
    fn kept_exchange(&self, i: &Instruction) -> Option<&Arc<Exchange>>
        requires { IsCode (instr_here self.now) (instruction i.now) }
        ensures { IfSome result (λ e. IsExchangeHere self.now (arc_value e.now)) }
    {
        match self
            .exchanges
            .find(self.control.at, i, &self.control.slots, &self.owners)
        {
            Some(exchange) => Some(exchange),
            None => None,
        }
    }

    /// What the node exchanges for a statement, from one pass over its tuples.
    pub(crate) fn exchange_by(
        &self,
        statement: &ParallelStatement<'_>,
        who: Who,
    ) -> Result<Exchange, OutOfMemory>
        ensures { IfOk result (IsExchangeBy self.now who (statement_of statement.now)) }
    {
        let part = Part::new(statement, &self.owners, who);
        let exchange = exchange_of(self.alloc, &part, self.id)?;
        Ok(exchange)
    }

    /// Keeps what the node exchanges for the part at its place, if it is new and there is memory for it. Contracts don't see what is kept.
    pub(crate) fn keep_exchange(&mut self, found: &FoundExchange)
        requires here { IsExchangeHere self.old (arc_value found.now.exchange) }
        requires lists { HasLists self.old.nodes (arc_value found.now.exchange) }
        ensures { self.new ≡ self.old }
    {
        if !found.is_new {
            return;
        }
        let room = room_beside(&self.pieces);
        self.exchanges.keep(
            self.alloc,
            self.control.at,
            &self.control.slots,
            &self.owners,
            &found.exchange,
            room,
        );
    }
}

/// How many words what is kept may take beside the node's pieces.
fn room_beside(pieces: &[Row]) -> usize {
    let mut room = LEAST_ROOM;
    for piece in pieces {
        room = room.saturating_add(piece.as_slice().len().saturating_mul(WORDS_AN_ELEMENT));
    }
    room
}
