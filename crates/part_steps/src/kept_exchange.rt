//! What a node keeps of one phase for a later run of its instruction.

ghost use Rattle.std.specs.Prelude.{◌≡◌, IsTrue, IfOk, length};
ghost use Rattle.std.specs.Arc.{arc_value};
ghost use Rattle.node_code.specs.Texts.{instruction};
ghost use Rattle.part_steps.specs.InstructionExchange.{HasLists};
ghost use Rattle.part_steps.specs.KeptExchanges.{Serves};

use crate::agreement::agrees;
use comm_sets::{Exchange, Messages};
use hpf_base::OutOfMemory;
use node_code::Instruction;
use owner_tables::Owners;
use std::alloc::Global;
use std::sync::Arc;

/// What a node exchanges for an instruction by these slots, where the rows lie so. It is shared with who asks for it.
#[derive(Drop)]
pub(crate) struct KeptExchange {
    pub(crate) slots: Vec<i64>,
    pub(crate) owners: Owners,
    pub(crate) exchange: Arc<Exchange>,
    /// Its memory in words, about; the largest number where it is more.
    pub(crate) size: usize,
}

impl KeptExchange {
    /// This exchange, to be kept.
    pub(crate) fn new(
        alloc: Global,
        slots: &[i64],
        owners: &Owners,
        exchange: &Arc<Exchange>,
    ) -> Result<KeptExchange, OutOfMemory>
        requires { HasLists owners.now.nodes (arc_value exchange.now) }
        ensures slots { IfOk result (λ kept. kept.slots.items ≡ slots.now) }
        ensures lies { IfOk result (λ kept. kept.owners ≡ owners.now) }
        ensures exchange { IfOk result (λ kept. arc_value kept.exchange ≡ arc_value exchange.now) }
    {
        let size = size_of(slots, owners, exchange);
        let kept = slots.to_vec(alloc)?;
        let owners = owners.shared()?;
        let exchange = Arc::try_clone(exchange)?;
        Ok(KeptExchange {
            slots: kept,
            owners,
            exchange,
            size,
        })
    }

    /// Whether it is what the node exchanges for the instruction by these slots, too, where the rows lie so. It takes no memory.
    pub(crate) fn serves(&self, i: &Instruction, slots: &[i64], owners: &Owners) -> bool
        ensures { IsTrue result → Serves self.now (instruction i.now) slots.now owners.now }
    {
        if !agrees(i, &self.slots, slots) {
            return false;
        }
        self.owners.lies_as(owners)
    }
}

/// How many words a kept exchange takes, about: those of the slots, of a row's tables, of a tuple, of an element of a message and of a list of
/// elements. It is the largest number where there are more.
fn size_of(slots: &[i64], owners: &Owners, exchange: &Exchange) -> usize
    requires { HasLists owners.now.nodes exchange.now }
{
    slots
        .len()
        .saturating_add(owners.rows())
        .saturating_add(exchange.computed.size())
        .saturating_add(words(&exchange.outgoing, owners.nodes()))
        .saturating_add(words(&exchange.incoming, owners.nodes()))
}

/// How many words the messages with so many nodes take: three of a list, and two of an element.
fn words(messages: &Messages, nodes: u32) -> usize
    requires { length messages.now ≡ nodes }
{
    let mut sum: usize = 0;
    for node in 0..nodes {
        let elements = messages.with(node).len();
        sum = sum
            .saturating_add(elements)
            .saturating_add(elements)
            .saturating_add(3);
    }
    sum
}
