//! All exchanges that a node keeps.

ghost use Rattle.std.specs.Prelude.{◌≡◌, ℕ, List, IfSome};
ghost use Rattle.std.specs.Arc.{arc_value};
ghost use Rattle.machine_steps.specs.Machine.{instr_at};
ghost use Rattle.code_meaning.specs.Instructions.{ArrayTable, meaning_of};
ghost use Rattle.code_meaning.specs.ProgramText.{Text, text_meaning};
ghost use Rattle.node_code.specs.Texts.{instruction};
ghost use Rattle.part_steps.specs.InstructionExchange.{HasLists, IsExchangeOf};
ghost use Rattle.part_steps.specs.KeptExchanges.{AreKeptExchanges, IsKeptExchange};

use crate::kept_exchange::KeptExchange;
use comm_sets::Exchange;
use node_code::Instruction;
use owner_tables::Owners;
use std::alloc::Global;
use std::collections::BTreeMap;
use std::sync::Arc;

/// What a node exchanges for instructions of its code, one exchange a place. Contracts see it by `AreKeptExchanges`.
#[derive(Drop)]
pub struct KeptExchanges {
    /// By the place of the instruction.
    exchanges: BTreeMap<usize, KeptExchange>,
    /// The sizes of all of them together; the largest number where that is more.
    size: usize,
}

impl KeptExchanges {
    /// Nothing is kept. It takes no memory.
    pub fn new(alloc: Global) -> KeptExchanges
        ensures { (code : List Text) (id : ℕ) → AreKeptExchanges code id result }
    {
        KeptExchanges {
            exchanges: BTreeMap::new(alloc),
            size: 0,
        }
    }

    /// What the node exchanges for the instruction at the place of the code, by these slots and where the rows lie so, if that is kept.
    /// It takes no memory.
    pub fn find(
        &self,
        at: usize,
        i: &Instruction,
        slots: &[i64],
        owners: &Owners,
    ) -> Option<&Arc<Exchange>>
        ensures { (code : List Text) (id : ℕ) (table : ArrayTable) → AreKeptExchanges code id self.now
            → instr_at text_meaning code at ≡ meaning_of table (instruction i.now)
            → IfSome result (λ e. IsExchangeOf (instr_at text_meaning code at) slots.now owners.now id (arc_value e.now)) }
    {
        let kept = self.exchanges.get(&at)?;
        if !kept.serves(i, slots, owners) {
            return None;
        }
        Some(&kept.exchange)
    }

    /// Keeps what the node exchanges for the instruction at the place of the code, by these slots and where the rows lie so, in place of
    /// what was kept for that place. Where all together took more than `room` words, about, all others are dropped first. For want of
    /// memory it isn't kept.
    pub fn keep(
        &mut self,
        alloc: Global,
        at: usize,
        slots: &[i64],
        owners: &Owners,
        exchange: &Arc<Exchange>,
        room: usize,
    )
        requires { HasLists owners.now.nodes (arc_value exchange.now) }
        ensures { (code : List Text) (id : ℕ) → AreKeptExchanges code id self.old
            → IsExchangeOf (instr_at text_meaning code at) slots.now owners.now id (arc_value exchange.now) → AreKeptExchanges code id self.new }
    {
        if let Ok(kept) = KeptExchange::new(alloc, slots, owners, exchange) {
            self.drop_at(at);
            self.make_room(kept.size, room);
            self.put(at, kept);
        }
    }

    /// Drops what is kept for a place, if there is anything.
    fn drop_at(&mut self, at: usize)
        ensures { (code : List Text) (id : ℕ) → AreKeptExchanges code id self.old → AreKeptExchanges code id self.new }
    {
        if let Some(kept) = self.exchanges.remove(&at) {
            self.size = self.size.saturating_sub(kept.size);
        }
    }

    /// Drops all, if they and one more of this size were larger than `room`.
    fn make_room(&mut self, size: usize, room: usize)
        ensures { (code : List Text) (id : ℕ) → AreKeptExchanges code id self.old → AreKeptExchanges code id self.new }
    {
        if self.size.saturating_add(size) > room {
            self.exchanges.clear();
            self.size = 0;
        }
    }

    /// Puts what is kept for a place beside the others, if there is memory for it.
    fn put(&mut self, at: usize, kept: KeptExchange)
        ensures { (code : List Text) (id : ℕ) → AreKeptExchanges code id self.old → IsKeptExchange code id at kept → AreKeptExchanges code id self.new }
    {
        let size = self.size.saturating_add(kept.size);
        if let Ok(_) = self.exchanges.insert(at, kept) {
            self.size = size;
        }
    }
}
