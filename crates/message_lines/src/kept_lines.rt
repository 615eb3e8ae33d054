//! Lines that are kept from one run of an instruction to the next.

ghost use Rattle.std.specs.Prelude.{◌≡◌, ℕ, List, IfOk, IfSome, IsTrue, Some};
ghost use Rattle.std.specs.List.{slice_get};
ghost use Rattle.name_table.specs.declared.names.Entry.{Entry};
ghost use Rattle.machine_steps.specs.Instr.{Remapping};
ghost use Rattle.code_meaning.specs.ProgramText.{Text};
ghost use Rattle.node_code.specs.Texts.{instruction};
ghost use Rattle.message_lines.specs.KeptLines.{AreKeptLines, IsKeptText, Serves};
ghost use Rattle.message_lines.specs.TextLines.{text_lines};

use hpf_base::OutOfMemory;
use node_code::Instruction;
use owner_tables::Owners;
use part_steps::agrees;
use std::alloc::Global;
use std::collections::BTreeMap;

/// How many bytes of lines are kept at most, together.
const ROOM: usize = 16_777_216;

/// The lines of an instruction by these slots, where the rows lie so.
#[derive(Drop)]
pub(crate) struct KeptText {
    pub(crate) slots: Vec<i64>,
    pub(crate) owners: Owners,
    pub(crate) lines: Vec<u8>,
}

impl KeptText {
    /// These lines, to be kept.
    fn new(
        alloc: Global,
        slots: &[i64],
        owners: &Owners,
        lines: Vec<u8>,
    ) -> Result<KeptText, OutOfMemory>
        ensures slots { IfOk result (λ kept. kept.slots.items ≡ slots.now) }
        ensures lies { IfOk result (λ kept. kept.owners ≡ owners.now) }
        ensures lines { IfOk result (λ kept. kept.lines.items ≡ lines.items) }
    {
        let slots = slots.to_vec(alloc)?;
        let owners = owners.shared()?;
        Ok(KeptText {
            slots,
            owners,
            lines,
        })
    }

    /// Whether they are the lines of the instruction by these slots, too, where the rows lie so. It takes no memory.
    fn serves(&self, i: &Instruction, slots: &[i64], owners: &Owners) -> bool
        ensures { IsTrue result → Serves self.now (instruction i.now) slots.now owners.now }
    {
        if !agrees(i, &self.slots, slots) {
            return false;
        }
        self.owners.lies_as(owners)
    }
}

/// The lines of instructions of a program, one text a place. What is kept decides nothing: where there is none, the lines are made anew.
#[derive(Drop)]
pub struct KeptLines {
    /// By the place of the instruction.
    texts: BTreeMap<usize, KeptText>,
    /// The bytes of all lines together.
    bytes: usize,
}

impl KeptLines {
    /// Nothing is kept. It takes no memory.
    pub fn new(alloc: Global) -> KeptLines
        ensures { (code : List Text) (names : List Entry) → AreKeptLines code names result }
    {
        KeptLines {
            texts: BTreeMap::new(alloc),
            bytes: 0,
        }
    }

    /// The lines that are kept for the instruction at a place, by these slots and where the rows lie so, if they are. It takes no memory.
    pub fn find(&self, at: usize, i: &Instruction, slots: &[i64], owners: &Owners) -> Option<&[u8]>
        ensures { (code : List Text) (names : List Entry) (t : Text) → AreKeptLines code names self.now → slice_get code at ≡ Some t → t.instruction ≡ instruction i.now
            → IfSome result (λ lines. (moves : ℕ → List Remapping) → lines.now ≡ text_lines names moves t owners.now.layouts slots.now) }
    {
        let kept = self.texts.get(&at)?;
        if !kept.serves(i, slots, owners) {
            return None;
        }
        Some(&kept.lines)
    }

    /// Keeps the lines of the instruction at a place, by these slots and where the rows lie so, in place of what was kept for that place. Where
    /// all together took more than `ROOM` bytes, all others are dropped first. For want of memory they aren't kept.
    pub fn keep(&mut self, alloc: Global, at: usize, slots: &[i64], owners: &Owners, lines: Vec<u8>)
        ensures { (code : List Text) (names : List Entry) → AreKeptLines code names self.old
            → ((t : Text) (moves : ℕ → List Remapping) → slice_get code at ≡ Some t → lines.items ≡ text_lines names moves t owners.now.layouts slots.now)
            → AreKeptLines code names self.new }
    {
        if let Ok(kept) = KeptText::new(alloc, slots, owners, lines) {
            self.drop_at(at);
            self.make_room(kept.lines.len());
            self.put(at, kept);
        }
    }

    /// Drops what is kept for a place, if there is anything.
    fn drop_at(&mut self, at: usize)
        ensures { (code : List Text) (names : List Entry) → AreKeptLines code names self.old → AreKeptLines code names self.new }
    {
        if let Some(kept) = self.texts.remove(&at) {
            self.bytes = self.bytes.saturating_sub(kept.lines.len());
        }
    }

    /// Drops all, if they and so many bytes more were more than `ROOM`.
    fn make_room(&mut self, bytes: usize)
        ensures { (code : List Text) (names : List Entry) → AreKeptLines code names self.old → AreKeptLines code names self.new }
    {
        if self.bytes.saturating_add(bytes) > ROOM {
            self.texts.clear();
            self.bytes = 0;
        }
    }

    /// Puts what is kept for a place beside the others, if there is memory for it.
    fn put(&mut self, at: usize, kept: KeptText)
        ensures { (code : List Text) (names : List Entry) → AreKeptLines code names self.old → IsKeptText code names at kept → AreKeptLines code names self.new }
    {
        let bytes = self.bytes.saturating_add(kept.lines.len());
        if let Ok(_) = self.texts.insert(at, kept) {
            self.bytes = bytes;
        }
    }
}
