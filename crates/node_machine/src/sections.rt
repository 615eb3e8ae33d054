//! Sections that are printed.

ghost use Rattle.std.specs.Prelude.{◌≡◌, ◌<◌, All, IfOk, OnOk, OnErr};
ghost use Rattle.array_meaning.specs.Execution.{decimals};
ghost use Rattle.tuple_values.specs.Views.{statement as statement_of};
ghost use Rattle.node_machine.specs.Prints.{IsPrintedSection};
ghost use Rattle.node_machine.specs.Sections.{IsSection, IsSectionBytes, IsSectionOpening};
ghost use Rattle.node_machine.specs.Steps.{begun, done, instr_here};

use crate::node::Node;
use crate::parts::Opening;
use crate::prints::number_bytes;
use expression_rules::Dims;
use hpf_base::OutOfMemory;
use node_code::Sub;
use part_steps::{Part, Who, exchange_of, section_values};
use std::alloc::Global;
use tuple_values::ParallelStatement;

/// A section that a PRINT lists, with the dimensions of the arrays.
#[derive(Clone, Copy)]
pub(crate) struct PrintedSection<'a> {
    pub(crate) shapes: &'a Vec<Dims>,
    pub(crate) array: usize,
    pub(crate) section: &'a Vec<Sub>,
}

/// Numbers in decimal, each after a blank.
fn decimals(alloc: Global, numbers: &[i64]) -> Result<Vec<u8>, OutOfMemory>
    ensures { IfOk result (λ b. b.items ≡ decimals numbers.now) }
{
    let mut bytes = Vec::new(alloc);
    for number in numbers {
        let text = number_bytes(alloc, *number)?;
        bytes.extend_from_slice(&text)?;
    }
    Ok(bytes)
}

impl Node {
    /// The section that the PRINT at the node's place lists at this step, by the slots.
    fn section<'a>(&'a self, s: PrintedSection<'a>) -> Result<ParallelStatement<'a>, OutOfMemory>
        requires { IsPrintedSection (instr_here self.now) self.now.substep s }
        ensures { IfOk result (λ w. IsSection (instr_here self.now) self.now.control.slots self.now.substep (statement_of w)) }
    {
        let slots = &self.control.slots;
        let statement = ParallelStatement::of_section(
            self.alloc, s.shapes, slots, s.array, s.section,
        )?;
        Ok(statement)
    }

    /// What opens the phase of the section at the node's place.
    pub(crate) fn section_opening(&self, s: PrintedSection<'_>) -> Result<Opening, OutOfMemory>
        requires { IsPrintedSection (instr_here self.now) self.now.substep s }
        ensures is { IfOk result (IsSectionOpening (instr_here self.now) self.now) }
        ensures targets { IfOk result (λ o. All (λ parcel. parcel.to < self.now.nodes) o.outbox.items) }
        ensures sources { IfOk result (λ o. All (λ source. source < self.now.nodes) o.inbox.items) }
    {
        let statement = self.section(s)?;
        let exchange = self.exchange_by(&statement, Who::Root)?;
        let opening = self.opening_of(&statement, Who::Root, &exchange)?;
        Ok(opening)
    }

    /// Opens the phase in which node 0 gathers the section at the node's place. For want of memory nothing changes.
    pub(crate) fn begin_section(&mut self, opening: Opening) -> Result<(), OutOfMemory>
        requires is { IsSectionOpening (instr_here self.old) self.old opening }
        requires targets { All (λ parcel. parcel.to < self.old.nodes) opening.outbox.items }
        requires sources { All (λ source. source < self.old.nodes) opening.inbox.items }
        ensures ok { OnOk result (self.new ≡ begun self.old) }
        ensures err { OnErr result (self.new ≡ self.old) }
    {
        let received = self.room()?;
        self.open(opening.outbox, opening.inbox, received);
        Ok(())
    }

    /// The numbers of the section at the node's place after its phase: node 0 has them, and they are nothing on any other.
    pub(crate) fn section_bytes(&self, s: PrintedSection<'_>) -> Result<Vec<u8>, OutOfMemory>
        requires { IsPrintedSection (instr_here self.now) self.now.substep s }
        ensures { IfOk result (λ b. IsSectionBytes (instr_here self.now) self.now b.items) }
    {
        let statement = self.section(s)?;
        if self.id != 0 {
            return Ok(Vec::new(self.alloc));
        }
        let part = Part::new(&statement, &self.owners, Who::Root);
        let exchange = exchange_of(self.alloc, &part, self.id)?;
        let received = self.post.all_received();
        let values = section_values(
            self.alloc,
            &part,
            self.id,
            &self.pieces,
            received,
            &exchange,
        )?;
        let bytes = decimals(self.alloc, &values)?;
        Ok(bytes)
    }

    /// After the phase of the section at the node's place: adds its numbers to the line. For want of memory nothing changes.
    pub(crate) fn finish_section(&mut self, bytes: &[u8]) -> Result<(), OutOfMemory>
        requires { IsSectionBytes (instr_here self.old) self.old bytes.now }
        ensures ok { OnOk result (self.new ≡ done self.old) }
        ensures err { OnErr result (self.new ≡ self.old) }
    {
        self.print_bytes(bytes)?;
        self.reset();
        Ok(())
    }
}
