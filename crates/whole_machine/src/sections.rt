//! Sections that are printed.

ghost use Rattle.std.specs.Prelude.{◌≡◌, ◌++◌, IfOk, OnOk};
ghost use Rattle.array_meaning.specs.Execution.{decimals};
ghost use Rattle.storage.specs.Storage.{read};
ghost use Rattle.machine_steps.specs.Machine.{element_values, item_bytes, value_or_none};
ghost use Rattle.machine_steps.specs.Message.{first_read};
ghost use Rattle.node_code.specs.Instructions.{PrintSection};
ghost use Rattle.code_meaning.specs.Instructions.{item_of};
ghost use Rattle.node_code.specs.Texts.{subs};
ghost use Rattle.tuple_values.specs.Spots.{reads_of};
ghost use Rattle.tuple_values.specs.Statements.{tuple_count, tuple_reads};
ghost use Rattle.tuple_values.specs.Views.{statement as statement_of};

use crate::machine::WholeMachine;
use crate::prints::number_bytes;
use crate::rows::read;
use expression_rules::Dims;
use hpf_base::OutOfMemory;
use node_code::Sub;
use owner_tables::{Row, Spot};
use std::alloc::Global;
use tuple_values::ParallelStatement;

impl WholeMachine {
    /// The numbers of a section in decimal, each after a blank.
    pub(crate) fn section_bytes(
        &self,
        shapes: &[Dims],
        array: usize,
        section: &[Sub],
    ) -> Result<Vec<u8>, OutOfMemory>
        ensures { IfOk result (λ b. b.items ≡ item_bytes (item_of shapes.now (PrintSection array (subs section.now))) self.now.control.slots (read self.now.rows)) }
    {
        let w = ParallelStatement::of_section(self.alloc, shapes, self.slots(), array, section)?;
        let values = section_values(self.alloc, &w, self.rows())?;
        let bytes = decimals(self.alloc, &values)?;
        Ok(bytes)
    }
}

/// The values of the elements that the tuples of a statement read, of each tuple the first, in order. What is no element is left out.
fn section_values(
    alloc: Global,
    statement: &ParallelStatement<'_>,
    rows: &[Row],
) -> Result<Vec<i64>, OutOfMemory>
    ensures { IfOk result (λ vs. vs.items ≡ element_values (read rows.now) (λ t. first_read (tuple_reads (statement_of statement.now) t)) (tuple_count (statement_of statement.now))) }
{
    let mut values = Vec::new(alloc);
    let mut reads = Vec::new(alloc);
    for tuple in 0..statement.count() {
        reads.clear();
        statement.read(tuple, &mut reads)?;
        push_first(rows, reads.as_slice(), &mut values)?;
    }
    Ok(values)
}

/// Puts the value of the first of these elements after the others, where there is one.
fn push_first(
    rows: &[Row],
    reads: &[Option<Spot>],
    values: &mut Vec<i64>,
) -> Result<(), OutOfMemory>
    ensures { OnOk result (values.new.items ≡ values.old.items ++ value_or_none (read rows.now) (first_read (reads_of reads.now))) }
{
    match reads {
        [Some(spot), ..] => {
            values.push(read(rows, *spot))?;
            Ok(())
        }
        _ => Ok(()),
    }
}

/// Numbers in decimal, each after a blank.
fn decimals(alloc: Global, numbers: &[i64]) -> Result<Vec<u8>, OutOfMemory>
    ensures { IfOk result (λ b. b.items ≡ decimals numbers.now) }
{
    let mut bytes = Vec::new(alloc);
    for number in numbers {
        let text = number_bytes(alloc, *number)?;
        bytes.extend_from_slice(&text)?;
    }
    Ok(bytes)
}
