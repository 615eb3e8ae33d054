//! The statement of a case in node code.

use crate::arrays::Arrays;
use crate::words::line_of;
use case_code::read_code;
use case_mappings::numbers;
use expression_rules::Dims;
use node_code::Instruction;
use statement_messages::message;
use std::alloc::Global;
use std::collections::VecDeque;
use storage::Spot;
use tuple_values::ParallelStatement;

/// The elements of the message from one node to another for the parallel statement that is the first instruction of a case; None where there is no such
/// instruction, no such node, or no memory.
pub fn coded_message(
    alloc: Global,
    case: &[String],
    arrays: &Arrays,
    from: u32,
    to: u32,
) -> Option<Vec<Spot>> {
    let nodes = arrays.owners.nodes();
    if from >= nodes || to >= nodes {
        return None;
    }
    let slots = numbers(alloc, line_of(case, "slots")).ok()?;
    let mut moves = VecDeque::new(alloc);
    let code = read_code(alloc, case, &mut moves)?;
    let statement = parallel_statement(alloc, &arrays.shapes, &slots, code.first()?)?;
    message(alloc, &arrays.owners, &statement, from, to).ok()
}

/// What an assignment to a section, or of a FORALL, does at each tuple with these slots.
fn parallel_statement<'a>(
    alloc: Global,
    shapes: &'a [Dims],
    slots: &'a [i64],
    instruction: &'a Instruction,
) -> Option<ParallelStatement<'a>> {
    match instruction {
        Instruction::Par(p) => ParallelStatement::of_assignment(alloc, shapes, slots, p).ok(),
        Instruction::ParForall(p) => {
            ParallelStatement::of_forall_assignment(alloc, shapes, slots, p).ok()
        }
        _ => None,
    }
}
