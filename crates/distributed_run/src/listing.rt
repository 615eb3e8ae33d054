//! The list of a program.

ghost use Rattle.std.specs.Prelude.{IfOk};
ghost use Rattle.syntax_tree.specs.MainProgram.{main_program};
ghost use Rattle.distributed_run.specs.Listed.{IsMessageList};

use crate::machine_run::{EndingProgram, run_machine};
use crate::outcome::end_of;
use accepted_program::AcceptedProgram;
use compiled_program::{accepted_moves_are_dealt, compile_program, moves_by_number};
use hpf_base::OutOfMemory;
use messages_lowered::accepted_texts_lowered;
use name_table::all_are_known;
use serial_run::End;
use std::alloc::Global;
use whole_machine::WholeMachine;

/// The messages of a program.
#[derive(Drop)]
pub struct MessageList {
    /// A line for each message, in the order in which they are sent: those of a part by source and then by target, those of a redistribution
    /// by round and then by source.
    pub text: Vec<u8>,
    /// How the program ends.
    pub end: End,
}

/// Lists the messages that the nodes of the grid, on which a program is accepted, send for its array statements and reductions, for its nests of
/// INDEPENDENT loops (HPF 2.0, 5.1) and for its REDISTRIBUTEs (HPF 2.0, 8.3). At the first fault the list ends with what was sent before it. An `Err` is want of memory.
pub fn list_messages(
    alloc: Global,
    accepted: &AcceptedProgram<'_>,
) -> Result<MessageList, OutOfMemory>
    ensures { IfOk result (IsMessageList accepted.now.grid.now (main_program accepted.now.program.tree)) }
{
    accepted_texts_lowered();
    all_are_known();
    accepted_moves_are_dealt();
    moves_by_number();
    let compiled = compile_program(alloc, accepted)?;
    let mut machine = WholeMachine::opening(
        alloc,
        &compiled.text,
        &compiled.owners,
        &compiled.slots,
        &compiled.values,
    )?;
    let mut text = Vec::new(alloc);
    run_machine(alloc, &EndingProgram { accepted }, &mut machine, &mut text)?;
    let end = end_of(alloc, machine.status())?;
    Ok(MessageList { text, end })
}
