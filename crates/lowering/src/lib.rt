//! The node code of a program does what the program means.
//!
//! Comes in: programs whose names are resolved, in `array_meaning`'s definitions, their code, in `program_code`'s, and what instructions do on the
//! machine with whole arrays, in `code_meaning`'s. Goes out: laws of expressions, statements and programs, five of them the contracts of functions
//! with empty bodies. There is no function here that runs, and no node.
//!
//! What holds in between, from the bottom up:
//!
//! - An expression's code leaves an expression over the slots that has its value until one of these slots is set again. What may fault
//!   is evaluated by the code, in order, so what is left can't; what is evaluated once in an array expression is, and of the rest a form
//!   over the slots is left.
//! - A statement's code comes to a place with the slots and rows of the state that the statement leaves: after itself, or where EXIT or
//!   CYCLE go; or the run ends, finished or with the statement's fault.
//! - Each parallel statement that may fault has a Verdict of its own. The keys of faults ascend with the tuples, so its fault is the first one.
//!   Those of a shift, a transpose or a prefix sum can't, and no Verdict stands after them.
//! - Targets are places of the whole code. Slots from `b` on are free for a statement; a DO keeps four from its body.
//! - Rows are the declared names, by their places, and then the copies that the code names: `block_copies` of them.
//!
//! *Proved:* The machine with whole arrays ends over the node code of a well-formed program as the program does, faults
//! with line, kind and tuple included: `programs_lowered`, `outcomes_lowered`. After the declared names there is room
//! for as many copies as the code names, or more. On its way it passes just the parts and redistributions of the
//! program's trail, in order: `trails_lowered`. The code is code that nodes can run: `code_is_valid`. It is valid: each
//! slot, place, array, copy and mapping that it names is there, but for the names in the nest of a check, of which
//! validity says nothing, each array has one subscript for each dimension, 7 at most, and the last instruction is Halt
//! or Jump: `programs_have_valid_code`.
#![tactic(auto)]

mod promises;

pub use promises::{
    code_is_valid, outcomes_lowered, programs_have_valid_code, programs_lowered, trails_lowered,
};
