//! What node code does on the machine with whole arrays.
//!
//! Comes in: the instructions (`node_code`), the values, sections, spaces and faults of `array_meaning`, the steps of `machine_steps`, and how
//! copies lie (`aligned_copies`). Goes out, as definitions in `specs/`: what each instruction means, as a function of the slots, and which code is
//! valid. There is no function here.
//!
//! What holds in between, from the bottom up; a definition stands in the file of the name that `node_code` has for the data:
//!
//! - `Flat`: the values of expressions over slots, an index tuple and reads.
//! - `Forms`: by the slots a form is an elemental expression of the meaning, and its subscripts are the meaning's selections, so there is one
//!   evaluation of sections.
//! - `Parallel`: what a parallel statement does at a tuple, by the values of the elements that it reads.
//! - `ForallLimits`: the limits of a FORALL, and assignments of it that meet.
//! - `Anchors`: what copies lie beside, by the positions of a tuple.
//! - `NestStatements`: what a statement of a nest of INDEPENDENT loops does at an iteration.
//! - `NestChecks`: what the check of a nest of INDEPENDENT loops at its entry sees of the slots.
//! - `Instructions`: all instructions. The numbers of arrays and of copies are the rows of the machine.
//! - `ValidCode`: code whose slots, rows, mappings and targets there are.
//! - `FaultNumbers`, `FaultValues`: faults as values of letters, which are read back with their line, kind, tuples and object.
//! - `ProgramText`: an instruction with what it knows of arrays and nodes, so that what it means depends on nothing else.
//!
//! *Proved:* Definitions alone: what each instruction of node code means, as a function of the slots, and which code is
//! valid.
#![tactic(auto)]
