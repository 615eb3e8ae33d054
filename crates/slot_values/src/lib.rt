//! Expressions over slots in code, and the instructions that touch no array.
//!
//! Comes in: the slots of a node, and an expression, a form or an instruction of node code. Goes out: the value of an expression or its
//! fault, the sections and the elemental expressions that stand after forms, the element that subscripts name, what copies lie beside, and
//! the place, the slots and the status after an instruction.
//!
//! What holds in between: an evaluation changes nothing; want of memory leaves the control as it was, so the instruction can be run
//! again; tests either go on to the next instruction or end the run with a fault at their line, and change nothing else. The limits of a
//! FORALL and the entry of a nest are those of the sequential run, asked of a state that has the slots as its scalars.
//!
//! *Proved:* The value of an expression over slots, and what each instruction without arrays does to place and slots,
//! faults included: `flat_value`, `elemental_at`, `run_local`. A fault goes as numbers and comes back with its line,
//! its kind, and its tuple or its two iterations and their object: `fault_numbers`, `fault_of_numbers`. What copies lie
//! beside has the subscripts of what is assigned, by the positions of a tuple: `anchor_in`.
#![tactic(auto)]

mod anchors;
mod control;
mod element_spots;
mod expressions;
mod forall_tests;
mod kept;
mod local_instructions;
mod nest_checks;
mod numbered_faults;
mod scalar_instructions;
mod section_bounds;
mod sections;
mod slot_terms;
mod space_tests;
mod spaces;

pub use anchors::anchor_in;
pub use control::{Control, Status, halt, jump, jump_if_zero};
pub use element_spots::{element_place, element_place_of_one, element_place_of_two, element_spot};
pub use expressions::{flat_or_zero, flat_value, slot};
pub use hpf_base::OutOfMemory;
pub use kept::{Kept, earlier};
pub use local_instructions::{is_local, run_local};
pub use numbered_faults::{fault_numbers, fault_of_numbers};
pub use scalar_instructions::{set, trips};
pub use section_bounds::inside;
pub use sections::{elemental_at, selections_at};
pub use space_tests::limits;
pub use spaces::{copy_extents, space_count};
pub use storage::Spot;
pub use term_values::Fault;
