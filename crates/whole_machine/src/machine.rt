//! The machine.

ghost use Rattle.std.specs.Prelude.{◌≡◌, All};
ghost use Rattle.slot_values.specs.Controls.{status_of};
ghost use Rattle.node_program.specs.Fits.{FitsRows};
ghost use Rattle.node_program.specs.Programs.{code_of};

use node_program::NodeProgram;
use owner_tables::{Owners, Row};
use slot_values::{Control, Kept, Status};
use std::alloc::Global;
use std::marker::Model;
use std::sync::Arc;

/// A run of a program over whole arrays. Contracts see it as the machine of the definitions, whose code are the texts of the program.
#[derive(Drop)]
pub struct WholeMachine {
    pub(crate) alloc: Global,
    pub(crate) program: Arc<NodeProgram>,
    pub(crate) control: Control,
    pub(crate) substep: usize,
    pub(crate) rows: Vec<Row>,
    pub(crate) owners: Owners,
    pub(crate) kept: Option<Kept>,
    pub(crate) parts: u64,
    pub(crate) joined: i64,
    pub(crate) line: Vec<u8>,
    pub(crate) printed: Vec<u8>,
}

impl Model for WholeMachine {
    ghost use Rattle.array_meaning.specs.Faults.{Fault};
    ghost use Rattle.machine_steps.specs.Machine.{Machine};
    ghost use Rattle.code_meaning.specs.ProgramText.{Text};
    ghost use Rattle.node_program.specs.Codes.{flat_code, flats_code, form_code};
    ghost use Rattle.node_program.specs.NestCodes.{mark_code};
    ghost use Rattle.std.specs.Coded.{codes};
    ghost use Rattle.whole_machine.specs.Views.{machine_of, IsMachine};

    ghost Value = { Machine Text Fault };

    ghost coded = { Prim.hlevel (codes, flat_code, flats_code, form_code, mark_code) };

    ghost view = { machine_of };

    ghost invariant = { IsMachine };
}

impl WholeMachine {
    /// How the run stands.
    pub fn status(&self) -> &Status
        ensures { status_of result.now ≡ self.now.control.status }
    {
        &self.control.status
    }

    /// The place of the next instruction, from 0.
    pub fn place(&self) -> usize
        ensures { result ≡ self.now.control.at }
    {
        self.control.at
    }

    /// The slots: scalars and hidden numbers.
    pub fn slots(&self) -> &[i64]
        ensures { result.now ≡ self.now.control.slots }
    {
        &self.control.slots
    }

    /// How many steps of the instruction at the place are done.
    pub fn substep(&self) -> usize
        ensures { result ≡ self.now.substep }
    {
        self.substep
    }

    /// The elements of all arrays and copies.
    pub fn rows(&self) -> &[Row]
        ensures { result.now ≡ self.now.rows }
    {
        &self.rows
    }

    /// The program. It fits the rows, as they lie now.
    pub fn program(&self) -> &NodeProgram
        ensures code { code_of result.now ≡ self.now.code }
        ensures nodes { All (λ text. text.nodes ≡ result.now.nodes) self.now.code }
        ensures fits { FitsRows result.now self.now.layouts }
    {
        &self.program
    }

    /// The tables of who owns what, as the rows lie now, on the nodes for which the code is.
    pub fn owners(&self) -> &Owners
        ensures layouts { result.now.layouts ≡ self.now.layouts }
        ensures nodes { All (λ text. text.nodes ≡ result.now.nodes) self.now.code }
    {
        &self.owners
    }

    /// What was printed.
    pub fn printed(&self) -> &[u8]
        ensures { result.now ≡ self.now.printed }
    {
        &self.printed
    }
}
