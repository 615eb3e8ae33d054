//! The machine at the beginning of a run.

ghost use Rattle.std.specs.Prelude.{◌≡◌, length, IfOk};
ghost use Rattle.std.specs.Arc.{arc_value};
ghost use Rattle.node_program.specs.Fits.{FitsRows};
ghost use Rattle.node_program.specs.Openings.{opening_machine, start_rows};
ghost use Rattle.node_program.specs.Programs.{code_of};

use crate::machine::WholeMachine;
use hpf_base::OutOfMemory;
use node_program::NodeProgram;
use owner_tables::{Owners, Row};
use slot_values::{Control, Status};
use std::alloc::Global;
use std::sync::Arc;

impl WholeMachine {
    /// The machine before the first instruction of the program: with these slots, and the rows of the owners' tables, all elements of each
    /// with the row's value of `starts`. The program and the tables are shared. The program fits the rows.
    pub fn opening(
        alloc: Global,
        program: &Arc<NodeProgram>,
        owners: &Owners,
        slots: &[i64],
        starts: &[i64],
    ) -> Result<WholeMachine, OutOfMemory>
        requires nodes { (arc_value program.now).nodes ≡ owners.now.nodes }
        requires rows { length starts.now ≡ length owners.now.layouts }
        requires fits { FitsRows (arc_value program.now) owners.now.layouts }
        ensures { IfOk result (λ m. m ≡ opening_machine (code_of (arc_value program.now)) slots.now owners.now.layouts starts.now) }
    {
        Ok(WholeMachine {
            alloc,
            program: Arc::try_clone(program)?,
            control: Control {
                at: 0,
                slots: Vec::from_slice(alloc, slots)?,
                status: Status::Running,
            },
            substep: 0,
            rows: start_rows(alloc, owners, starts)?,
            owners: owners.shared()?,
            kept: None,
            parts: 0,
            joined: 0,
            line: Vec::new(alloc),
            printed: Vec::new(alloc),
        })
    }
}

/// Rows whose elements have one value each.
fn start_rows(alloc: Global, owners: &Owners, starts: &[i64]) -> Result<Vec<Row>, OutOfMemory>
    requires { length starts.now ≡ length owners.now.layouts }
    ensures { IfOk result (λ rows. rows.items ≡ start_rows owners.now.layouts starts.now) }
{
    let mut rows = Vec::new(alloc);
    for row in 0..starts.len() {
        rows.push(Row::of_one(alloc, starts[row], owners.size(row))?)?;
    }
    Ok(rows)
}
