//! A node at the beginning of a run.

ghost use Rattle.std.specs.Prelude.{◌≡◌, ◌<◌, ◌≤◌, length, IfOk};
ghost use Rattle.std.specs.Arc.{arc_value};
ghost use Rattle.hpf_base.specs.declared.limits.TheConstants.{MAX_NODES};
ghost use Rattle.machine_steps.specs.Layout.{pieces};
ghost use Rattle.slot_values.specs.Controls.{status_of};
ghost use Rattle.node_program.specs.Fits.{FitsRows};
ghost use Rattle.node_machine.specs.Openings.{opening_node};
ghost use Rattle.node_program.specs.Openings.{start_rows};
ghost use Rattle.node_program.specs.Programs.{code_of};

use crate::node::Node;
use crate::post::Post;
use crate::stage::Stage;
use hpf_base::OutOfMemory;
use node_program::NodeProgram;
use owner_tables::{Owners, Row};
use part_steps::KeptExchanges;
use slot_values::{Control, Status};
use std::alloc::Global;
use std::sync::Arc;

impl Node {
    /// The node with this number, from 0, before the first instruction of the program: with these slots, and of each row of the owners' tables
    /// its elements, all of which have the row's value of `starts`. The program and the tables are shared. The program fits the rows.
    pub fn opening(
        alloc: Global,
        program: &Arc<NodeProgram>,
        id: u32,
        owners: &Owners,
        slots: &[i64],
        starts: &[i64],
    ) -> Result<Node, OutOfMemory>
        requires one { id < owners.now.nodes }
        requires nodes { (arc_value program.now).nodes ≡ owners.now.nodes }
        requires rows { length starts.now ≡ length owners.now.layouts }
        requires fits { FitsRows (arc_value program.now) owners.now.layouts }
        ensures { IfOk result (λ n. n ≡ opening_node owners.now.nodes (code_of (arc_value program.now)) slots.now owners.now.layouts starts.now id) }
    {
        let nodes = owners.nodes();
        Ok(Node {
            alloc,
            program: Arc::try_clone(program)?,
            id,
            control: Control {
                at: 0,
                slots: Vec::from_slice(alloc, slots)?,
                status: Status::Running,
            },
            substep: 0,
            owners: owners.shared()?,
            pieces: first_pieces(alloc, owners, id, starts)?,
            kept: None,
            parts: 0,
            joined: None,
            line: Vec::new(alloc),
            printed: Vec::new(alloc),
            phase: 1,
            stage: Stage::Ready,
            post: Post::first(alloc, nodes)?,
            round: 0,
            folded: Vec::new(alloc),
            moving: None,
            exchanges: KeptExchanges::new(alloc),
        })
    }

    /// How its run stands.
    pub fn status(&self) -> &Status
        ensures { status_of result.now ≡ self.now.control.status }
    {
        &self.control.status
    }

    /// The tables of who owns what, as its rows lie now.
    pub fn owners(&self) -> &Owners
        ensures layouts { result.now.layouts ≡ self.now.layouts }
        ensures nodes { result.now.nodes ≡ self.now.nodes }
    {
        &self.owners
    }

    /// What it has printed: node 0 has the bytes of the run.
    pub fn printed(&self) -> &[u8]
        ensures { result.now ≡ self.now.printed }
    {
        &self.printed
    }

    /// How its run stands, and what it has printed. It takes no memory.
    pub fn into_end(self) -> (Status, Vec<u8>)
        ensures status { status_of result.0 ≡ self.control.status }
        ensures printed { result.1.items ≡ self.printed }
    {
        let Node {
            control,
            printed,
            ..
        } = self;
        (control.status, printed)
    }
}

/// The node's pieces of all rows, where the elements of each row have one value.
fn first_pieces(
    alloc: Global,
    owners: &Owners,
    id: u32,
    starts: &[i64],
) -> Result<Vec<Row>, OutOfMemory>
    requires one { id < owners.now.nodes }
    requires rows { length starts.now ≡ length owners.now.layouts }
    ensures pieces { IfOk result (λ rows. rows.items ≡ pieces owners.now.layouts id (start_rows owners.now.layouts starts.now)) }
    ensures count { IfOk result (λ rows. length rows.items ≡ length owners.now.layouts) }
{
    let mut rows = Vec::new(alloc);
    for row in 0..starts.len() {
        rows.push(Row::of_one(alloc, starts[row], owners.owned(id, row))?)?;
    }
    Ok(rows)
}
