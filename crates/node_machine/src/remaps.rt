//! Instructions that give arrays new mappings.

ghost use Rattle.std.specs.Prelude.{◌≡◌, ◌==◌, ◌<◌, ◌^◌, ◌∷◌, [], IfOk, OnOk, OnErr, length, map, true};
ghost use Rattle.std.specs.List.{list_all};
ghost use Rattle.machine_steps.specs.Instr.{Remap};
ghost use Rattle.machine_steps.specs.Machine.{on, remapped};
ghost use Rattle.machine_steps.specs.Node.{no_values, ready};
ghost use Rattle.machine_steps.specs.Rounds.{rounds_on};
ghost use Rattle.code_meaning.specs.Instructions.{remappings};
ghost use Rattle.node_code.specs.Texts.{new_mapping};
ghost use Rattle.remap_steps.specs.Redistributions.{moved_pieces};
ghost use Rattle.node_program.specs.Fits.{fits_row, shapes_of};
ghost use Rattle.node_program.specs.Programs.{mappings_of};
ghost use Rattle.node_machine.specs.Remaps.{IsAfter, IsRemap, MappingsFit, remappings_of, round_opened};
ghost use Rattle.node_machine.specs.Steps.{begun, done, instr_here};

use crate::node::Node;
use hpf_base::OutOfMemory;
use letters::Body;
use node_code::NewMapping;
use node_program::owners_after;
use owner_tables::{OwnerTable, Owners, Row};
use remap_steps::Redistribution;

/// New mappings of arrays, with the tables of a program's mappings by their numbers.
#[derive(Clone, Copy)]
pub(crate) struct NewMappings<'a> {
    pub(crate) tables: &'a Vec<OwnerTable>,
    pub(crate) new: &'a Vec<NewMapping>,
}

/// How rows lie, and a node's pieces of them.
#[derive(Drop)]
struct NewRows {
    owners: Owners,
    pieces: Vec<Row>,
}

impl Node {
    /// How rows lie after the new mappings at the node's place.
    pub(crate) fn owners_after(&self, new: NewMappings<'_>) -> Result<Owners, OutOfMemory>
        requires is { instr_here self.now ≡ Remap (remappings_of new) (rounds_on self.now.nodes (remappings_of new)) }
        requires fit { MappingsFit self.now.nodes (shapes_of self.now.layouts) new }
        ensures { IfOk result (IsAfter (instr_here self.now) self.now) }
    {
        let after = owners_after(&self.owners, new.tables, new.new)?;
        Ok(after)
    }

    /// The redistribution at the node's place: that of the round before, if it is held.
    fn redistribution(&mut self, after: Owners) -> Result<Redistribution, OutOfMemory>
        requires { IsAfter (instr_here self.old) self.old after }
        ensures is { IfOk result (IsRemap (instr_here self.new) self.new) }
        ensures same { self.new ≡ self.old }
    {
        let held = self.held();
        let moving = Redistribution::held_or_new(self.alloc, held, &self.owners, &after, self.id)?;
        Ok(moving)
    }

    /// The redistribution that is held, which is no longer held then. It takes no memory.
    fn held(&mut self) -> Option<Redistribution>
        ensures { self.new ≡ self.old }
    {
        self.moving.take()
    }

    /// Holds a redistribution for the next round. It takes no memory.
    fn hold(&mut self, moving: Redistribution)
        ensures { self.new ≡ self.old }
    {
        self.moving = Some(moving);
    }

    /// The redistribution at the node's place begins. For want of memory nothing changes.
    pub(crate) fn begin_remap(&mut self, after: Owners) -> Result<(), OutOfMemory>
        requires after { IsAfter (instr_here self.old) self.old after }
        requires in_code { self.old.control.at < 2 ^ 63 }
        ensures ok { OnOk result (self.new ≡ begun self.old) }
        ensures err { OnErr result (self.new ≡ self.old) }
    {
        let moving = self.redistribution(after)?;
        self.begin_moving(moving)
    }

    /// The redistribution at the node's place, which is given, begins. For want of memory nothing changes.
    fn begin_moving(&mut self, moving: Redistribution) -> Result<(), OutOfMemory>
        requires is { IsRemap (instr_here self.old) self.old moving }
        requires in_code { self.old.control.at < 2 ^ 63 }
        ensures ok { OnOk result (self.new ≡ begun self.old) }
        ensures err { OnErr result (self.new ≡ self.old) }
    {
        let received = self.room()?;
        if moving.rounds() > 0 {
            self.first_round(moving, received)
        } else {
            let rows = self.rows_after(&moving, &received)?;
            self.put_rows(rows);
            Ok(())
        }
    }

    /// The redistribution at the node's place goes on after a round. For want of memory nothing changes.
    pub(crate) fn finish_remap(&mut self, after: Owners) -> Result<(), OutOfMemory>
        requires after { IsAfter (instr_here self.old) self.old after }
        requires in_code { self.old.control.at < 2 ^ 63 }
        ensures ok { OnOk result (self.new ≡ done self.old) }
        ensures err { OnErr result (self.new ≡ self.old) }
    {
        let moving = self.redistribution(after)?;
        self.finish_moving(moving)
    }

    /// The redistribution at the node's place, which is given, goes on after a round. For want of memory nothing changes.
    fn finish_moving(&mut self, moving: Redistribution) -> Result<(), OutOfMemory>
        requires is { IsRemap (instr_here self.old) self.old moving }
        requires in_code { self.old.control.at < 2 ^ 63 }
        ensures ok { OnOk result (self.new ≡ done self.old) }
        ensures err { OnErr result (self.new ≡ self.old) }
    {
        let round = self.next_round()?;
        if (round as usize) < moving.rounds() {
            self.later_round(moving, round)
        } else {
            let rows = self.rows_after(&moving, self.post.all_received())?;
            self.put_rows(rows);
            Ok(())
        }
    }

    /// Opens the first round, with room for what is received. For want of memory nothing changes.
    fn first_round(
        &mut self,
        moving: Redistribution,
        received: Vec<Body>,
    ) -> Result<(), OutOfMemory>
        requires nodes { moving.nodes ≡ self.old.nodes }
        requires room { received.items ≡ no_values self.old.nodes }
        ensures ok { OnOk result (self.new ≡ round_opened moving (record self.old { received = no_values self.old.nodes; round = 0 })) }
        ensures err { OnErr result (self.new ≡ self.old) }
    {
        let outbox = moving.outbox(self.alloc, 0, &self.pieces)?;
        let inbox = moving.inbox(self.alloc, 0)?;
        self.to_round(0);
        self.open(outbox, inbox, received);
        self.hold(moving);
        Ok(())
    }

    /// Opens a later round: what was received so far stays. For want of memory nothing changes.
    fn later_round(&mut self, moving: Redistribution, round: u32) -> Result<(), OutOfMemory>
        requires nodes { moving.nodes ≡ self.old.nodes }
        ensures ok { OnOk result (self.new ≡ round_opened moving (record self.old { round = round })) }
        ensures err { OnErr result (self.new ≡ self.old) }
    {
        let outbox = moving.outbox(self.alloc, round as usize, &self.pieces)?;
        let inbox = moving.inbox(self.alloc, round as usize)?;
        self.to_round(round);
        self.reopen(outbox, inbox);
        self.hold(moving);
        Ok(())
    }

    /// The number of the round. It takes no memory.
    fn to_round(&mut self, round: u32)
        ensures { self.new ≡ record self.old { round = round } }
    {
        self.round = round;
    }

    /// The rows after the last round, by what was received.
    fn rows_after(&self, moving: &Redistribution, received: &[Body]) -> Result<NewRows, OutOfMemory>
        requires { IsRemap (instr_here self.now) self.now moving.now }
        ensures layouts { IfOk result (λ rows. rows.owners.layouts ≡ moving.now.new) }
        ensures nodes { IfOk result (λ rows. rows.owners.nodes ≡ self.now.nodes) }
        ensures pieces { IfOk result (λ rows. rows.pieces.items ≡ moved_pieces moving.now self.now.pieces received.now) }
        ensures many { IfOk result (λ rows. length rows.pieces.items ≡ length rows.owners.layouts) }
        ensures shapes { IfOk result (λ rows. shapes_of rows.owners.layouts ≡ shapes_of self.now.layouts) }
    {
        let pieces = moving.moved_pieces(self.alloc, &self.pieces, received)?;
        let owners = moving.after().shared()?;
        Ok(NewRows { owners, pieces })
    }

    /// Puts rows in the place of the others, and goes on. It takes no memory.
    fn put_rows(&mut self, rows: NewRows)
        requires in_code { self.old.control.at < 2 ^ 63 }
        requires nodes { rows.owners.nodes ≡ self.old.nodes }
        requires many { length rows.pieces.items ≡ length rows.owners.layouts }
        requires shapes { shapes_of rows.owners.layouts ≡ shapes_of self.old.layouts }
        ensures { self.new ≡ ready self.old.nodes (record self.old {
          control = on self.old.control;
          substep = 0;
          layouts = rows.owners.layouts;
          pieces = rows.pieces.items;
        }) }
    {
        self.owners = rows.owners;
        self.pieces = rows.pieces;
        self.go_on();
        self.reset();
    }
}
