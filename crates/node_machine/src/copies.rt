//! Instructions that make a copy.

ghost use Rattle.std.specs.Prelude.{◌≡◌, ◌<◌, ◌≤◌, ◌^◌, All, IfOk, OnOk, OnErr, length, option_map, replicate, slice_set};
ghost use Rattle.machine_steps.specs.Layout.{owned_by, piece, size_of};
ghost use Rattle.machine_steps.specs.Machine.{on};
ghost use Rattle.code_meaning.specs.Beside.{aligned_layout_of};
ghost use Rattle.code_meaning.specs.NestStatements.{copies_extents};
ghost use Rattle.node_code.specs.Texts.{evaluation, flat, flat_anchor, subs};
ghost use Rattle.hpf_base.specs.declared.limits.TheConstants.{MAX_ELEMENTS, MAX_RANK};
ghost use Rattle.hpf_base.specs.ElementOrder.{product};
ghost use Rattle.machine_steps.specs.CopyLayout.{copy_extents};
ghost use Rattle.node_machine.specs.Copies.{IsMade, copying, copying_for_nest};
ghost use Rattle.node_machine.specs.Steps.{instr_here};

use crate::node::Node;
use hpf_base::OutOfMemory;
use node_code::{Evaluation, Flat, FlatAnchor, Sub};
use owner_tables::{Anchor, OwnerTable, Row};
use slot_values::{anchor_in, copy_extents, flat_or_zero, selections_at};
use std::alloc::Global;
use term_values::extents;

/// A copy of the values of an array expression: its row, and the expression.
#[derive(Clone, Copy)]
pub(crate) struct Copying<'a> {
    pub(crate) copy: usize,
    pub(crate) evaluation: &'a Evaluation,
}

/// Copies of a nest: their row, the indices of the nest, the value that all have at the start, and what they lie beside.
#[derive(Clone, Copy)]
pub(crate) struct NestCopies<'a> {
    pub(crate) copy: usize,
    pub(crate) over: &'a Vec<Sub>,
    pub(crate) start: &'a Flat,
    pub(crate) beside: &'a Option<FlatAnchor>,
}

/// A copy that is made: its row, its extents, what it lies beside, and the value that it has everywhere.
#[derive(Drop)]
pub(crate) struct MadeCopy {
    pub(crate) copy: usize,
    pub(crate) extents: Vec<u32>,
    pub(crate) anchor: Option<Anchor>,
    pub(crate) start: i64,
}

impl Node {
    /// The copy that the instruction at the node's place makes.
    pub(crate) fn made(&self, p: Copying<'_>) -> Result<MadeCopy, OutOfMemory>
        requires is { instr_here self.now ≡ copying self.now.nodes p.copy (evaluation p.evaluation.now) }
        requires rank { length (evaluation p.evaluation.now).over ≤ MAX_RANK }
        ensures { IfOk result (λ m. IsMade (instr_here self.now) self.now.nodes self.now.control.slots m) }
    {
        let e = p.evaluation;
        let extents = self.made_extents(&e.over)?;
        let anchor = anchor_in(self.alloc, &self.control.slots, &e.over, &e.beside)?;
        Ok(MadeCopy {
            copy: p.copy,
            extents,
            anchor,
            start: 0,
        })
    }

    /// The copies of a nest that the instruction at the node's place makes.
    pub(crate) fn made_for_nest(&self, p: NestCopies<'_>) -> Result<MadeCopy, OutOfMemory>
        requires is { instr_here self.now ≡ copying_for_nest self.now.nodes p.copy (subs p.over.now.items) (flat p.start.now) (option_map flat_anchor p.beside.now) }
        requires rank { length (subs p.over.now.items) ≤ MAX_RANK }
        ensures { IfOk result (λ m. IsMade (instr_here self.now) self.now.nodes self.now.control.slots m) }
    {
        let start = flat_or_zero(&self.control.slots, &[], p.start)?;
        let extents = self.made_extents(p.over)?;
        let anchor = anchor_in(self.alloc, &self.control.slots, p.over, p.beside)?;
        Ok(MadeCopy {
            copy: p.copy,
            extents,
            anchor,
            start,
        })
    }

    /// The extents of a copy that has an element for each tuple of a space.
    fn made_extents(&self, over: &[Sub]) -> Result<Vec<u32>, OutOfMemory>
        requires { length (subs over.now) ≤ MAX_RANK }
        ensures value { IfOk result (λ v. v.items ≡ copy_extents (copies_extents (subs over.now) self.now.control.slots)) }
        ensures rank { IfOk result (λ v. length v.items ≤ MAX_RANK) }
        ensures each { IfOk result (λ v. All (λ extent. extent ≤ MAX_ELEMENTS) v.items) }
        ensures size { IfOk result (λ v. product v.items ≤ MAX_ELEMENTS) }
    {
        let over = selections_at(self.alloc, &self.control.slots, &[], over)?;
        let space = extents(self.alloc, &over)?;
        let made = copy_extents(self.alloc, &space)?;
        Ok(made)
    }

    /// Puts the copy that the instruction at the node's place makes, with one value everywhere, into its row. For want of memory nothing
    /// changes.
    pub(crate) fn put_copy(&mut self, made: MadeCopy) -> Result<(), OutOfMemory>
        requires in_code { self.old.control.at < 2 ^ 63 }
        requires made { IsMade (instr_here self.old) self.old.nodes self.old.control.slots made }
        ensures ok { OnOk result (let layout = aligned_layout_of self.old.nodes self.old.layouts made.anchor made.extents.items in self.new ≡ record self.old {
          control = on self.old.control;
          substep = 0;
          pieces = slice_set self.old.pieces made.copy (piece (owned_by layout) self.old.id (replicate (size_of layout) made.start));
          layouts = slice_set self.old.layouts made.copy layout;
        }) }
        ensures err { OnErr result (self.new ≡ self.old) }
    {
        let table = self.owners.copy_table(made.anchor.as_ref(), &made.extents)?;
        let values = piece_of_one(self.alloc, &table, self.id, &made.start)?;
        self.owners.set(made.copy, table);
        set_piece(&mut self.pieces, made.copy, values);
        self.go_on();
        Ok(())
    }
}

/// The node's piece of a row that has one value everywhere.
fn piece_of_one(alloc: Global, table: &OwnerTable, id: u32, value: &i64) -> Result<Row, OutOfMemory>
    requires { id < table.now.nodes }
    ensures { IfOk result (λ row. row ≡ piece (owned_by table.now.layout) id (replicate (size_of table.now.layout) value.now)) }
{
    let row = Row::of_one(alloc, *value, table.owned(id))?;
    Ok(row)
}

/// Puts a piece in the place of another, if there is such a row.
fn set_piece(pieces: &mut Vec<Row>, row: usize, piece: Row)
    ensures rows { pieces.new.items ≡ slice_set pieces.old.items row piece }
    ensures count { length pieces.new.items ≡ length pieces.old.items }
{
    if row < pieces.len() {
        pieces[row] = piece;
    }
}
