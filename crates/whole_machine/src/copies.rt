//! Instructions that make a copy.

ghost use Rattle.std.specs.Prelude.{◌≡◌, ◌<◌, ◌≤◌, ◌^◌, All, IfOk, OnOk, OnErr, length, option_copied, option_map, replicate, slice_set};
ghost use Rattle.hpf_base.specs.declared.limits.TheConstants.{MAX_ELEMENTS, MAX_RANK};
ghost use Rattle.hpf_base.specs.ElementOrder.{product};
ghost use Rattle.machine_steps.specs.CopyLayout.{copy_extents};
ghost use Rattle.machine_steps.specs.Layout.{size_of};
ghost use Rattle.machine_steps.specs.Machine.{instr_at, on, step_by};
ghost use Rattle.code_meaning.specs.Beside.{aligned_layout_of};
ghost use Rattle.code_meaning.specs.NestStatements.{copies_extents};
ghost use Rattle.code_meaning.specs.ProgramText.{text_meaning};
ghost use Rattle.node_code.specs.Texts.{evaluation, flat, flat_anchor, subs};
ghost use Rattle.whole_machine.specs.Copies.{MakesCopy, copying, copying_for_nest};
ghost use Rattle.whole_machine.specs.Places.{IsFor};

use crate::machine::WholeMachine;
use hpf_base::OutOfMemory;
use node_code::{Evaluation, Flat, FlatAnchor, Sub};
use owner_tables::{Anchor, Row};
use slot_values::{anchor_in, copy_extents, flat_or_zero, selections_at};
use term_values::extents;

impl WholeMachine {
    /// Makes a copy of the extents of an array expression, with 0 everywhere, on the nodes for which the code is. For want of memory
    /// nothing changes.
    pub(crate) fn make_copy(
        &mut self,
        nodes: u32,
        copy: usize,
        p: &Evaluation,
    ) -> Result<(), OutOfMemory>
        requires nodes { IsFor self.old.code self.old.control.at nodes }
        requires makes { MakesCopy (instr_at text_meaning self.old.code self.old.control.at) copy }
        requires rank { length (evaluation p.now).over ≤ MAX_RANK }
        requires in_code { self.old.control.at < 2 ^ 63 }
        ensures ok { OnOk result (self.new ≡ step_by (copying nodes copy (evaluation p.now)) self.old) }
        ensures err { OnErr result (self.new ≡ self.old) }
    {
        let extents = self.made_extents(&p.over)?;
        let anchor = anchor_in(self.alloc, &self.control.slots, &p.over, &p.beside)?;
        self.put_copy(nodes, copy, anchor.as_ref(), &extents, &0)
    }

    /// Makes copies of a nest, which have the value of an expression over the slots, on the nodes for which the code is. For want of memory
    /// nothing changes.
    pub(crate) fn make_copies(
        &mut self,
        nodes: u32,
        copy: usize,
        over: &[Sub],
        start: &Flat,
        beside: &Option<FlatAnchor>,
    ) -> Result<(), OutOfMemory>
        requires nodes { IsFor self.old.code self.old.control.at nodes }
        requires makes { MakesCopy (instr_at text_meaning self.old.code self.old.control.at) copy }
        requires rank { length (subs over.now) ≤ MAX_RANK }
        requires in_code { self.old.control.at < 2 ^ 63 }
        ensures ok { OnOk result (self.new ≡ step_by (copying_for_nest nodes copy (subs over.now) (flat start.now) (option_map flat_anchor beside.now)) self.old) }
        ensures err { OnErr result (self.new ≡ self.old) }
    {
        let value = flat_or_zero(&self.control.slots, &[], start)?;
        let extents = self.made_extents(over)?;
        let anchor = anchor_in(self.alloc, &self.control.slots, over, beside)?;
        self.put_copy(nodes, copy, anchor.as_ref(), &extents, &value)
    }

    /// The extents of a copy that has an element for each tuple of a space.
    fn made_extents(&self, over: &[Sub]) -> Result<Vec<u32>, OutOfMemory>
        requires { length (subs over.now) ≤ MAX_RANK }
        ensures value { IfOk result (λ v. v.items ≡ copy_extents (copies_extents (subs over.now) self.now.control.slots)) }
        ensures rank { IfOk result (λ v. length v.items ≤ MAX_RANK) }
        ensures each { IfOk result (λ v. All (λ extent. extent ≤ MAX_ELEMENTS) v.items) }
        ensures size { IfOk result (λ v. product v.items ≤ MAX_ELEMENTS) }
    {
        let over = selections_at(self.alloc, &self.control.slots, &[], over)?;
        let space = extents(self.alloc, &over)?;
        let made = copy_extents(self.alloc, &space)?;
        Ok(made)
    }

    /// Puts the copy that the instruction at the place makes, which has these extents and lies by this anchor, with one value everywhere, into
    /// its row. For want of memory nothing changes.
    fn put_copy(
        &mut self,
        nodes: u32,
        copy: usize,
        anchor: Option<&Anchor>,
        extents: &[u32],
        value: &i64,
    ) -> Result<(), OutOfMemory>
        requires nodes { IsFor self.old.code self.old.control.at nodes }
        requires makes { MakesCopy (instr_at text_meaning self.old.code self.old.control.at) copy }
        requires in_code { self.old.control.at < 2 ^ 63 }
        requires rank { length extents.now ≤ MAX_RANK }
        requires each { All (λ extent. extent ≤ MAX_ELEMENTS) extents.now }
        requires size { product extents.now ≤ MAX_ELEMENTS }
        ensures ok { OnOk result (let layout = aligned_layout_of nodes self.old.layouts (option_copied anchor.entry) extents.now in self.new ≡ record self.old {
          control = on self.old.control;
          substep = 0;
          rows = slice_set self.old.rows copy (replicate (size_of layout) value.now);
          layouts = slice_set self.old.layouts copy layout;
        }) }
        ensures err { OnErr result (self.new ≡ self.old) }
    {
        let table = self.owners.copy_table(anchor, extents)?;
        let values = Row::of_one(self.alloc, *value, table.size())?;
        self.owners.set(copy, table);
        set_row(&mut self.rows, copy, values);
        self.go_on();
        Ok(())
    }
}

/// Puts a row in the place of another, if there is such a row.
fn set_row(rows: &mut Vec<Row>, row: usize, values: Row)
    ensures { rows.new.items ≡ slice_set rows.old.items row values }
{
    if row < rows.len() {
        rows[row] = values;
    }
}
