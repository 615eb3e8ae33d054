//! The lines of an instruction.

ghost use Rattle.std.specs.Prelude.{◌≡◌, ◌==◌, ◌≤◌, ◌++◌, [], ℕ, All, IfOk, List, None, OnOk, length, map, nat_le, option_copied, option_map, take, true};
ghost use Rattle.std.specs.List.{list_all};
ghost use Rattle.hpf_base.specs.declared.limits.TheConstants.{MAX_ELEMENTS, MAX_RANK};
ghost use Rattle.hpf_base.specs.ElementOrder.{product};
ghost use Rattle.array_meaning.specs.Sections.{extents};
ghost use Rattle.machine_steps.specs.CopyLayout.{copy_extents};
ghost use Rattle.machine_steps.specs.Instr.{Remapping};
ghost use Rattle.machine_steps.specs.Machine.{remapped};
ghost use Rattle.machine_steps.specs.Message.{par_part, reduce_part};
ghost use Rattle.message_text.specs.MessageText.{part_lines, redistribution_lines};
ghost use Rattle.message_text.specs.InstructionLines.{instruction_lines, nest_lines};
ghost use Rattle.message_text.specs.Parts.{with_copied};
ghost use Rattle.code_meaning.specs.Forms.{selections_in};
ghost use Rattle.code_meaning.specs.Instructions.{remappings};
ghost use Rattle.code_meaning.specs.NestStatements.{nest_spot, nest_tuples};
ghost use Rattle.code_meaning.specs.Parallel.{assigned_spot, assignment_tuples, copy_spot, evaluation_tuples, forall_mask_tuples, forall_spot, forall_tuples, reduction_tuples};
ghost use Rattle.node_code.specs.Texts.{assignment, evaluation, flat_anchor, instruction, nest_statement, new_mapping, subs};
ghost use Rattle.node_program.specs.Fits.{fits_row, fits_rows, shapes_of};
ghost use Rattle.node_program.specs.Programs.{mappings_of};
ghost use Rattle.message_lines.specs.Before.{copy_layouts, layouts_beside, names_layouts, nest_layouts, setting_before};

use crate::before::Before;
use crate::part_lines::add_part;
use crate::redistributions::add_redistribution;
use crate::rows::{Rows, names_rows, rows_of_nest, rows_with_copy};
use hpf_base::OutOfMemory;
use name_table::Names;
use node_code::{
    Assignment, Evaluation, FlatAnchor, Instruction, NestRole, NestStatement, NewMapping, Sub,
};
use node_program::{NodeProgram, owners_after};
use op_tables::Reduction;
use owner_tables::{Anchor, Owners};
use part_steps::Who;
use slot_values::{anchor_in, copy_extents, selections_at};
use std::alloc::Global;
use term_values::extents;
use tuple_values::ParallelStatement;

/// Adds the lines of the messages that nodes send for an instruction, those of a part by source and then by target, those of a redistribution by
/// round and then by source (HPF 2.0, 8.3). There are none where the instruction is no part of an array statement, no reduction and no
/// redistribution. The declared names are the first of the owners' rows; `owners` and `slots` are those before the instruction, which fits the rows.
/// An `Err` is want of memory, and then the text may have some of the lines.
pub fn push_lines(
    alloc: Global,
    program: &NodeProgram,
    names: &Names,
    owners: &Owners,
    i: &Instruction,
    slots: &[i64],
    text: &mut Vec<u8>,
) -> Result<(), OutOfMemory>
    requires nodes { program.now.nodes ≡ owners.now.nodes }
    requires tables { list_all (λ t. t.nodes == program.now.nodes) program.now.tables.items ≡ true }
    requires fits { fits_rows (length program.now.shapes.items) program.now.tables.items (shapes_of owners.now.layouts) (instruction i.now) ≡ true }
    ensures { (moves : ℕ → List Remapping) → OnOk result (text.new.items ≡ text.old.items ++ instruction_lines (mappings_of program.now.tables.items)
        (record { nodes = program.now.nodes; names = map (λ e. e.name) names.now; shapes = program.now.shapes.items; moves = moves; copies = []; copied = [] })
        (take (length names.now) owners.now.layouts) (instruction i.now) slots.now) }
{
    let before = Before {
        program,
        names,
        owners,
        slots,
    };
    before.add(alloc, i, text)
}

impl<'a> Before<'a> {
    /// Adds the lines of an instruction.
    fn add(&self, alloc: Global, i: &Instruction, text: &mut Vec<u8>) -> Result<(), OutOfMemory>
        requires { fits_rows (length self.now.program.now.shapes.items) self.now.program.now.tables.items (shapes_of self.now.owners.now.layouts) (instruction i.now) ≡ true }
        ensures { OnOk result (text.new.items ≡ text.old.items ++ instruction_lines (mappings_of self.now.program.now.tables.items)
            (setting_before self.now) (names_layouts self.now) (instruction i.now) self.now.slots.now) }
    {
        match i {
            Instruction::Par(p) => self.add_assignment(alloc, p, text),
            Instruction::ParForall(p) => self.add_forall(alloc, p, text),
            Instruction::ParNest(p) => self.add_nest(alloc, p, text),
            Instruction::ParCopy { copy, evaluation } => {
                self.add_evaluation(alloc, *copy, evaluation, text)
            }
            Instruction::ParForallCopy { copy, evaluation } => {
                self.add_forall_mask(alloc, *copy, evaluation, text)
            }
            Instruction::Reduce {
                evaluation,
                reduction,
                ..
            } => self.add_reduction(alloc, evaluation, reduction, text),
            Instruction::Remap { line, new } => self.add_remap(alloc, *line, new, text),
            _ => Ok(()),
        }
    }

    /// Adds the lines of an assignment to a section.
    fn add_assignment(
        &self,
        alloc: Global,
        p: &Assignment,
        text: &mut Vec<u8>,
    ) -> Result<(), OutOfMemory>
        requires { nat_le (length (subs p.now.over.items)) MAX_RANK ≡ true }
        ensures { OnOk result (text.new.items ≡ text.old.items ++ (let ls = layouts_beside self.now (assignment p.now).beside (subs p.now.over.items) in
            part_lines (setting_before self.now) ls p.now.line
            (par_part ls (assignment_tuples self.now.program.now.shapes.items (assignment p.now))
            (assigned_spot self.now.program.now.shapes.items (assignment p.now)) self.now.slots.now))) }
    {
        let rows = self.rows_beside(alloc, &p.over, &p.beside)?;
        let shapes = &self.program.shapes;
        let statement = ParallelStatement::of_assignment(alloc, shapes, self.slots, p)?;
        add_part(alloc, &rows, &statement, Who::Left, p.line, text)
    }

    /// Adds those of an assignment of a FORALL.
    fn add_forall(
        &self,
        alloc: Global,
        p: &Assignment,
        text: &mut Vec<u8>,
    ) -> Result<(), OutOfMemory>
        requires { nat_le (length (subs p.now.over.items)) MAX_RANK ≡ true }
        ensures { OnOk result (text.new.items ≡ text.old.items ++ (let ls = layouts_beside self.now (assignment p.now).beside (subs p.now.over.items) in
            part_lines (setting_before self.now) ls p.now.line
            (par_part ls (forall_tuples self.now.program.now.shapes.items (assignment p.now))
            (forall_spot self.now.program.now.shapes.items (assignment p.now)) self.now.slots.now))) }
    {
        let rows = self.rows_beside(alloc, &p.over, &p.beside)?;
        let shapes = &self.program.shapes;
        let statement = ParallelStatement::of_forall_assignment(alloc, shapes, self.slots, p)?;
        add_part(alloc, &rows, &statement, Who::Left, p.line, text)
    }

    /// Adds those of a statement of a nest. One that sets the mark of an assignment is no part.
    fn add_nest(
        &self,
        alloc: Global,
        p: &NestStatement,
        text: &mut Vec<u8>,
    ) -> Result<(), OutOfMemory>
        requires { nat_le (length (subs p.now.over.items)) MAX_RANK ≡ true }
        ensures { OnOk result (text.new.items ≡ text.old.items
            ++ nest_lines p.now.role (setting_before self.now) (names_layouts self.now) (nest_statement p.now) self.now.slots.now) }
    {
        match p.role {
            NestRole::Assigns => self.add_nest_part(alloc, p, text),
            NestRole::Tests => self.add_nest_part(alloc, p, text),
            NestRole::SetsElse => self.add_nest_part(alloc, p, text),
            NestRole::SetsMark => Ok(()),
        }
    }

    /// Adds those of one that is a part.
    fn add_nest_part(
        &self,
        alloc: Global,
        p: &NestStatement,
        text: &mut Vec<u8>,
    ) -> Result<(), OutOfMemory>
        requires { nat_le (length (subs p.now.over.items)) MAX_RANK ≡ true }
        ensures { OnOk result (text.new.items ≡ text.old.items ++ (let ls = nest_layouts self.now (nest_statement p.now) in
            part_lines (with_copied (setting_before self.now) p.now.copies.items p.now.names.items) ls p.now.line
            (par_part ls (nest_tuples self.now.program.now.shapes.items (nest_statement p.now))
            (nest_spot self.now.program.now.shapes.items (nest_statement p.now)) self.now.slots.now))) }
    {
        let rows = self.nest_rows(alloc, p)?;
        let shapes = &self.program.shapes;
        let statement = ParallelStatement::of_nest(alloc, shapes, self.slots, p)?;
        add_part(alloc, &rows, &statement, Who::Left, p.line, text)
    }

    /// Adds those of an array expression, whose values go into a copy.
    fn add_evaluation(
        &self,
        alloc: Global,
        copy: usize,
        p: &Evaluation,
        text: &mut Vec<u8>,
    ) -> Result<(), OutOfMemory>
        requires { nat_le (length (subs p.now.over.items)) MAX_RANK ≡ true }
        ensures { OnOk result (text.new.items ≡ text.old.items ++ (let ls = layouts_beside self.now (evaluation p.now).beside (subs p.now.over.items) in
            part_lines (setting_before self.now) ls p.now.line
            (par_part ls (evaluation_tuples self.now.program.now.shapes.items (evaluation p.now))
            (copy_spot copy) self.now.slots.now))) }
    {
        let rows = self.rows_beside(alloc, &p.over, &p.beside)?;
        let shapes = &self.program.shapes;
        let statement = ParallelStatement::of_evaluation(alloc, shapes, self.slots, p, copy)?;
        add_part(alloc, &rows, &statement, Who::Left, p.line, text)
    }

    /// Adds those of the mask of a FORALL, whose values go into a copy.
    fn add_forall_mask(
        &self,
        alloc: Global,
        copy: usize,
        p: &Evaluation,
        text: &mut Vec<u8>,
    ) -> Result<(), OutOfMemory>
        requires { nat_le (length (subs p.now.over.items)) MAX_RANK ≡ true }
        ensures { OnOk result (text.new.items ≡ text.old.items ++ (let ls = layouts_beside self.now (evaluation p.now).beside (subs p.now.over.items) in
            part_lines (setting_before self.now) ls p.now.line
            (par_part ls (forall_mask_tuples self.now.program.now.shapes.items (evaluation p.now))
            (copy_spot copy) self.now.slots.now))) }
    {
        let rows = self.rows_beside(alloc, &p.over, &p.beside)?;
        let shapes = &self.program.shapes;
        let statement = ParallelStatement::of_forall_mask(alloc, shapes, self.slots, p, copy)?;
        add_part(alloc, &rows, &statement, Who::Left, p.line, text)
    }

    /// Adds those of a reduction.
    fn add_reduction(
        &self,
        alloc: Global,
        p: &Evaluation,
        reduction: &Reduction,
        text: &mut Vec<u8>,
    ) -> Result<(), OutOfMemory>
        requires { nat_le (length (subs p.now.over.items)) MAX_RANK ≡ true }
        ensures { OnOk result (text.new.items ≡ text.old.items ++ (let ls = copy_layouts self.now None (subs p.now.over.items) in
            part_lines (setting_before self.now) ls p.now.line
            (reduce_part self.now.owners.now.nodes ls
            (reduction_tuples self.now.program.now.shapes.items (evaluation p.now) reduction.now.made) self.now.slots.now))) }
    {
        let rows = self.rows(alloc, &p.over, None)?;
        let shapes = &self.program.shapes;
        let statement = ParallelStatement::of_reduction(
            alloc,
            shapes,
            self.slots,
            p,
            reduction.made,
        )?;
        add_part(alloc, &rows, &statement, Who::First, p.line, text)
    }

    /// Adds those of new mappings of arrays.
    fn add_remap(
        &self,
        alloc: Global,
        line: u32,
        new: &[NewMapping],
        text: &mut Vec<u8>,
    ) -> Result<(), OutOfMemory>
        requires { list_all (fits_row self.now.program.now.tables.items (shapes_of self.now.owners.now.layouts)) (map new_mapping new.now) ≡ true }
        ensures { OnOk result (text.new.items ≡ text.old.items ++ redistribution_lines (setting_before self.now) line (names_layouts self.now)
            (remapped (remappings (mappings_of self.now.program.now.tables.items) (map new_mapping new.now)) (names_layouts self.now))) }
    {
        let rows = names_rows(alloc, self.names, self.owners)?;
        let after = owners_after(&rows.owners, &self.program.tables, new)?;
        add_redistribution(alloc, &rows, &after, line, text)
    }

    /// The declared names, and after them the copies that a statement of a nest names.
    fn nest_rows(&self, alloc: Global, p: &'a NestStatement) -> Result<Rows<'a>, OutOfMemory>
        requires { nat_le (length (subs p.now.over.items)) MAX_RANK ≡ true }
        ensures names { IfOk result (λ r. r.names.now ≡ self.now.names.now) }
        ensures owners { IfOk result (λ r. r.owners ≡ record { layouts = nest_layouts self.now (nest_statement p.now); nodes = self.now.owners.now.nodes }) }
        ensures copies { IfOk result (λ r. r.copies.now ≡ p.now.copies.items) }
        ensures copied { IfOk result (λ r. r.copied.now ≡ p.now.names.items) }
    {
        let extents = space_extents(alloc, self.slots, &p.over)?;
        let anchor = anchor_in(alloc, self.slots, &p.over, &p.beside)?;
        rows_of_nest(alloc, self.names, self.owners, anchor.as_ref(), &extents, p)
    }

    /// The declared names, and after them a copy with an element for each tuple of the space of this section, beside this.
    fn rows_beside(
        &self,
        alloc: Global,
        over: &[Sub],
        beside: &Option<FlatAnchor>,
    ) -> Result<Rows<'a>, OutOfMemory>
        requires { nat_le (length (subs over.now)) MAX_RANK ≡ true }
        ensures names { IfOk result (λ r. r.names.now ≡ self.now.names.now) }
        ensures owners { IfOk result (λ r. r.owners ≡ record {
          layouts = layouts_beside self.now (option_map flat_anchor beside.now) (subs over.now);
          nodes = self.now.owners.now.nodes;
        }) }
        ensures copies { IfOk result (λ r. r.copies.now ≡ []) }
        ensures copied { IfOk result (λ r. r.copied.now ≡ []) }
    {
        let anchor = anchor_in(alloc, self.slots, over, beside)?;
        self.rows(alloc, over, anchor.as_ref())
    }

    /// The declared names, and after them a copy with an element for each tuple of the space of this section, by this anchor.
    fn rows(
        &self,
        alloc: Global,
        over: &[Sub],
        anchor: Option<&Anchor>,
    ) -> Result<Rows<'a>, OutOfMemory>
        requires { nat_le (length (subs over.now)) MAX_RANK ≡ true }
        ensures names { IfOk result (λ r. r.names.now ≡ self.now.names.now) }
        ensures owners { IfOk result (λ r. r.owners ≡ record {
          layouts = copy_layouts self.now (option_copied anchor.entry) (subs over.now);
          nodes = self.now.owners.now.nodes;
        }) }
        ensures copies { IfOk result (λ r. r.copies.now ≡ []) }
        ensures copied { IfOk result (λ r. r.copied.now ≡ []) }
    {
        let extents = space_extents(alloc, self.slots, over)?;
        rows_with_copy(alloc, self.names, self.owners, anchor, &extents)
    }
}

/// The extents of a copy with an element for each tuple of the space of this section.
fn space_extents(alloc: Global, slots: &[i64], over: &[Sub]) -> Result<Vec<u32>, OutOfMemory>
    requires { nat_le (length (subs over.now)) MAX_RANK ≡ true }
    ensures value { IfOk result (λ v. v.items ≡ copy_extents (extents (selections_in slots.now (subs over.now)))) }
    ensures rank { IfOk result (λ v. length v.items ≤ MAX_RANK) }
    ensures each { IfOk result (λ v. All (λ extent. extent ≤ MAX_ELEMENTS) v.items) }
    ensures size { IfOk result (λ v. product v.items ≤ MAX_ELEMENTS) }
{
    let selected = selections_at(alloc, slots, &[], over)?;
    let space = extents(alloc, &selected)?;
    let made = copy_extents(alloc, &space)?;
    Ok(made)
}
