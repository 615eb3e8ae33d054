//! The parallel statements of instructions.

ghost use Rattle.std.specs.Prelude.{◌≡◌, ◌∷◌, [], ℕ, map, option_map, option_to_list, IfOk, None, true};
ghost use Rattle.array_meaning.specs.Sections.{extents};
ghost use Rattle.machine_steps.specs.Space.{space_count};
ghost use Rattle.code_meaning.specs.Forms.{selections_in};
ghost use Rattle.code_meaning.specs.Instructions.{section_spot};
ghost use Rattle.code_meaning.specs.NestStatements.{nest_spot, nest_tuples, role_made};
ghost use Rattle.code_meaning.specs.Parallel.{assigned_spot, assignment_tuples, copy_spot, evaluation_tuples, forall_mask_tuples, forall_spot, forall_tuples, reduction_tuples};
ghost use Rattle.node_code.specs.Texts.{assignment, evaluation, form, nest_left, nest_statement, subs, when};
ghost use Rattle.tuple_values.specs.Statements.{no_left, tuple_count, tuple_reads, IsStatement};
ghost use Rattle.tuple_values.specs.Targets.{nest_target, target as target_of};
ghost use Rattle.tuple_values.specs.Views.{statement};

use crate::right::Right;
use crate::space::{Space, index_space, section_space};
use crate::statement::ParallelStatement;
use crate::target::Target;
use expression_rules::Dims;
use hpf_base::OutOfMemory;
use node_code::{Assignment, Evaluation, NestLeft, NestRole, NestStatement, Sub, When};
use op_tables::Made;
use slot_values::selections_at;
use std::alloc::Global;

impl<'a> ParallelStatement<'a> {
    /// An assignment to a section.
    pub fn of_assignment(
        alloc: Global,
        shapes: &'a [Dims],
        slots: &'a [i64],
        p: &'a Assignment,
    ) -> Result<ParallelStatement<'a>, OutOfMemory>
        ensures { IfOk result (λ w. IsStatement (statement w) slots.now (assignment_tuples shapes.now (assignment p.now)) (assigned_spot shapes.now (assignment p.now))) }
    {
        let space = section_space(alloc, slots, &p.over)?;
        let left = selections_at(alloc, slots, &[], &p.left)?;
        let target = Target::Section(p.array, left);
        Ok(assigning(shapes, slots, p, space, target))
    }

    /// An assignment of a FORALL.
    pub fn of_forall_assignment(
        alloc: Global,
        shapes: &'a [Dims],
        slots: &'a [i64],
        p: &'a Assignment,
    ) -> Result<ParallelStatement<'a>, OutOfMemory>
        ensures { IfOk result (λ w. IsStatement (statement w) slots.now (forall_tuples shapes.now (assignment p.now)) (forall_spot shapes.now (assignment p.now))) }
    {
        let space = index_space(alloc, slots, &p.over)?;
        let target = Target::Indexed(p.array, &p.left);
        Ok(assigning(shapes, slots, p, space, target))
    }

    /// An array expression, whose values go into a copy.
    pub fn of_evaluation(
        alloc: Global,
        shapes: &'a [Dims],
        slots: &'a [i64],
        p: &'a Evaluation,
        copy: usize,
    ) -> Result<ParallelStatement<'a>, OutOfMemory>
        ensures { IfOk result (λ w. IsStatement (statement w) slots.now (evaluation_tuples shapes.now (evaluation p.now)) (copy_spot copy)) }
    {
        let space = section_space(alloc, slots, &p.over)?;
        Ok(evaluating(shapes, slots, p, space, Target::Copy(copy), None))
    }

    /// The mask of a FORALL, whose values go into a copy.
    pub fn of_forall_mask(
        alloc: Global,
        shapes: &'a [Dims],
        slots: &'a [i64],
        p: &'a Evaluation,
        copy: usize,
    ) -> Result<ParallelStatement<'a>, OutOfMemory>
        ensures { IfOk result (λ w. IsStatement (statement w) slots.now (forall_mask_tuples shapes.now (evaluation p.now)) (copy_spot copy)) }
    {
        let space = index_space(alloc, slots, &p.over)?;
        Ok(evaluating(shapes, slots, p, space, Target::Copy(copy), None))
    }

    /// A reduction of an array expression, by what it makes of each value.
    pub fn of_reduction(
        alloc: Global,
        shapes: &'a [Dims],
        slots: &'a [i64],
        p: &'a Evaluation,
        made: Made,
    ) -> Result<ParallelStatement<'a>, OutOfMemory>
        ensures { IfOk result (λ w. IsStatement (statement w) slots.now (reduction_tuples shapes.now (evaluation p.now) made) no_left) }
    {
        let space = section_space(alloc, slots, &p.over)?;
        Ok(evaluating(shapes, slots, p, space, Target::Nothing, Some(made)))
    }

    /// The elements of a section, as PRINT lists them.
    pub fn of_section(
        alloc: Global,
        shapes: &'a [Dims],
        slots: &'a [i64],
        array: usize,
        section: &'a [Sub],
    ) -> Result<ParallelStatement<'a>, OutOfMemory>
        ensures count { IfOk result (λ w. tuple_count (statement w) ≡ space_count (extents (selections_in slots.now (subs section.now)))) }
        ensures reads { IfOk result (λ w. (t : ℕ) → tuple_reads (statement w) t ≡ section_spot shapes.now array (subs section.now) slots.now t ∷ []) }
    {
        let space = section_space(alloc, slots, section)?;
        Ok(ParallelStatement {
            shapes,
            slots,
            line: 0,
            space,
            whens: &[],
            copies: &[],
            located: true,
            target: Target::Nothing,
            right: Right::Section(array, section),
            made: None,
        })
    }

    /// A statement of a nest of INDEPENDENT loops.
    pub fn of_nest(
        alloc: Global,
        shapes: &'a [Dims],
        slots: &'a [i64],
        p: &'a NestStatement,
    ) -> Result<ParallelStatement<'a>, OutOfMemory>
        ensures { IfOk result (λ w. IsStatement (statement w) slots.now (nest_tuples shapes.now (nest_statement p.now)) (nest_spot shapes.now (nest_statement p.now))) }
    {
        let space = index_space(alloc, slots, &p.over)?;
        let target = nest_target(&p.left);
        Ok(ParallelStatement {
            shapes,
            slots,
            line: p.line,
            space,
            whens: &p.whens,
            copies: &p.copies,
            located: false,
            target,
            right: Right::Form(&p.right),
            made: Some(role_made(p.role)),
        })
    }
}

/// An assignment at the tuples of a space.
fn assigning<'a>(
    shapes: &'a [Dims],
    slots: &'a [i64],
    p: &'a Assignment,
    space: Space,
    target: Target<'a>,
) -> ParallelStatement<'a>
    ensures { statement result ≡ record {
      shapes = shapes.now;
      slots = slots.now;
      line = p.now.line;
      extents = space.extents.items;
      indices = option_map (λ ds. ds.items) space.indices;
      whens = option_to_list (option_map when p.now.mask);
      copies = [];
      located = true;
      target = target_of target.entry;
      form = form p.now.right;
      made = None;
    } }
{
    ParallelStatement {
        shapes,
        slots,
        line: p.line,
        space,
        whens: mask_list(&p.mask),
        copies: &[],
        located: true,
        target,
        right: Right::Form(&p.right),
        made: None,
    }
}

/// An array expression at the tuples of a space, whose values go to a target, or are joined.
fn evaluating<'a>(
    shapes: &'a [Dims],
    slots: &'a [i64],
    p: &'a Evaluation,
    space: Space,
    target: Target<'a>,
    made: Option<Made>,
) -> ParallelStatement<'a>
    ensures { statement result ≡ record {
      shapes = shapes.now;
      slots = slots.now;
      line = p.now.line;
      extents = space.extents.items;
      indices = option_map (λ ds. ds.items) space.indices;
      whens = [];
      copies = [];
      located = true;
      target = target_of target.entry;
      form = form p.now.form;
      made = made;
    } }
{
    ParallelStatement {
        shapes,
        slots,
        line: p.line,
        space,
        whens: &[],
        copies: &[],
        located: true,
        target,
        right: Right::Form(&p.form),
        made,
    }
}

/// A mask as a list, which has none where there is no mask.
fn mask_list(mask: &Option<When>) -> &[When]
    ensures { map when result.now ≡ option_to_list (option_map when mask.now) }
{
    match mask {
        None => &[],
        Some(w) => std::slice::from_ref(w),
    }
}

/// What is assigned in an iteration of a nest.
fn nest_target(left: &NestLeft) -> Target<'_>
    ensures { target_of result ≡ nest_target (nest_left left.now) }
{
    match left {
        NestLeft::Element(array, subscripts) => Target::Indexed(*array, subscripts),
        NestLeft::Copy(row) => Target::Copy(*row),
    }
}

/// What is made of the values of a statement of a nest: a condition is stored as its truth.
fn role_made(role: NestRole) -> Made
    ensures { result ≡ role_made role }
{
    match role {
        NestRole::Assigns => Made::Value,
        NestRole::Tests => Made::Truth,
        NestRole::SetsElse => Made::Value,
        NestRole::SetsMark => Made::Value,
    }
}
