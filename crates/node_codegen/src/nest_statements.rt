//! The parallel statements of a nest of INDEPENDENT loops.

ghost use Rattle.std.specs.Prelude.{◌≡◌, ◌+◌, ◌++◌, false, map, IfOk, OnOk};
ghost use Rattle.nest_syntax.specs.Assigning.{ToElement, ToScalar};
ghost use Rattle.nest_syntax.specs.Asked.{guard_asked, tested_asked};
ghost use Rattle.program_code.specs.NestInstructions.{mark_instructions, setting, setting_else, setting_mark, testing, whens_of};
ghost use Rattle.node_code.specs.declared.nest.NestRole.TheVariants.{Assigns};
ghost use Rattle.node_code.specs.Instructions as code;
ghost use Rattle.node_code.specs.Texts.{flat, form, instruction, instructions, nest_left, when};
ghost use Rattle.resolved_program.specs.Resolved.{term, terms_of};
ghost use Rattle.node_codegen.specs.NestNames.{beside_by, mark_by, over_by, test_by, text_by, texts_by};

use crate::nest_names::NestNames;
use crate::nest_terms::{NestTerm, nest_subs, nest_term};
use crate::sequences::only;
use anchor_code::copied;
use expression_code::plus;
use hpf_base::OutOfMemory;
use node_code::{ArrayForm, Flat, Instruction, NestLeft, NestRole, NestStatement, When};
use resolved_program::Term;
use std::alloc::Global;

// ---- stored conditions

/// The guard of an arm's body: its condition holds. The conditions lie in rows from `stored` on.
fn guard_whens(alloc: Global, stored: usize, guard: Option<usize>) -> Result<Vec<When>, OutOfMemory>
    ensures { IfOk result (λ ws. map when ws.items ≡ whens_of stored (guard_asked guard)) }
{
    match guard {
        None => Ok(Vec::new(alloc)),
        Some(k) => {
            let copy = plus(stored, k)?;
            Ok(vec![in alloc; When { copy, value: true }]?)
        }
    }
}

/// Where the condition of an arm is evaluated: the guard of the IF holds, and no condition of an earlier arm.
fn tested_whens(
    alloc: Global,
    stored: usize,
    guard: Option<usize>,
    earlier: &[usize],
) -> Result<Vec<When>, OutOfMemory>
    ensures { IfOk result (λ ws. map when ws.items ≡ whens_of stored (tested_asked guard earlier.now)) }
{
    let mut whens = guard_whens(alloc, stored, guard)?;
    for k in earlier {
        whens.push(unmet(stored, *k)?)?;
    }
    Ok(whens)
}

/// A condition that doesn't hold.
fn unmet(stored: usize, k: usize) -> Result<When, OutOfMemory>
    ensures { IfOk result (λ w. when w ≡ record { copy = stored + k; value = false }) }
{
    Ok(When {
        copy: plus(stored, k)?,
        value: false,
    })
}

// ---- statements

/// An assignment, and then the mark of its scalar.
pub(crate) fn scalar_text(
    alloc: Global,
    w: &NestNames,
    line: u32,
    guard: Option<usize>,
    k: usize,
    right: &Term,
) -> Result<Vec<Instruction>, OutOfMemory>
    ensures { IfOk result (λ v. instructions v.items ≡ texts_by w.now guard (record { line = line; text = ToScalar k (term right.now) })) }
{
    let row = w.place(k)?;
    let value = nest_term(alloc, w, right)?;
    let one = assigning(alloc, w, line, guard, NestLeft::Copy(row), value)?;
    let mut code = only(alloc, one)?;
    push_mark(alloc, &mut code, w, guard, k)?;
    Ok(code)
}

/// Puts the mark of a scalar that is assigned, if it has one.
fn push_mark(
    alloc: Global,
    code: &mut Vec<Instruction>,
    w: &NestNames,
    guard: Option<usize>,
    k: usize,
) -> Result<(), OutOfMemory>
    ensures { OnOk result (instructions code.new.items
        ≡ instructions code.old.items ++ mark_instructions w.now.line (over_by w.now) (beside_by w.now) (text_by w.now) (test_by w.now) w.now.stored guard (mark_by w.now k)) }
{
    match w.mark(k)? {
        Some(row) => {
            code.push(setting_mark(alloc, w, guard, row)?)?;
            Ok(())
        }
        None => Ok(()),
    }
}

/// An assignment of an element.
pub(crate) fn element_text(
    alloc: Global,
    w: &NestNames,
    line: u32,
    guard: Option<usize>,
    a: usize,
    subscripts: &[Term],
    right: &Term,
) -> Result<Vec<Instruction>, OutOfMemory>
    ensures { IfOk result (λ v. instructions v.items ≡ texts_by w.now guard (record { line = line; text = ToElement a (terms_of subscripts.now) (term right.now) })) }
{
    let value = nest_term(alloc, w, right)?;
    let left = NestLeft::Element(a, nest_subs(alloc, &value.axes, subscripts)?);
    let one = assigning(alloc, w, line, guard, left, value)?;
    only(alloc, one)
}

/// An assignment to what is on the left.
fn assigning(
    alloc: Global,
    w: &NestNames,
    line: u32,
    guard: Option<usize>,
    left: NestLeft,
    value: NestTerm,
) -> Result<Instruction, OutOfMemory>
    ensures { IfOk result (λ i. instruction i ≡ code.ParNest (record {
      line = line;
      over = over_by w.now;
      whens = whens_of w.now.stored (guard_asked guard);
      copies = value.copies.items;
      names = value.names.items;
      left = nest_left left;
      right = form value.form;
      role = Assigns;
      beside = beside_by w.now;
    })) }
{
    let over = w.over(alloc)?;
    let whens = guard_whens(alloc, w.stored, guard)?;
    let beside = copied(alloc, &w.beside)?;
    Ok(Instruction::ParNest(NestStatement {
        line,
        over,
        whens,
        copies: value.copies,
        names: value.names,
        left,
        right: value.form,
        role: NestRole::Assigns,
        beside,
    }))
}

/// The mark of an iteration that assigns a scalar.
fn setting_mark(
    alloc: Global,
    w: &NestNames,
    guard: Option<usize>,
    row: usize,
) -> Result<Instruction, OutOfMemory>
    ensures { IfOk result (λ i. instruction i ≡ code.ParNest (setting_mark (over_by w.now) (beside_by w.now) (whens_of w.now.stored (guard_asked guard)) row)) }
{
    let whens = guard_whens(alloc, w.stored, guard)?;
    setting(alloc, w, whens, row, NestRole::SetsMark)
}

/// The condition of an arm, into a row of copies.
pub(crate) fn testing(
    alloc: Global,
    w: &NestNames,
    line: u32,
    guard: Option<usize>,
    earlier: &[usize],
    condition: &Term,
    copy: usize,
) -> Result<Instruction, OutOfMemory>
    ensures { IfOk result (λ i. instruction i ≡ code.ParNest (testing (over_by w.now) (beside_by w.now) (whens_of w.now.stored (tested_asked guard earlier.now)) (test_by w.now (record { line = line; text = term condition.now })) copy)) }
{
    let over = w.over(alloc)?;
    let whens = tested_whens(alloc, w.stored, guard, earlier)?;
    let value = nest_term(alloc, w, condition)?;
    let beside = copied(alloc, &w.beside)?;
    Ok(Instruction::ParNest(NestStatement {
        line,
        over,
        whens,
        copies: value.copies,
        names: value.names,
        left: NestLeft::Copy(copy),
        right: value.form,
        role: NestRole::Tests,
        beside,
    }))
}

/// That of ELSE, which holds where no earlier one does.
pub(crate) fn setting_else(
    alloc: Global,
    w: &NestNames,
    guard: Option<usize>,
    earlier: &[usize],
    copy: usize,
) -> Result<Instruction, OutOfMemory>
    ensures { IfOk result (λ i. instruction i ≡ code.ParNest (setting_else (over_by w.now) (beside_by w.now) (whens_of w.now.stored (tested_asked guard earlier.now)) copy)) }
{
    let whens = tested_whens(alloc, w.stored, guard, earlier)?;
    setting(alloc, w, whens, copy, NestRole::SetsElse)
}

/// What sets a row of copies, and can't fault.
fn setting(
    alloc: Global,
    w: &NestNames,
    whens: Vec<When>,
    row: usize,
    role: NestRole,
) -> Result<Instruction, OutOfMemory>
    ensures { IfOk result (λ i. instruction i ≡ code.ParNest (setting (over_by w.now) (beside_by w.now) (map when whens.items) role row)) }
{
    let over = w.over(alloc)?;
    let beside = copied(alloc, &w.beside)?;
    Ok(Instruction::ParNest(NestStatement {
        line: 0,
        over,
        whens,
        copies: Vec::new(alloc),
        names: Vec::new(alloc),
        left: NestLeft::Copy(row),
        right: ArrayForm::Flat(Flat::Int(1)),
        role,
        beside,
    }))
}

/// Copies in a row, all with a value.
pub(crate) fn making(
    alloc: Global,
    w: &NestNames,
    copy: usize,
    start: Flat,
) -> Result<Instruction, OutOfMemory>
    ensures { IfOk result (λ i. instruction i ≡ code.MakeCopies copy (over_by w.now) (flat start) (beside_by w.now)) }
{
    let over = w.over(alloc)?;
    let beside = copied(alloc, &w.beside)?;
    Ok(Instruction::MakeCopies {
        copy,
        over,
        start,
        beside,
    })
}
