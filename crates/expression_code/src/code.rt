//! The code that evaluates expressions, in the order of evaluation. Slots from `b` on are free for it. An `Err` is want of memory here.

ghost use Rattle.std.specs.Prelude.{◌≡◌, ◌+◌, [], ◌∷◌, ◌++◌, IfOk, OnOk};
ghost use Rattle.array_meaning.specs.Terms.{Apply, Element, Reduce};
ghost use Rattle.program_code.specs.ExpressionCode.{all_parts_code, all_slots_of, code_of, codes_of, control_code, flats_of, form_of, own_evaluation, parts_code, parts_slots, reduce_code, set_if, subscripts_code};
ghost use Rattle.node_code.specs.Flat.{Operated};
ghost use Rattle.node_code.specs.Instructions.{Fetch, Set};
ghost use Rattle.node_code.specs.Texts.{instructions};
ghost use Rattle.op_tables.specs.Operators.{can_divide};
ghost use Rattle.resolved_program.specs.Resolved.{control, subscripts_of, term, terms_of};
ghost use Rattle.expression_code.specs.Subscripts.{subscript_code};

use crate::controls::{push_three, three_slots};
use crate::evaluations::own_evaluation;
use crate::slots::{all_slots_of, parts_slots, slots_of, subscript_slots};
use crate::sums::{can_divide, plus};
use crate::values::{flats_of, operated};
use hpf_base::OutOfMemory;
use node_code::Instruction;
use op_tables::{Op, reduction_of};
use resolved_program::{Control, SectionSubscript, Term};
use std::alloc::Global;

// ---- code by itself

/// The code of a scalar expression: a Fetch for each element, a Set for each operator that may divide by zero, and its reductions.
pub fn code_of(
    alloc: Global,
    line: u32,
    b: usize,
    t: &Term,
) -> Result<Vec<Instruction>, OutOfMemory>
    ensures { IfOk result (λ v. instructions v.items ≡ code_of line b (term t.now)) }
{
    let mut code = Vec::new(alloc);
    add_code(alloc, &mut code, line, b, t)?;
    Ok(code)
}

/// The code of scalar expressions, in order.
pub fn codes_of(
    alloc: Global,
    line: u32,
    b: usize,
    terms: &[Term],
) -> Result<Vec<Instruction>, OutOfMemory>
    ensures { IfOk result (λ v. instructions v.items ≡ codes_of line b (terms_of terms.now)) }
{
    let mut code = Vec::new(alloc);
    add_codes(alloc, &mut code, line, b, terms)?;
    Ok(code)
}

/// The code of the subscripts of a section, in order. A stride of 0 is a fault where it stands (Fortran 95, 6.2.2.3.1).
pub fn subscripts_code(
    alloc: Global,
    line: u32,
    b: usize,
    subscripts: &[SectionSubscript],
) -> Result<Vec<Instruction>, OutOfMemory>
    ensures { IfOk result (λ v. instructions v.items ≡ subscripts_code line b (subscripts_of subscripts.now)) }
{
    let mut code = Vec::new(alloc);
    add_subscripts(alloc, &mut code, line, b, subscripts)?;
    Ok(code)
}

/// The code of an array expression: all that is evaluated once.
pub fn parts_code(
    alloc: Global,
    line: u32,
    b: usize,
    t: &Term,
) -> Result<Vec<Instruction>, OutOfMemory>
    ensures { IfOk result (λ v. instructions v.items ≡ parts_code line b (term t.now)) }
{
    let mut code = Vec::new(alloc);
    add_parts(alloc, &mut code, line, b, t)?;
    Ok(code)
}

/// The code of the three values of a control: the first value, the last value and the step, into three slots after those that it takes.
pub fn control_code(
    alloc: Global,
    line: u32,
    b: usize,
    c: &Control,
) -> Result<Vec<Instruction>, OutOfMemory>
    ensures { IfOk result (λ v. instructions v.items ≡ control_code line b (control c.now)) }
{
    let slots = three_slots(b, &c.first, &c.last, &c.step)?;
    let mut code = Vec::new(alloc);
    add_code(alloc, &mut code, line, b, &c.first)?;
    add_code(alloc, &mut code, line, slots.last_from, &c.last)?;
    add_code(alloc, &mut code, line, slots.step_from, &c.step)?;
    push_three(alloc, &mut code, line, b, slots, &c.first, &c.last, &c.step)?;
    Ok(code)
}

// ---- code after other code

/// Puts the code of a scalar expression after other code.
#[cycle(code)]
fn add_code(
    alloc: Global,
    code: &mut Vec<Instruction>,
    line: u32,
    b: usize,
    t: &Term,
) -> Result<(), OutOfMemory>
    ensures { OnOk result (instructions code.new.items ≡ instructions code.old.items ++ code_of line b (term t.now)) }
{
    match t {
        Term::Element(a, subscripts) => add_element(alloc, code, line, b, *a, subscripts),
        Term::Apply(op, operands) => add_operation(alloc, code, line, b, *op, operands),
        Term::Reduce(op, t) => add_reduction(alloc, code, line, b, *op, t),
        _ => Ok(()),
    }
}

/// Puts that of an element.
#[cycle(code)]
fn add_element(
    alloc: Global,
    code: &mut Vec<Instruction>,
    line: u32,
    b: usize,
    array: usize,
    subscripts: &[Term],
) -> Result<(), OutOfMemory>
    ensures { OnOk result (instructions code.new.items ≡ instructions code.old.items ++ code_of line b (Element array (terms_of subscripts.now))) }
{
    add_codes(alloc, code, line, b, subscripts)?;
    push_fetch(alloc, code, line, b, array, subscripts)
}

/// Puts the Fetch of an element.
fn push_fetch(
    alloc: Global,
    code: &mut Vec<Instruction>,
    line: u32,
    b: usize,
    array: usize,
    subscripts: &[Term],
) -> Result<(), OutOfMemory>
    ensures { OnOk result (instructions code.new.items ≡ instructions code.old.items
        ++ Fetch line array (flats_of b (terms_of subscripts.now)) (b + all_slots_of (terms_of subscripts.now)) ∷ []) }
{
    let slot = plus(b, all_slots_of(subscripts)?)?;
    code.push(Instruction::Fetch {
        line,
        array,
        subscripts: flats_of(alloc, b, subscripts)?,
        slot,
    })?;
    Ok(())
}

/// Puts the code of an operator.
#[cycle(code)]
fn add_operation(
    alloc: Global,
    code: &mut Vec<Instruction>,
    line: u32,
    b: usize,
    op: Op,
    operands: &[Term],
) -> Result<(), OutOfMemory>
    ensures { OnOk result (instructions code.new.items ≡ instructions code.old.items ++ code_of line b (Apply op (terms_of operands.now))) }
{
    add_codes(alloc, code, line, b, operands)?;
    push_operation(alloc, code, line, b, op, operands)
}

/// Puts the Set of an operator, if it may divide by zero.
fn push_operation(
    alloc: Global,
    code: &mut Vec<Instruction>,
    line: u32,
    b: usize,
    op: Op,
    operands: &[Term],
) -> Result<(), OutOfMemory>
    ensures { OnOk result (instructions code.new.items ≡ instructions code.old.items
        ++ set_if (can_divide op) line (b + all_slots_of (terms_of operands.now)) (Operated op (flats_of b (terms_of operands.now)))) }
{
    if can_divide(op) {
        push_set(alloc, code, line, b, op, operands)
    } else {
        Ok(())
    }
}

/// Puts the Set of an operator.
fn push_set(
    alloc: Global,
    code: &mut Vec<Instruction>,
    line: u32,
    b: usize,
    op: Op,
    operands: &[Term],
) -> Result<(), OutOfMemory>
    ensures { OnOk result (instructions code.new.items ≡ instructions code.old.items
        ++ Set line (b + all_slots_of (terms_of operands.now)) (Operated op (flats_of b (terms_of operands.now))) ∷ []) }
{
    let slot = plus(b, all_slots_of(operands)?)?;
    code.push(Instruction::Set {
        line,
        slot,
        value: operated(alloc, b, op, operands)?,
    })?;
    Ok(())
}

/// Puts the code of a reduction.
#[cycle(code)]
fn add_reduction(
    alloc: Global,
    code: &mut Vec<Instruction>,
    line: u32,
    b: usize,
    op: Op,
    t: &Term,
) -> Result<(), OutOfMemory>
    ensures { OnOk result (instructions code.new.items ≡ instructions code.old.items ++ code_of line b (Reduce op (term t.now))) }
{
    add_parts(alloc, code, line, b, t)?;
    push_reduce(alloc, code, line, b, op, t)
}

/// Puts the limits and the Reduce of a reduction.
fn push_reduce(
    alloc: Global,
    code: &mut Vec<Instruction>,
    line: u32,
    b: usize,
    op: Op,
    t: &Term,
) -> Result<(), OutOfMemory>
    ensures { OnOk result (instructions code.new.items ≡ instructions code.old.items ++ reduce_code line op (form_of b (term t.now)) (b + parts_slots (term t.now))) }
{
    let slot = plus(b, parts_slots(t)?)?;
    code.push(Instruction::OwnLimits(own_evaluation(alloc, line, b, t)?))?;
    code.push(Instruction::Reduce {
        evaluation: own_evaluation(alloc, line, b, t)?,
        reduction: reduction_of(op),
        slot,
    })?;
    Ok(())
}

/// Puts the code of scalar expressions, in order.
#[cycle(code)]
fn add_codes(
    alloc: Global,
    code: &mut Vec<Instruction>,
    line: u32,
    b: usize,
    terms: &[Term],
) -> Result<(), OutOfMemory>
    ensures { OnOk result (instructions code.new.items ≡ instructions code.old.items ++ codes_of line b (terms_of terms.now)) }
{
    let mut at = b;
    for t in terms {
        add_code(alloc, code, line, at, t)?;
        at = plus(at, slots_of(t)?)?;
    }
    Ok(())
}

/// Puts the code of the subscripts of a section, in order.
#[cycle(code)]
fn add_subscripts(
    alloc: Global,
    code: &mut Vec<Instruction>,
    line: u32,
    b: usize,
    subscripts: &[SectionSubscript],
) -> Result<(), OutOfMemory>
    ensures { OnOk result (instructions code.new.items ≡ instructions code.old.items ++ subscripts_code line b (subscripts_of subscripts.now)) }
{
    let mut at = b;
    for d in subscripts {
        add_subscript(alloc, code, line, at, d)?;
        at = plus(at, subscript_slots(d)?)?;
    }
    Ok(())
}

/// Puts the code of one of them.
#[cycle(code)]
fn add_subscript(
    alloc: Global,
    code: &mut Vec<Instruction>,
    line: u32,
    b: usize,
    d: &SectionSubscript,
) -> Result<(), OutOfMemory>
    ensures { OnOk result (instructions code.new.items ≡ instructions code.old.items ++ subscript_code line b d.now) }
{
    match d {
        SectionSubscript::Subscript(t) => add_code(alloc, code, line, b, t),
        SectionSubscript::Triplet(first, last, step) => {
            let slots = three_slots(b, first, last, step)?;
            let slot = plus(slots.slot, 2)?;
            add_code(alloc, code, line, b, first)?;
            add_code(alloc, code, line, slots.last_from, last)?;
            add_code(alloc, code, line, slots.step_from, step)?;
            push_three(alloc, code, line, b, slots, first, last, step)?;
            code.push(Instruction::TestStride { line, slot })?;
            Ok(())
        }
    }
}

/// Puts the code of an array expression.
#[cycle(code)]
fn add_parts(
    alloc: Global,
    code: &mut Vec<Instruction>,
    line: u32,
    b: usize,
    t: &Term,
) -> Result<(), OutOfMemory>
    ensures { OnOk result (instructions code.new.items ≡ instructions code.old.items ++ parts_code line b (term t.now)) }
{
    match t {
        Term::Element(a, subscripts) => add_element(alloc, code, line, b, *a, subscripts),
        Term::Section(_, subscripts) => add_subscripts(alloc, code, line, b, subscripts),
        Term::Apply(_, operands) => add_all_parts(alloc, code, line, b, operands),
        Term::Reduce(op, t) => add_reduction(alloc, code, line, b, *op, t),
        _ => Ok(()),
    }
}

/// Puts the code of array expressions, in order.
#[cycle(code)]
fn add_all_parts(
    alloc: Global,
    code: &mut Vec<Instruction>,
    line: u32,
    b: usize,
    terms: &[Term],
) -> Result<(), OutOfMemory>
    ensures { OnOk result (instructions code.new.items ≡ instructions code.old.items ++ all_parts_code line b (terms_of terms.now)) }
{
    let mut at = b;
    for t in terms {
        add_parts(alloc, code, line, at, t)?;
        at = plus(at, parts_slots(t)?)?;
    }
    Ok(())
}
