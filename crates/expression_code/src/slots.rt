//! How many slots the code of an expression takes. A number past 64 bits is answered as want of memory.

ghost use Rattle.std.specs.Prelude.{◌≡◌, ◌+◌, IfOk};
ghost use Rattle.program_code.specs.ExpressionCode.{all_parts_slots, all_slots_of, control_slots, one_if, parts_slots, slots_of, subscripts_slots};
ghost use Rattle.op_tables.specs.Operators.{can_divide};
ghost use Rattle.resolved_program.specs.Resolved.{control, subscripts_of, term, terms_of};
ghost use Rattle.expression_code.specs.Subscripts.{subscript_slots};

use crate::sums::{can_divide, one_if, plus, plus_three};
use hpf_base::OutOfMemory;
use op_tables::Op;
use resolved_program::{Control, SectionSubscript, Term};

/// How many slots the code of a scalar expression takes.
#[cycle(slots)]
pub fn slots_of(t: &Term) -> Result<usize, OutOfMemory>
    ensures { IfOk result (λ n. n ≡ slots_of (term t.now)) }
{
    match t {
        Term::Number(_) | Term::Scalar(_) | Term::Index(_) | Term::Section(_, _) => Ok(0),
        Term::Element(_, subscripts) => element_slots(subscripts),
        Term::Apply(op, operands) => operation_slots(*op, operands),
        Term::Reduce(_, t) => reduction_slots(t),
    }
}

/// The slots of an element: those of its subscripts, and its own.
#[cycle(slots)]
fn element_slots(subscripts: &[Term]) -> Result<usize, OutOfMemory>
    ensures { IfOk result (λ n. n ≡ all_slots_of (terms_of subscripts.now) + 1) }
{
    plus(all_slots_of(subscripts)?, 1)
}

/// The slots of an operator.
#[cycle(slots)]
fn operation_slots(op: Op, operands: &[Term]) -> Result<usize, OutOfMemory>
    ensures { IfOk result (λ n. n ≡ all_slots_of (terms_of operands.now) + one_if (can_divide op)) }
{
    plus(all_slots_of(operands)?, one_if(can_divide(op)))
}

/// The slots of a reduction: those of its array expression, and its own.
#[cycle(slots)]
fn reduction_slots(t: &Term) -> Result<usize, OutOfMemory>
    ensures { IfOk result (λ n. n ≡ parts_slots (term t.now) + 1) }
{
    plus(parts_slots(t)?, 1)
}

/// The slots of scalar expressions together.
#[cycle(slots)]
pub fn all_slots_of(terms: &[Term]) -> Result<usize, OutOfMemory>
    ensures { IfOk result (λ n. n ≡ all_slots_of (terms_of terms.now)) }
{
    let mut sum = 0;
    for t in terms {
        sum = plus(sum, slots_of(t)?)?;
    }
    Ok(sum)
}

/// How many slots the code of the subscripts of a section takes.
#[cycle(slots)]
pub fn subscripts_slots(subscripts: &[SectionSubscript]) -> Result<usize, OutOfMemory>
    ensures { IfOk result (λ n. n ≡ subscripts_slots (subscripts_of subscripts.now)) }
{
    let mut sum = 0;
    for d in subscripts {
        sum = plus(sum, subscript_slots(d)?)?;
    }
    Ok(sum)
}

/// The slots of one of them.
#[cycle(slots)]
pub(crate) fn subscript_slots(d: &SectionSubscript) -> Result<usize, OutOfMemory>
    ensures { IfOk result (λ n. n ≡ subscript_slots d.now) }
{
    match d {
        SectionSubscript::Subscript(t) => slots_of(t),
        SectionSubscript::Triplet(first, last, step) => {
            let values = plus_three(slots_of(first)?, slots_of(last)?, slots_of(step)?)?;
            plus(values, 3)
        }
    }
}

/// How many slots the code of an array expression takes.
#[cycle(slots)]
pub fn parts_slots(t: &Term) -> Result<usize, OutOfMemory>
    ensures { IfOk result (λ n. n ≡ parts_slots (term t.now)) }
{
    match t {
        Term::Number(_) | Term::Scalar(_) | Term::Index(_) => Ok(0),
        Term::Element(_, subscripts) => element_slots(subscripts),
        Term::Section(_, subscripts) => subscripts_slots(subscripts),
        Term::Apply(_, operands) => all_parts_slots(operands),
        Term::Reduce(_, t) => reduction_slots(t),
    }
}

/// The slots of array expressions together.
#[cycle(slots)]
pub(crate) fn all_parts_slots(terms: &[Term]) -> Result<usize, OutOfMemory>
    ensures { IfOk result (λ n. n ≡ all_parts_slots (terms_of terms.now)) }
{
    let mut sum = 0;
    for t in terms {
        sum = plus(sum, parts_slots(t)?)?;
    }
    Ok(sum)
}

/// How many slots the code of the three values of a control takes, beside those that get them.
pub fn control_slots(c: &Control) -> Result<usize, OutOfMemory>
    ensures { IfOk result (λ n. n ≡ control_slots (control c.now)) }
{
    plus_three(slots_of(&c.first)?, slots_of(&c.last)?, slots_of(&c.step)?)
}
