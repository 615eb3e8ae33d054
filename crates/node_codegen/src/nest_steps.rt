//! The steps of the loops of a nest, which are constants.

ghost use Rattle.std.specs.Prelude.{◌≡◌, option_and_then, option_map, IfOk};
ghost use Rattle.nest_syntax.specs.ClosedTerms.{closed_value, closed_values};
ghost use Rattle.program_code.specs.NestCode.{step_flat};
ghost use Rattle.node_code.specs.Texts.{flat};
ghost use Rattle.op_tables.specs.Operators.{operator_value};
ghost use Rattle.resolved_program.specs.Resolved.{term, terms_of};

use hpf_base::OutOfMemory;
use node_code::Flat;
use op_tables::{Op, apply};
use resolved_program::Term;
use std::alloc::Global;

/// A step, as the number that it is.
pub(crate) fn step_flat(alloc: Global, t: &Term) -> Result<Flat, OutOfMemory>
    ensures { IfOk result (λ f. flat f ≡ step_flat (term t.now)) }
{
    match closed_value(alloc, t)? {
        Some(n) => Ok(Flat::Int(n)),
        None => Ok(Flat::Int(0)),
    }
}

/// The value of an expression of numbers and operators, where it has one.
#[cycle(closed_value)]
fn closed_value(alloc: Global, t: &Term) -> Result<Option<i64>, OutOfMemory>
    ensures { IfOk result (λ v. v ≡ closed_value (term t.now)) }
{
    match t {
        Term::Number(n) => Ok(Some(*n)),
        Term::Apply(op, operands) => operation_value(alloc, *op, operands),
        _ => Ok(None),
    }
}

/// That of an operator.
#[cycle(closed_value)]
fn operation_value(alloc: Global, op: Op, operands: &[Term]) -> Result<Option<i64>, OutOfMemory>
    ensures { IfOk result (λ v. v ≡ option_and_then (operator_value op) (closed_values (terms_of operands.now))) }
{
    match closed_values(alloc, operands)? {
        Some(values) => Ok(apply(op, &values).ok()),
        None => Ok(None),
    }
}

/// Those of its operands, where each has one.
#[cycle(closed_value)]
fn closed_values(alloc: Global, terms: &[Term]) -> Result<Option<Vec<i64>>, OutOfMemory>
    ensures { IfOk result (λ vs. option_map (λ v. v.items) vs ≡ closed_values (terms_of terms.now)) }
{
    let mut values = Vec::new(alloc);
    for t in terms {
        match closed_value(alloc, t)? {
            Some(v) => values.push(v)?,
            None => return Ok(None),
        }
    }
    Ok(Some(values))
}
