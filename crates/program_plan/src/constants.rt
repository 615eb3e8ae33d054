//! Values of constant terms: the arguments of SIZE, LBOUND and UBOUND after the array (Fortran 95, 13.14).

ghost use Rattle.std.specs.Prelude.{◌≡◌, drop, pos, unwrap_or, IfOk};
ghost use Rattle.expression_rules.specs.Dims.{AreDims};
ghost use Rattle.op_tables.specs.Operators.{operator_value};
ghost use Rattle.array_meaning.specs.Resolution.{constant, constants, inquiry, or_zero};
ghost use Rattle.resolved_program.specs.Resolved.{term, terms_of};

use expression_rules::{Dim, Evaluated, Numbers, inquired};
use hpf_base::OutOfMemory;
use op_tables::{Op, apply};
use resolved_program::Term;
use std::alloc::Global;

/// SIZE, LBOUND or UBOUND of an array of these dimensions, with all arguments. An `Err` is want of memory.
pub(crate) fn inquiry(
    alloc: Global,
    op: Op,
    dims: &[Dim],
    arguments: &[Term],
) -> Result<Term, OutOfMemory>
    requires { AreDims dims.now }
    ensures { IfOk result (λ t. term t ≡ inquiry op dims.now (terms_of arguments.now)) }
{
    let numbers = constants(alloc, arguments)?;
    let value = inquired(None, op, dims, after_first(numbers.as_slice()));
    Ok(Term::Number(or_zero(value)))
}

/// The value of a term of numbers and operators.
#[cycle(constant)]
fn constant(alloc: Global, t: &Term) -> Result<i64, OutOfMemory>
    ensures { IfOk result (λ n. n ≡ constant (term t.now)) }
{
    match t {
        Term::Number(n) => Ok(*n),
        Term::Apply(op, operands) => {
            let numbers = constants(alloc, operands)?;
            Ok(value_or_zero(*op, numbers.as_slice()))
        }
        _ => Ok(0),
    }
}

/// The values of such terms, in order.
#[cycle(constant)]
fn constants(alloc: Global, terms: &[Term]) -> Result<Numbers, OutOfMemory>
    ensures { IfOk result (λ ns. ns ≡ constants (terms_of terms.now)) }
{
    let mut numbers = Numbers::new(alloc);
    for t in terms {
        let number = constant(alloc, t)?;
        numbers.push(number)?;
    }
    Ok(numbers)
}

/// The value of an operator; 0 where it divides by zero.
fn value_or_zero(op: Op, numbers: &[i64]) -> i64
    ensures { result ≡ unwrap_or (operator_value op numbers.now) (pos 0) }
{
    apply(op, numbers).unwrap_or(0)
}

/// The value that is known, else 0.
fn or_zero(value: Evaluated<i64>) -> i64
    ensures { result ≡ or_zero value }
{
    match value {
        Evaluated::Known(n) => n,
        _ => 0,
    }
}

/// All but the first.
fn after_first(numbers: &[i64]) -> &[i64]
    ensures { result.now ≡ drop 1 numbers.now }
{
    match numbers.split_first() {
        Some((_, rest)) => rest,
        None => numbers,
    }
}
