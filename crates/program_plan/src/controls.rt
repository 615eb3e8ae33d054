//! The values that indices of DO and FORALL take. An `Err` is want of memory here.

ghost use Rattle.std.specs.Prelude.{◌≡◌, [], map, option_map, IfOk};
ghost use Rattle.syntax_tree.specs.Expression.{expression};
ghost use Rattle.syntax_tree.specs.Statement.{axis};
ghost use Rattle.array_meaning.specs.Resolution.{control_of, step_of, term_of};
ghost use Rattle.resolved_program.specs.Resolved.{control, term};

use crate::expressions::term;
use hpf_base::{Name, OutOfMemory};
use name_table::Names;
use resolved_program::{Control, Term};
use std::alloc::Global;
use syntax_tree::{Expr, Header};

/// A first value, a last value and a step, which is 1 where it is left out (Fortran 95, 8.1.4.1.1).
pub(crate) fn control(
    alloc: Global,
    names: &Names,
    first: &Expr,
    last: &Expr,
    step: &Option<Expr>,
) -> Result<Control, OutOfMemory>
    ensures { IfOk result (λ c. control c ≡ record {
      first = term_of names.now [] (expression first.now);
      last = term_of names.now [] (expression last.now);
      step = step_of names.now [] (option_map expression step.now);
    }) }
{
    let first = term(alloc, names, &[], first)?;
    let last = term(alloc, names, &[], last)?;
    let step = step_of(alloc, names, step)?;
    Ok(Control { first, last, step })
}

/// A step.
fn step_of(alloc: Global, names: &Names, step: &Option<Expr>) -> Result<Term, OutOfMemory>
    ensures { IfOk result (λ t. term t ≡ step_of names.now [] (option_map expression step.now)) }
{
    match step {
        None => Ok(Term::Number(1)),
        Some(e) => term(alloc, names, &[], e),
    }
}

/// The values of the indices of a FORALL.
pub(crate) fn controls(
    alloc: Global,
    names: &Names,
    axes: &[Header],
) -> Result<Vec<Control>, OutOfMemory>
    ensures { IfOk result (λ cs. map control cs.items ≡ map (control_of names.now []) (map axis axes.now)) }
{
    let mut controls = Vec::new(alloc);
    for x in axes {
        let one = control(alloc, names, &x.first, &x.last, &x.step)?;
        controls.push(one)?;
    }
    Ok(controls)
}

/// The indices of a FORALL, in order.
pub(crate) fn indices(alloc: Global, axes: &[Header]) -> Result<Vec<Name>, OutOfMemory>
    ensures { IfOk result (λ xs. xs.items ≡ map (λ x. x.index) (map axis axes.now)) }
{
    let mut indices = Vec::new(alloc);
    for x in axes {
        indices.push(x.name)?;
    }
    Ok(indices)
}
