//! Array expressions over their own space, which is that of their first section. An `Err` is want of memory here.

ghost use Rattle.std.specs.Prelude.{◌≡◌, option_map, IfOk};
ghost use Rattle.program_code.specs.ExpressionCode.{first_subs, first_subs_of, form_of, forms_of, or_no_sub, own_evaluation};
ghost use Rattle.node_code.specs.Texts.{evaluation, subs};
ghost use Rattle.resolved_program.specs.Resolved.{term, terms_of};

use crate::slots::parts_slots;
use crate::sums::plus;
use crate::values::{form_of, subs_of};
use hpf_base::OutOfMemory;
use node_code::{Evaluation, Sub};
use resolved_program::Term;
use std::alloc::Global;

/// An array expression over its own space.
pub fn own_evaluation(
    alloc: Global,
    line: u32,
    b: usize,
    t: &Term,
) -> Result<Evaluation, OutOfMemory>
    ensures { IfOk result (λ e. evaluation e ≡ own_evaluation line (form_of b (term t.now))) }
{
    Ok(Evaluation {
        line,
        over: own_space(alloc, b, t)?,
        form: form_of(alloc, b, t)?,
        beside: None,
    })
}

/// The subscripts of the first section of an array expression; none where it has no section.
pub fn own_space(alloc: Global, b: usize, t: &Term) -> Result<Vec<Sub>, OutOfMemory>
    ensures { IfOk result (λ ds. subs ds.items ≡ or_no_sub (first_subs (form_of b (term t.now)))) }
{
    match first_subs(alloc, b, t)? {
        Some(ds) => Ok(ds),
        None => Ok(Vec::new(alloc)),
    }
}

/// The subscripts of the first section.
#[cycle(space)]
fn first_subs(alloc: Global, b: usize, t: &Term) -> Result<Option<Vec<Sub>>, OutOfMemory>
    ensures { IfOk result (λ r. option_map (λ ds. subs ds.items) r ≡ first_subs (form_of b (term t.now))) }
{
    match t {
        Term::Section(_, subscripts) => Ok(Some(subs_of(alloc, b, subscripts)?)),
        Term::Apply(_, operands) => first_subs_of(alloc, b, operands),
        _ => Ok(None),
    }
}

/// Those of the first section of several array expressions.
#[cycle(space)]
fn first_subs_of(alloc: Global, b: usize, terms: &[Term]) -> Result<Option<Vec<Sub>>, OutOfMemory>
    ensures { IfOk result (λ r. option_map (λ ds. subs ds.items) r ≡ first_subs_of (forms_of b (terms_of terms.now))) }
{
    let mut at = b;
    for t in terms {
        if let Some(ds) = first_subs(alloc, at, t)? {
            return Ok(Some(ds));
        }
        at = plus(at, parts_slots(t)?)?;
    }
    Ok(None)
}
