//! The bounds of a whole array, as the header of a FORALL. An `Err` is want of memory here.

ghost use Rattle.std.specs.Prelude.{◌≡◌, ◌++◌, IfOk, OnOk, map};
ghost use Rattle.array_meaning.specs.Resolution.{whole};
ghost use Rattle.node_code.specs.Texts.{instructions, subs};
ghost use Rattle.resolved_program.specs.Resolved.{control};
ghost use Rattle.program_code.specs.ExpressionCode.{subs_of, subscripts_code, subscripts_slots};
ghost use Rattle.program_code.specs.StatementCode.{triplets};

use crate::forall_header::{add_header, header_subs};
use expression_code::plus;
use expression_rules::Dim;
use hpf_base::OutOfMemory;
use node_code::{Instruction, Sub};
use resolved_program::{Control, Term};
use std::alloc::Global;

/// How many slots the code of the bounds takes.
pub(crate) fn bounds_slots(dims: &[Dim]) -> Result<usize, OutOfMemory>
    ensures { IfOk result (λ n. n ≡ subscripts_slots (whole dims.now)) }
{
    let mut sum = 0;
    for _d in dims {
        sum = plus(sum, 3)?;
    }
    Ok(sum)
}

/// The bounds, as the indices of a header.
fn bounds_of(alloc: Global, dims: &[Dim]) -> Result<Vec<Control>, OutOfMemory>
    ensures { IfOk result (λ v. triplets (map control v.items) ≡ whole dims.now) }
{
    let mut bounds = Vec::new(alloc);
    for d in dims {
        bounds.push(Control {
            first: Term::Number(d.lower),
            last: Term::Number(d.upper),
            step: Term::Number(1),
        })?;
    }
    Ok(bounds)
}

/// Puts the code of the bounds.
pub(crate) fn add_bounds(
    alloc: Global,
    code: &mut Vec<Instruction>,
    line: u32,
    b: usize,
    dims: &[Dim],
) -> Result<(), OutOfMemory>
    ensures { OnOk result (instructions code.new.items ≡ instructions code.old.items ++ subscripts_code line b (whole dims.now)) }
{
    let bounds = bounds_of(alloc, dims)?;
    add_header(alloc, code, line, b, &bounds)
}

/// The subscripts of the whole array, after the code of its bounds.
pub(crate) fn bounds_subs(alloc: Global, b: usize, dims: &[Dim]) -> Result<Vec<Sub>, OutOfMemory>
    ensures { IfOk result (λ ds. subs ds.items ≡ subs_of b (whole dims.now)) }
{
    let bounds = bounds_of(alloc, dims)?;
    header_subs(alloc, b, &bounds)
}
