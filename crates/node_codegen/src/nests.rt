//! The entry of a nest of INDEPENDENT loops (HPF 2.0, 5.1).

ghost use Rattle.std.specs.Prelude.{◌≡◌, ◌++◌, Some, IfOk};
ghost use Rattle.array_meaning.specs.Terms.{Scalar};
ghost use Rattle.node_code.specs.Texts.{instructions};
ghost use Rattle.resolved_program.specs.Resolved.{block_of, loop_of, mark};
ghost use Rattle.program_code.specs.ExpressionCode.{control_code};
ghost use Rattle.program_code.specs.StatementCode.{entry_code};

use crate::sequences::with_more;
use expression_code::{control_code, plus};
use hpf_base::OutOfMemory;
use node_code::Instruction;
use resolved_program::{Control, Loop, Nest, Statement, Term, copied, copied_nest};
use std::alloc::Global;

/// The code of a loop before its turns: its first value, last value and step into three slots from `first` on, and what is asked at the
/// entry of the nest, if it is the outermost loop of one.
pub(crate) fn bounds_code(
    alloc: Global,
    line: u32,
    b: usize,
    first: usize,
    nest: &Option<Nest>,
    l: &Loop,
    body: &Vec<Statement>,
) -> Result<Vec<Instruction>, OutOfMemory>
    ensures { IfOk result (λ v. instructions v.items
        ≡ control_code line b (loop_of l.now).control ++ entry_code line (mark nest.now (loop_of l.now) (block_of body.now.items)) first) }
{
    let bounds = control_code(alloc, line, b, &l.control)?;
    match nest {
        None => Ok(bounds),
        Some(nest) => {
            let entry = entry_code(alloc, line, first, nest, l, body)?;
            with_more(bounds, entry)
        }
    }
}

/// What is asked at the entry of a nest with this outermost loop, whose bounds stand in three slots from `first` on.
fn entry_code(
    alloc: Global,
    line: u32,
    first: usize,
    nest: &Nest,
    l: &Loop,
    body: &Vec<Statement>,
) -> Result<Vec<Instruction>, OutOfMemory>
    ensures { IfOk result (λ v. instructions v.items ≡ entry_code line (mark (Some nest.now) (loop_of l.now) (block_of body.now.items)) first) }
{
    let last = plus(first, 1)?;
    let slot = plus(first, 2)?;
    let nest = copied_nest(alloc, nest)?;
    let body = copied(alloc, body)?;
    let stride = Instruction::TestStride { line, slot };
    let check = Instruction::Check {
        line,
        nest,
        outermost: with_bounds(l.index, first, last, slot),
        body,
    };
    Ok(vec![in alloc; stride, check]?)
}

/// A loop over an index, whose first value, last value and step stand in three slots.
fn with_bounds(index: usize, first: usize, last: usize, step: usize) -> Loop
    ensures { loop_of result ≡ record { index = index; control = record { first = Scalar first; last = Scalar last; step = Scalar step } } }
{
    let control = Control {
        first: Term::Scalar(first),
        last: Term::Scalar(last),
        step: Term::Scalar(step),
    };
    Loop { index, control }
}
