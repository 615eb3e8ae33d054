//! How many rows the code of statements takes after those of the declared names.

ghost use Rattle.std.specs.Prelude.{◌≡◌, IfOk, max};
ghost use Rattle.array_meaning.specs.Statements.{Arms};
ghost use Rattle.program_code.specs.StatementCode.{arms_copies, block_copies, statement_copies};
ghost use Rattle.resolved_program.specs.Resolved.{arms_of, block_of, statement, with_arm};

use crate::nest_code::marked_copies;
use hpf_base::OutOfMemory;
use resolved_program::{Action, Arm, Statement};
use std::alloc::Global;

/// How many the code of statements takes after so many names, one after the other: they take the same ones. One is there for masks and
/// for prefix sums.
#[cycle(copies)]
pub(crate) fn block_copies(
    alloc: Global,
    names: usize,
    statements: &[Statement],
) -> Result<usize, OutOfMemory>
    ensures { IfOk result (λ n. n ≡ block_copies names (block_of statements.now)) }
{
    let mut most: usize = 0;
    for s in statements {
        let here = statement_copies(alloc, names, &s.what)?;
        most = most.max(here);
    }
    Ok(most.max(1))
}

/// How many the code of a statement takes.
#[cycle(copies)]
fn statement_copies(alloc: Global, names: usize, s: &Action) -> Result<usize, OutOfMemory>
    ensures { IfOk result (λ n. n ≡ statement_copies names (statement s.now)) }
{
    match s {
        Action::If(arms, other) => {
            let most = arms_copies(alloc, names, arms)?;
            let rest = block_copies(alloc, names, other)?;
            Ok(most.max(rest))
        }
        Action::Do(nest, _, body) => match marked_copies(alloc, names, nest, body)? {
            Some(rows) => Ok(rows),
            None => {
                let rows = block_copies(alloc, names, body)?;
                Ok(rows)
            }
        },
        _ => Ok(0),
    }
}

/// How many the codes of IF and its ELSE IFs take.
#[cycle(copies)]
fn arms_copies(alloc: Global, names: usize, arms: &[Arm]) -> Result<usize, OutOfMemory>
    ensures { IfOk result (λ n. n ≡ arms_copies names (arms_of arms.now)) }
{
    let mut most: usize = 0;
    for a in arms {
        let here = arm_copies(alloc, names, a)?;
        most = most.max(here);
    }
    Ok(most)
}

/// How many the code of one of them takes.
#[cycle(copies)]
fn arm_copies(alloc: Global, names: usize, a: &Arm) -> Result<usize, OutOfMemory>
    ensures { IfOk result (λ n. (tail : Arms) → max n (arms_copies names tail) ≡ arms_copies names (with_arm a.now tail)) }
{
    let rows = block_copies(alloc, names, &a.body)?;
    Ok(rows)
}
