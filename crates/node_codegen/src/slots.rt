//! How many slots the code of statements takes.

ghost use Rattle.std.specs.Prelude.{◌≡◌, IfOk, max};
ghost use Rattle.resolved_program.specs.Resolved.{arms_of, block_of, statement, with_arm};
ghost use Rattle.program_code.specs.StatementCode.{arms_slots, block_slots, statement_slots};
ghost use Rattle.array_meaning.specs.Statements.{Arms};

use crate::forall_header::header_slots;
use crate::nest_code::marked_slots;
use crate::print::items_slots;
use crate::transformations::transform_slots;
use crate::where_construct::masked_slots;
use expression_code::{all_slots_of, control_slots, parts_slots, plus, slots_of, subscripts_slots};
use hpf_base::OutOfMemory;
use resolved_program::{Action, Arm, Statement};

/// How many slots the code of statements takes, one after the other: they take the same ones.
#[cycle(slots)]
pub(crate) fn block_slots(statements: &[Statement]) -> Result<usize, OutOfMemory>
    ensures { IfOk result (λ n. n ≡ block_slots (block_of statements.now)) }
{
    let mut most = 0;
    for s in statements {
        let here = statement_slots(&s.what)?;
        most = most.max(here);
    }
    Ok(most)
}

/// How many the code of a statement takes.
#[cycle(slots)]
fn statement_slots(s: &Action) -> Result<usize, OutOfMemory>
    ensures { IfOk result (λ n. n ≡ statement_slots (statement s.now)) }
{
    match s {
        Action::AssignScalar(_, right) => slots_of(right),
        Action::AssignElement(_, subscripts, right) => plus(
            all_slots_of(subscripts)?,
            slots_of(right)?,
        ),
        Action::AssignSection(_, subscripts, right) => plus(
            subscripts_slots(subscripts)?,
            parts_slots(right)?,
        ),
        Action::Transform(target, source, how) => transform_slots(target, source, how),
        Action::If(arms, other) => {
            let most = arms_slots(arms)?;
            let rest = block_slots(other)?;
            Ok(most.max(rest))
        }
        Action::Do(nest, l, body) => {
            let head = control_slots(&l.control)?;
            match marked_slots(nest, body)? {
                Some(taken) => {
                    let all = plus(head, taken)?;
                    Ok(all)
                }
                None => {
                    let inner = block_slots(body)?;
                    let all = plus(head, plus(4, inner)?)?;
                    Ok(all)
                }
            }
        }
        Action::Where(mask, body, others) => {
            let most = masked_slots(body)?;
            let rest = masked_slots(others)?;
            plus(parts_slots(mask)?, most.max(rest))
        }
        Action::Forall(controls, _, _) => header_slots(controls),
        Action::Print(items) => items_slots(items),
        _ => Ok(0),
    }
}

/// How many the codes of IF and its ELSE IFs take.
#[cycle(slots)]
fn arms_slots(arms: &[Arm]) -> Result<usize, OutOfMemory>
    ensures { IfOk result (λ n. n ≡ arms_slots (arms_of arms.now)) }
{
    let mut most = 0;
    for a in arms {
        let here = arm_slots(a)?;
        most = most.max(here);
    }
    Ok(most)
}

/// How many the code of one of them takes.
#[cycle(slots)]
fn arm_slots(a: &Arm) -> Result<usize, OutOfMemory>
    ensures { IfOk result (λ n. (tail : Arms) → max n (arms_slots tail) ≡ arms_slots (with_arm a.now tail)) }
{
    let test = plus(slots_of(&a.condition)?, 1)?;
    let body = block_slots(&a.body)?;
    Ok(test.max(body))
}
