//! Statements, one after the other (Fortran 95, 8.1).

ghost use Rattle.std.specs.Prelude.{◌≡◌, ◌+◌, IfOk};
ghost use Rattle.node_code.specs.Texts.{instructions};
ghost use Rattle.resolved_program.specs.Resolved.{arms_of, block_of, statement};
ghost use Rattle.program_code.specs.StatementCode.{block_code, statement_code};
ghost use Rattle.node_codegen.specs.Arms.{AreArms, IsArm, codes};
ghost use Rattle.node_codegen.specs.Moves.{moves_by};

use crate::array_assignments::assignment_code;
use crate::element_assignments::{element_code, scalar_code};
use crate::forall::forall_code;
use crate::if_construct::{ArmCodes, add_arm, condition_code, if_code};
use crate::loops::add_loop;
use crate::moves::{LineMoves, remap_code};
use crate::nest_code::marked_code;
use crate::nests::bounds_code;
use crate::print::print_code;
use crate::sequences::{only, place_after, place_past, put_at, with_more};
use crate::transformations::transform_code;
use crate::where_construct::where_code;
use expression_code::{control_slots, plus, slots_of};
use hpf_base::OutOfMemory;
use node_code::Instruction;
use resolved_program::{Action, Arm, Statement};
use std::alloc::Global;

/// The code of statements, one after the other, from the place `pc` on, with slots from `b` on, and with the places where EXIT and
/// CYCLE go; `copy` is the row of the first of the copies, so many names are declared.
#[cycle(code)]
pub(crate) fn block_code(
    alloc: Global,
    copy: usize,
    moves: &[LineMoves],
    statements: &[Statement],
    b: usize,
    pc: usize,
    leave: usize,
    again: usize,
) -> Result<Vec<Instruction>, OutOfMemory>
    ensures { IfOk result (λ v. instructions v.items ≡ block_code copy (moves_by moves.now) (block_of statements.now) b pc leave again) }
{
    let mut code = Vec::new(alloc);
    let mut at = pc;
    for s in statements {
        let one = statement_code(alloc, copy, moves, s.line, &s.what, b, at, leave, again)?;
        at = put_at(&mut code, at, one)?;
    }
    Ok(code)
}

/// The code of a statement of a line. A nest of INDEPENDENT loops with statements takes the place of its loops.
#[cycle(code)]
fn statement_code(
    alloc: Global,
    copy: usize,
    moves: &[LineMoves],
    line: u32,
    s: &Action,
    b: usize,
    pc: usize,
    leave: usize,
    again: usize,
) -> Result<Vec<Instruction>, OutOfMemory>
    ensures { IfOk result (λ v. instructions v.items ≡ statement_code copy (moves_by moves.now) line (statement s.now) b pc leave again) }
{
    match s {
        Action::AssignScalar(slot, right) => scalar_code(alloc, line, b, *slot, right),
        Action::AssignElement(array, subscripts, right) => element_code(
            alloc, line, b, *array, subscripts, right,
        ),
        Action::AssignSection(array, subscripts, right) => assignment_code(
            alloc, line, b, *array, subscripts, right,
        ),
        Action::Transform(target, source, how) => transform_code(
            alloc, copy, line, b, target, source, how,
        ),
        Action::If(arms, other) => {
            let made = arm_codes(alloc, copy, moves, arms, b, pc, leave, again)?;
            let rest = block_code(alloc, copy, moves, other, b, made.after, leave, again)?;
            if_code(alloc, made, rest)
        }
        Action::Do(nest, l, body) => {
            let first = plus(b, control_slots(&l.control)?)?;
            let mut head = bounds_code(alloc, line, b, first, nest, l, body)?;
            let at = place_after(pc, &head)?;
            match marked_code(alloc, copy, line, nest, l, body, first, at)? {
                Some(turns) => with_more(head, turns),
                None => {
                    let inner = body_code(alloc, copy, moves, body, first, at)?;
                    add_loop(alloc, &mut head, line, at, first, l.index, inner)?;
                    Ok(head)
                }
            }
        }
        Action::Where(mask, body, others) => where_code(alloc, copy, line, b, mask, body, others),
        Action::Forall(controls, mask, body) => forall_code(
            alloc, copy, line, b, controls, mask, body,
        ),
        Action::Print(items) => print_code(alloc, line, b, items),
        Action::Stop => only(alloc, Instruction::Halt),
        Action::Exit => only(alloc, Instruction::Jump { target: leave }),
        Action::Cycle => only(alloc, Instruction::Jump { target: again }),
        Action::Continue => Ok(Vec::new(alloc)),
        Action::Redistribute => remap_code(alloc, line, moves),
    }
}

/// The code of the body of a loop at the place `pc`, which keeps the four slots from `first` on.
#[cycle(code)]
fn body_code(
    alloc: Global,
    copy: usize,
    moves: &[LineMoves],
    body: &[Statement],
    first: usize,
    pc: usize,
) -> Result<Vec<Instruction>, OutOfMemory>
    ensures { IfOk result (λ v. instructions v.items ≡ block_code copy (moves_by moves.now) (block_of body.now) (first + 4) (pc + 8) (pc + 3) (pc + 4)) }
{
    let b = plus(first, 4)?;
    let inside = plus(pc, 8)?;
    let leave = plus(pc, 3)?;
    let again = plus(pc, 4)?;
    block_code(alloc, copy, moves, body, b, inside, leave, again)
}

/// The codes of IF and its ELSE IFs, in order.
#[cycle(code)]
fn arm_codes(
    alloc: Global,
    copy: usize,
    moves: &[LineMoves],
    arms: &[Arm],
    b: usize,
    pc: usize,
    leave: usize,
    again: usize,
) -> Result<ArmCodes, OutOfMemory>
    ensures { IfOk result (λ r. AreArms copy (moves_by moves.now) (arms_of arms.now) b pc leave again (codes r.codes.items) r.after) }
{
    let mut codes = Vec::new(alloc);
    let mut after = pc;
    for arm in arms {
        let one = code_of_arm(alloc, copy, moves, arm, b, after, leave, again)?;
        after = place_past(after, &one)?;
        codes.push(one)?;
    }
    Ok(ArmCodes { codes, after })
}

/// The code of an arm, without its jump to the end of the IF.
#[cycle(code)]
fn code_of_arm(
    alloc: Global,
    copy: usize,
    moves: &[LineMoves],
    a: &Arm,
    b: usize,
    pc: usize,
    leave: usize,
    again: usize,
) -> Result<Vec<Instruction>, OutOfMemory>
    ensures { IfOk result (λ v. IsArm copy (moves_by moves.now) a.now b pc leave again (instructions v.items)) }
{
    let slot = plus(b, slots_of(&a.condition)?)?;
    let mut code = condition_code(alloc, a.line, b, &a.condition)?;
    let inside = place_past(pc, &code)?;
    let body = block_code(alloc, copy, moves, &a.body, b, inside, leave, again)?;
    add_arm(&mut code, pc, slot, body)?;
    Ok(code)
}
