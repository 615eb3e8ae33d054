//! The numbers in statements.

ghost use Rattle.array_meaning.specs.Statements.{Arms};
ghost use Rattle.fitting_states.specs.FittingStates.{ArmsFit, BlockFits, StatementFits, TransformationFits};
ghost use Rattle.resolved_program.specs.Resolved.{arms_of, block_of, statement, transformation, with_arm};

use crate::assignments::{
    control_fits, controls_fit, element_assignments_fit, mask_fits, section_assignments_fit,
};
use crate::terms::{subscripts_fit, term_fits, terms_fit};
use resolved_program::{Action, Arm, Statement, Transformation};

/// The numbers in the statements of a resolved program are of 64 bits: its types hold no others. It reads each of them, those of PRINT aside, takes
/// no memory and changes nothing.
pub fn numbers_fit(body: &Vec<Statement>)
    ensures { BlockFits (block_of body.now.items) }
{
    block_fits(body)
}

/// The numbers in a block fit.
#[cycle(block_fits)]
fn block_fits(statements: &[Statement])
    ensures { BlockFits (block_of statements.now) }
{
    for s in statements {
        statement_fits(&s.what);
    }
}

/// The numbers in a statement fit.
#[cycle(block_fits)]
fn statement_fits(s: &Action)
    ensures { StatementFits (statement s.now) }
{
    match s {
        Action::AssignScalar(_, right) => term_fits(right),
        Action::AssignElement(_, subscripts, right) => {
            terms_fit(subscripts);
            term_fits(right);
        }
        Action::AssignSection(_, subscripts, right) => {
            subscripts_fit(subscripts);
            term_fits(right);
        }
        Action::Transform(_, _, how) => transformation_fits(how),
        Action::If(arms, other) => {
            arms_fit(arms);
            block_fits(other);
        }
        Action::Do(_, l, body) => {
            control_fits(&l.control);
            block_fits(body);
        }
        Action::Where(mask, body, others) => {
            term_fits(mask);
            section_assignments_fit(body);
            section_assignments_fit(others);
        }
        Action::Forall(controls, mask, body) => {
            controls_fit(controls);
            mask_fits(mask);
            element_assignments_fit(body);
        }
        Action::Print(_)
        | Action::Stop
        | Action::Exit
        | Action::Cycle
        | Action::Continue
        | Action::Redistribute => {}
    }
}

/// The numbers in what makes of a whole array a whole array fit.
fn transformation_fits(how: &Transformation)
    ensures { TransformationFits (transformation how.now) }
{
    match how {
        Transformation::CircularShift(by) => term_fits(by),
        Transformation::Transposition => {}
        Transformation::PrefixSum => {}
    }
}

/// The numbers in an IF and its ELSE IFs fit.
#[cycle(block_fits)]
fn arms_fit(arms: &[Arm])
    ensures { ArmsFit (arms_of arms.now) }
{
    for a in arms {
        arm_fits(a);
    }
}

/// The numbers in a condition and its block fit.
#[cycle(block_fits)]
fn arm_fits(a: &Arm)
    ensures { (rest : Arms) → ArmsFit rest → ArmsFit (with_arm a.now rest) }
{
    term_fits(&a.condition);
    block_fits(&a.body);
}
