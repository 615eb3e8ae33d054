//! The scalars that are assigned in a nest.

ghost use Rattle.std.specs.Prelude.{◌≡◌, ◌++◌, OnOk};
ghost use Rattle.array_meaning.specs.Touches.{assigned_by, assigned_in, assigned_in_arms};
ghost use Rattle.resolved_program.specs.Resolved.{arms_of, block_of, statement};

use resolved_program::{Action, Arm, Statement};
use std::alloc::AllocError;

/// Puts the scalars that are assigned in a block after others. An `Err` is want of memory.
#[cycle(assigned)]
pub(crate) fn add_assigned(
    names: &mut Vec<usize>,
    statements: &Vec<Statement>,
) -> Result<(), AllocError>
    ensures { OnOk result (names.new.items ≡ names.old.items ++ assigned_in (block_of statements.now.items)) }
{
    for stmt in statements {
        add_assigned_by(names, stmt)?;
    }
    Ok(())
}

/// Puts those that are assigned by one statement after others.
#[cycle(assigned)]
fn add_assigned_by(names: &mut Vec<usize>, stmt: &Statement) -> Result<(), AllocError>
    ensures { OnOk result (names.new.items ≡ names.old.items ++ assigned_by (statement stmt.now.what)) }
{
    match &stmt.what {
        Action::AssignScalar(k, _) => {
            names.push(*k)?;
            Ok(())
        }
        Action::If(arms, other) => {
            add_assigned_in_arms(names, arms)?;
            add_assigned(names, other)
        }
        Action::Do(_, _, body) => add_assigned(names, body),
        _ => Ok(()),
    }
}

/// Puts those that are assigned in arms of an IF after others.
#[cycle(assigned)]
fn add_assigned_in_arms(names: &mut Vec<usize>, arms: &Vec<Arm>) -> Result<(), AllocError>
    ensures { OnOk result (names.new.items ≡ names.old.items ++ assigned_in_arms (arms_of arms.now.items)) }
{
    for arm in arms {
        add_assigned(names, &arm.body)?;
    }
    Ok(())
}
