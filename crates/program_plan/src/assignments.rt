//! Assignments with their names resolved. An `Err` is want of memory here.

ghost use Rattle.std.specs.Prelude.{◌≡◌, ◌++◌, [], map, IfOk, OnOk};
ghost use Rattle.syntax_tree.specs.Expression.{expression};
ghost use Rattle.syntax_tree.specs.Statement.{assignments_in, assignments_of, designator, variable};
ghost use Rattle.array_meaning.specs.Resolution.{assignment, element_assignments, left_of, section_assignments, term_of, transform_or, transformation_of};
ghost use Rattle.resolved_program.specs.Resolved.{element_assignment, section_assignment, statement, term};

use crate::expressions::{reference_term, term};
use crate::transformations::transform;
use hpf_base::{Name, OutOfMemory};
use name_table::Names;
use resolved_program::{Action, ElementAssignment, SectionAssignment, Term};
use std::alloc::Global;
use syntax_tree::{Expr, Ref, StatementKind, Stmt};

/// An assignment by itself, or the transformation that it is.
pub(crate) fn assignment(
    alloc: Global,
    names: &Names,
    left: &Ref,
    right: &Expr,
) -> Result<Action, OutOfMemory>
    ensures { IfOk result (λ a. statement a ≡ transform_or names.now (designator (variable left.now)) (transformation_of names.now (expression right.now))
        (assignment (left_of names.now [] (variable left.now)) (term_of names.now [] (expression right.now)))) }
{
    match transform(alloc, names, left, right)? {
        Some(what) => Ok(what),
        None => with_sides(alloc, names, left, right),
    }
}

/// An assignment that is no transformation.
fn with_sides(alloc: Global, names: &Names, left: &Ref, right: &Expr) -> Result<Action, OutOfMemory>
    ensures { IfOk result (λ a. statement a ≡ assignment (left_of names.now [] (variable left.now)) (term_of names.now [] (expression right.now))) }
{
    let left = left_side(alloc, names, &[], left)?;
    let right = term(alloc, names, &[], right)?;
    Ok(assignment_of(left, right))
}

/// An assignment with these sides.
fn assignment_of(left: Term, right: Term) -> Action
    ensures { statement result ≡ assignment (term left) (term right) }
{
    match left {
        Term::Scalar(k) => Action::AssignScalar(k, right),
        Term::Element(a, subscripts) => Action::AssignElement(a, subscripts, right),
        Term::Section(a, subscripts) => Action::AssignSection(a, subscripts, right),
        _ => Action::Continue,
    }
}

/// The left side of an assignment.
fn left_side(
    alloc: Global,
    names: &Names,
    indices: &[Name],
    left: &Ref,
) -> Result<Term, OutOfMemory>
    ensures { IfOk result (λ t. term t ≡ left_of names.now indices.now (variable left.now)) }
{
    reference_term(alloc, names, indices, left)
}

/// The assignments of a WHERE.
pub(crate) fn section_assignments(
    alloc: Global,
    names: &Names,
    stmts: &[Stmt],
) -> Result<Vec<SectionAssignment>, OutOfMemory>
    ensures { IfOk result (λ v. map section_assignment v.items ≡ section_assignments names.now (assignments_of stmts.now)) }
{
    let mut assignments = Vec::new(alloc);
    for stmt in stmts {
        add_section_assignment(alloc, names, stmt, &mut assignments)?;
    }
    Ok(assignments)
}

/// The assignment of a WHERE that a statement is, at the end.
fn add_section_assignment(
    alloc: Global,
    names: &Names,
    stmt: &Stmt,
    assignments: &mut Vec<SectionAssignment>,
) -> Result<(), OutOfMemory>
    ensures { OnOk result (map section_assignment assignments.new.items
        ≡ map section_assignment assignments.old.items ++ section_assignments names.now (assignments_in stmt.now.line stmt.now.what)) }
{
    let StatementKind::Assign { left, right } = &stmt.what else {
        return Ok(());
    };
    let left = left_side(alloc, names, &[], left)?;
    let right = term(alloc, names, &[], right)?;
    match left {
        Term::Section(array, subscripts) => {
            assignments.push(SectionAssignment {
                line: stmt.line,
                array,
                subscripts,
                right,
            })?;
            Ok(())
        }
        _ => Ok(()),
    }
}

/// The assignments of a FORALL with these indices.
pub(crate) fn element_assignments(
    alloc: Global,
    names: &Names,
    indices: &[Name],
    stmts: &[Stmt],
) -> Result<Vec<ElementAssignment>, OutOfMemory>
    ensures { IfOk result (λ v. map element_assignment v.items ≡ element_assignments names.now indices.now (assignments_of stmts.now)) }
{
    let mut assignments = Vec::new(alloc);
    for stmt in stmts {
        add_element_assignment(alloc, names, indices, stmt, &mut assignments)?;
    }
    Ok(assignments)
}

/// The assignment of a FORALL that a statement is, at the end.
fn add_element_assignment(
    alloc: Global,
    names: &Names,
    indices: &[Name],
    stmt: &Stmt,
    assignments: &mut Vec<ElementAssignment>,
) -> Result<(), OutOfMemory>
    ensures { OnOk result (map element_assignment assignments.new.items
        ≡ map element_assignment assignments.old.items ++ element_assignments names.now indices.now (assignments_in stmt.now.line stmt.now.what)) }
{
    let StatementKind::Assign { left, right } = &stmt.what else {
        return Ok(());
    };
    let left = left_side(alloc, names, indices, left)?;
    let right = term(alloc, names, indices, right)?;
    match left {
        Term::Element(array, subscripts) => {
            assignments.push(ElementAssignment {
                line: stmt.line,
                array,
                subscripts,
                right,
            })?;
            Ok(())
        }
        _ => Ok(()),
    }
}
