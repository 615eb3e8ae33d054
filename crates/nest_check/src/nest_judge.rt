//! The rules of the statements in a nest, one by one (HPF 2.0, 5.1).

ghost use Rattle.std.specs.Prelude.{◌≡◌, ◌++◌, ◌&&◌, not, option_map, map, IfOk};
ghost use Rattle.std.specs.List.{flat_map, list_all};
ghost use Rattle.hpf_base.specs.FirstBreach.{least};
ghost use Rattle.hpf_base.specs.declared.refusal.Reason.TheVariants as reason;
ghost use Rattle.declarations.specs.Reasons.{at, when};
ghost use Rattle.syntax_tree.specs.Expression.{expression, parts_of, subscript};
ghost use Rattle.syntax_tree.specs.Statement.{block_of, independent, variable};
ghost use Rattle.statement_walk.specs.Heads.{all_heads};
ghost use Rattle.statement_walk.specs.Head.{Do};
ghost use Rattle.statement_walk.specs.Views.{head_of};
ghost use Rattle.body_forms.specs.Axes.{axis_of};
ghost use Rattle.nest_check.specs.NestNames.{reduction_operator};
ghost use Rattle.nest_check.specs.NestRules.{are_linear_inside, head_expressions, is_assignable, is_assignment_allowed, is_single};
ghost use Rattle.nest_check.specs.NestRules.{keeps_nest_rules, nest_breaches_at, own_variable};
ghost use Rattle.body_forms.specs.Subscripts.{items};

use crate::inner_axes::is_axis_allowed;
use crate::nest_lists::are_well_listed;
use crate::nest_names::NestNames;
use crate::nest_tests::{LinearSubscripts, StandingInNest};
use body_forms::{
    all_pass, axis_passes, formats_pass, headers_pass, items_pass, option_passes, sides_pass,
};
use hpf_base::{Name, Reason, Refusal};
use op_tables::Join;
use statement_walk::{Head, Judge, first_bad};
use std::alloc::{AllocError, Global};
use syntax_tree::{Expr, Mark, Ref, Stmt, Subscript};

/// Judges the statements in the body of a nest.
#[derive(Clone, Copy)]
struct InNest<'a> {
    names: &'a NestNames<'a>,
}

impl<'a> Judge for InNest<'a> {
    ghost use Rattle.nest_check.specs.NestRules.{nest_breaches_at};

    ghost breaches = { λ j p. nest_breaches_at j.names.now p };

    fn judge(
        &self,
        alloc: Global,
        line: u32,
        do_variables: &[Name],
        head: Head<'_>,
    ) -> Result<Option<Refusal>, AllocError> {
        let linear = are_linear_inside(self.names, head);
        let kept = keeps_nest_rules(alloc, self.names, do_variables, head)?;
        Ok(refused_unless(linear, kept, line))
    }
}

/// The first breach of these rules in the body of a nest, where there is one. An `Err` is want of memory, here and below.
pub(crate) fn first_bad_statement(
    alloc: Global,
    names: &NestNames<'_>,
    stmts: &[Stmt],
) -> Result<Option<Refusal>, AllocError>
    ensures { IfOk result (λ r. r ≡ least (flat_map (nest_breaches_at names.now) (all_heads (block_of stmts.now)))) }
{
    let judge = InNest { names };
    first_bad(alloc, &judge, stmts)
}

/// The breach at a line where subscripts aren't linear, or else another rule isn't kept.
pub(crate) fn refused_unless(linear: bool, kept: bool, line: u32) -> Option<Refusal>
    ensures { result ≡ least (at line (when (not linear) reason.BadSubscript ++ when (not kept) reason.BadIndependent)) }
{
    if !linear {
        Some(Refusal {
            line,
            reason: Reason::BadSubscript,
        })
    } else if !kept {
        Some(Refusal {
            line,
            reason: Reason::BadIndependent,
        })
    } else {
        None
    }
}

/// The subscripts in a statement are linear in at most one index each.
fn are_linear_inside(names: &NestNames<'_>, head: Head<'_>) -> bool
    ensures { result ≡ are_linear_inside names.now (head_expressions (head_of head.entry)) }
{
    let body = names.body_names();
    let test = LinearSubscripts { names: &body };
    match head {
        Head::Assignment(left, right) => sides_pass(&test, left, right),
        Head::MaskedAssignment(_, left, right) => sides_pass(&test, left, right),
        Head::ForallAssignment(_, left, right) => sides_pass(&test, left, right),
        Head::Condition(cond) => all_pass(&test, cond),
        Head::Do(_, _, first, last, step) => axis_passes(&test, first, last, step),
        Head::Where(mask) => all_pass(&test, mask),
        Head::Forall(axes, mask) => headers_pass(&test, axes) && option_passes(&test, mask),
        Head::Print(items) => items_pass(&test, items),
        Head::Independent(_) | Head::Transfer => true,
        Head::Redistribute(spec) => formats_pass(&test, &spec.formats),
    }
}

/// A statement may stand in a nest, inside inner loops with these indices.
fn keeps_nest_rules(
    alloc: Global,
    names: &NestNames<'_>,
    do_variables: &[Name],
    head: Head<'_>,
) -> Result<bool, AllocError>
    ensures { IfOk result (λ b. b ≡ keeps_nest_rules names.now do_variables.now (head_of head.entry)) }
{
    match head {
        Head::Assignment(left, right) => {
            Ok(is_assignment_allowed(names, do_variables, left, right))
        }
        Head::Condition(cond) => {
            let test = StandingInNest {
                names,
                do_variables,
                own: None,
            };
            Ok(all_pass(&test, cond))
        }
        Head::Independent(mark) => are_well_listed(alloc, names, mark),
        Head::Do(mark, _, first, last, step) => {
            is_loop_allowed(alloc, names, do_variables, mark, first, last, step)
        }
        _ => Ok(false),
    }
}

/// A loop with this mark may stand there.
fn is_loop_allowed(
    alloc: Global,
    names: &NestNames<'_>,
    do_variables: &[Name],
    mark: &Option<Mark>,
    first: &Expr,
    last: &Expr,
    step: &Option<Expr>,
) -> Result<bool, AllocError>
    ensures { IfOk result (λ b. b ≡ keeps_nest_rules names.now do_variables.now (Do (option_map independent mark.now) (axis_of first.now last.now step.now))) }
{
    match mark {
        None => is_axis_allowed(alloc, names, do_variables, first, last, step),
        Some(_) => Ok(false),
    }
}

/// An assignment may stand there.
fn is_assignment_allowed(
    names: &NestNames<'_>,
    do_variables: &[Name],
    left: &Ref,
    right: &Expr,
) -> bool
    ensures { result ≡ is_assignment_allowed names.now do_variables.now (variable left.now) (expression right.now)
        (reduction_operator names.now.reduction_names (variable left.now) (expression right.now)) }
{
    let operator = names.reduction_operator(left, right);
    is_allowed_with(names, do_variables, left, right, operator)
}

/// An assignment may stand there, with the operator that it has as a reduction statement.
fn is_allowed_with(
    names: &NestNames<'_>,
    do_variables: &[Name],
    left: &Ref,
    right: &Expr,
    operator: Option<Join>,
) -> bool
    ensures { result ≡ is_assignment_allowed names.now do_variables.now (variable left.now) (expression right.now) operator }
{
    let test = StandingInNest {
        names,
        do_variables,
        own: own_variable(left.name, operator),
    };
    let assignable = is_assignable(names, left);
    let standing = sides_pass(&test, left, right);
    let one = names.has_one_operator(&left.name, operator);
    all_three(assignable, standing, one)
}

fn all_three(a: bool, b: bool, c: bool) -> bool
    ensures { result ≡ (a && b && c) }
{
    a && b && c
}

/// The variable of a reduction statement.
fn own_variable(name: Name, operator: Option<Join>) -> Option<Name>
    ensures { result ≡ own_variable name operator }
{
    match operator {
        None => None,
        Some(_) => Some(name),
    }
}

/// The left side is a scalar variable, or an element of an array.
fn is_assignable(names: &NestNames<'_>, left: &Ref) -> bool
    ensures { result ≡ is_assignable names.now left.now.name (variable left.now).subscripts }
{
    match &left.subs {
        None => names.is_scalar(&left.name),
        Some(parts) => are_single(parts),
    }
}

/// There is no triplet among subscripts.
fn are_single(parts: &[Subscript]) -> bool
    ensures { result ≡ list_all is_single (items (parts_of parts.now)) }
{
    let mut all = true;
    for part in parts {
        all &= is_single(part);
    }
    all
}

/// It is no triplet.
fn is_single(part: &Subscript) -> bool
    ensures { result ≡ is_single (subscript part.now) }
{
    matches!(part, Subscript::One(_))
}
