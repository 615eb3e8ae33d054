//! The rules of FORALL, statement by statement (Fortran 95, 7.5.4).

ghost use Rattle.std.specs.Prelude.{◌≡◌, ◌&&◌, map, option_map, IfOk};
ghost use Rattle.std.specs.List.{flat_map, list_all};
ghost use Rattle.hpf_base.specs.FirstBreach.{least};
ghost use Rattle.syntax_tree.specs.Expression.{expression};
ghost use Rattle.syntax_tree.specs.Statement.{axis, block_of, designator, variable};
ghost use Rattle.expression_rules.specs.Inner.{axis_expressions, present};
ghost use Rattle.statement_walk.specs.Heads.{all_heads, indices_of};
ghost use Rattle.statement_walk.specs.Views.{head_of};
ghost use Rattle.body_check.specs.ForallRules.{forall_breaches_at, forall_names, is_allowed, is_allowed_in_header, keeps_forall_rules};

use crate::forall_tests::{Standing, StandingInHeader};
use body_forms::{BodyNames, headers_pass, option_passes, sides_pass};
use hpf_base::{Name, Reason, Refusal};
use name_table::Names;
use statement_walk::{Head, Judge, first_bad};
use std::alloc::{AllocError, Global};
use syntax_tree::{Expr, Header, Stmt};

/// Judges the header and the assignments of a FORALL.
#[derive(Clone, Copy)]
struct Foralls<'a> {
    declared: &'a Names,
}

impl<'a> Judge for Foralls<'a> {
    ghost use Rattle.body_check.specs.ForallRules.{forall_breaches_at};

    ghost breaches = { λ j p. forall_breaches_at j.declared.now p };

    fn judge(
        &self,
        alloc: Global,
        line: u32,
        _do_variables: &[Name],
        head: Head<'_>,
    ) -> Result<Option<Refusal>, AllocError> {
        let kept = keeps_forall_rules(alloc, self.declared, head)?;
        if kept {
            Ok(None)
        } else {
            Ok(Some(Refusal {
                line,
                reason: Reason::BadSubscript,
            }))
        }
    }
}

/// The first breach of the rules of FORALL in statements, where there is one. An `Err` is want of memory, here and below.
pub(crate) fn first_bad_forall(
    alloc: Global,
    declared: &Names,
    stmts: &[Stmt],
) -> Result<Option<Refusal>, AllocError>
    ensures { IfOk result (λ r. r ≡ least (flat_map (forall_breaches_at declared.now) (all_heads (block_of stmts.now)))) }
{
    let judge = Foralls { declared };
    first_bad(alloc, &judge, stmts)
}

/// Whether a statement keeps the rules of FORALL.
fn keeps_forall_rules(alloc: Global, declared: &Names, head: Head<'_>) -> Result<bool, AllocError>
    ensures { IfOk result (λ b. b ≡ keeps_forall_rules declared.now (head_of head.entry)) }
{
    match head {
        Head::Forall(axes, mask) => {
            let indices = indices_of(alloc, axes)?;
            let names = BodyNames::new(declared, &indices, &[]);
            Ok(is_header_allowed(&names, axes, mask))
        }
        Head::ForallAssignment(axes, left, right) => {
            let indices = indices_of(alloc, axes)?;
            let names = BodyNames::new(declared, &indices, &[]);
            Ok(sides_pass(&Standing { names: &names }, left, right))
        }
        _ => Ok(true),
    }
}

/// The indices of a FORALL.
fn indices_of(alloc: Global, axes: &[Header]) -> Result<Vec<Name>, AllocError>
    ensures { IfOk result (λ xs. xs.items ≡ indices_of (map axis axes.now)) }
{
    let mut indices = Vec::new(alloc);
    for one in axes {
        indices.push(one.name)?;
    }
    Ok(indices)
}

/// The bounds, the steps and the mask of a header may stand there.
fn is_header_allowed(names: &BodyNames<'_>, axes: &[Header], mask: &Option<Expr>) -> bool
    ensures { result ≡ (list_all (is_allowed_in_header names.now) (flat_map axis_expressions (map axis axes.now))
        && list_all (is_allowed names.now) (present (option_map expression mask.now))) }
{
    headers_pass(&StandingInHeader { names }, axes) && option_passes(&Standing { names }, mask)
}
