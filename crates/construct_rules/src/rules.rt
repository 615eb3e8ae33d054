//! The rules of constructs, declarations and directives, for one line.

ghost use Rattle.std.specs.Prelude.{◌≡◌, false};
ghost use Rattle.construct_rules.specs.Rules.{comes_late, declaration_comes, fits_where_or_forall, nests_where_or_forall, is_misdirected, is_misplaced, is_too_deep, leaves_nothing, closes_wrongly, is_independent_target};
ghost use Rattle.construct_rules.specs.Found.{least_reason};
ghost use Rattle.construct_rules.specs.NestState.{is_statement};

use crate::limits::MAX_NESTING;
use crate::nest_state::{NestState, is_passed};
use crate::open_constructs::{Opens, is_where_or_forall};
use crate::role::{Clauses, Construct, Role};
use hpf_base::Reason;

/// An END part that doesn't close the innermost open construct, or an ELSE part out of place.
fn closes_wrongly(opens: &Opens, role: Role) -> bool
    ensures { result ≡ closes_wrongly opens.now role }
{
    match role {
        Role::Closes(c) => !opens.is_innermost(c),
        Role::ElseIf | Role::Else => !opens.takes_else(Construct::If),
        Role::ElseWhere => !opens.takes_else(Construct::Where),
        Role::End => opens.depth() != 0,
        _ => false,
    }
}

/// EXIT or CYCLE outside a DO.
fn leaves_nothing(opens: &Opens, role: Role) -> bool
    ensures { result ≡ leaves_nothing opens.now role }
{
    matches!(role, Role::Jump) && !opens.in_do()
}

/// A PROGRAM statement before which something stands, or after a statement a declaration that is no directive.
fn comes_late(state: &NestState, role: Role) -> bool
    ensures { result ≡ comes_late state.now role }
{
    match role {
        Role::Program => state.begun,
        Role::Declaration => state.stated,
        _ => false,
    }
}

/// It may stand inside a WHERE or FORALL construct, as far as these rules go.
fn fits_where_or_forall(role: Role) -> bool
    ensures { result ≡ fits_where_or_forall role }
{
    match role {
        Role::Opens(c) => is_where_or_forall(c),
        Role::Assign
        | Role::One(_)
        | Role::ElseIf
        | Role::Else
        | Role::ElseWhere
        | Role::Closes(_)
        | Role::Passed
        | Role::End => true,
        Role::Program
        | Role::Declaration
        | Role::SpecificationDirective
        | Role::Redistribute
        | Role::Independent(_)
        | Role::Jump
        | Role::Plain => false,
    }
}

/// It is out of its place in the nest.
fn is_misplaced(state: &NestState, role: Role) -> bool
    ensures { result ≡ is_misplaced state.now role }
{
    closes_wrongly(&state.opens, role)
        || leaves_nothing(&state.opens, role)
        || comes_late(state, role)
        || state.opens.in_where_or_forall() && !fits_where_or_forall(role)
        || state.ended && !is_passed(role)
}

/// WHERE or FORALL inside a WHERE or FORALL construct.
fn nests_where_or_forall(opens: &Opens, role: Role) -> bool
    ensures { result ≡ nests_where_or_forall opens.now role }
{
    match role {
        Role::Opens(c) | Role::One(c) => is_where_or_forall(c) && opens.in_where_or_forall(),
        _ => false,
    }
}

/// It opens one construct more than may be open at one place.
fn is_too_deep(opens: &Opens, role: Role) -> bool
    ensures { result ≡ is_too_deep opens.now role }
{
    matches!(role, Role::Opens(_)) && opens.depth() >= MAX_NESTING
}

/// The first of these lines that isn't passed over is what an INDEPENDENT with or without clauses may stand before: a DO
/// or, without clauses, a FORALL.
fn is_independent_target(clauses: Clauses, after: &[Role]) -> bool
    ensures { result ≡ is_independent_target clauses after.now }
{
    for role in after {
        match *role {
            Role::Passed => {}
            Role::Opens(Construct::Do) => return true,
            Role::Opens(Construct::Forall) | Role::One(Construct::Forall) => {
                return matches!(clauses, Clauses::Absent);
            }
            _ => return false,
        }
    }
    false
}

/// A directive that stands where it may not; `declares` says, before the first statement, whether a declaration comes
/// after it.
fn is_misdirected(state: &NestState, role: Role, declares: bool, after: &[Role]) -> bool
    requires { is_statement role ≡ false → state.now.stated ≡ false → declares ≡ declaration_comes after.now }
    ensures { result ≡ is_misdirected state.now role after.now }
{
    match role {
        Role::SpecificationDirective => state.stated,
        Role::Redistribute => !state.stated && declares,
        Role::Independent(clauses) => {
            !state.stated && declares || !is_independent_target(clauses, after)
        }
        _ => false,
    }
}

/// The least reason for which a line may not stand where it stands; `declares` as above.
pub(crate) fn least_reason(
    state: &NestState,
    role: Role,
    declares: bool,
    after: &[Role],
) -> Option<Reason>
    requires { is_statement role ≡ false → state.now.stated ≡ false → declares ≡ declaration_comes after.now }
    ensures { result ≡ least_reason state.now role after.now }
{
    if is_misplaced(state, role) {
        Some(Reason::BadNest)
    } else if is_misdirected(state, role, declares, after) {
        Some(Reason::BadDirective)
    } else if is_too_deep(&state.opens, role) {
        Some(Reason::Limit)
    } else if nests_where_or_forall(&state.opens, role) {
        Some(Reason::LeftOut)
    } else {
        None
    }
}
