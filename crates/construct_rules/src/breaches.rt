//! The first breach.

ghost use Rattle.std.specs.Prelude.{◌≡◌, IfOk};
ghost use Rattle.construct_rules.specs.Breaches.{roles, IsNestBreach};
ghost use Rattle.hpf_base.specs.FirstBreach.{IsFirstOrNone};
ghost use Rattle.construct_rules.specs.Found.{declared_length, end_reason, is_declaration};
ghost use Rattle.construct_rules.specs.ProgramLine.{lines_of};

use crate::nest_state::{NestState, is_statement};
use crate::program_line::ProgramLine;
use crate::role::Role;
use crate::roles::role_of;
use crate::rules::least_reason;
use hpf_base::{Reason, Refusal, at_line, earlier};
use std::alloc::{AllocError, Global};

/// The reason for which a text may not end where it ends.
fn end_reason(state: &NestState) -> Option<Reason>
    ensures { result ≡ end_reason state.now }
{
    if state.ended {
        None
    } else {
        Some(Reason::BadNest)
    }
}

/// A declaration, also one that is a directive.
fn is_declaration(role: Role) -> bool
    ensures { result ≡ is_declaration role }
{
    matches!(role, Role::Declaration | Role::SpecificationDirective)
}

/// What each line is to the lines round it.
fn roles_of(alloc: Global, lines: &[ProgramLine]) -> Result<Vec<Role>, AllocError>
    ensures { IfOk result (λ v. v.items ≡ roles (lines_of lines.now)) }
{
    let mut roles = Vec::new(alloc);
    for line in lines {
        roles.push(role_of(&line.what))?;
    }
    Ok(roles)
}

/// How many lines stand up to the last declaration before the first statement.
fn declared_length(roles: &[Role]) -> usize
    ensures { result ≡ declared_length roles.now }
{
    let mut declared = 0;
    for (i, role) in roles.iter().enumerate() {
        if is_statement(*role) {
            return declared;
        }
        if is_declaration(*role) {
            declared = i + 1;
        }
    }
    declared
}

/// The first breach of the rules of constructs, declarations and directives in a program's lines, which stand in the order
/// of the text: the breach of the least line, and of those on one line the one of the least reason; None where no line
/// breaks a rule. `last` is the number of the text's last line, and 0 where the text has none: a text without END is refused
/// there, and at line 1 where it has no line. An `Err` is want of memory, which it takes for the roles of the lines and the open constructs.
pub fn first_breach(
    alloc: Global,
    last: u32,
    lines: &[ProgramLine],
) -> Result<Option<Refusal>, AllocError>
    ensures { IfOk result (λ r. IsFirstOrNone (IsNestBreach last (lines_of lines.now)) r) }
{
    let roles = roles_of(alloc, lines)?;
    let declared = declared_length(&roles);
    let mut state = NestState::nothing(alloc);
    let mut first = None;
    for (i, line) in lines.iter().enumerate() {
        let role = roles[i];
        let reason = least_reason(&state, role, i + 1 < declared, &roles[i + 1..]);
        first = earlier(first, at_line(line.number, reason));
        state.go_after(role)?;
    }
    Ok(earlier(first, at_line(last.max(1), end_reason(&state))))
}
