//! The nest where a line stands: what the lines before it have opened and begun.

ghost use Rattle.std.specs.Prelude.{◌≡◌, IfOk};
ghost use Rattle.construct_rules.specs.NestState.{is_end, is_passed, is_statement, state_at_start, opens_after, state_after, NestState};

use crate::open_constructs::Opens;
use crate::role::{Construct, Role};
use std::alloc::{AllocError, Global};
use std::marker::Model;

/// What the lines so far have opened and begun. Contracts see a record of it.
#[derive(Drop)]
pub(crate) struct NestState {
    pub opens: Opens,
    /// Something other than a directive that is passed over has stood.
    pub begun: bool,
    /// A statement has stood, so the declarations are over.
    pub stated: bool,
    /// END has stood.
    pub ended: bool,
}

impl Model for NestState {
    ghost Value = { NestState };

    ghost view = { λ s. record { opens = s.opens; begun = s.begun; stated = s.stated; ended = s.ended } };
}

/// A statement, which ends the declarations.
pub(crate) fn is_statement(role: Role) -> bool
    ensures { result ≡ is_statement role }
{
    match role {
        Role::Program
        | Role::Declaration
        | Role::SpecificationDirective
        | Role::Passed
        | Role::Redistribute
        | Role::Independent(_) => false,
        Role::Opens(_)
        | Role::ElseIf
        | Role::Else
        | Role::ElseWhere
        | Role::Closes(_)
        | Role::Assign
        | Role::One(_)
        | Role::Jump
        | Role::Plain
        | Role::End => true,
    }
}

/// A directive that is passed over.
pub(crate) fn is_passed(role: Role) -> bool
    ensures { result ≡ is_passed role }
{
    matches!(role, Role::Passed)
}

/// END.
fn is_end(role: Role) -> bool
    ensures { result ≡ is_end role }
{
    matches!(role, Role::End)
}

/// The open constructs after a line; a part that doesn't fit the innermost one changes nothing.
fn go_after(opens: &mut Opens, role: Role) -> Result<(), AllocError>
    ensures { IfOk result (λ _. opens.new ≡ opens_after role opens.old) }
{
    match role {
        Role::Opens(c) => opens.open(c)?,
        Role::Else if opens.takes_else(Construct::If) => opens.tell_else(),
        Role::ElseWhere if opens.takes_else(Construct::Where) => opens.tell_else(),
        Role::Closes(c) if opens.is_innermost(c) => opens.close(),
        _ => {}
    }
    Ok(())
}

impl NestState {
    /// Nothing has stood.
    pub fn nothing(alloc: Global) -> NestState
        ensures { result ≡ state_at_start }
    {
        NestState {
            opens: Opens::new(alloc),
            begun: false,
            stated: false,
            ended: false,
        }
    }

    /// This line has stood too.
    pub(crate) fn go_after(&mut self, role: Role) -> Result<(), AllocError>
        ensures { IfOk result (λ _. self.new ≡ state_after self.old role) }
    {
        go_after(&mut self.opens, role)?;
        self.begun |= !is_passed(role);
        self.stated |= is_statement(role);
        self.ended |= is_end(role);
        Ok(())
    }
}
