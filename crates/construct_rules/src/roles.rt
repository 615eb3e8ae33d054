//! What lines are to the nest, by their form.

ghost use Rattle.std.specs.Prelude.{◌≡◌, is_some, ◌||◌};
ghost use Rattle.statement_reader.specs.Views.{action_of, form_of};
ghost use Rattle.directive_reader.specs.Views.{form_of as directive_form, mapping_of, names_in};
ghost use Rattle.construct_rules.specs.ProgramLine.{content_of};
ghost use Rattle.construct_rules.specs.Roles.{action_role, clauses_of, directive_role, plain_role, role_of, statement_role};

use crate::program_line::LineContent;
use crate::role::{Clauses, Construct, Role};
use directive_reader::DirectiveLine;
use statement_reader::{Action, Statement};
use syntax_tree::{Directive, NameList};

/// What a line is to the lines round it.
pub fn role_of(what: &LineContent) -> Role
    ensures { result ≡ role_of (content_of what.now) }
{
    match what {
        LineContent::Statement(s) => statement_role(s),
        LineContent::Directive(d) => directive_role(d),
    }
}

/// What a statement is.
fn statement_role(s: &Statement) -> Role
    ensures { result ≡ statement_role (form_of s.now) }
{
    match s {
        Statement::Program(_) => Role::Program,
        Statement::ImplicitNone | Statement::Integer(_) | Statement::Parameter(_) => {
            Role::Declaration
        }
        Statement::Action(a) => whole_role(a),
        Statement::IfOne { action, .. } => action_role(action),
        Statement::IfThen(_) => Role::Opens(Construct::If),
        Statement::ElseIf { .. } => Role::ElseIf,
        Statement::Else => Role::Else,
        Statement::EndIf { .. } => Role::Closes(Construct::If),
        Statement::Do(_) => Role::Opens(Construct::Do),
        Statement::EndDo { .. } => Role::Closes(Construct::Do),
        Statement::Where(_) => Role::Opens(Construct::Where),
        Statement::ElseWhere => Role::ElseWhere,
        Statement::EndWhere { .. } => Role::Closes(Construct::Where),
        Statement::Forall(_) => Role::Opens(Construct::Forall),
        Statement::EndForall { .. } => Role::Closes(Construct::Forall),
        Statement::End { .. } => Role::End,
    }
}

/// What a statement is that is whole in its line.
fn whole_role(a: &Action) -> Role
    ensures { result ≡ plain_role ((action_of a.now).0) ((action_of a.now).1) }
{
    match a {
        Action::Assign(_) => Role::Assign,
        Action::Where { .. } => Role::One(Construct::Where),
        Action::Forall { .. } => Role::One(Construct::Forall),
        Action::Exit | Action::Cycle => Role::Jump,
        Action::Print(_) | Action::Stop | Action::Continue => Role::Plain,
    }
}

/// What an IF with this action is.
fn action_role(a: &Action) -> Role
    ensures { result ≡ action_role ((action_of a.now).0) }
{
    match a {
        Action::Exit | Action::Cycle => Role::Jump,
        Action::Assign(_)
        | Action::Where { .. }
        | Action::Forall { .. }
        | Action::Print(_)
        | Action::Stop
        | Action::Continue => Role::Plain,
    }
}

/// What a directive is.
fn directive_role(d: &DirectiveLine) -> Role
    ensures { result ≡ directive_role (directive_form d.now) }
{
    match d {
        DirectiveLine::Mapping(m) => mapping_role(m),
        DirectiveLine::Redistribute(_) => Role::Redistribute,
        DirectiveLine::Independent { new, reduction } => {
            Role::Independent(clauses(new, reduction))
        }
    }
}

/// What a directive is that maps or is passed over.
fn mapping_role(d: &Directive) -> Role
    ensures { result ≡ directive_role (mapping_of d.now) }
{
    match d {
        Directive::Passed => Role::Passed,
        Directive::Processors(_)
        | Directive::Template(_)
        | Directive::Dynamic(_)
        | Directive::Distribute(_)
        | Directive::Align(_) => Role::SpecificationDirective,
    }
}

/// The list stands on its line.
fn has_names(names: &NameList) -> bool
    ensures { result ≡ is_some (names_in names.now) }
{
    !names.as_slice().is_empty()
}

/// Whether INDEPENDENT with these lists has a clause.
fn clauses(new: &NameList, reduction: &NameList) -> Clauses
    ensures { result ≡ clauses_of (is_some (names_in new.now) || is_some (names_in reduction.now)) }
{
    if has_names(new) || has_names(reduction) {
        Clauses::Given
    } else {
        Clauses::Absent
    }
}
