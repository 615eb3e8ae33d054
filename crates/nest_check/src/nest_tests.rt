//! What may stand inside the expressions of a nest (HPF 2.0, 5.1).

ghost use Rattle.std.specs.Prelude.{◌≡◌};

use crate::nest_names::NestNames;
use body_forms::{BodyNames, ExpressionTest, has_linear_subscripts};
use hpf_base::Name;
use op_tables::is_reduction;
use syntax_tree::{Expr, Ref};

/// Whether the subscripts directly after a name are linear in at most one index.
#[derive(Clone, Copy)]
pub(crate) struct LinearSubscripts<'a> {
    pub(crate) names: &'a BodyNames<'a>,
}

impl<'a> ExpressionTest for LinearSubscripts<'a> {
    ghost use Rattle.body_forms.specs.Subscripts.{has_linear_subscripts};

    ghost passes = { λ t e. has_linear_subscripts t.names.now e };

    fn test(&self, e: &Expr) -> bool {
        match e {
            Expr::Ref(reference) => self.test_reference(reference),
            _ => true,
        }
    }

    fn test_reference(&self, reference: &Ref) -> bool {
        has_linear_subscripts(self.names, reference)
    }
}

/// Whether an expression may stand in a nest, inside inner loops with these indices, in a reduction statement of this variable.
#[derive(Clone, Copy)]
pub(crate) struct StandingInNest<'a> {
    pub(crate) names: &'a NestNames<'a>,
    pub(crate) do_variables: &'a [Name],
    pub(crate) own: Option<Name>,
}

impl<'a> ExpressionTest for StandingInNest<'a> {
    ghost use Rattle.nest_check.specs.NestRules.{may_stand_in_nest};

    ghost passes = { λ t e. may_stand_in_nest t.names.now t.do_variables.now t.own e };

    fn test(&self, e: &Expr) -> bool {
        match e {
            Expr::Ref(reference) => self.test_reference(reference),
            Expr::Call(op, _) => !is_reduction(*op),
            _ => true,
        }
    }

    fn test_reference(&self, reference: &Ref) -> bool {
        self.names
            .may_be_named(self.do_variables, self.own, &reference.name)
    }
}

/// Whether an expression may be read where every path has assigned these scalars.
#[derive(Clone, Copy)]
pub(crate) struct Readable<'a> {
    pub(crate) names: &'a NestNames<'a>,
    pub(crate) assigned: &'a [Name],
}

impl<'a> ExpressionTest for Readable<'a> {
    ghost use Rattle.nest_check.specs.NestRules.{may_be_read};

    ghost passes = { λ t e. may_be_read t.names.now t.assigned.now e };

    fn test(&self, e: &Expr) -> bool {
        match e {
            Expr::Ref(reference) => self.test_reference(reference),
            _ => true,
        }
    }

    fn test_reference(&self, reference: &Ref) -> bool {
        !self.names.is_unassigned(self.assigned, &reference.name)
    }
}
