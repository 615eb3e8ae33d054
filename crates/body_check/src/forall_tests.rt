//! What may stand inside the expressions of a FORALL (Fortran 95, 7.5.4).

ghost use Rattle.std.specs.Prelude.{◌≡◌};

use body_forms::{BodyNames, ExpressionTest, has_linear_subscripts};
use op_tables::is_reduction;
use syntax_tree::{Expr, Ref};

/// Whether an expression may stand in a FORALL with these names.
#[derive(Clone, Copy)]
pub(crate) struct Standing<'a> {
    pub(crate) names: &'a BodyNames<'a>,
}

impl<'a> ExpressionTest for Standing<'a> {
    ghost use Rattle.body_check.specs.ForallRules.{may_stand};

    ghost passes = { λ t e. may_stand t.names.now e };

    fn test(&self, e: &Expr) -> bool {
        match e {
            Expr::Ref(reference) => self.test_reference(reference),
            Expr::Call(op, _) => !is_reduction(*op),
            _ => true,
        }
    }

    fn test_reference(&self, reference: &Ref) -> bool {
        has_linear_subscripts(self.names, reference)
    }
}

/// Whether it may stand in the bounds and steps of its header.
#[derive(Clone, Copy)]
pub(crate) struct StandingInHeader<'a> {
    pub(crate) names: &'a BodyNames<'a>,
}

impl<'a> ExpressionTest for StandingInHeader<'a> {
    ghost use Rattle.body_check.specs.ForallRules.{may_stand_in_header};

    ghost passes = { λ t e. may_stand_in_header t.names.now e };

    fn test(&self, e: &Expr) -> bool {
        match e {
            Expr::Ref(reference) => self.test_reference(reference),
            _ => Standing { names: self.names }.test(e),
        }
    }

    fn test_reference(&self, reference: &Ref) -> bool {
        has_linear_subscripts(self.names, reference) && !self.names.is_index(&reference.name)
    }
}
