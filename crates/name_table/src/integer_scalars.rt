//! The test of expressions that must be integer scalars.

use crate::expressions::ExpressionTest;
use expression_rules::{Context, Scope, is_integer_scalar, type_and_rank};
use std::alloc::{AllocError, Global};
use syntax_tree::Expr;

/// Whether expressions are integer scalars in a context, where these names may be used.
#[derive(Clone, Copy)]
pub(crate) struct IntegerScalars<'a> {
    pub(crate) alloc: Global,
    pub(crate) context: Context,
    pub(crate) scope: &'a Scope<'a>,
}

impl<'a> ExpressionTest for IntegerScalars<'a> {
    ghost use Rattle.name_table.specs.Places.{meets, IntegerScalar};

    ghost passes = { λ t e. meets t.context t.scope.now IntegerScalar e };

    fn test(&self, e: &Expr) -> Result<bool, AllocError> {
        let what = type_and_rank(self.alloc, self.context, self.scope, e)?;
        Ok(is_integer_scalar(what))
    }
}
