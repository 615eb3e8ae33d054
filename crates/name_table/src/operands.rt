//! The test of expressions whose names must stand for numbers.

use crate::expressions::ExpressionTest;
use expression_rules::{Scope, are_operands};
use std::alloc::AllocError;
use syntax_tree::Expr;

/// Whether each name in expressions stands for a number or for numbers.
#[derive(Clone, Copy)]
pub(crate) struct Operands<'a> {
    pub(crate) scope: &'a Scope<'a>,
}

impl<'a> ExpressionTest for Operands<'a> {
    ghost use Rattle.expression_rules.specs.Operands.{are_operands};

    ghost passes = { λ t e. are_operands t.scope.now e };

    fn test(&self, e: &Expr) -> Result<bool, AllocError> {
        Ok(are_operands(self.scope, e))
    }
}
