//! Bounds of a dimension (Fortran 95, 5.1.2.4).

ghost use Rattle.line_forms.specs.Parts.{bound, bound_of};

use crate::depths::Depths;
use crate::lists::Element;
use crate::parts::expr;
use crate::read_error::ReadError;
use crate::signs::{is_sign, skip};
use source_lines::Token;
use std::alloc::Global;
use syntax_tree::{Bound, Sign};

/// Bounds in a list.
pub struct Bounds {}

impl Element for Bounds {
    type Part = Bound;

    ghost grammar = { bound };

    ghost view = { bound_of };

    fn read(
        alloc: Global,
        depths: Depths,
        tokens: &[Token],
    ) -> Result<(Bound, &[Token]), ReadError> {
        let (first, rest) = expr(alloc, depths, tokens)?;
        if !is_sign(rest, Sign::Colon) {
            let (lower, upper) = (None, first);
            return Ok((Bound { lower, upper }, rest));
        }
        let (upper, rest) = expr(alloc, depths, skip(rest, 1))?;
        let lower = Some(first);
        Ok((Bound { lower, upper }, rest))
    }
}
