//! What is assigned to (Fortran 95, R601).

ghost use Rattle.syntax_tree.specs.Lexeme.{lexemes};
ghost use Rattle.syntax_tree.specs.Expression.{subscript};
ghost use Rattle.line_forms.specs.Gives.{Gives};
ghost use Rattle.line_forms.specs.Grammar.{Subscript as OneSubscript};
ghost use Rattle.line_forms.specs.Parts.{variable, variable_of};
ghost use Rattle.line_forms.specs.Read.{read};

use crate::depths::Depths;
use crate::lists::{Element, optional_enclosed};
use crate::parts::{name, subscript};
use crate::read_error::ReadError;
use source_lines::Token;
use std::alloc::Global;
use syntax_tree::{Ref, Subscript};

/// Subscripts in a list.
pub struct Subscripts {}

impl Element for Subscripts {
    type Part = Subscript;

    ghost grammar = { OneSubscript };

    ghost view = { subscript };

    fn read(
        alloc: Global,
        depths: Depths,
        tokens: &[Token],
    ) -> Result<(Subscript, &[Token]), ReadError> {
        subscript(alloc, depths, tokens)
    }
}

/// The name in front with the subscripts that may stand after it, and the tokens after these.
pub fn variable(
    alloc: Global,
    depths: Depths,
    tokens: &[Token],
) -> Result<(Ref, &[Token]), ReadError>
    ensures { Gives (λ x. (variable_of x.0, lexemes x.1.now)) result (read depths variable (lexemes tokens.now)) }
{
    match name(tokens) {
        Ok((name, rest)) => {
            let (subs, rest) = optional_enclosed::<Subscripts>(alloc, depths, rest)?;
            Ok((Ref { name, subs }, rest))
        }
        Err(error) => Err(error),
    }
}
