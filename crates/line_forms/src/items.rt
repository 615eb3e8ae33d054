//! Items of a PRINT (Fortran 95, 9.4).

ghost use Rattle.line_forms.specs.Grammar.{Item as Printed};
ghost use Rattle.line_forms.specs.Parts.{output_of};
ghost use Rattle.line_forms.specs.Read.{item, shown};
ghost use Rattle.line_forms.specs.Gives.{Gives};
ghost use Rattle.syntax_tree.specs.Lexeme.{lexemes};

use crate::depths::Depths;
use crate::lists::Element;
use crate::parts::expr;
use crate::read_error::ReadError;
use source_lines::{Bytes, Token, TokenKind};
use std::alloc::Global;
use syntax_tree::Item;

/// Items in a list.
pub struct ListedItems {}

impl Element for ListedItems {
    type Part = Item;

    ghost grammar = { Printed };

    ghost view = { output_of };

    fn read(
        alloc: Global,
        depths: Depths,
        tokens: &[Token],
    ) -> Result<(Item, &[Token]), ReadError> {
        item(alloc, depths, tokens)
    }
}

/// The item in front, a text or else an expression, and the tokens after it.
pub(crate) fn item(
    alloc: Global,
    depths: Depths,
    tokens: &[Token],
) -> Result<(Item, &[Token]), ReadError>
    ensures { Gives (λ x. (output_of x.0, lexemes x.1.now)) result (item depths (lexemes tokens.now)) }
{
    let Some((first, rest)) = tokens.split_first() else {
        return shown(alloc, depths, tokens);
    };
    let TokenKind::Text(text) = &first.kind else {
        return shown(alloc, depths, tokens);
    };
    let mut bytes = Vec::new(alloc);
    bytes.extend_from_slice(text.as_slice())?;
    Ok((Item::Text(Bytes::new(bytes)), rest))
}

/// The expression in front, as an item.
fn shown(alloc: Global, depths: Depths, tokens: &[Token]) -> Result<(Item, &[Token]), ReadError>
    ensures { Gives (λ x. (output_of x.0, lexemes x.1.now)) result (shown depths (lexemes tokens.now)) }
{
    let (tree, rest) = expr(alloc, depths, tokens)?;
    Ok((Item::Value(tree), rest))
}
