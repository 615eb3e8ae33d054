//! What statements list.

ghost use Rattle.statement_reader.specs.Forms.{axis, constant, constant_entity, entity, plain_entity};
ghost use Rattle.statement_reader.specs.Views.{axis_of, constant_entity_of, constant_of, entity_of, items_of, plain_entity_of};
ghost use Rattle.line_forms.specs.Grammar.{CommaList, Item as OneItem, Optional};
ghost use Rattle.syntax_tree.specs.Lexeme.{lexemes};
ghost use Rattle.line_forms.specs.declared.depths.Depths.TheVariants.{Limited};
ghost use Rattle.line_forms.specs.Marks.{comma};
ghost use Rattle.line_forms.specs.Read.{read};
ghost use Rattle.line_forms.specs.Gives.{Gives};

use crate::parts::{optional_after, value, values};
use line_forms::{
    Bounds, Depths, Element, ListedItems, ReadError, after_sign, comma_list, is_sign, name,
    optional_enclosed, skip,
};
use source_lines::Token;
use std::alloc::Global;
use syntax_tree::{ConstDef, Entity, Header, Item, Sign};

/// Entities of a declaration that may have values.
pub(crate) struct Entities {}

impl Element for Entities {
    type Part = Entity;

    ghost grammar = { entity };

    ghost view = { entity_of };

    fn read(
        alloc: Global,
        depths: Depths,
        tokens: &[Token],
    ) -> Result<(Entity, &[Token]), ReadError> {
        match name(tokens) {
            Ok((name, rest)) => {
                let (dims, rest) = optional_enclosed::<Bounds>(alloc, depths, rest)?;
                let (start, rest) = optional_after(alloc, depths, rest, Sign::Equals)?;
                Ok((Entity { name, dims, start }, rest))
            }
            Err(error) => Err(error),
        }
    }
}

/// Entities of a declaration with PARAMETER, each with its value.
pub(crate) struct ConstantEntities {}

impl Element for ConstantEntities {
    type Part = Entity;

    ghost grammar = { constant_entity };

    ghost view = { constant_entity_of };

    fn read(
        alloc: Global,
        depths: Depths,
        tokens: &[Token],
    ) -> Result<(Entity, &[Token]), ReadError> {
        match name(tokens) {
            Ok((name, rest)) => {
                let (dims, rest) = optional_enclosed::<Bounds>(alloc, depths, rest)?;
                let (value, rest) = value(alloc, depths, rest, Sign::Equals)?;
                let start = Some(value);
                Ok((Entity { name, dims, start }, rest))
            }
            Err(error) => Err(error),
        }
    }
}

/// Entities of a declaration without `::`, which have no values.
pub(crate) struct PlainEntities {}

impl Element for PlainEntities {
    type Part = Entity;

    ghost grammar = { plain_entity };

    ghost view = { plain_entity_of };

    fn read(
        alloc: Global,
        depths: Depths,
        tokens: &[Token],
    ) -> Result<(Entity, &[Token]), ReadError> {
        match name(tokens) {
            Ok((name, rest)) => {
                let (dims, rest) = optional_enclosed::<Bounds>(alloc, depths, rest)?;
                let start = None;
                Ok((Entity { name, dims, start }, rest))
            }
            Err(error) => Err(error),
        }
    }
}

/// Constants of a PARAMETER statement.
pub(crate) struct Constants {}

impl Element for Constants {
    type Part = ConstDef;

    ghost grammar = { constant };

    ghost view = { constant_of };

    fn read(
        alloc: Global,
        depths: Depths,
        tokens: &[Token],
    ) -> Result<(ConstDef, &[Token]), ReadError> {
        match name(tokens) {
            Ok((name, rest)) => {
                let (value, rest) = value(alloc, depths, rest, Sign::Equals)?;
                Ok((ConstDef { name, value }, rest))
            }
            Err(error) => Err(error),
        }
    }
}

/// Indices of a FORALL.
pub(crate) struct Axes {}

impl Element for Axes {
    type Part = Header;

    ghost grammar = { axis };

    ghost view = { axis_of };

    fn read(
        alloc: Global,
        depths: Depths,
        tokens: &[Token],
    ) -> Result<(Header, &[Token]), ReadError> {
        match name(tokens) {
            Ok((name, rest)) => {
                let rest = after_sign(rest, Sign::Equals)?;
                let ((first, last, step), rest) = values(alloc, depths, rest, Sign::Colon)?;
                let axis = Header {
                    name,
                    first,
                    last,
                    step,
                };
                Ok((axis, rest))
            }
            Err(error) => Err(error),
        }
    }
}

/// The items after a comma, if one is there; none where it isn't.
pub(crate) fn optional_items(
    alloc: Global,
    tokens: &[Token],
) -> Result<(Vec<Item>, &[Token]), ReadError>
    ensures { Gives (λ x. (items_of x.0.items, lexemes x.1.now)) result (read Limited (Optional comma (CommaList OneItem)) (lexemes tokens.now)) }
{
    if !is_sign(tokens, Sign::Comma) {
        return Ok((Vec::new(alloc), tokens));
    }
    let (items, rest) = comma_list::<ListedItems>(alloc, Depths::Limited, skip(tokens, 1))?;
    Ok((items, rest))
}
