//! What stands after INTEGER (Fortran 95, 5.1).

ghost use Rattle.std.specs.Prelude.{◌≡◌, false, map, option_map};
ghost use Rattle.syntax_tree.specs.Lexeme.{lexemes};
ghost use Rattle.line_forms.specs.declared.depths.Depths.TheVariants.{Limited};
ghost use Rattle.line_forms.specs.Gives.{Gives};
ghost use Rattle.line_forms.specs.Grammar.{CommaList, Optional, Prefixed};
ghost use Rattle.line_forms.specs.Marks.{colons, starts};
ghost use Rattle.line_forms.specs.Parts.{bound, bound_of, enclosed};
ghost use Rattle.line_forms.specs.Read.{read};
ghost use Rattle.statement_reader.specs.Forms.{constants, declaration, dimension_key, parameter_key};
ghost use Rattle.statement_reader.specs.Views.{declaration_of};

use crate::lists::{ConstantEntities, Entities, PlainEntities};
use line_forms::{
    Bounds, Depths, Element, ReadError, after_sign, attribute, comma_list, enclosed, is_sign, skip,
};
use source_lines::Token;
use std::alloc::Global;
use syntax_tree::{Bound, Entity, IntegerDecl, Sign};

/// The attributes and entities of an INTEGER. With PARAMETER each entity has a value.
pub(crate) fn declaration(
    alloc: Global,
    tokens: &[Token],
) -> Result<(IntegerDecl, &[Token]), ReadError>
    ensures { Gives (λ x. (declaration_of x.0, lexemes x.1.now)) result (read Limited declaration (lexemes tokens.now)) }
{
    if !attribute(tokens, b"PARAMETER") {
        return variables(alloc, tokens);
    }
    let ((dims, entities), rest) = constants::<ConstantEntities>(
        alloc,
        Depths::Limited,
        skip(tokens, 2),
    )?;
    Ok((
        IntegerDecl {
            constant: true,
            dims,
            colons: true,
            entities,
        },
        rest,
    ))
}

/// The attributes and entities of an INTEGER that has no PARAMETER. Without `::` no entity has a value.
fn variables(alloc: Global, tokens: &[Token]) -> Result<(IntegerDecl, &[Token]), ReadError>
    requires { starts parameter_key (lexemes tokens.now) ≡ false }
    ensures { Gives (λ x. (declaration_of x.0, lexemes x.1.now)) result (read Limited declaration (lexemes tokens.now)) }
{
    if attribute(tokens, b"DIMENSION") {
        let (bounds, rest) = enclosed::<Bounds>(alloc, Depths::Limited, skip(tokens, 2))?;
        let (entities, rest) = after_colons::<Entities>(alloc, Depths::Limited, rest)?;
        return Ok((typed(Some(bounds), true, entities), rest));
    }
    if is_sign(tokens, Sign::Colons) {
        let (entities, rest) = comma_list::<Entities>(alloc, Depths::Limited, skip(tokens, 1))?;
        return Ok((typed(None, true, entities), rest));
    }
    let (entities, rest) = comma_list::<PlainEntities>(alloc, Depths::Limited, tokens)?;
    Ok((typed(None, false, entities), rest))
}

/// INTEGER without PARAMETER, with the bounds of DIMENSION, and with or without `::`.
fn typed(dims: Option<Vec<Bound>>, colons: bool, entities: Vec<Entity>) -> IntegerDecl
    ensures { result ≡ record { constant = false; dims = dims; colons = colons; entities = entities } }
{
    IntegerDecl {
        constant: false,
        dims,
        colons,
        entities,
    }
}

/// What stands after PARAMETER: the bounds of DIMENSION, if it is there, and the entities after `::`.
pub(crate) fn constants<T: Element>(
    alloc: Global,
    depths: Depths,
    tokens: &[Token],
) -> Result<((Option<Vec<Bound>>, Vec<T::Part>), &[Token]), ReadError>
    ensures { Gives (λ x. ((option_map (λ v. map bound_of v.items) x.0.0, map T.view x.0.1.items), lexemes x.1.now)) result
        (read depths (constants T.grammar) (lexemes tokens.now)) }
{
    let (dims, rest) = dimension(alloc, depths, tokens)?;
    let (entities, rest) = after_colons::<T>(alloc, depths, rest)?;
    Ok(((dims, entities), rest))
}

/// The entities after `::`.
fn after_colons<T: Element>(
    alloc: Global,
    depths: Depths,
    tokens: &[Token],
) -> Result<(Vec<T::Part>, &[Token]), ReadError>
    ensures { Gives (λ x. (map T.view x.0.items, lexemes x.1.now)) result (read depths (Prefixed colons (CommaList T.grammar)) (lexemes tokens.now)) }
{
    let rest = after_sign(tokens, Sign::Colons)?;
    comma_list::<T>(alloc, depths, rest)
}

/// The bounds of the attribute DIMENSION, where it is there.
fn dimension(
    alloc: Global,
    depths: Depths,
    tokens: &[Token],
) -> Result<(Option<Vec<Bound>>, &[Token]), ReadError>
    ensures { Gives (λ x. (option_map (λ v. map bound_of v.items) x.0, lexemes x.1.now)) result (read depths (Optional dimension_key (enclosed bound)) (lexemes tokens.now)) }
{
    if !attribute(tokens, b"DIMENSION") {
        return Ok((None, tokens));
    }
    let (bounds, rest) = enclosed::<Bounds>(alloc, depths, skip(tokens, 2))?;
    Ok((Some(bounds), rest))
}
