//! What stands after the words of directives.

ghost use Rattle.std.specs.Prelude.{◌≡◌, false, true, [], ◌∷◌, map, IfOk};
ghost use Rattle.syntax_tree.specs.Lexeme.{lexemes};
ghost use Rattle.line_forms.specs.Grammar.{Identifier, Optional};
ghost use Rattle.line_forms.specs.Marks.{attribute_key};
ghost use Rattle.line_forms.specs.Parts.{enclosed};
ghost use Rattle.line_forms.specs.Read.{read};
ghost use Rattle.line_forms.specs.Gives.{Gives};
ghost use Rattle.directive_reader.specs.Forms.{listed};
ghost use Rattle.directive_reader.specs.Reading.{distribution_spec, alignment_spec};
ghost use Rattle.directive_reader.specs.Views.{distribution_spec_of, alignment_spec_of, names_in};

use crate::elements::{Formats, Sources, Targets, onto};
use hpf_base::Name;
use line_forms::{
    Depths, Element, ListedNames, ReadError, after_sign, after_word, attribute, comma_list,
    enclosed, is_sign, name, optional_enclosed, skip,
};
use source_lines::Token;
use std::alloc::{AllocError, Global};
use syntax_tree::{AlignSpec, DistSpec, NameList, Sign};

/// The elements of a list that `::` may stand before, and the tokens after them.
pub(crate) fn listed<T: Element>(
    alloc: Global,
    depths: Depths,
    tokens: &[Token],
) -> Result<(Vec<T::Part>, &[Token]), ReadError>
    ensures { Gives (λ x. ((false, map T.view x.0.items), lexemes x.1.now)) result (read depths (listed T.grammar) (lexemes tokens.now)) }
{
    if is_sign(tokens, Sign::Colons) {
        return comma_list::<T>(alloc, depths, skip(tokens, 1));
    }
    comma_list::<T>(alloc, depths, tokens)
}

/// One name alone.
fn only(alloc: Global, name: Name) -> Result<NameList, AllocError>
    ensures { IfOk result (λ names. names ≡ name ∷ []) }
{
    let mut names = Vec::new(alloc);
    names.push(name)?;
    Ok(NameList::new(names))
}

/// What DISTRIBUTE or REDISTRIBUTE says, after its word.
pub(crate) fn distribution_spec(
    alloc: Global,
    depths: Depths,
    many: bool,
    tokens: &[Token],
) -> Result<(DistSpec, &[Token]), ReadError>
    ensures { Gives (λ x. (distribution_spec_of x.0, lexemes x.1.now)) result (distribution_spec depths many (lexemes tokens.now)) }
{
    if many {
        return many_distribution_spec(alloc, depths, tokens);
    }
    one_distribution_spec(alloc, depths, tokens)
}

/// `name ( format list ) [ONTO name]`.
fn one_distribution_spec(
    alloc: Global,
    depths: Depths,
    tokens: &[Token],
) -> Result<(DistSpec, &[Token]), ReadError>
    ensures { Gives (λ x. (distribution_spec_of x.0, lexemes x.1.now)) result (distribution_spec depths false (lexemes tokens.now)) }
{
    let (name, rest) = match name(tokens) {
        Ok(found) => found,
        Err(why) => return Err(why),
    };
    let (formats, rest) = enclosed::<Formats>(alloc, depths, rest)?;
    let (onto, rest) = match onto(rest) {
        Ok(found) => found,
        Err(why) => return Err(why),
    };
    let (names, colons) = (only(alloc, name)?, false);
    Ok((
        DistSpec {
            names,
            formats,
            onto,
            colons,
        },
        rest,
    ))
}

/// `( format list ) [ONTO name] :: name list`.
fn many_distribution_spec(
    alloc: Global,
    depths: Depths,
    tokens: &[Token],
) -> Result<(DistSpec, &[Token]), ReadError>
    ensures { Gives (λ x. (distribution_spec_of x.0, lexemes x.1.now)) result (distribution_spec depths true (lexemes tokens.now)) }
{
    let (formats, rest) = enclosed::<Formats>(alloc, depths, tokens)?;
    let (onto, rest) = match onto(rest) {
        Ok(found) => found,
        Err(why) => return Err(why),
    };
    let rest = after_sign(rest, Sign::Colons)?;
    let (names, rest) = comma_list::<ListedNames>(alloc, depths, rest)?;
    let (names, colons) = (NameList::new(names), true);
    Ok((
        DistSpec {
            names,
            formats,
            onto,
            colons,
        },
        rest,
    ))
}

/// What ALIGN says, after its word.
pub(crate) fn alignment_spec(
    alloc: Global,
    depths: Depths,
    many: bool,
    tokens: &[Token],
) -> Result<(AlignSpec, &[Token]), ReadError>
    ensures { Gives (λ x. (alignment_spec_of x.0, lexemes x.1.now)) result (alignment_spec depths many (lexemes tokens.now)) }
{
    if many {
        return many_alignment_spec(alloc, depths, tokens);
    }
    one_alignment_spec(alloc, depths, tokens)
}

/// `name [( source list )] WITH name [( target list )]`.
fn one_alignment_spec(
    alloc: Global,
    depths: Depths,
    tokens: &[Token],
) -> Result<(AlignSpec, &[Token]), ReadError>
    ensures { Gives (λ x. (alignment_spec_of x.0, lexemes x.1.now)) result (alignment_spec depths false (lexemes tokens.now)) }
{
    let (alignee, rest) = match name(tokens) {
        Ok(found) => found,
        Err(why) => return Err(why),
    };
    let (source, rest) = optional_enclosed::<Sources>(alloc, depths, rest)?;
    let rest = after_word(rest, b"WITH")?;
    let (target, rest) = match name(rest) {
        Ok(found) => found,
        Err(why) => return Err(why),
    };
    let (subs, rest) = optional_enclosed::<Targets>(alloc, depths, rest)?;
    let (names, colons) = (only(alloc, alignee)?, false);
    Ok((
        AlignSpec {
            names,
            source,
            target,
            subs,
            colons,
        },
        rest,
    ))
}

/// `[( source list )] WITH name [( target list )] :: name list`.
fn many_alignment_spec(
    alloc: Global,
    depths: Depths,
    tokens: &[Token],
) -> Result<(AlignSpec, &[Token]), ReadError>
    ensures { Gives (λ x. (alignment_spec_of x.0, lexemes x.1.now)) result (alignment_spec depths true (lexemes tokens.now)) }
{
    let (source, rest) = optional_enclosed::<Sources>(alloc, depths, tokens)?;
    let rest = after_word(rest, b"WITH")?;
    let (target, rest) = match name(rest) {
        Ok(found) => found,
        Err(why) => return Err(why),
    };
    let (subs, rest) = optional_enclosed::<Targets>(alloc, depths, rest)?;
    let rest = after_sign(rest, Sign::Colons)?;
    let (names, rest) = comma_list::<ListedNames>(alloc, depths, rest)?;
    let (names, colons) = (NameList::new(names), true);
    Ok((
        AlignSpec {
            names,
            source,
            target,
            subs,
            colons,
        },
        rest,
    ))
}

/// The names in parentheses after a comma and a word, where these stand; else none.
pub(crate) fn names_after<'a>(
    alloc: Global,
    depths: Depths,
    word: &[u8],
    tokens: &'a [Token],
) -> Result<(NameList, &'a [Token]), ReadError>
    ensures { Gives (λ x. (names_in x.0, lexemes x.1.now)) result (read depths (Optional (attribute_key word.now) (enclosed Identifier)) (lexemes tokens.now)) }
{
    if !attribute(tokens, word) {
        return Ok((NameList::new(Vec::new(alloc)), tokens));
    }
    let (names, rest) = enclosed::<ListedNames>(alloc, depths, skip(tokens, 2))?;
    Ok((NameList::new(names), rest))
}
